//! The first faults of presentation files.

use super::fixtures::{HEISENBERG, answered};
use pres_text::FileKind;
use query_session::Status;
use std::test::Fail;

const NAMES_49: &str =
    "nilpotent 1\ngenerators a b c d e f g h i j k l m n o p q r s t u v w x y z \
    A B C D E F G H I J K L M N O P Q R S T U V W\n";

#[rattlefmt::skip]
const FILES: [(&str, &str); 4] = [
    ("",                                "file 1 header\n"),
    ("nilpotent 1\ngenerators a a\n",   "file 2 twicename\n"),
    (NAMES_49,                          "file 2 toomany\n"),
    ("nilpotent 1\n# caf\u{e9}\ngenerators a\u{e9}", "file 3 nottext\n"),
];

#[test]
fn the_first_fault_of_a_file_is_named(rt: HostRuntime) -> Result<(), Fail> {
    for (file, output) in FILES {
        let ended = answered(rt.alloc(), file.as_bytes(), b"a")?;
        assert_eq!(rt; ended.bytes.as_slice(), output.as_bytes(), "{file}");
        assert_eq!(rt; ended.status.number(), 3, "{file}");
    }
    Ok(())
}

#[rattlefmt::skip]
const RELATIONS: [(&str, &str); 8] = [
    ("[a1,a2] = a3",                     "file 3 order\n"),
    ("[a2,a1] = a2",                     "file 3 above\n"),
    ("[a2,a1] = a3^0",                   "file 3 zero\n"),
    ("[a2,a1] = a3^9223372036854775808", "file 3 number\n"),
    ("[a2,a1] a3",                       "file 3 relation\n"),
    ("[b,a1] = a3",                      "file 3 name\n"),
    ("[a2,a1] = a3\n[a2,a1] = a3",       "file 4 twice\n"),
    ("[a2,a1] = 1\n\n[a3,a1] = a3",      "file 5 above\n"),
];

#[test]
fn the_first_fault_of_a_relation_is_named(rt: HostRuntime) -> Result<(), Fail> {
    let alloc = rt.alloc();
    for (relations, output) in RELATIONS {
        let file = format!(in alloc; "nilpotent 1\ngenerators a1 a2 a3\n{relations}\n")?;
        let ended = answered(alloc, file.as_bytes(), b"a1")?;
        assert_eq!(rt; ended.bytes.as_slice(), output.as_bytes(), "{relations}");
        assert_eq!(rt; ended.status.number(), 3, "{relations}");
    }
    Ok(())
}

#[test]
fn the_status_has_the_line_and_the_kind(rt: HostRuntime) -> Result<(), Fail> {
    let file = format!(in rt.alloc(); "{HEISENBERG}[a2,a1] = a3")?;
    let ended = answered(rt.alloc(), file.as_bytes(), b"a1")?;
    let named = matches!(
        ended.status,
        Status::BadFile {
            line: 4,
            kind: FileKind::Twice
        }
    );
    assert!(rt; named);
    Ok(())
}
