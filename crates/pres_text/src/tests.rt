//! Files and their first faults.

use super::{read, write};
use nil_pres::Syllable;
use std::alloc::Global;
use std::test::Fail;

#[rattlefmt::skip]
const FAULTS: [(&str, &str); 12] = [
    ("", "file 1 header"),
    ("nilpotent 1\n# no generators\n", "file 3 header"),
    ("nilpotent 1\ngenerators a-b", "file 2 name"),
    ("nilpotent 1\ngenerators a\u{1}", "file 2 nottext"),
    ("nilpotent 1\ngenerators a a\n", "file 2 twicename"),
    ("nilpotent 1\ngenerators a1 a2 a3\n[a1,a2] = a3\n", "file 3 order"),
    ("nilpotent 1\ngenerators a1 a2 a3\n[a2,a1] = a2\n", "file 3 above"),
    ("nilpotent 1\ngenerators a1 a2 a3\n[a2,a1] = a3^0\n", "file 3 zero"),
    ("nilpotent 1\ngenerators a1 a2 a3\n[a2,a1] = a3^9223372036854775808\n", "file 3 number"),
    ("nilpotent 1\ngenerators a1 a2 a3\n[a2,a1] a3\n", "file 3 relation"),
    ("nilpotent 1\ngenerators a1 a2 a3\n[b,a1] = a3\n", "file 3 name"),
    ("nilpotent 1\ngenerators a1 a2 a3\n[a2,a1] = a3\n[a2,a1] = a3\n", "file 4 twice"),
];

const NAMES_49: &str =
    "nilpotent 1\ngenerators a1 a2 a3 a4 a5 a6 a7 a8 a9 a10 a11 a12 a13 a14 a15 a16 a17 a18 a19 a20 a21 a22 a23 a24 a25 a26 a27 a28 a29 a30 a31 a32 a33 a34 a35 a36 a37 a38 a39 a40 a41 a42 a43 a44 a45 a46 a47 a48 a49\n";

const RETURNS: &str = "# Heisenberg\r\nnilpotent 1\r\ngenerators s t c\r\n\r\n[ t , s ] = c";

fn fault(alloc: Global, file: &str) -> Result<String, Fail> {
    match read(alloc, file.as_bytes()) {
        Ok(_) => Ok(String::from_str(alloc, "read")?),
        Err(fault) => Ok(format!(in alloc; "{fault}")?),
    }
}

#[test]
fn names_the_first_fault(rt: HostRuntime) -> Result<(), Fail> {
    for (file, text) in FAULTS {
        let found = fault(rt.alloc(), file)?;
        assert_eq!(rt; found.as_str(), text);
    }
    Ok(())
}

#[test]
fn takes_at_most_48_names(rt: HostRuntime) -> Result<(), Fail> {
    let found = fault(rt.alloc(), NAMES_49)?;
    assert_eq!(rt; found.as_str(), "file 2 toomany");
    Ok(())
}

#[test]
fn leaves_comments_and_carriage_returns_away(rt: HostRuntime) -> Result<(), Fail> {
    let pres = read(rt.alloc(), RETURNS.as_bytes())?;
    assert_eq!(rt; pres.count(), 3);
    assert_eq!(rt; pres.name(2), "t");
    assert_eq!(rt;
        pres.right_side(2, 1),
        [Syllable { number: 3, exp: 1 }].as_slice()
    );
    Ok(())
}

#[test]
fn writes_the_canonical_text(rt: HostRuntime) -> Result<(), Fail> {
    let pres = read(rt.alloc(), RETURNS.as_bytes())?;
    let text = write(rt.alloc(), &pres)?;
    assert_eq!(rt; text.as_str(), "nilpotent 1\ngenerators s t c\n[t,s] = c\n");
    Ok(())
}
