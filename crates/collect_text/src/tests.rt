//! Worked rows, and calls with ample memory.

use crate::Collector;
use nil_pres::{Builder, Presentation, Syllable};
use session_io::Replier;
use std::alloc::Global;
use std::test::Fail;

/// `[a2,a1] = a3^exp`.
fn heisenberg(alloc: Global, exp: i64) -> Result<Presentation, Fail> {
    let mut builder = Builder::new(alloc)?;
    builder.add_name("a1")?;
    builder.add_name("a2")?;
    builder.add_name("a3")?;
    builder.add_relation(2, 1, &[Syllable { number: 3, exp }])?;
    Ok(builder.finish().ok_or("no name")?)
}

/// `[a3,a2] = a4` and `[a4,a1] = a5`, which is inconsistent.
fn inconsistent(alloc: Global) -> Result<Presentation, Fail> {
    let mut builder = Builder::new(alloc)?;
    builder.add_name("a1")?;
    builder.add_name("a2")?;
    builder.add_name("a3")?;
    builder.add_name("a4")?;
    builder.add_name("a5")?;
    builder.add_relation(3, 2, &[Syllable { number: 4, exp: 1 }])?;
    builder.add_relation(4, 1, &[Syllable { number: 5, exp: 1 }])?;
    Ok(builder.finish().ok_or("no name")?)
}

/// The reply of what replies to lines.
fn reply<T: Replier>(alloc: Global, replier: &mut T, line: &[u8]) -> Result<String, Fail> {
    Ok(replier.reply_to(alloc, line)?)
}

#[rattlefmt::skip]
const REPLIES: [(&str, &str); 9] = [
    ("a2^2*a1^2",                                 "2 2 4\n"),
    ("a1^64",                                     "64 0 0\n"),
    ("a1^65",                                     "longword\n"),
    ("1^170141183460469231731687303715884105727", "0 0 0\n"),
    ("solve a1 | a2",                             "kind\n"),
    ("a1 = a1",                                   "kind\n"),
    ("a4",                                        "unknown 1\n"),
    ("a2*a1\r",                                   "1 1 1\n"),
    ("",                                          ""),
];

#[test]
fn lines_have_their_replies(rt: HostRuntime) -> Result<(), Fail> {
    let mut collector = Collector::of(heisenberg(rt.alloc(), 1)?);
    for (line, want) in REPLIES {
        let got = reply(rt.alloc(), &mut collector, line.as_bytes())?;
        assert_eq!(rt; got.as_str(), want);
    }
    Ok(())
}

#[test]
fn an_inconsistent_presentation_collects(rt: HostRuntime) -> Result<(), Fail> {
    let mut collector = Collector::of(inconsistent(rt.alloc())?);
    let got = reply(rt.alloc(), &mut collector, b"a3*a2*a1")?;
    assert_eq!(rt; got.as_str(), "1 1 1 1 1\n");
    Ok(())
}

#[test]
fn lines_of_65537_bytes_are_long(rt: HostRuntime) -> Result<(), Fail> {
    let mut collector = Collector::of(heisenberg(rt.alloc(), 1)?);
    let line = vec![in rt.alloc(); b' '; 65537]?;
    let long = reply(rt.alloc(), &mut collector, &line)?;
    assert_eq!(rt; long.as_str(), "long\n");
    let blank = reply(rt.alloc(), &mut collector, &line[1..])?;
    assert_eq!(rt; blank.as_str(), "");
    Ok(())
}

#[test]
fn the_letters_run_out(rt: HostRuntime) -> Result<(), Fail> {
    let mut collector = Collector::of(heisenberg(rt.alloc(), -16_777_214)?);
    let got = reply(rt.alloc(), &mut collector, b"a2*a1")?;
    assert_eq!(rt; got.as_str(), "steps\n");
    Ok(())
}
