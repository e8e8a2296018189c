//! Sessions with another limit and a lent memo.

use super::fixtures::{Ended, HEISENBERG, shelf_of, source_of, words_of};
use nil_io::MemorySink;
use query_session::session_within;
use reply_memo::Answers;
use std::alloc::{AllocError, Global};
use std::test::Fail;

/// How a session over the Heisenberg group and these queries ends within a limit of their bytes,
/// and the memo that it was lent.
fn answered_within(
    alloc: Global,
    command: &str,
    queries: &[u8],
    limit: u32,
) -> Result<(Ended, Answers), AllocError> {
    let words = words_of(alloc, &[command, "f"])?;
    let mut shelf = shelf_of(alloc, HEISENBERG.as_bytes(), &[])?;
    let mut source = source_of(alloc, queries, &[])?;
    let mut sink = MemorySink::new(Vec::with_capacity(alloc, 4096)?, Vec::new(alloc));
    let mut memo = Answers::new(alloc)?;
    let status = session_within(
        alloc,
        &words,
        &mut shelf,
        &mut source,
        &mut sink,
        Vec::new(alloc),
        u64::from(limit),
        &mut memo,
    );
    let bytes = sink.bytes().to_vec(alloc)?;
    Ok((Ended { status, bytes }, memo))
}

#[test]
fn the_replies_to_the_last_lines_are_kept(rt: HostRuntime) -> Result<(), Fail> {
    let alloc = rt.alloc();
    let mut queries = String::new(alloc);
    let mut replies = String::new(alloc);
    for power in 1..=300 {
        queries.push_str(format!(in alloc; "a1^{power}\n")?.as_str())?;
        replies.push_str(format!(in alloc; "{power} 0 0\n")?.as_str())?;
    }
    queries.push_str("a1^1\n")?;
    replies.push_str("1 0 0\n")?;
    let (ended, mut memo) = answered_within(alloc, "run", queries.as_bytes(), 4096)?;
    assert_eq!(rt; ended.status.number(), 0);
    assert_eq!(rt; ended.bytes.as_slice(), replies.as_bytes());
    for (line, is_kept) in [("a1^45", false), ("a1^46", true), ("a1^1", true)] {
        assert_eq!(rt; memo.find(line), is_kept, "{line}");
    }
    Ok(())
}

const LINES: &str = "a1\r\na2*(a1\na2*(a1\n\n# note\n\na1";

#[test]
fn what_a_line_asks_is_kept_without_its_carriage_return(rt: HostRuntime) -> Result<(), Fail> {
    let alloc = rt.alloc();
    let (ended, memo) = answered_within(alloc, "run", LINES.as_bytes(), 100)?;
    assert_eq!(rt; ended.status.number(), 0);
    assert_eq!(rt;
        ended.bytes.as_slice(),
        b"1 0 0\nsyntax 7\nsyntax 7\n1 0 0\n".as_slice()
    );
    for (line, reply) in [
        ("a1", Some("1 0 0\n")),
        ("a2*(a1", Some("syntax 7\n")),
        ("a1\r", None),
        ("", None),
        ("# note", None),
    ] {
        assert_eq!(rt; memo.reply(line), reply, "{line}");
    }
    Ok(())
}

#[test]
fn the_collector_keeps_nothing(rt: HostRuntime) -> Result<(), Fail> {
    let alloc = rt.alloc();
    let (ended, memo) = answered_within(alloc, "collect", b"a1", 100)?;
    assert_eq!(rt; ended.status.number(), 0);
    assert_eq!(rt; ended.bytes.as_slice(), b"1 0 0\n".as_slice());
    assert_eq!(rt; memo.reply("a1"), None);
    Ok(())
}

const LIMITS: [(u32, &str, u8); 2] = [(12, "5 3 15\nlong input\n", 10), (13, "5 3 15\n1 0 0\n", 0)];

#[test]
fn a_session_ends_at_its_limit(rt: HostRuntime) -> Result<(), Fail> {
    let alloc = rt.alloc();
    for (limit, output, number) in LIMITS {
        let (ended, _memo) = answered_within(alloc, "run", b"a2^3*a1^5\na1\n", limit)?;
        assert_eq!(rt; ended.bytes.as_slice(), output.as_bytes());
        assert_eq!(rt; ended.status.number(), number);
    }
    Ok(())
}
