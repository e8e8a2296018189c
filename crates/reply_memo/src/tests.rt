use crate::Answers;
use std::test::*;

#[test]
fn keeps_the_lines_that_were_asked_last(rt: HostRuntime) -> Result<(), Fail> {
    let mut answers = Answers::new(rt.alloc())?;
    for n in 1..=300 {
        let line = format!(in rt.alloc(); "a1^{n}")?;
        let reply = format!(in rt.alloc(); "{n} 0 0\n")?;
        answers.keep(line, reply)?;
    }
    for (line, is_kept) in [
        ("a1^44", false),
        ("a1^46", true),
        ("a1^300", true),
        ("a1^45", true),
    ] {
        assert_eq!(rt; answers.find(line), is_kept, "{line}");
    }
    let line = String::from_str(rt.alloc(), "a2")?;
    let reply = String::from_str(rt.alloc(), "0 1 0\n")?;
    answers.keep(line, reply)?;
    for (line, reply) in [
        ("a1^45", Some("45 0 0\n")),
        ("a1^46", Some("46 0 0\n")),
        ("a1^47", None),
        ("a1^48", Some("48 0 0\n")),
        ("a2", Some("0 1 0\n")),
    ] {
        assert_eq!(rt; answers.reply(line), reply, "{line}");
    }
    let line = String::from_str(rt.alloc(), "a1^48")?;
    let reply = String::from_str(rt.alloc(), "wide\n")?;
    answers.keep(line, reply)?;
    assert_eq!(rt; answers.reply("a1^48"), Some("wide\n"));
    Ok(())
}
