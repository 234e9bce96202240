use super::*;
use crate::command::Command;
use crate::fault::{FieldFault, ReadScript, ScriptFault};
use hlc_stamp::Stamp;
use latch_model::latch::Access;
use std::alloc::Global;
use std::process::Abort;
use std::test::Fail;

// Where the bytes break a rule: the line and the cause. None where they are a script.
fn fault_of(alloc: Global, bytes: &[u8]) -> Result<Option<(u32, u32)>, Fail> {
    match read_script(alloc, bytes) {
        Ok(_) => Ok(None),
        Err(ReadScript::Bad(ScriptFault { line, cause })) => Ok(Some((line, cause))),
        Err(ReadScript::Memory) => Err(Fail::from("memory was refused")),
    }
}

// A first line, these lines, and an end line.
fn script_of(alloc: Global, lines: &[u8]) -> Result<Vec<u8>, Fail> {
    let mut text = Vec::from_slice(alloc, b"latch script 1\n")?;
    if !lines.is_empty() {
        text.extend_from_slice(lines)?;
        text.push(b'\n')?;
    }
    text.extend_from_slice(b"end\n")?;
    Ok(text)
}

// What is read of a script is spelled as it was.
fn reads_again(rt: &impl Abort, alloc: Global, text: &[u8]) -> Result<(), Fail> {
    match read_script(alloc, text) {
        Ok(script) => assert_eq!(rt; script.text(alloc)?.as_slice(), text),
        Err(fault) => panic!(rt; "{fault:?}"),
    }
    Ok(())
}

#[test]
fn whole_inputs_are_refused_at_their_first_fault(rt: HostRuntime) -> Result<(), Fail> {
    let rows: [(&[u8], u32, u32); 14] = [
        (b"", 1, 1),
        (b"latch script 1", 1, 1),
        (b"latch script 2", 1, 1),
        (b"latch script 1\nend", 2, 1),
        (b"latch script 1\nhold", 2, 1),
        (b"latch script 1\nacquire 1 a wait w:61\nrelease a\n", 4, 1),
        (b"\n", 1, 2),
        (b"latch script 2\nend\n", 1, 2),
        (b"latch script 1 \nend\n", 1, 2),
        (b"end\n", 1, 2),
        (b"latch script 1\nlatch script 1\nend\n", 2, 3),
        (b"latch script 1\nend\n\n", 3, 17),
        (b"latch script 1\nend\nend", 3, 17),
        (b"latch script 1\nacquire 1 a wait\nend\nmore\n", 3, 16),
    ];
    for (text, line, cause) in rows {
        assert_eq!(rt;
            fault_of(rt.alloc(), text)?,
            Some((line, cause)),
            "{line} {cause}"
        );
    }
    Ok(())
}

#[test]
fn lines_are_refused_at_their_first_fault(rt: HostRuntime) -> Result<(), Fail> {
    let rows: [(&[u8], u32, u32); 81] = [
        (b"hold 1 a wait", 2, 3),
        (b"", 2, 3),
        (b" wait a", 2, 3),
        (b"acquire", 2, 3),
        (b"acquire 1 a", 2, 3),
        (b"optimistic 1", 2, 3),
        (b"look 1 a", 2, 3),
        (b"wait", 2, 3),
        (b"wait a b", 2, 3),
        (b"check", 2, 3),
        (b"poison", 2, 3),
        (b"release a a", 2, 3),
        (b"metrics 1", 2, 3),
        (b"metrics ", 2, 3),
        (b"end 1", 2, 3),
        (b"end ", 2, 3),
        (b"Acquire 1 a wait", 2, 3),
        (b"acquire 0 a wait", 2, 4),
        (b"acquire 65 a wait", 2, 4),
        (b"acquire 01 a wait", 2, 4),
        (b"acquire +1 a wait", 2, 4),
        (b"acquire  a wait", 2, 4),
        (b"acquire 1 A wait", 2, 5),
        (b"acquire 1 1a wait", 2, 5),
        (b"acquire 1 abcdefghijklmnopq wait", 2, 5),
        (b"acquire 1  wait", 2, 5),
        (b"wait ", 2, 5),
        (b"check A", 2, 5),
        (b"poison a-b", 2, 5),
        (b"acquire 1 a never", 2, 6),
        (b"acquire 1 a ", 2, 6),
        (b"acquire 1 a wait turns=0", 2, 7),
        (b"acquire 1 a wait turns=", 2, 7),
        (b"acquire 1 a wait turns=1000001", 2, 7),
        (b"acquire 1 a wait turns=01", 2, 7),
        (b"acquire 1 a wait turns=1 turns=2", 2, 8),
        (b"acquire 1 a wait w:61 turns=5", 2, 8),
        (b"acquire 1 a wait turns", 2, 8),
        (b"acquire 1 a wait w:6", 2, 8),
        (b"acquire 1 a wait w:", 2, 8),
        (b"acquire 1 a wait 61", 2, 8),
        (b"acquire 1 a wait W:61", 2, 8),
        (b"acquire 1 a wait w:6A", 2, 8),
        (b"acquire 1 a wait w:61@0", 2, 8),
        (b"acquire 1 a wait w:61@5.0", 2, 8),
        (b"acquire 1 a wait w:61@0.0", 2, 8),
        (b"acquire 1 a wait w:61@", 2, 8),
        (b"acquire 1 a wait w:61@1.", 2, 8),
        (b"acquire 1 a wait w:61@1@2", 2, 8),
        (b"acquire 1 a wait w:61@18446744073709551616", 2, 8),
        (b"acquire 1 a wait w:61@1.4294967296", 2, 8),
        (b"acquire 1 a wait w:61-", 2, 8),
        (b"acquire 1 a wait w:-61", 2, 8),
        (b"acquire 1 a wait w:61-62-63", 2, 8),
        (b"acquire 1 a wait w:61 ", 2, 8),
        (b"acquire 1 a wait  w:61", 2, 8),
        (b"acquire 1 a wait w:63-61", 2, 10),
        (b"acquire 1 a wait w:61-61", 2, 10),
        (b"acquire 0 A wait", 2, 4),
        (b"acquire 1 A never", 2, 5),
        (b"acquire 1 a never turns=0", 2, 6),
        (b"acquire 1 a wait turns=0 w:6", 2, 7),
        (b"acquire 1 a wait w:63-61 w:6", 2, 10),
        (b"acquire 1 a wait w:6 w:63-61", 2, 8),
        (b"check A w:6", 2, 5),
        (
            b"acquire 1 a wait w:61\nacquire 1 b wait w:62\nrelease a",
            3,
            12,
        ),
        (b"acquire 1 a wait\nacquire 1 a wait", 3, 12),
        (b"acquire 1 a wait\nacquire 2 a wait", 3, 13),
        (b"acquire 1 a wait\nrelease a\nacquire 1 a wait", 4, 13),
        (b"wait a", 2, 14),
        (b"poison a", 2, 14),
        (b"release a", 2, 14),
        (b"check a", 2, 14),
        (b"acquire 1 a wait\nrelease a\nrelease a", 4, 14),
        (b"acquire 1 a wait\nrelease a\ncheck a", 4, 14),
        (b"acquire 1 a wait\nrelease a\nwait a", 4, 14),
        (b"acquire 1 a wait\ncheck a", 3, 15),
        (b"look 1 a wait\ncheck a w:61", 3, 15),
        (b"optimistic 1 a wait\nwait a\ncheck a", 4, 15),
        (b"acquire 1 a wait w:61", 3, 16),
        (b"acquire 1 a wait\nacquire 2 b wait\nrelease b", 5, 16),
    ];
    for (lines, line, cause) in rows {
        let text = if lines.is_empty() {
            Vec::from_slice(rt.alloc(), b"latch script 1\n\nend\n")?
        } else {
            script_of(rt.alloc(), lines)?
        };
        assert_eq!(rt;
            fault_of(rt.alloc(), &text)?,
            Some((line, cause)),
            "{lines:?}"
        );
    }
    Ok(())
}

#[test]
fn scripts_are_spelled_as_they_were_read(rt: HostRuntime) -> Result<(), Fail> {
    let rows: [&[u8]; 8] = [
        b"",
        b"metrics",
        b"acquire 1 a wait w:61\nrelease a",
        b"acquire 1 put error r:016b7a w:7a31@100\nacquire 2 scan error r:7a30-7a39@99\nrelease put\nwait scan\nrelease scan",
        b"acquire 3 get error r:7a31@120\nacquire 4 split error w:016b7a w:7a00-7aff\nrelease get\nwait split\nrelease split",
        b"optimistic 64 abcdefghijklmnop wait turns=1000000 r:61@18446744073709551615.4294967295 w:00-ff@0.5\nrelease abcdefghijklmnop",
        b"optimistic 1 a wait r:61\ncheck a\ncheck a r:61\npoison a\nwait a\nrelease a",
        b"look 1 a error turns=1\nrelease a\nacquire 1 b wait\nacquire 2 c wait\nrelease c\nacquire 2 d wait\nrelease b\nrelease d",
    ];
    for lines in rows {
        reads_again(&rt, rt.alloc(), &script_of(rt.alloc(), lines)?)?;
    }
    Ok(())
}

// A line that opens a request with so many latches, each on a key of so many bytes `a`, and this text behind the last key.
fn opening(alloc: Global, latches: u16, bytes: u16, last: &[u8]) -> Result<Vec<u8>, Fail> {
    let mut line = Vec::from_slice(alloc, b"acquire 1 a wait")?;
    for _ in 0..latches {
        line.extend_from_slice(b" w:")?;
        for _ in 0..bytes {
            line.extend_from_slice(b"61")?;
        }
    }
    line.extend_from_slice(last)?;
    Ok(line)
}

#[test]
fn limits(rt: HostRuntime) -> Result<(), Fail> {
    let alloc = rt.alloc();
    let rows: [(u16, u16, &[u8], Option<(u32, u32)>); 9] = [
        (1, 256, b"\nrelease a", None),
        (16, 1, b"\nrelease a", None),
        (1, 257, b"\nrelease a", Some((2, 9))),
        (1, 257, b"-62", Some((2, 9))),
        (1, 257, b"-61", Some((2, 9))),
        (1, 257, b"@0", Some((2, 8))),
        (17, 1, b"\nrelease a", Some((2, 11))),
        (16, 1, b" w:6", Some((2, 8))),
        (17, 1, b"\nacquire 1 b wait", Some((2, 11))),
    ];
    for (latches, bytes, last, want) in rows {
        let text = script_of(alloc, &opening(alloc, latches, bytes, last)?)?;
        assert_eq!(rt; fault_of(alloc, &text)?, want, "{latches} {bytes}");
    }
    let mut lines = Vec::new(alloc);
    for session in 1..65 {
        lines.extend_from_slice(format!(in alloc; "look {session} a{session} wait\n")?.as_bytes())?;
    }
    for session in 1..65 {
        lines.extend_from_slice(format!(in alloc; "release a{session}\n")?.as_bytes())?;
    }
    lines.extend_from_slice(b"metrics")?;
    reads_again(&rt, alloc, &script_of(alloc, &lines)?)?;
    let long = vec![in alloc; b'a'; 4_194_305]?;
    assert_eq!(rt; fault_of(alloc, &long)?, Some((0, 18)));
    Ok(())
}

#[test]
fn a_latch_field(rt: HostRuntime) -> Result<(), Fail> {
    let alloc = rt.alloc();
    let latch = read_latch(alloc, b"w:61")?;
    assert!(rt; matches!(latch.access, Access::Write));
    assert_eq!(rt; latch.span.key().bytes(), b"a".as_slice());
    assert!(rt; latch.span.end().is_none());
    assert_eq!(rt;
        latch.stamp,
        Stamp {
            wall: 0,
            logical: 0
        }
    );
    let mut text = Vec::new(alloc);
    push_latch(&latch, &mut text)?;
    assert_eq!(rt; text.as_slice(), b"w:61".as_slice());
    match read_latch(alloc, b"w:6") {
        Err(FieldFault::Bad { cause }) => assert_eq!(rt; cause, 8),
        _ => panic!(rt; "the field spells no latch"),
    }
    Ok(())
}

#[test]
fn commands_in_their_order(rt: HostRuntime) -> Result<(), Fail> {
    let alloc = rt.alloc();
    let script = read_script(
        alloc,
        b"latch script 1\nacquire 1 a wait w:61\nrelease a\nend\n",
    )?;
    match script.commands() {
        [
            Command::Begin {
                session,
                name,
                latches,
                ..
            },
            Command::Release { name: released },
        ] => {
            assert_eq!(rt; *session, 1);
            assert_eq!(rt; name.bytes(), b"a".as_slice());
            assert_eq!(rt; latches.list().len(), 1);
            assert_eq!(rt; released.as_str(), "a");
        }
        _ => panic!(rt; "an opening and a release"),
    }
    spelling::one_spelling();
    Ok(())
}

#[test]
fn commands_are_of_sessions(rt: HostRuntime) -> Result<(), Fail> {
    let script = read_script(
        rt.alloc(),
        b"latch script 1\nmetrics\noptimistic 2 a wait w:61\nacquire 7 b wait w:62\ncheck a w:61\nrelease b\nacquire 7 c wait w:63\n\
        poison c\nwait a\nrelease a\nmetrics\nacquire 2 d wait\nrelease d\nrelease c\nend\n",
    )?;
    assert_eq!(rt;
        script.sessions(rt.alloc())?.as_slice(),
        [0, 2, 7, 2, 7, 7, 7, 2, 2, 0, 2, 2, 7].as_slice()
    );
    Ok(())
}

// The generated script of eleven requests. The fifth and the tenth are optimistic, and the last one is a look.
const ELEVEN: &[u8] = b"latch script 1
acquire 1 q0 wait r:610f16@93 r:610c3d-610c40@764 r:610d98@461 r:6103ce@269
acquire 2 q1 wait r:610943@467
acquire 3 q2 wait r:61046f@310 r:610d64@247 r:610995 r:6101fc-61021f@896
acquire 4 q3 error r:61041d-61043b@909
optimistic 5 q4 wait r:6101b3-6101bd@30 r:610f8a@668 r:61093d-61096e@138 r:61012a@426
check q4 r:6101b3-6101bd@30
acquire 6 q5 wait r:6108ae-6108be w:61007f@538
acquire 7 q6 wait r:6109cb-6109df
acquire 8 q7 wait r:010f60@518 r:610f1e@47
acquire 9 q8 wait r:6107cf-6107e4@59
optimistic 10 q9 wait r:6105b9-6105ce@11 r:6102db@68 r:6109f8@956
check q9 r:6105b9-6105ce@11
look 11 q10 error r:610b3b-610b4f w:61017c@827 r:610561@840 r:6103d5@155
wait q0
release q0
wait q1
release q1
wait q2
release q2
wait q3
release q3
release q4
wait q5
release q5
wait q6
release q6
wait q7
release q7
wait q8
release q8
wait q9
release q9
wait q10
release q10
end
";

#[test]
fn generated_scripts_are_those_of_their_numbers(rt: HostRuntime) -> Result<(), Fail> {
    let one = make_script(rt.alloc(), 1)?;
    assert_eq!(rt;
        one.text(rt.alloc())?.as_slice(),
        b"latch script 1\nacquire 1 q0 wait r:610fd9@284 r:61075f\nwait q0\nrelease q0\nend\n".as_slice()
    );
    let eleven = make_script(rt.alloc(), 11)?;
    assert_eq!(rt; eleven.text(rt.alloc())?.as_slice(), ELEVEN);
    Ok(())
}

#[test]
fn generated_scripts_are_read_again(rt: HostRuntime) -> Result<(), Fail> {
    let text = make_script(rt.alloc(), 200)?.text(rt.alloc())?;
    reads_again(&rt, rt.alloc(), text.as_slice())
}
