//! Scripts and what their step runs write; the worked scripts stand with the program.
use crate::{FIRST_SIZES, RunFault, last_line, run_on, run_step};
use script::read_script;
use std::alloc::{AllocError, Global};
use std::test::Fail;

#[test]
fn a_script_writes_its_lines(rt: HostRuntime) -> Result<(), Fail> {
    let alloc = rt.alloc();
    let text =
        b"latch script 1\nacquire 1 a wait w:61\nacquire 2 b wait w:61\nrelease a\nrelease b\nend\n";
    let script = read_script(alloc, text)?;
    let out = run_step(alloc, &script)?;
    let lines =
        b"a 1 before -\na granted 1\nb 2 before 1\nb blocked 1 61@0.0\na ended\nb ended\nrequests 2 granted 1 checked 0 poisoned 0 cancelled 0 never 1\n";
    assert!(rt; out.as_slice() == lines.as_slice());
    let last = b"requests 2 granted 1 checked 0 poisoned 0 cancelled 0 never 1\n";
    assert!(rt; last_line(out.as_slice()) == last.as_slice());
    Ok(())
}

// A script in which 55 sessions hold 16 latches each at one time, on keys of their own.
fn many_latches(alloc: Global) -> Result<Vec<u8>, AllocError> {
    let mut text = Vec::from_slice(alloc, b"latch script 1\n")?;
    for session in 10..65 {
        let opening = format!(in alloc; "acquire {session} s{session} wait")?;
        text.extend_from_slice(opening.as_bytes())?;
        for key in 10..26 {
            let latch = format!(in alloc; " w:{session}{key}")?;
            text.extend_from_slice(latch.as_bytes())?;
        }
        text.push(b'\n')?;
    }
    for session in 10..65 {
        let release = format!(in alloc; "release s{session}\n")?;
        text.extend_from_slice(release.as_bytes())?;
    }
    text.extend_from_slice(b"end\n")?;
    Ok(text)
}

#[test]
fn a_script_for_which_the_first_rows_are_too_few(rt: HostRuntime) -> Result<(), Fail> {
    let alloc = rt.alloc();
    let text = many_latches(alloc)?;
    assert!(rt; text.len() <= 16_384);
    let script = read_script(alloc, text.as_slice())?;
    let first = run_on(alloc, &script, FIRST_SIZES);
    assert!(rt; matches!(first, Err(RunFault::RowsOut { .. })));
    let out = run_step(alloc, &script)?;
    let last = b"requests 55 granted 55 checked 0 poisoned 0 cancelled 0 never 0\n";
    assert!(rt; last_line(out.as_slice()) == last.as_slice());
    Ok(())
}
