// Worked scripts, whole: what the program is given, what it answers and what it writes. The lines were worked out from the rules, apart
// from the program.
use crate::run::{finish, run, stopped};
use crate::status::Status;
use port_io::{MemSink, MemSource};
use std::alloc::{AllocError, Global};
use std::process::Abort;
use std::sync::Wait;
use std::test::Fail;
use std::thread::Threads;
use step_run::RunFault;

/// What the program answered, and what it wrote.
#[derive(Drop)]
struct Outcome {
    status: Status,
    written: Vec<u8>,
}

// Runs the program on these words, with a source that gives 7 bytes a read and a sink that takes 5 a write. The calls of these with
// the listed numbers fail.
fn ran<R: Threads + Wait + Sync>(
    rt: &R,
    alloc: Global,
    words: &[&str],
    input: &[u8],
    reads: &[u64],
    writes: &[u64],
) -> Result<Outcome, AllocError> {
    let bytes = Vec::from_slice(alloc, input)?;
    let source = MemSource::new(bytes, 7, Vec::from_slice(alloc, reads)?);
    ran_on(rt, alloc, words, source, writes)
}

fn ran_on<R: Threads + Wait + Sync>(
    rt: &R,
    alloc: Global,
    words: &[&str],
    source: MemSource,
    writes: &[u64],
) -> Result<Outcome, AllocError> {
    let mut texts = Vec::new(alloc);
    for word in words {
        texts.push(word.to_string(alloc)?)?;
    }
    let mut source = source;
    let room = Vec::with_capacity(alloc, 4096)?;
    let mut sink = MemSink::new(room, 5, Vec::from_slice(alloc, writes)?);
    let status = run(rt, alloc, texts.as_slice(), &mut source, &mut sink);
    let written = Vec::from_slice(alloc, sink.written())?;
    Ok(Outcome { status, written })
}

// Tells that a script of these commands writes these lines.
fn writes<R: Abort + Threads + Wait + Sync>(
    rt: &R,
    alloc: Global,
    commands: &str,
    lines: &str,
) -> Result<(), AllocError> {
    let mut input = Vec::from_slice(alloc, b"latch script 1\n")?;
    input.extend_from_slice(commands.as_bytes())?;
    input.extend_from_slice(b"end\n")?;
    let ran = ran(rt, alloc, &["step"], input.as_slice(), &[], &[])?;
    assert!(rt; ran.status == Status::Done, "{commands}");
    assert!(rt; ran.written.as_slice() == lines.as_bytes(), "{commands}");
    Ok(())
}

// Tells that an input is refused at this line with this cause.
fn refuses<R: Abort + Threads + Wait + Sync>(
    rt: &R,
    alloc: Global,
    input: &[u8],
    line: u32,
    cause: u32,
) -> Result<(), AllocError> {
    let ran = ran(rt, alloc, &["step"], input, &[], &[])?;
    assert!(rt; ran.status == Status::Script { line, cause });
    let text = format!(in alloc; "script {line} {cause}\n")?;
    assert!(rt; ran.written.as_slice() == text.as_bytes());
    Ok(())
}

// Tells what comes of devices of which these calls fail, where the script is that of the stored run.
fn fails<R: Abort + Threads + Wait + Sync>(
    rt: &R,
    alloc: Global,
    reads: &[u64],
    writes: &[u64],
    status: Status,
    written: &[u8],
) -> Result<(), AllocError> {
    let input = b"latch script 1\nacquire 1 a wait w:61\nrelease a\nend\n";
    let ran = ran(rt, alloc, &["step"], input, reads, writes)?;
    assert!(rt; ran.status == status);
    assert!(rt; ran.written.as_slice() == written);
    Ok(())
}

#[test]
fn latches_are_waited_for_in_order(rt: HostRuntime) -> Result<(), Fail> {
    let alloc = rt.alloc();
    // no command
    writes(
        &rt,
        alloc,
        "",
        "requests 0 granted 0 checked 0 poisoned 0 cancelled 0 never 0\n",
    )?;
    // one write
    writes(
        &rt,
        alloc,
        "acquire 1 a wait w:61\nrelease a\n",
        "a 1 before -\na granted 1\na ended\nrequests 1 granted 1 checked 0 poisoned 0 cancelled 0 never 0\n",
    )?;
    // an end is excluded
    writes(
        &rt,
        alloc,
        "acquire 1 a wait w:61-63\nacquire 2 b wait w:63\nrelease a\nrelease b\n",
        "a 1 before -\na granted 1\nb 2 before -\nb granted 2\na ended\nb ended\nrequests 2 granted 2 checked 0 poisoned 0 cancelled 0 never 0\n",
    )?;
    // keys in the order of their bytes
    writes(
        &rt,
        alloc,
        "acquire 1 a wait w:61\nacquire 2 b wait w:6100\nacquire 3 c wait w:61-6101\nrelease a\nwait c\nrelease b\nwait c\nrelease c\n",
        "a 1 before -\na granted 1\nb 2 before -\nb granted 2\nc 3 before 1,2\nc blocked 1 61@0.0\na ended\n\
         c blocked 2 6100@0.0\nb ended\nc granted 5\nc ended\nrequests 3 granted 3 checked 0 poisoned 0 cancelled 0 never 0\n",
    )?;
    // own latches do not conflict
    writes(
        &rt,
        alloc,
        "acquire 1 a wait w:61 w:61\nacquire 2 b error\nrelease a\nrelease b\n",
        "a 1 before -\na granted 1\nb 2 before -\nb granted 2\na ended\nb ended\nrequests 2 granted 2 checked 0 poisoned 0 cancelled 0 never 0\n",
    )?;
    Ok(())
}

#[test]
fn stamps_and_scopes_decide_conflicts(rt: HostRuntime) -> Result<(), Fail> {
    let alloc = rt.alloc();
    // reads at stamps around a write
    writes(
        &rt,
        alloc,
        "acquire 1 a wait w:61@10\nacquire 2 b wait r:61@9\nacquire 3 c wait r:61@10\nacquire 4 d wait r:61@11\nrelease a\n\
         wait c\nwait d\nrelease b\nrelease c\nrelease d\n",
        "a 1 before -\na granted 1\nb 2 before -\nb granted 2\nc 3 before 1\nc blocked 1 61@10.0\nd 4 before 1\n\
         d blocked 1 61@10.0\na ended\nc granted 5\nd granted 5\nb ended\nc ended\nd ended\n\
         requests 4 granted 4 checked 0 poisoned 0 cancelled 0 never 0\n",
    )?;
    // an empty stamp stands for every time
    writes(
        &rt,
        alloc,
        "acquire 1 a wait w:61\nacquire 2 b wait r:61@1\nacquire 3 c wait r:62\nacquire 4 d wait w:62@9\nrelease a\n\
         release b\nrelease c\nrelease d\n",
        "a 1 before -\na granted 1\nb 2 before 1\nb blocked 1 61@0.0\nc 3 before -\nc granted 3\nd 4 before 3\n\
         d blocked 3 62@0.0\na ended\nb ended\nc ended\nd ended\n\
         requests 4 granted 2 checked 0 poisoned 0 cancelled 0 never 2\n",
    )?;
    // local latches have no stamp
    writes(
        &rt,
        alloc,
        "acquire 1 a wait r:01ff@10\nacquire 2 b wait w:01ff@11\nrelease a\nwait b\nrelease b\n",
        "a 1 before -\na granted 1\nb 2 before 1\nb blocked 1 01ff@0.0\na ended\nb granted 3\nb ended\n\
         requests 2 granted 2 checked 0 poisoned 0 cancelled 0 never 0\n",
    )?;
    // a put, a scan, a get and a split
    writes(
        &rt,
        alloc,
        "acquire 1 put error r:016b7a w:7a31@100\nacquire 2 scan error r:7a30-7a39@99\nacquire 3 get error r:7a31@120\n\
         acquire 4 split error w:016b7a w:7a00-7aff\nrelease put\nwait get\nwait split\nrelease scan\nwait split\n\
         release get\nwait split\nrelease split\n",
        "put 1 before -\nput granted 1\nscan 2 before -\nscan granted 2\nget 3 before 1\nget blocked 1 7a31@100.0\n\
         split 4 before 1,2,3\nsplit blocked 1 7a31@100.0\nput ended\nget granted 5\nsplit blocked 2 7a30-7a39@99.0\n\
         scan ended\nsplit blocked 3 7a31@120.0\nget ended\nsplit granted 7\nsplit ended\n\
         requests 4 granted 4 checked 0 poisoned 0 cancelled 0 never 0\n",
    )?;
    Ok(())
}

#[test]
fn poison_ends_or_spreads(rt: HostRuntime) -> Result<(), Fail> {
    let alloc = rt.alloc();
    // a poison error
    writes(
        &rt,
        alloc,
        "acquire 1 a wait w:61@10\npoison a\nacquire 2 b error w:61@12\nwait b\nrelease b\nrelease a\n",
        "a 1 before -\na granted 1\na poisons\nb 2 before 1\nb poisoned 1 61@10.0\nb ended\na ended\n\
         requests 2 granted 1 checked 0 poisoned 1 cancelled 0 never 0\n",
    )?;
    // poison spreads under the policy to wait
    writes(
        &rt,
        alloc,
        "acquire 1 a wait w:61\npoison a\nacquire 2 b wait w:61-63\nacquire 3 c wait w:62-65\nacquire 4 d error w:64\n\
         release a\nwait b\nrelease b\nwait c\nrelease c\nrelease d\n",
        "a 1 before -\na granted 1\na poisons\nb 2 before 1\nb spreads 1\nb blocked 1 61@0.0\nc 3 before 2\nc spreads 2\n\
         c blocked 2 61-63@0.0\nd 4 before 3\nd poisoned 3 62-65@0.0\na ended\nb granted 6\nb ended\nc granted 7\nc ended\n\
         d ended\nrequests 4 granted 3 checked 0 poisoned 1 cancelled 0 never 0\n",
    )?;
    // an ended request poisons nobody
    writes(
        &rt,
        alloc,
        "acquire 1 a wait w:61\nacquire 2 b error w:61\npoison a\nrelease a\nwait b\nrelease b\n",
        "a 1 before -\na granted 1\nb 2 before 1\nb blocked 1 61@0.0\na poisons\na ended\nb granted 3\nb ended\n\
         requests 2 granted 2 checked 0 poisoned 0 cancelled 0 never 0\n",
    )?;
    // turns run out
    writes(
        &rt,
        alloc,
        "acquire 1 a wait w:61\nacquire 2 b wait turns=2 w:61\nwait b\nrelease b\nrelease a\n",
        "a 1 before -\na granted 1\nb 2 before 1\nb blocked 1 61@0.0\nb blocked 1 61@0.0\nb cancelled\nb ended\na ended\n\
         requests 2 granted 1 checked 0 poisoned 0 cancelled 1 never 0\n",
    )?;
    Ok(())
}

#[test]
fn checks_looks_and_metrics(rt: HostRuntime) -> Result<(), Fail> {
    let alloc = rt.alloc();
    // a check that passes
    writes(
        &rt,
        alloc,
        "acquire 1 a wait w:70\noptimistic 2 b wait r:61-7a\ncheck b r:61-64\nrelease b\nrelease a\n",
        "a 1 before -\na granted 1\nb 2 before 1\nb clear\nb ended\na ended\nrequests 2 granted 1 checked 1 poisoned 0 cancelled 0 never 0\n",
    )?;
    // a check counts what was released since
    writes(
        &rt,
        alloc,
        "acquire 1 a wait w:70\noptimistic 2 b wait r:61-7a\nrelease a\ncheck b r:70\nrelease b\n",
        "a 1 before -\na granted 1\nb 2 before 1\na ended\nb met 1 70@0.0\nb ended\nrequests 2 granted 1 checked 0 poisoned 0 cancelled 0 never 1\n",
    )?;
    // a check of what was not declared
    writes(
        &rt,
        alloc,
        "optimistic 1 a wait r:61-7a\ncheck a r:61\ncheck a r:7b\nrelease a\n",
        "a 1 before -\na clear\na undeclared 0\na ended\nrequests 1 granted 0 checked 1 poisoned 0 cancelled 0 never 0\n",
    )?;
    // a look holds nothing
    writes(
        &rt,
        alloc,
        "acquire 1 a wait r:61\nlook 2 b wait w:61\nacquire 3 c wait r:61\nrelease a\nwait b\nrelease b\nrelease c\n",
        "a 1 before -\na granted 1\nb 2 before 1\nb blocked 1 61@0.0\nc 3 before -\nc granted 3\na ended\nb granted 4\n\
         b ended\nc ended\nrequests 3 granted 3 checked 0 poisoned 0 cancelled 0 never 0\n",
    )?;
    // pending reads
    writes(
        &rt,
        alloc,
        "acquire 1 a wait r:61\nacquire 2 b wait r:62\nmetrics\nacquire 3 c wait w:70\nmetrics\nrelease a\nrelease b\nrelease c\n",
        "a 1 before -\na granted 1\nb 2 before -\nb granted 2\n\
         metrics global read 2 pending 2 write 0 local read 0 pending 0 write 0\nc 3 before -\nc granted 3\n\
         metrics global read 2 pending 0 write 1 local read 0 pending 0 write 0\na ended\nb ended\nc ended\n\
         requests 3 granted 3 checked 0 poisoned 0 cancelled 0 never 0\n",
    )?;
    // a look with a write sees pending reads
    writes(
        &rt,
        alloc,
        "acquire 1 a wait r:61\nlook 2 b wait w:70\nmetrics\nrelease b\nrelease a\n",
        "a 1 before -\na granted 1\nb 2 before -\nb granted 2\n\
         metrics global read 1 pending 0 write 0 local read 0 pending 0 write 0\nb ended\na ended\n\
         requests 2 granted 2 checked 0 poisoned 0 cancelled 0 never 0\n",
    )?;
    Ok(())
}

#[test]
fn poison_spreads_and_stays(rt: HostRuntime) -> Result<(), Fail> {
    let alloc = rt.alloc();
    // the poison goes through three waiters, and each is granted when the one before it has ended
    writes(
        &rt,
        alloc,
        "acquire 1 a wait w:61\npoison a\nacquire 2 b wait w:61-63\nacquire 3 c wait w:62-65\nacquire 4 d wait w:64-67\n\
         release a\nwait b\nrelease b\nwait c\nrelease c\nwait d\nrelease d\n",
        "a 1 before -\na granted 1\na poisons\nb 2 before 1\nb spreads 1\nb blocked 1 61@0.0\nc 3 before 2\nc spreads 2\n\
         c blocked 2 61-63@0.0\nd 4 before 3\nd spreads 3\nd blocked 3 62-65@0.0\na ended\nb granted 5\nb ended\nc granted 6\n\
         c ended\nd granted 7\nd ended\nrequests 4 granted 4 checked 0 poisoned 0 cancelled 0 never 0\n",
    )?;
    // a call after a spread writes nothing: the cause that is there stays
    writes(
        &rt,
        alloc,
        "acquire 1 a wait w:61\npoison a\nacquire 2 b wait w:61\npoison b\nrelease a\nwait b\npoison b\nrelease b\n",
        "a 1 before -\na granted 1\na poisons\nb 2 before 1\nb spreads 1\nb blocked 1 61@0.0\na ended\nb granted 3\nb ended\n\
         requests 2 granted 2 checked 0 poisoned 0 cancelled 0 never 0\n",
    )?;
    // a call before: the poison of the other spreads no more
    writes(
        &rt,
        alloc,
        "acquire 1 a wait w:61\nacquire 2 b wait w:61\npoison b\npoison a\nwait b\nrelease a\nrelease b\n",
        "a 1 before -\na granted 1\nb 2 before 1\nb blocked 1 61@0.0\nb poisons\na poisons\nb blocked 1 61@0.0\na ended\n\
         b ended\nrequests 2 granted 1 checked 0 poisoned 0 cancelled 0 never 1\n",
    )?;
    // a wait after the cancellation does nothing
    writes(
        &rt,
        alloc,
        "acquire 1 a wait w:61\nacquire 2 b wait turns=1 w:61\nwait b\nrelease b\nrelease a\n",
        "a 1 before -\na granted 1\nb 2 before 1\nb blocked 1 61@0.0\nb cancelled\nb ended\na ended\n\
         requests 2 granted 1 checked 0 poisoned 0 cancelled 1 never 0\n",
    )?;
    // the turns run out at the turn in which the poison spreads
    writes(
        &rt,
        alloc,
        "acquire 1 a wait w:61\npoison a\nacquire 2 b wait turns=1 w:61\nrelease b\nrelease a\n",
        "a 1 before -\na granted 1\na poisons\nb 2 before 1\nb spreads 1\nb blocked 1 61@0.0\nb cancelled\nb ended\na ended\n\
         requests 2 granted 1 checked 0 poisoned 0 cancelled 1 never 0\n",
    )?;
    // a request that is released while it is blocked holds nothing any more
    writes(
        &rt,
        alloc,
        "acquire 1 a wait w:61\nacquire 2 b wait w:61\nrelease b\nacquire 2 c wait w:61\nrelease a\nwait c\nrelease c\n",
        "a 1 before -\na granted 1\nb 2 before 1\nb blocked 1 61@0.0\nb ended\nc 3 before 1\nc blocked 1 61@0.0\na ended\n\
         c granted 5\nc ended\nrequests 3 granted 2 checked 0 poisoned 0 cancelled 0 never 1\n",
    )?;
    Ok(())
}

#[test]
fn checks_pass_meet_or_are_undeclared(rt: HostRuntime) -> Result<(), Fail> {
    let alloc = rt.alloc();
    // after a check that met it waits on the same snapshot
    writes(
        &rt,
        alloc,
        "acquire 1 a wait w:70\noptimistic 2 b wait r:61-7a\ncheck b r:70\nwait b\nrelease a\nwait b\nrelease b\n",
        "a 1 before -\na granted 1\nb 2 before 1\nb met 1 70@0.0\nb blocked 1 70@0.0\na ended\nb granted 3\nb ended\n\
         requests 2 granted 2 checked 0 poisoned 0 cancelled 0 never 0\n",
    )?;
    // a check of nothing passes
    writes(
        &rt,
        alloc,
        "optimistic 1 a wait r:61\ncheck a\nrelease a\n",
        "a 1 before -\na clear\na ended\nrequests 1 granted 0 checked 1 poisoned 0 cancelled 0 never 0\n",
    )?;
    // an undeclared check leaves the passed one, and one that met clears it
    writes(
        &rt,
        alloc,
        "acquire 1 a wait w:70\noptimistic 2 b wait r:61-7a\ncheck b r:61\ncheck b w:61\nrelease b\n\
         optimistic 2 c wait r:61-7a\ncheck c r:61\ncheck c r:70\nrelease c\nrelease a\n",
        "a 1 before -\na granted 1\nb 2 before 1\nb clear\nb undeclared 0\nb ended\nc 3 before 1\nc clear\nc met 1 70@0.0\n\
         c ended\na ended\nrequests 3 granted 1 checked 1 poisoned 0 cancelled 0 never 1\n",
    )?;
    // no key is between 61 and 6100, so that range lies in the single key
    writes(
        &rt,
        alloc,
        "optimistic 1 a wait r:61\ncheck a r:61-6100\nrelease a\n",
        "a 1 before -\na clear\na ended\nrequests 1 granted 0 checked 1 poisoned 0 cancelled 0 never 0\n",
    )?;
    // stamps do not count at local latches, and count at global ones
    writes(
        &rt,
        alloc,
        "optimistic 1 a wait r:01ff@5 r:61@5\ncheck a r:01ff@9 r:61@5\ncheck a r:01ff r:61@9\nrelease a\n",
        "a 1 before -\na clear\na undeclared 1\na ended\nrequests 1 granted 0 checked 1 poisoned 0 cancelled 0 never 0\n",
    )?;
    Ok(())
}

#[test]
fn metrics_between_looks(rt: HostRuntime) -> Result<(), Fail> {
    let alloc = rt.alloc();
    // a look that reads flushes nothing, one that writes flushes the pending reads and holds nothing
    writes(
        &rt,
        alloc,
        "acquire 1 a wait r:61\nmetrics\nlook 2 b wait r:61\nmetrics\nlook 3 c wait w:70\nmetrics\nacquire 4 d wait r:62\n\
         metrics\nrelease a\nmetrics\nrelease b\nrelease c\nrelease d\n",
        "a 1 before -\na granted 1\nmetrics global read 1 pending 1 write 0 local read 0 pending 0 write 0\nb 2 before -\n\
         b granted 2\nmetrics global read 1 pending 1 write 0 local read 0 pending 0 write 0\nc 3 before -\nc granted 4\n\
         metrics global read 1 pending 0 write 0 local read 0 pending 0 write 0\nd 4 before -\nd granted 6\n\
         metrics global read 2 pending 1 write 0 local read 0 pending 0 write 0\na ended\n\
         metrics global read 1 pending 1 write 0 local read 0 pending 0 write 0\nb ended\nc ended\nd ended\n\
         requests 4 granted 4 checked 0 poisoned 0 cancelled 0 never 0\n",
    )?;
    Ok(())
}

#[test]
fn each_status_has_its_line(rt: HostRuntime) -> Result<(), Fail> {
    let alloc = rt.alloc();
    // the first read fails, and a later one
    fails(&rt, alloc, &[0], &[], Status::ReadFault, b"read fault\n")?;
    fails(&rt, alloc, &[3], &[], Status::ReadFault, b"read fault\n")?;
    // the first write fails, and a later one
    fails(&rt, alloc, &[], &[0], Status::WriteFault, b"")?;
    fails(&rt, alloc, &[], &[2], Status::WriteFault, b"a 1 before")?;
    // the line of a fault can't be written
    fails(&rt, alloc, &[0], &[1], Status::WriteFault, b"read ")?;
    // words that are no form, whatever the devices do
    let usage = b"usage: latch step | replay [--json] | make N | help\n";
    let other: [&[&str]; 4] = [&[], &["steps"], &["Step"], &["step", "step"]];
    for words in other {
        let ran_bad = ran(&rt, alloc, words, b"", &[0], &[])?;
        assert!(rt; ran_bad.status == Status::Usage);
        assert!(rt; ran_bad.written.as_slice() == usage.as_slice());
    }
    let ran_unwritten = ran(&rt, alloc, &["bad"], b"", &[], &[0])?;
    assert!(rt; ran_unwritten.status == Status::WriteFault);
    assert!(rt; ran_unwritten.written.is_empty());
    Ok(())
}

#[test]
fn an_input_may_come_byte_by_byte(rt: HostRuntime) -> Result<(), Fail> {
    let alloc = rt.alloc();
    let input = b"latch script 1\nacquire 1 a wait w:61\nrelease a\nend\n";
    let source = MemSource::new(Vec::from_slice(alloc, input)?, 1, Vec::new(alloc));
    let ran = ran_on(&rt, alloc, &["step"], source, &[])?;
    assert!(rt; ran.status == Status::Done);
    let output =
        b"a 1 before -\na granted 1\na ended\nrequests 1 granted 1 checked 0 poisoned 0 cancelled 0 never 0\n";
    assert!(rt; ran.written.as_slice() == output.as_slice());
    Ok(())
}

#[test]
fn an_input_that_is_no_script_is_refused(rt: HostRuntime) -> Result<(), Fail> {
    let alloc = rt.alloc();
    refuses(&rt, alloc, b"", 1, 1)?;
    refuses(
        &rt,
        alloc,
        b"latch script 1\nacquire 1 a wait w:61\nrelease a\n",
        4,
        1,
    )?;
    refuses(
        &rt,
        alloc,
        b"latch script 1\nacquire 65 a wait w:61\nrelease a\nend\n",
        2,
        4,
    )?;
    refuses(
        &rt,
        alloc,
        b"latch script 1\nacquire 1 a wait w:6\nrelease a\nend\n",
        2,
        8,
    )?;
    refuses(
        &rt,
        alloc,
        b"latch script 1\nacquire 1 a wait w:63-61\nrelease a\nend\n",
        2,
        10,
    )?;
    refuses(
        &rt,
        alloc,
        b"latch script 1\nacquire 1 a wait w:61\nend\n",
        3,
        16,
    )?;
    refuses(
        &rt,
        alloc,
        b"latch script 1\nacquire 1 a wait w:61\nacquire 1 b wait w:62\nrelease a\nend\n",
        3,
        12,
    )?;
    // one byte more than a script may have
    let long = vec![in alloc; b'x'; 4_194_305]?;
    refuses(&rt, alloc, long.as_slice(), 0, 18)?;
    Ok(())
}

// Tells that these words are no form.
fn is_no_form<R: Abort + Threads + Wait + Sync>(
    rt: &R,
    alloc: Global,
    words: &[&str],
) -> Result<(), AllocError> {
    let usage = b"usage: latch step | replay [--json] | make N | help\n";
    let ran = ran(rt, alloc, words, b"", &[], &[])?;
    assert!(rt; ran.status == Status::Usage);
    assert!(rt; ran.written.as_slice() == usage.as_slice());
    Ok(())
}

#[test]
fn make_writes_the_last_line_of_a_generated_script(rt: HostRuntime) -> Result<(), Fail> {
    let alloc = rt.alloc();
    let one = ran(&rt, alloc, &["make", "1"], b"", &[0], &[])?;
    assert!(rt; one.status == Status::Done);
    let line = b"requests 1 granted 1 checked 0 poisoned 0 cancelled 0 never 0\n";
    assert!(rt; one.written.as_slice() == line.as_slice());
    let most = ran(&rt, alloc, &["make", "20000"], b"", &[], &[])?;
    assert!(rt; most.status == Status::Done);
    assert!(rt; most.written.starts_with(b"requests 20000 "));
    let again = ran(&rt, alloc, &["make", "20000"], b"", &[], &[])?;
    assert!(rt; most.written.as_slice() == again.written.as_slice());
    Ok(())
}

#[test]
fn help_writes_the_usage_line(rt: HostRuntime) -> Result<(), Fail> {
    let alloc = rt.alloc();
    let usage = b"usage: latch step | replay [--json] | make N | help\n";
    let help = ran(&rt, alloc, &["help"], b"", &[0], &[])?;
    assert!(rt; help.status == Status::Done);
    assert!(rt; help.written.as_slice() == usage.as_slice());
    let unwritten = ran(&rt, alloc, &["help"], b"", &[], &[1])?;
    assert!(rt; unwritten.status == Status::WriteFault);
    assert!(rt; unwritten.written.as_slice() == b"usage".as_slice());
    Ok(())
}

#[test]
fn a_number_out_of_form_is_usage(rt: HostRuntime) -> Result<(), Fail> {
    let alloc = rt.alloc();
    is_no_form(&rt, alloc, &["make"])?;
    is_no_form(&rt, alloc, &["make", "0"])?;
    is_no_form(&rt, alloc, &["make", "01"])?;
    is_no_form(&rt, alloc, &["make", "20001"])?;
    is_no_form(&rt, alloc, &["make", "+1"])?;
    is_no_form(&rt, alloc, &["make", ""])?;
    Ok(())
}

#[test]
fn words_more_or_less_are_usage(rt: HostRuntime) -> Result<(), Fail> {
    let alloc = rt.alloc();
    is_no_form(&rt, alloc, &["make", "1", "1"])?;
    is_no_form(&rt, alloc, &["1", "make"])?;
    is_no_form(&rt, alloc, &["help", "help"])?;
    is_no_form(&rt, alloc, &["replay", "--json", "--json"])?;
    is_no_form(&rt, alloc, &["replay", "--json=x"])?;
    is_no_form(&rt, alloc, &["--json", "replay"])?;
    is_no_form(&rt, alloc, &["replay", "5"])?;
    is_no_form(&rt, alloc, &["--", "step"])?;
    Ok(())
}

#[test]
fn replay_writes_the_report_of_its_run(rt: HostRuntime) -> Result<(), Fail> {
    let alloc = rt.alloc();
    let input = b"latch script 1\nacquire 1 a wait w:61\nrelease a\nend\n";
    let lines = ran(&rt, alloc, &["replay"], input, &[], &[])?;
    assert!(rt; lines.status == Status::Done);
    let report =
        b"latch report 1\nbegin 1 lane=0 session=1 line=2 acquire wait before=- w:61\nend 1 - - waited=1\n\
        requests 1 granted 1 checked 0 poisoned 0 cancelled 0 never 0\n";
    assert!(rt; lines.written.as_slice() == report.as_slice());
    let json = ran(&rt, alloc, &["replay", "--json"], input, &[], &[])?;
    assert!(rt; json.status == Status::Done);
    let report =
        b"{\"entries\":[{\"before\":[],\"begin\":1,\"lane\":0,\"latches\":[\"w:61\"],\"line\":2,\"mode\":\"acquire\",\
        \"policy\":\"wait\",\"session\":1},{\"cause\":\"-\",\"end\":1,\"fault\":\"-\",\"grant\":\"waited=1\",\"latches\":[]}],\"report\":1,\
        \"summary\":{\"cancelled\":0,\"checked\":0,\"granted\":1,\"never\":0,\"poisoned\":0,\"requests\":1}}\n";
    assert!(rt; json.written.as_slice() == report.as_slice());
    Ok(())
}

#[test]
fn a_replay_shows_what_one_session_did(rt: HostRuntime) -> Result<(), Fail> {
    let alloc = rt.alloc();
    // in one session nothing depends on the schedule
    let input =
        b"latch script 1\noptimistic 1 a wait r:61-7a\ncheck a r:61\nrelease a\nacquire 1 b error w:62@5\npoison b\nrelease b\n\
        look 1 c wait w:63\nrelease c\noptimistic 1 d wait r:61\nrelease d\nend\n";
    let ran_lines = ran(&rt, alloc, &["replay"], input, &[], &[])?;
    assert!(rt; ran_lines.status == Status::Done);
    let report =
        b"latch report 1\nbegin 1 lane=0 session=1 line=2 optimistic wait before=- r:61-7a\nend 1 - - checked r:61\n\
        begin 2 lane=0 session=1 line=5 acquire error before=- w:62@5\nend 2 called - waited=3\n\
        begin 3 lane=0 session=1 line=8 look wait before=- w:63\nend 3 - - waited=5\n\
        begin 4 lane=0 session=1 line=10 optimistic wait before=- r:61\nend 4 - - never\n\
        requests 4 granted 2 checked 1 poisoned 0 cancelled 0 never 1\n";
    assert!(rt; ran_lines.written.as_slice() == report.as_slice());
    Ok(())
}

#[test]
fn a_replay_has_the_statuses_of_its_devices(rt: HostRuntime) -> Result<(), Fail> {
    let alloc = rt.alloc();
    let bad = ran(
        &rt,
        alloc,
        &["replay"],
        b"latch script 1\nacquire 1 a wait w:61\nend\n",
        &[],
        &[],
    )?;
    assert!(rt; bad.status == Status::Script { line: 3, cause: 16 });
    assert!(rt; bad.written.as_slice() == b"script 3 16\n".as_slice());
    let unread = ran(
        &rt,
        alloc,
        &["replay", "--json"],
        b"latch script 1\nend\n",
        &[1],
        &[],
    )?;
    assert!(rt; unread.status == Status::ReadFault);
    assert!(rt; unread.written.as_slice() == b"read fault\n".as_slice());
    let unwritten = ran(&rt, alloc, &["replay"], b"latch script 1\nend\n", &[], &[1])?;
    assert!(rt; unwritten.status == Status::WriteFault);
    assert!(rt; unwritten.written.as_slice() == b"latch".as_slice());
    Ok(())
}

// Where a run lacked rows the status and the line say how many were free and needed.
#[test]
fn lacked_rows_are_named(rt: HostRuntime) -> Result<(), Fail> {
    let alloc = rt.alloc();
    let mut sink = MemSink::new(Vec::with_capacity(alloc, 64)?, 5, Vec::new(alloc));
    let lacked = stopped(
        alloc,
        RunFault::RowsOut {
            free: 12,
            need: 208,
        },
    );
    let status = finish(&mut sink, lacked);
    assert!(rt;
        status
            == Status::RowsOut {
                free: 12,
                need: 208
            }
    );
    assert!(rt; status.code() == 7);
    assert!(rt; sink.written() == b"rows 12 208\n".as_slice());
    Ok(())
}
