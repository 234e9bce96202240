// Scripts that are run by sessions beside each other, each on a thread of its own. Which of the legal histories comes out depends on the threads; what is
// tested holds of each.
use crate::run::replay;
use latch_manager::gate::NoGate;
use latch_model::legality::legal_so_far;
use script::read_script;
use std::process::Abort;
use std::sync::Wait;
use std::test::Fail;
use std::thread::Threads;

// The number of entries of a run of this script, whose history was found legal.
fn entries_of_run<R: Threads + Wait + Sync + Abort>(
    rt: &R,
    alloc: std::alloc::Global,
    text: &[u8],
) -> usize {
    assert!(rt; text.len() <= 4096);
    let Ok(script) = read_script(alloc, text) else {
        panic!(rt; "it is a script")
    };
    let Ok(history) = replay(rt, alloc, &script, &NoGate) else {
        panic!(rt; "no memory")
    };
    assert!(rt; legal_so_far(history.entries.as_slice(), &history.sizes));
    history.entries.len()
}

#[test]
fn two_sessions_write_one_key(rt: HostRuntime) -> Result<(), Fail> {
    let text =
        b"latch script 1\nacquire 1 a wait w:61\nacquire 2 b wait w:61\nrelease a\nrelease b\nend\n";
    for _ in 0..50 {
        assert!(rt; entries_of_run(&rt, rt.alloc(), text) == 4);
    }
    Ok(())
}

#[test]
fn each_command_is_run(rt: HostRuntime) -> Result<(), Fail> {
    let text =
        b"latch script 1\nacquire 1 put error r:016b7a w:7a31@100\noptimistic 2 scan wait r:7a30-7a39@120\nlook 3 seen wait w:7a31\n\
        acquire 4 split wait turns=3 w:016b7a w:7a00-7aff\npoison put\ncheck scan r:7a31@120\nmetrics\nrelease put\nwait scan\nrelease scan\n\
        wait seen\nrelease seen\nwait split\nrelease split\nacquire 1 again wait w:61\nrelease again\nend\n";
    for _ in 0..20 {
        assert!(rt; entries_of_run(&rt, rt.alloc(), text) == 10);
    }
    Ok(())
}
