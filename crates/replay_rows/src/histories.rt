// The six histories of two sessions that write one key.
use crate::gates::{Hold, Holding, Moment};
use crate::runs::{history_of, script_of};
use crate::watched::{Watch, watched};
use latch_manager::gate::{Gate, NoGate};
use latch_model::history::History;
use latch_model::legality::legal_so_far;
use report::render;
use std::alloc::Global;
use std::process::Abort;
use std::sync::Wait;
use std::test::Fail;
use std::thread::Threads;

const TEXT: &[u8] =
    b"latch script 1\nacquire 1 a wait w:61\nacquire 2 b wait w:61\nrelease a\nrelease b\nend\n";

// One after the other, with the session 1 first.
const ONE_TWO: &[u8] =
    b"latch report 1\nbegin 1 lane=0 session=1 line=2 acquire wait before=- w:61\nend 1 - - waited=1\n\
    begin 2 lane=0 session=2 line=3 acquire wait before=- w:61\nend 2 - - waited=3\n\
    requests 2 granted 2 checked 0 poisoned 0 cancelled 0 never 0\n";

// The second begins behind the grant of the first.
const ONE_HELD: &[u8] =
    b"latch report 1\nbegin 1 lane=0 session=1 line=2 acquire wait before=- w:61\n\
    begin 2 lane=1 session=2 line=3 acquire wait before=1 w:61\nend 1 - - waited=1\nend 2 - - waited=3\n\
    requests 2 granted 2 checked 0 poisoned 0 cancelled 0 never 0\n";

// The second begins in front of the grant of the first.
pub(crate) const ONE_BEGUN: &[u8] =
    b"latch report 1\nbegin 1 lane=0 session=1 line=2 acquire wait before=- w:61\n\
    begin 2 lane=1 session=2 line=3 acquire wait before=1 w:61\nend 1 - - waited=2\nend 2 - - waited=3\n\
    requests 2 granted 2 checked 0 poisoned 0 cancelled 0 never 0\n";

const TWO_ONE: &[u8] =
    b"latch report 1\nbegin 1 lane=0 session=2 line=3 acquire wait before=- w:61\nend 1 - - waited=1\n\
    begin 2 lane=0 session=1 line=2 acquire wait before=- w:61\nend 2 - - waited=3\n\
    requests 2 granted 2 checked 0 poisoned 0 cancelled 0 never 0\n";

const TWO_HELD: &[u8] =
    b"latch report 1\nbegin 1 lane=0 session=2 line=3 acquire wait before=- w:61\n\
    begin 2 lane=1 session=1 line=2 acquire wait before=1 w:61\nend 1 - - waited=1\nend 2 - - waited=3\n\
    requests 2 granted 2 checked 0 poisoned 0 cancelled 0 never 0\n";

pub(crate) const TWO_BEGUN: &[u8] =
    b"latch report 1\nbegin 1 lane=0 session=2 line=3 acquire wait before=- w:61\n\
    begin 2 lane=1 session=1 line=2 acquire wait before=1 w:61\nend 1 - - waited=2\nend 2 - - waited=3\n\
    requests 2 granted 2 checked 0 poisoned 0 cancelled 0 never 0\n";

/// The report of a history, which is legal.
pub(crate) fn report_of(rt: &impl Abort, alloc: Global, history: &History) -> Vec<u8> {
    if !legal_so_far(history.entries.as_slice(), &history.sizes) {
        panic!(rt; "it is legal");
    }
    match render(alloc, history) {
        Ok(text) => text,
        Err(_) => panic!(rt; "there is memory"),
    }
}

fn is_one_of_six(text: &[u8]) -> bool {
    text == ONE_TWO
        || text == ONE_HELD
        || text == ONE_BEGUN
        || text == TWO_ONE
        || text == TWO_HELD
        || text == TWO_BEGUN
}

fn report_with<G: Gate, R: Threads + Wait + Sync + Abort>(
    rt: &R,
    alloc: Global,
    gate: &G,
) -> Vec<u8> {
    report_of(rt, alloc, &history_of(rt, alloc, TEXT, gate))
}

#[test]
fn each_run_is_one_of_six(rt: HostRuntime) -> Result<(), Fail> {
    for _ in 0..200 {
        let text = report_with(&rt, rt.alloc(), &NoGate);
        assert!(&rt; is_one_of_six(text.as_slice()));
    }
    Ok(())
}

// The report where one session begins behind this moment of the other.
fn one_after_the_other<R: Threads + Wait + Sync + Abort>(
    rt: &R,
    alloc: Global,
    begins: u32,
    behind: u32,
) -> Vec<u8> {
    let holds = [Hold {
        at: Moment::Before(begins),
        until: Moment::After(behind),
    }];
    let gate = Holding::new(&holds);
    let text = report_with(rt, alloc, &gate);
    assert!(rt; gate.ran_out() == 0);
    text
}

#[test]
fn one_session_after_the_other(rt: HostRuntime) -> Result<(), Fail> {
    assert!(&rt; one_after_the_other(&rt, rt.alloc(), 3, 4).as_slice() == ONE_TWO);
    assert!(&rt; one_after_the_other(&rt, rt.alloc(), 2, 5).as_slice() == TWO_ONE);
    Ok(())
}

// The report where one session begins behind the grant of the other, and that one's release behind this begin.
fn one_behind_the_grant<R: Threads + Wait + Sync + Abort>(
    rt: &R,
    alloc: Global,
    begins: u32,
    behind: u32,
    release: u32,
) -> Vec<u8> {
    let holds = [Hold {
        at: Moment::Before(begins),
        until: Moment::After(behind),
    }];
    let script = script_of(rt, alloc, TEXT);
    let watch = Watch {
        holds: &holds,
        line: release,
        held: 2,
    };
    let (history, ran_out) = watched(rt, alloc, &script, &watch);
    assert!(rt; ran_out == 0);
    report_of(rt, alloc, &history)
}

#[test]
fn one_session_behind_the_grant_of_the_other(rt: HostRuntime) -> Result<(), Fail> {
    assert!(&rt; one_behind_the_grant(&rt, rt.alloc(), 3, 2, 4).as_slice() == ONE_HELD);
    assert!(&rt; one_behind_the_grant(&rt, rt.alloc(), 2, 3, 5).as_slice() == TWO_HELD);
    Ok(())
}
