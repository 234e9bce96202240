// Sessions run beside each other: gates that need it, many that wait for one, and many short runs.
use crate::gates::{Hold, Holding, Moment};
use crate::watched::{Watch, watched};
use latch_manager::gate::{Gate, NoGate};
use latch_model::history::{Entry, History};
use latch_model::legality::legal_so_far;
use replay::run::replay;
use report::Summary;
use script::{Script, TEXT_LIMIT, read_script};
use std::alloc::{AllocError, Global};
use std::process::Abort;
use std::sync::Wait;
use std::test::Fail;
use std::thread::Threads;

/// The script that these bytes spell.
pub(crate) fn script_of(rt: &impl Abort, alloc: Global, text: &[u8]) -> Script {
    assert!(rt; text.len() <= TEXT_LIMIT);
    match read_script(alloc, text) {
        Ok(script) => script,
        Err(_) => panic!(rt; "it is a script"),
    }
}

/// The history of a run with this gate, which is legal.
pub(crate) fn history_of<G: Gate, R: Threads + Wait + Sync + Abort>(
    rt: &R,
    alloc: Global,
    text: &[u8],
    gate: &G,
) -> History {
    let script = script_of(rt, alloc, text);
    let Ok(history) = replay(rt, alloc, &script, gate) else {
        panic!(rt; "there is memory")
    };
    assert!(rt; legal_so_far(history.entries.as_slice(), &history.sizes));
    history
}

// Two sessions that don't meet.
const APART: &[u8] =
    b"latch script 1\nacquire 1 a wait w:61\nacquire 2 b wait w:62\nrelease a\nrelease b\nend\n";

// How many requests were granted in a run of the script, in which no hold ran out.
fn granted_apart<R: Threads + Wait + Sync + Abort>(rt: &R, alloc: Global, holds: &[Hold]) -> u64 {
    let gate = Holding::new(holds);
    let history = history_of(rt, alloc, APART, &gate);
    assert!(rt; gate.ran_out() == 0);
    Summary::of(history.entries.as_slice()).granted
}

#[test]
fn each_release_waits_for_the_other_session(rt: HostRuntime) -> Result<(), Fail> {
    let holds = [
        Hold {
            at: Moment::Before(4),
            until: Moment::After(3),
        },
        Hold {
            at: Moment::Before(5),
            until: Moment::After(2),
        },
    ];
    assert!(&rt; granted_apart(&rt, rt.alloc(), &holds) == 2);
    Ok(())
}

#[test]
fn each_answer_waits_for_the_other_session(rt: HostRuntime) -> Result<(), Fail> {
    let holds = [
        Hold {
            at: Moment::After(2),
            until: Moment::Before(3),
        },
        Hold {
            at: Moment::After(3),
            until: Moment::Before(2),
        },
    ];
    assert!(&rt; granted_apart(&rt, rt.alloc(), &holds) == 2);
    Ok(())
}

// In front of the first release the manager counts two writes, and the second waits for that.
#[test]
fn both_are_held_at_one_moment(rt: HostRuntime) -> Result<(), Fail> {
    let script = script_of(&rt, rt.alloc(), APART);
    let holds = [
        Hold {
            at: Moment::Before(4),
            until: Moment::After(3),
        },
        Hold {
            at: Moment::Before(5),
            until: Moment::Held,
        },
    ];
    let watch = Watch {
        holds: &holds,
        line: 4,
        held: 2,
    };
    let (history, ran_out) = watched(&rt, rt.alloc(), &script, &watch);
    assert!(&rt; ran_out == 0);
    assert!(&rt; Summary::of(history.entries.as_slice()).granted == 2);
    Ok(())
}

fn push_number(text: &mut Vec<u8>, n: u32) -> Result<(), AllocError> {
    let mut digits = itoa::Buffer::new();
    text.extend_from_slice(digits.format(n).as_bytes())
}

// A line of two words with a number behind each: `acquire 3 q3`, and then these bytes.
fn push_opening(
    text: &mut Vec<u8>,
    session: u32,
    name: u32,
    rest: &[u8],
) -> Result<(), AllocError> {
    text.extend_from_slice(b"acquire ")?;
    push_number(text, session)?;
    text.extend_from_slice(b" q")?;
    push_number(text, name)?;
    text.extend_from_slice(rest)
}

fn push_release(text: &mut Vec<u8>, name: u32) -> Result<(), AllocError> {
    text.extend_from_slice(b"release q")?;
    push_number(text, name)?;
    text.extend_from_slice(b"\n")
}

// Session 1 writes a key that the 63 other sessions read.
fn one_and_many(alloc: Global) -> Result<Vec<u8>, AllocError> {
    let mut text = Vec::from_slice(alloc, b"latch script 1\n")?;
    push_opening(&mut text, 1, 1, b" wait w:61\n")?;
    for session in 2..=64 {
        push_opening(&mut text, session, session, b" wait r:61\n")?;
    }
    for session in 1..=64 {
        push_release(&mut text, session)?;
    }
    text.extend_from_slice(b"end\n")?;
    Ok(text)
}

// The others begin behind the writer's grant.
fn behind_the_first(alloc: Global) -> Result<Vec<Hold>, AllocError> {
    let mut holds = Vec::new(alloc);
    for line in 3..=65 {
        holds.push(Hold {
            at: Moment::Before(line),
            until: Moment::After(2),
        })?;
    }
    Ok(holds)
}

fn is_end_of(entry: &Entry, request: u64) -> bool {
    match entry {
        Entry::Begun { .. } => false,
        Entry::Ended { id, .. } => *id == request,
    }
}

// The writer is released when all others have begun. All of them are granted then.
#[test]
fn sixty_three_wait_for_one(rt: HostRuntime) -> Result<(), Fail> {
    let alloc = rt.alloc();
    let text = one_and_many(alloc)?;
    let holds = behind_the_first(alloc)?;
    let script = script_of(&rt, alloc, text.as_slice());
    let watch = Watch {
        holds: holds.as_slice(),
        line: 66,
        held: 64,
    };
    let (history, ran_out) = watched(&rt, alloc, &script, &watch);
    let entries = history.entries.as_slice();
    assert!(&rt; ran_out == 0);
    assert!(&rt; legal_so_far(entries, &history.sizes));
    assert!(&rt; entries.len() == 128 && is_end_of(&entries[64], 1));
    assert!(&rt; Summary::of(entries).granted == 64);
    Ok(())
}

// Each of 64 sessions writes one key, round after round.
fn all_write_one(alloc: Global, rounds: u32) -> Result<Vec<u8>, AllocError> {
    let mut text = Vec::from_slice(alloc, b"latch script 1\n")?;
    for round in 0..rounds {
        for session in 1..=64 {
            let name = round.wrapping_mul(64).wrapping_add(session);
            push_opening(&mut text, session, name, b" wait w:61\n")?;
            push_release(&mut text, name)?;
        }
    }
    text.extend_from_slice(b"end\n")?;
    Ok(text)
}

#[test]
fn sixty_four_write_one_key(rt: HostRuntime) -> Result<(), Fail> {
    let text = all_write_one(rt.alloc(), 20)?;
    let history = history_of(&rt, rt.alloc(), text.as_slice(), &NoGate);
    assert!(&rt; Summary::of(history.entries.as_slice()).granted == 1280);
    Ok(())
}

/// The next of some numbers that look random.
pub(crate) fn next_number(seed: &mut u64) -> u32 {
    *seed = seed
        .wrapping_mul(6364136223846793005)
        .wrapping_add(1442695040888963407);
    (*seed >> 40) as u32
}

// What the request of a short script does, by a number: behind the word of its mode and its name, the rest of its opening and its next lines up to the release.
fn push_request(text: &mut Vec<u8>, session: u32, name: u32, kind: u32) -> Result<(), AllocError> {
    let (word, rest, more): (&[u8], &[u8], &[u8]) = match kind % 10 {
        0 => (b"acquire ", b" wait w:61\n", b""),
        1 => (b"acquire ", b" wait r:61@5 r:62\n", b"poison q"),
        2 => (b"acquire ", b" error w:62\n", b""),
        3 => (b"acquire ", b" wait turns=1 w:61-63\n", b""),
        4 => (b"optimistic ", b" wait r:61\n", b"wait q"),
        5 => (b"optimistic ", b" error w:62@7\n", b"wait q"),
        6 => (b"look ", b" wait w:61\n", b""),
        7 => (b"acquire ", b" wait w:61 w:62@3\n", b"poison q"),
        8 => (b"optimistic ", b" wait turns=2 w:62\n", b"poison q"),
        _ => (b"look ", b" error r:62@9\n", b""),
    };
    text.extend_from_slice(word)?;
    push_number(text, session)?;
    text.extend_from_slice(b" q")?;
    push_number(text, name)?;
    text.extend_from_slice(rest)?;
    if !more.is_empty() {
        text.extend_from_slice(more)?;
        push_number(text, name)?;
        text.extend_from_slice(b"\n")?;
    }
    push_release(text, name)
}

// Two requests of each of four sessions, of kinds by a number.
fn short_script(alloc: Global, seed: &mut u64) -> Result<Vec<u8>, AllocError> {
    let mut text = Vec::from_slice(alloc, b"latch script 1\n")?;
    for name in 0..8 {
        push_request(&mut text, name % 4 + 1, name, next_number(seed))?;
    }
    text.extend_from_slice(b"end\n")?;
    Ok(text)
}

// Two hundred runs of such scripts, whose kinds are told by this number. A run starts a thread for each of its 64 sessions, so a
// thousand runs in one test are too many for its time where other work goes on beside it.
fn short_runs<R: Threads + Wait + Sync + Abort>(
    rt: &R,
    alloc: Global,
    first: u64,
) -> Result<(), AllocError> {
    let mut seed = first;
    for _ in 0..200 {
        let text = short_script(alloc, &mut seed)?;
        let history = history_of(rt, alloc, text.as_slice(), &NoGate);
        assert!(rt; history.entries.len() == 16);
    }
    Ok(())
}

#[test]
fn short_runs_from_1(rt: HostRuntime) -> Result<(), Fail> {
    short_runs(&rt, rt.alloc(), 1)?;
    Ok(())
}

#[test]
fn short_runs_from_2(rt: HostRuntime) -> Result<(), Fail> {
    short_runs(&rt, rt.alloc(), 2)?;
    Ok(())
}

#[test]
fn short_runs_from_3(rt: HostRuntime) -> Result<(), Fail> {
    short_runs(&rt, rt.alloc(), 3)?;
    Ok(())
}

#[test]
fn short_runs_from_4(rt: HostRuntime) -> Result<(), Fail> {
    short_runs(&rt, rt.alloc(), 4)?;
    Ok(())
}

#[test]
fn short_runs_from_5(rt: HostRuntime) -> Result<(), Fail> {
    short_runs(&rt, rt.alloc(), 5)?;
    Ok(())
}
