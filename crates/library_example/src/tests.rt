use super::*;
use latch_model::{Cause, Fault, Grant, Latches, Mode, Policy, Request};
use std::test::Fail;

const NOON: Stamp = Stamp {
    wall: 100,
    logical: 0,
};

#[test]
fn a_write_waits_for_a_read_of_a_common_key(rt: HostRuntime) -> Result<(), Fail> {
    let alloc = rt.alloc();
    let scan = latch(alloc, Access::Read, b"a", b"m", NOON)?;
    let put = latch(alloc, Access::Write, b"k", b"", NOON)?;
    let far = latch(alloc, Access::Write, b"m", b"", NOON)?;
    assert!(rt; must_wait(&put, &[scan.copy(alloc)?]));
    assert!(rt; !must_wait(&far, &[scan.copy(alloc)?, put]));
    assert!(rt; !must_wait(&scan, &[far]));
    Ok(())
}

#[test]
fn bytes_that_make_no_latch_are_refused(rt: HostRuntime) {
    let alloc = rt.alloc();
    for (key, end, why) in [
        ([7; 257].as_slice(), b"".as_slice(), NoLatch::TooLong),
        (b"a", &[7; 257], NoLatch::TooLong),
        (b"b", b"b", NoLatch::NoKeys),
    ] {
        let made = latch(alloc, Access::Read, key, end, NOON);
        assert!(rt; made.err() == Some(why), "{why:?}");
    }
}

#[test]
fn a_script_is_read_or_its_first_fault_is_named(rt: HostRuntime) -> Result<(), Fail> {
    let alloc = rt.alloc();
    let good = b"latch script 1\nacquire 1 a wait w:61\nrelease a\nend\n";
    assert_eq!(rt; first_fault(alloc, good)?, None);
    let open = b"latch script 1\nacquire 1 a wait w:61\nend\n";
    let fault = ScriptFault { line: 3, cause: 16 };
    assert_eq!(rt; first_fault(alloc, open)?, Some(fault));
    Ok(())
}

// A history in which request 1 writes the key `a` and is granted when the history has `front` entries.
fn write_granted_at(alloc: Global, front: u64) -> Result<Vec<Entry>, Fail> {
    let asked = latch(alloc, Access::Write, b"a", b"", Stamp::EMPTY)?;
    let latches = Latches::new(Vec::from_array(alloc, [asked])?)?;
    let request = match Request::new(alloc, 7, Policy::Wait, latches) {
        Ok(request) => request,
        Err(_) => return Err(Fail::from("memory")),
    };
    let begin = Entry::Begun {
        id: 1,
        lane: 0,
        who: 1,
        mode: Mode::Acquire,
        request,
    };
    let end = Entry::Ended {
        id: 1,
        who: 1,
        grant: Grant::Waited(front),
        poison: Cause::None,
        fault: Fault::None,
    };
    Ok(Vec::from_array(alloc, [begin, end])?)
}

#[test]
fn a_history_is_judged(rt: HostRuntime) -> Result<(), Fail> {
    let sizes = Sizes {
        latches: 16,
        lanes: 4,
        rows: 208,
    };
    let kept = write_granted_at(rt.alloc(), 1)?;
    assert!(rt; kept_the_rules(kept.as_slice(), &sizes));
    // A grant cannot come in front of the begin.
    let broken = write_granted_at(rt.alloc(), 0)?;
    assert!(rt; !kept_the_rules(broken.as_slice(), &sizes));
    Ok(())
}
