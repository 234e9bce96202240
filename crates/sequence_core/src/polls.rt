// A request that waits for several others goes on from one to the next.
ghost use Rattle.std.specs.Prelude.{◌≡◌};
ghost use Rattle.waiter.specs.Says.{id_of};

use crate::sessions::{begin, close_four, end, four_sessions, request};
use latch_model::history::Sizes;
use latch_model::latch::{Access, Mode, Policy};
use std::process::Abort;
use std::test::Fail;
use waiter::{Core, Polled, Waiting};

// It is blocked by the first latch of this request, also when it is asked again, and sleeps at another one.
fn is_blocked(rt: &impl Abort, core: &Core, waiting: &mut Waiting, by: u64, last: u64)
    requires core { waiting.old.core ≡ id_of core.now }
    ensures same { (waiting.new.core ≡ waiting.old.core) × (waiting.new.r.who ≡ waiting.old.r.who) }
{
    'twice: for _ in 0..2 {
        let polled = waiting.poll(core);
        assert_eq!(rt; polled, Polled::Blocked { by, place: 0 });
        match waiting.mark() {
            Some(mark) => assert_eq!(rt; mark.by, by),
            None => panic!(rt; "it has met a latch"),
        }
    }
    match waiting.poll(core) {
        Polled::Blocked { by: _, place: _ } => assert_eq!(rt; waiting.last_open(core), last),
        Polled::Ready | Polled::Poisoned { by: _, place: _ } => panic!(rt; "it is blocked"),
    }
}

#[test]
fn a_poll_goes_on_where_it_was_blocked(rt: HostRuntime) -> Result<(), Fail> {
    let alloc = rt.alloc();
    let sizes = Sizes {
        latches: 100,
        lanes: 4,
        rows: 500,
    };
    let (core, mut desk, mut one, mut two, mut three, mut four) = four_sessions(&rt, alloc, sizes);
    let c = request(&rt, alloc, Access::Write, Policy::Wait, b'c', 1);
    let a = request(&rt, alloc, Access::Write, Policy::Wait, b'a', 1);
    let b = request(&rt, alloc, Access::Write, Policy::Wait, b'b', 1);
    let all = request(&rt, alloc, Access::Write, Policy::Wait, b'a', 3);
    let first = begin(&rt, alloc, &core, &mut desk, &mut one, c, Mode::Acquire);
    let second = begin(&rt, alloc, &core, &mut desk, &mut two, a, Mode::Acquire);
    let third = begin(&rt, alloc, &core, &mut desk, &mut three, b, Mode::Acquire);
    let mut waiting = begin(&rt, alloc, &core, &mut desk, &mut four, all, Mode::Acquire).waiting();
    is_blocked(&rt, &core, &mut waiting, 2, 1);
    end(&core, &mut desk, &mut one, first);
    is_blocked(&rt, &core, &mut waiting, 2, 3);
    end(&core, &mut desk, &mut two, second);
    is_blocked(&rt, &core, &mut waiting, 3, 3);
    end(&core, &mut desk, &mut three, third);
    match waiting.prerequisites(alloc, &core) {
        Ok(ids) => assert_eq!(&rt; ids.as_slice(), [1, 2, 3].as_slice()),
        Err(_) => panic!(&rt; "no memory"),
    }
    let ending = match waiting.poll(&core) {
        Polled::Ready => waiting.grant(&core).finish(),
        Polled::Blocked { by: _, place: _ } | Polled::Poisoned { by: _, place: _ } => {
            panic!(&rt; "it is ready")
        }
    };
    desk.end(&core, &mut four, ending);
    assert_eq!(&rt; desk.metrics().free, 500);
    let history = close_four(&rt, alloc, core, desk, one, two, three, four);
    assert_eq!(&rt; history.entries.len(), 8);
    Ok(())
}
