// Two sessions whose requests conflict, in each order of what they do.
ghost use Rattle.std.specs.Prelude.{◌≡◌};
ghost use Rattle.waiter.specs.Says.{id_of};
ghost use Rattle.signal_board.specs.Rule.{open_count};

use crate::desk::Desk;
use crate::sessions::{begin, close, close_four, four_sessions, request, two_sessions};
use latch_model::history::{Cause, Fault, Sizes};
use latch_model::latch::{Access, Mode, Policy};
use signal_board::board::Pass;
use std::alloc::Global;
use std::process::Abort;
use std::test::Fail;
use waiter::{Checked, Core, Ending, Optimist, Polled, Waiting};

// What happens between the two begins and the last look of the second request: whether it polls before the first is poisoned, whether the
// first is poisoned, whether the second polls after that, and whether the first ends.
#[derive(Clone, Copy)]
struct Course {
    polls_early: bool,
    poisons: bool,
    polls_again: bool,
    ends: bool,
}

// A request that ends, granted where its last poll was Ready.
pub(crate) fn over(core: &Core, waiting: Waiting) -> Ending
    requires { waiting.core ≡ id_of core.now }
    ensures { (result.core ≡ waiting.core) × (result.r.who ≡ waiting.r.who) }
{
    if waiting.is_ready() {
        waiting.grant(core).finish()
    } else {
        let (ending, _) = waiting.abandon(core, Fault::None);
        ending
    }
}

// A request of as many keys that waits.
fn waits(
    rt: &impl Abort,
    alloc: Global,
    core: &Core,
    desk: &mut Desk,
    pass: &mut Pass,
    access: Access,
    policy: Policy,
    first: u8,
    count: u8,
) -> Waiting
    requires tables { (desk.old.core ≡ id_of core.now) × (pass.old.table ≡ core.now.board.table) }
    requires idle { open_count pass.old.p.mine ≡ 0 }
    ensures desk { (desk.new.core ≡ desk.old.core) × (desk.new.given ≡ desk.old.given) }
    ensures pass { (pass.new.table ≡ pass.old.table) × (pass.new.p.who ≡ pass.old.p.who) }
    ensures waiting { (result.core ≡ id_of core.now) × (result.r.who ≡ pass.old.p.who) }
{
    let request = request(rt, alloc, access, policy, first, count);
    begin(rt, alloc, core, desk, pass, request, Mode::Acquire).waiting()
}

// It ends.
fn ends(core: &Core, desk: &mut Desk, pass: &mut Pass, waiting: Waiting)
    requires tables { (desk.old.core ≡ id_of core.now) × (pass.old.table ≡ core.now.board.table) × (waiting.core ≡ id_of core.now) }
    requires session { waiting.r.who ≡ pass.old.p.who }
    ensures desk { (desk.new.core ≡ desk.old.core) × (desk.new.given ≡ desk.old.given) }
    ensures pass { (pass.new.table ≡ pass.old.table) × (pass.new.p.who ≡ pass.old.p.who) × (open_count pass.new.p.mine ≡ 0) }
{
    let ending = over(core, waiting);
    desk.end(core, pass, ending);
}

// Polls, where it is to.
fn may_poll(core: &Core, waiting: &mut Waiting, polls: bool)
    requires table { waiting.old.core ≡ id_of core.now }
    ensures same { (waiting.new.core ≡ waiting.old.core) × (waiting.new.r.who ≡ waiting.old.r.who) }
{
    if polls {
        let _ = waiting.poll(core);
    }
}

// Is poisoned, where it is to be.
fn may_poison(core: &Core, waiting: &mut Waiting, poisons: bool)
    requires table { waiting.old.core ≡ id_of core.now }
    ensures same { (waiting.new.core ≡ waiting.old.core) × (waiting.new.r.who ≡ waiting.old.r.who) }
{
    if poisons {
        waiting.poison(core);
    }
}

// The last look of the second request, and its cause then.
fn last_look(core: &Core, waiting: &mut Waiting) -> (Polled, Cause)
    requires table { waiting.old.core ≡ id_of core.now }
    ensures same { (waiting.new.core ≡ waiting.old.core) × (waiting.new.r.who ≡ waiting.old.r.who) }
{
    let polled = waiting.poll(core);
    (polled, waiting.cause())
}

// Both requests begin, the first before the second, and both end, the first before or after the second's last look.
fn in_turn(
    rt: &impl Abort,
    alloc: Global,
    first: Access,
    second: Access,
    policy: Policy,
    course: Course,
) -> (Polled, Cause) {
    let sizes = Sizes {
        latches: 2,
        lanes: 2,
        rows: 208,
    };
    let (core, mut desk, mut one, mut two) = two_sessions(rt, alloc, sizes);
    let mut a = waits(
        rt,
        alloc,
        &core,
        &mut desk,
        &mut one,
        first,
        Policy::Wait,
        b'a',
        1,
    );
    let mut b = waits(
        rt, alloc, &core, &mut desk, &mut two, second, policy, b'a', 1,
    );
    may_poll(&core, &mut b, course.polls_early);
    may_poison(&core, &mut a, course.poisons);
    may_poll(&core, &mut b, course.polls_again);
    let seen = if course.ends {
        ends(&core, &mut desk, &mut one, a);
        let seen = last_look(&core, &mut b);
        ends(&core, &mut desk, &mut two, b);
        seen
    } else {
        let seen = last_look(&core, &mut b);
        ends(&core, &mut desk, &mut two, b);
        ends(&core, &mut desk, &mut one, a);
        seen
    };
    let history = close(rt, alloc, core, desk, one, two);
    assert_eq!(rt; history.entries.len(), 4);
    seen
}

// What the second request is to find: it is ready where the first has ended; else it is blocked by the first, or poisoned by it under the
// policy for that. It has a cause from the first where it met it poisoned and open under the policy to wait.
fn expected(policy: Policy, course: Course) -> (Polled, Cause) {
    let met_poisoned = course.poisons && (course.polls_again || !course.ends);
    let cause = if met_poisoned && policy == Policy::Wait {
        Cause::From(1)
    } else {
        Cause::None
    };
    let polled = if course.ends {
        Polled::Ready
    } else if course.poisons && policy == Policy::Error {
        Polled::Poisoned { by: 1, place: 0 }
    } else {
        Polled::Blocked { by: 1, place: 0 }
    };
    (polled, cause)
}

// Two writes, a read before a write and a write before a read, in each order of polls, poison and end.
#[test]
fn each_order(rt: HostRuntime) -> Result<(), Fail> {
    let accesses = [
        (Access::Write, Access::Write),
        (Access::Read, Access::Write),
        (Access::Write, Access::Read),
    ];
    for (first, second) in accesses {
        for policy in [Policy::Wait, Policy::Error] {
            for order in 0u8..16 {
                let course = Course {
                    polls_early: order & 1 != 0,
                    poisons: order & 2 != 0,
                    polls_again: order & 4 != 0,
                    ends: order & 8 != 0,
                };
                let seen = in_turn(&rt, rt.alloc(), first, second, policy, course);
                assert_eq!(&rt; seen, expected(policy, course));
            }
        }
    }
    Ok(())
}

// Three requests wait for one another in a row. The first is poisoned, by which the second is poisoned as it polls. The third hears that of
// the second, and is poisoned by it as it polls.
fn spreads(rt: &impl Abort, alloc: Global) {
    let sizes = Sizes {
        latches: 4,
        lanes: 4,
        rows: 208,
    };
    let (core, mut desk, mut one, mut two, mut three, four) = four_sessions(rt, alloc, sizes);
    let mut a = waits(
        rt,
        alloc,
        &core,
        &mut desk,
        &mut one,
        Access::Write,
        Policy::Wait,
        b'a',
        1,
    );
    let mut b = waits(
        rt,
        alloc,
        &core,
        &mut desk,
        &mut two,
        Access::Write,
        Policy::Wait,
        b'a',
        2,
    );
    let mut c = waits(
        rt,
        alloc,
        &core,
        &mut desk,
        &mut three,
        Access::Write,
        Policy::Wait,
        b'b',
        1,
    );
    may_poison(&core, &mut a, true);
    let seen = last_look(&core, &mut b);
    assert_eq!(rt; seen, (Polled::Blocked { by: 1, place: 0 }, Cause::From(1)));
    c.hear_waiting(&core, &mut b);
    let seen = last_look(&core, &mut c);
    assert_eq!(rt; seen, (Polled::Blocked { by: 2, place: 1 }, Cause::From(2)));
    ends(&core, &mut desk, &mut three, c);
    ends(&core, &mut desk, &mut two, b);
    ends(&core, &mut desk, &mut one, a);
    let history = close_four(rt, alloc, core, desk, one, two, three, four);
    assert_eq!(rt; history.entries.len(), 6);
}

#[test]
fn poison_spreads(rt: HostRuntime) -> Result<(), Fail> {
    spreads(&rt, rt.alloc());
    Ok(())
}

// A request checks a latch that a request in front of it holds, and turns to waiting: it is blocked until that one has ended.
fn turns_to_waiting(rt: &impl Abort, alloc: Global) {
    let sizes = Sizes {
        latches: 2,
        lanes: 2,
        rows: 208,
    };
    let (core, mut desk, mut one, mut two) = two_sessions(rt, alloc, sizes);
    let a = waits(
        rt,
        alloc,
        &core,
        &mut desk,
        &mut one,
        Access::Write,
        Policy::Wait,
        b'p',
        1,
    );
    let reads = request(rt, alloc, Access::Read, Policy::Wait, b'p', 1);
    let mut b = begin(
        rt,
        alloc,
        &core,
        &mut desk,
        &mut two,
        reads,
        Mode::Optimistic,
    )
    .optimist();
    checks(rt, alloc, &core, &mut b);
    let mut b = b.into_waiting();
    let seen = last_look(&core, &mut b);
    assert_eq!(rt; seen, (Polled::Blocked { by: 1, place: 0 }, Cause::None));
    ends(&core, &mut desk, &mut one, a);
    let seen = last_look(&core, &mut b);
    assert_eq!(rt; seen, (Polled::Ready, Cause::None));
    ends(&core, &mut desk, &mut two, b);
    let _ = close(rt, alloc, core, desk, one, two);
}

// It waits for request 1 alone, and meets its latch.
fn checks(rt: &impl Abort, alloc: Global, core: &Core, b: &mut Optimist)
    requires table { b.old.core ≡ id_of core.now }
    ensures same { (b.new.core ≡ b.old.core) × (b.new.r.who ≡ b.old.r.who) }
{
    let Ok(before) = b.prerequisites(alloc, core) else {
        panic!(rt; "no memory")
    };
    assert_eq!(rt; before.as_slice(), [1].as_slice());
    let Ok(asked) = b.request().latches().copy(alloc) else {
        panic!(rt; "no memory")
    };
    match b.check(core, asked) {
        Checked::Met {
            by,
            place,
            asked: _,
        } => assert_eq!(rt; (by, place), (1, 0)),
        Checked::Clear | Checked::NotDeclared { index: _, asked: _ } => panic!(rt; "it is held"),
    }
}

#[test]
fn met_turns_to_waiting(rt: HostRuntime) -> Result<(), Fail> {
    turns_to_waiting(&rt, rt.alloc());
    Ok(())
}
