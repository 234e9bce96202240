// A manager of two sessions: requests for which there is no place or are no rows, and two that begin before either waits.
ghost use Rattle.std.specs.Prelude.{◌≡◌, ◌<◌, ◌≤◌, ◌+◌, ◌∷◌, ◌++◌, [], vec_len, vec_capacity};
ghost use Rattle.sequence_core.specs.Says.{AreFresh};
ghost use Rattle.signal_board.specs.Rule.{open_count};
ghost use Rattle.waiter.specs.Says.{id_of};
ghost use Rattle.replay_rows.specs.Idles.{IsIdle, IsOf};

use crate::histories::{ONE_BEGUN, TWO_BEGUN, report_of};
use hlc_stamp::Stamp;
use latch_manager::manager::{AcquireFault, Making, Manager};
use latch_manager::patience::Endless;
use latch_model::history::{History, Sizes};
use latch_model::latch::{Access, Latch, Latches, Mode, Policy};
use latch_model::request::Request;
use sequence_core::desk::{Desk, SeqRefusal};
use sequence_core::fault::SeqFault;
use sequence_core::limits::FEWEST_ROWS;
use signal_board::board::Pass;
use span_key::{Key, Span};
use std::alloc::{AllocFailed, Global};
use std::marker::Brand;
use std::process::Abort;
use std::sync::Wait;
use std::test::Fail;
use waiter::{Core, Granted, Waiting};

// A request of so many latches, on keys of one byte from this one on. Its tag is that of a line.
fn request(
    rt: &impl Abort,
    alloc: Global,
    tag: u32,
    access: Access,
    first: u8,
    count: u8,
) -> Request {
    let mut list = Vec::new(alloc);
    for i in 0..count {
        let Ok(key) = Key::new(alloc, &[first.wrapping_add(i)]) else {
            panic!(rt; "it is short")
        };
        let Ok(()) = list.push(Latch {
            access,
            span: Span::point(key),
            stamp: Stamp::EMPTY,
        }) else {
            panic!(rt; "there is memory")
        };
    }
    let Ok(latches) = Latches::new(list) else {
        panic!(rt; "they are few")
    };
    match Request::new(alloc, tag, Policy::Wait, latches) {
        Ok(request) => request,
        Err(_) => panic!(rt; "there is memory"),
    }
}

// The request of a refusal for this cause.
fn refused(rt: &impl Abort, refusal: SeqRefusal, cause: SeqFault) -> Request {
    let SeqRefusal { fault, request } = refusal;
    assert_eq!(rt; fault, cause);
    request
}

fn sequence_is_refused<N: Making, R: Wait + Abort>(
    rt: &R,
    alloc: Global,
    manager: &Manager<N>,
    pass: &mut Pass,
    request: Request,
    cause: SeqFault,
) -> Request
    requires { IsIdle N.made pass.old }
    ensures { IsIdle N.made pass.new × (pass.new.p.who ≡ pass.old.p.who) }
{
    match manager.sequence(rt, alloc, pass, request, Mode::Acquire) {
        Ok(_opened) => panic!(rt; "there is no place"),
        Err(refusal) => refused(rt, refusal, cause),
    }
}

fn acquire_is_refused<N: Making, R: Wait + Abort>(
    rt: &R,
    alloc: Global,
    manager: &Manager<N>,
    pass: &mut Pass,
    request: Request,
    cause: SeqFault,
) -> Request
    requires { IsIdle N.made pass.old }
    ensures { IsIdle N.made pass.new × (pass.new.p.who ≡ pass.old.p.who) }
{
    match manager.acquire(rt, alloc, pass, request, &mut Endless) {
        Err(AcquireFault::Seq(refusal)) => refused(rt, refusal, cause),
        Ok(_granted) => panic!(rt; "there is no place"),
        Err(_) => panic!(rt; "it didn't wait"),
    }
}

fn optimistic_is_refused<N: Making, R: Wait + Abort>(
    rt: &R,
    alloc: Global,
    manager: &Manager<N>,
    pass: &mut Pass,
    request: Request,
    cause: SeqFault,
) -> Request
    requires { IsIdle N.made pass.old }
    ensures { IsIdle N.made pass.new × (pass.new.p.who ≡ pass.old.p.who) }
{
    match manager.optimistic(rt, alloc, pass, request) {
        Ok(_optimist) => panic!(rt; "there is no place"),
        Err(refusal) => refused(rt, refusal, cause),
    }
}

fn looks<N: Making, R: Wait + Abort>(
    rt: &R,
    alloc: Global,
    manager: &Manager<N>,
    pass: &mut Pass,
    request: Request,
)
    requires { IsIdle N.made pass.old }
    ensures { IsIdle N.made pass.new × (pass.new.p.who ≡ pass.old.p.who) }
{
    match manager.wait_for(rt, alloc, pass, request, &mut Endless) {
        Ok(id) => {
            assert!(rt; id == 2);
        }
        Err(_) => panic!(rt; "its key is free"),
    }
}

fn begun<N: Making, R: Wait + Abort>(
    rt: &R,
    alloc: Global,
    manager: &Manager<N>,
    pass: &mut Pass,
    request: Request,
) -> Waiting
    requires { IsIdle N.made pass.old }
    ensures pass { IsOf N.made pass.old.p.who pass.new }
    ensures waiting { (result.core ≡ N.made.core) × (result.r.who ≡ pass.old.p.who) }
{
    match manager.sequence(rt, alloc, pass, request, Mode::Acquire) {
        Ok(opened) => opened.waiting(),
        Err(_) => panic!(rt; "there is place"),
    }
}

fn granted<N: Making, R: Wait + Abort>(
    rt: &R,
    manager: &Manager<N>,
    pass: &mut Pass,
    waiting: Waiting,
) -> Granted
    requires pass { pass.old.table ≡ N.made.core.signals }
    requires waiting { (waiting.core ≡ N.made.core) × (waiting.r.who ≡ pass.old.p.who) }
    ensures pass { IsOf N.made pass.old.p.who pass.new }
    ensures granted { (result.core ≡ N.made.core) × (result.r.who ≡ pass.old.p.who) }
{
    match manager.wait(rt, pass, waiting, &mut Endless) {
        Ok(granted) => granted,
        Err(_) => panic!(rt; "it is granted"),
    }
}

fn released<N: Making, R: Wait>(rt: &R, manager: &Manager<N>, pass: &mut Pass, granted: Granted)
    requires pass { pass.old.table ≡ N.made.core.signals }
    requires granted { (granted.core ≡ N.made.core) × (granted.r.who ≡ pass.old.p.who) }
    ensures { IsIdle N.made pass.new × (pass.new.p.who ≡ pass.old.p.who) }
{
    manager.release(rt, pass, granted);
}

// While one request holds 16 latches no other one begins, for this cause, by any of the calls. A look for a free key does.
fn one_holds_all<N: Making, R: Wait + Abort>(
    rt: &R,
    alloc: Global,
    manager: &Manager<N>,
    one: &mut Pass,
    two: &mut Pass,
    access: Access,
    cause: SeqFault,
)
    requires one { IsIdle N.made one.old }
    requires two { IsIdle N.made two.old }
    ensures one { IsIdle N.made one.new × (one.new.p.who ≡ one.old.p.who) }
    ensures two { IsIdle N.made two.new × (two.new.p.who ≡ two.old.p.who) }
{
    let all = request(rt, alloc, 2, access, b'a', 16);
    let waiting = begun(rt, alloc, manager, one, all);
    let held = granted(rt, manager, one, waiting);
    let single = request(rt, alloc, 3, access, b'z', 1);
    let single = sequence_is_refused(rt, alloc, manager, two, single, cause);
    let single = acquire_is_refused(rt, alloc, manager, two, single, cause);
    let single = optimistic_is_refused(rt, alloc, manager, two, single, cause);
    looks(rt, alloc, manager, two, single);
    released(rt, manager, one, held);
}

// No row is free while they are held, and all are once they aren't.
fn rows_run_out<N: Making, R: Wait + Abort>(
    rt: &R,
    alloc: Global,
    manager: &Manager<N>,
    one: &mut Pass,
    two: &mut Pass,
)
    requires one { IsIdle N.made one.old }
    requires two { IsIdle N.made two.old }
    ensures one { IsIdle N.made one.new × (one.new.p.who ≡ one.old.p.who) }
    ensures two { IsIdle N.made two.new × (two.new.p.who ≡ two.old.p.who) }
{
    let cause = SeqFault::RowsOut { free: 0, need: 13 };
    one_holds_all(rt, alloc, manager, one, two, Access::Read, cause);
    assert_eq!(rt; manager.metrics(rt).free, FEWEST_ROWS);
    let single = request(rt, alloc, 3, Access::Read, b'z', 1);
    let waiting = begun(rt, alloc, manager, two, single);
    assert_eq!(rt; manager.metrics(rt).free, FEWEST_ROWS - 13);
    let held = granted(rt, manager, two, waiting);
    released(rt, manager, two, held);
    assert_eq!(rt; manager.metrics(rt).free, FEWEST_ROWS);
}

// The first session begins, and then the second, before either waits.
fn both_begin<N: Making, R: Wait + Abort>(
    rt: &R,
    alloc: Global,
    manager: &Manager<N>,
    one: &mut Pass,
    two: &mut Pass,
    tag: u32,
    then: u32,
)
    requires one { IsIdle N.made one.old }
    requires two { IsIdle N.made two.old }
    ensures one { IsIdle N.made one.new × (one.new.p.who ≡ one.old.p.who) }
    ensures two { IsIdle N.made two.new × (two.new.p.who ≡ two.old.p.who) }
{
    let first = begun(
        rt,
        alloc,
        manager,
        one,
        request(rt, alloc, tag, Access::Write, b'a', 1),
    );
    let second = begun(
        rt,
        alloc,
        manager,
        two,
        request(rt, alloc, then, Access::Write, b'a', 1),
    );
    let first = granted(rt, manager, one, first);
    released(rt, manager, one, first);
    let second = granted(rt, manager, two, second);
    released(rt, manager, two, second);
}

/// What two sessions do.
#[derive(Clone, Copy, Debug)]
enum Deed {
    OneHoldsAll,
    RowsRunOut,
    OneBegins,
    TwoBegins,
}

fn done<N: Making, R: Wait + Abort>(
    rt: &R,
    alloc: Global,
    manager: &Manager<N>,
    one: &mut Pass,
    two: &mut Pass,
    deed: Deed,
)
    requires one { IsIdle N.made one.old }
    requires two { IsIdle N.made two.old }
    ensures one { IsIdle N.made one.new × (one.new.p.who ≡ one.old.p.who) }
    ensures two { IsIdle N.made two.new × (two.new.p.who ≡ two.old.p.who) }
{
    match deed {
        Deed::OneHoldsAll => {
            let cause = SeqFault::LatchesFull { held: 16, asked: 1 };
            one_holds_all(rt, alloc, manager, one, two, Access::Write, cause);
        }
        Deed::RowsRunOut => rows_run_out(rt, alloc, manager, one, two),
        Deed::OneBegins => both_begin(rt, alloc, manager, one, two, 2, 3),
        Deed::TwoBegins => both_begin(rt, alloc, manager, two, one, 3, 2),
    }
}

// A list with room for two passes.
fn room(rt: &impl Abort, alloc: Global) -> Vec<Pass>
    ensures items { result.items ≡ [] }
    ensures room { (vec_len result ≡ 0) × (vec_capacity result ≡ 2) }
{
    match Vec::with_capacity(alloc, 2) {
        Ok(passes) => passes,
        Err(_) => panic!(rt; "there is memory"),
    }
}

fn put(passes: &mut Vec<Pass>, pass: Pass)
    requires { vec_len passes.old < vec_capacity passes.old }
    ensures items { passes.new.items ≡ passes.old.items ++ pass ∷ [] }
    ensures len { vec_len passes.new ≡ vec_len passes.old + 1 }
    ensures capacity { vec_capacity passes.old ≤ vec_capacity passes.new }
{
    match passes.push(pass) {
        Ok(()) => {}
        Err(AllocFailed { value: _value }) => unreachable!(),
    }
}

fn taken(rt: &impl Abort, passes: &mut Vec<Pass>) -> Pass
    ensures { passes.old.items ≡ passes.new.items ++ result ∷ [] }
{
    match passes.pop() {
        Some(pass) => pass,
        None => panic!(rt; "there is one"),
    }
}

fn close_two<N: Making>(
    rt: &impl Abort,
    alloc: Global,
    manager: Manager<N>,
    one: Pass,
    two: Pass,
) -> History
    requires lanes { N.made.sizes.lanes ≡ 2 }
    requires one { IsIdle N.made one × (one.p.who ≡ 1) }
    requires two { IsIdle N.made two × (two.p.who ≡ 2) }
{
    let mut passes = room(rt, alloc);
    put(&mut passes, one);
    put(&mut passes, two);
    manager.close(passes)
}

fn within<N: Making, R: Wait + Abort>(
    rt: &R,
    alloc: Global,
    core: Core,
    desk: Desk,
    one: Pass,
    two: Pass,
    deed: Deed,
) -> History
    requires core { (id_of core ≡ N.made.core) × (core.board.sizes ≡ N.made.sizes) }
    requires desk { (desk.core ≡ N.made.core) × (desk.sizes ≡ N.made.sizes) }
    requires lanes { N.made.sizes.lanes ≡ 2 }
    requires one { IsIdle N.made one × (one.p.who ≡ 1) }
    requires two { IsIdle N.made two × (two.p.who ≡ 2) }
{
    let manager = Manager::<N>::new(core, desk);
    let mut one = one;
    let mut two = two;
    done(rt, alloc, &manager, &mut one, &mut two, deed);
    close_two(rt, alloc, manager, one, two)
}

// A desk of two sessions.
fn two_sessions(rt: &impl Abort, alloc: Global, latches: u32, rows: u32) -> (Core, Desk, Pass, Pass)
    ensures desk { (result.1.core ≡ id_of result.0) × (result.1.sizes ≡ result.0.board.sizes) × (result.1.sizes.lanes ≡ 2) }
    ensures one { (result.2.table ≡ result.0.board.table) × (open_count result.2.p.mine ≡ 0) × (result.2.p.who ≡ 1) }
    ensures two { (result.3.table ≡ result.0.board.table) × (open_count result.3.p.mine ≡ 0) × (result.3.p.who ≡ 2) }
{
    let sizes = Sizes {
        latches,
        lanes: 2,
        rows,
    };
    let (core, desk, mut passes) = match Desk::new(alloc, sizes) {
        Ok(made) => made,
        Err(_) => panic!(rt; "the sizes are good"),
    };
    let two = taken(rt, &mut passes);
    let one = taken(rt, &mut passes);
    assert!(rt; passes.is_empty());
    passes.destroy_empty();
    (core, desk, one, two)
}

fn history_after<R: Wait + Abort>(
    rt: &R,
    alloc: Global,
    deed: Deed,
    latches: u32,
    rows: u32,
) -> History {
    let (core, desk, one, two) = two_sessions(rt, alloc, latches, rows);
    within::<Brand, R>(rt, alloc, core, desk, one, two, deed)
}

#[test]
fn latches_are_full(rt: HostRuntime) -> Result<(), Fail> {
    let history = history_after(&rt, rt.alloc(), Deed::OneHoldsAll, 16, 500);
    assert!(&rt; history.entries.len() == 4);
    Ok(())
}

#[test]
fn rows_are_out(rt: HostRuntime) -> Result<(), Fail> {
    let history = history_after(&rt, rt.alloc(), Deed::RowsRunOut, 100, FEWEST_ROWS);
    assert!(&rt; history.entries.len() == 6);
    Ok(())
}

#[test]
fn one_begins_in_front_of_the_grant_of_the_other(rt: HostRuntime) -> Result<(), Fail> {
    let one = history_after(&rt, rt.alloc(), Deed::OneBegins, 16, 500);
    assert!(&rt; report_of(&rt, rt.alloc(), &one).as_slice() == ONE_BEGUN);
    let two = history_after(&rt, rt.alloc(), Deed::TwoBegins, 16, 500);
    assert!(&rt; report_of(&rt, rt.alloc(), &two).as_slice() == TWO_BEGUN);
    Ok(())
}

fn close_new<N: Making>(core: Core, desk: Desk, passes: Vec<Pass>) -> History
    requires core { (id_of core ≡ N.made.core) × (core.board.sizes ≡ N.made.sizes) }
    requires desk { (desk.core ≡ N.made.core) × (desk.sizes ≡ N.made.sizes) }
    requires passes { AreFresh N.made.core.signals N.made.sizes.lanes passes.items }
{
    Manager::<N>::new(core, desk).close(passes)
}

// A manager of one session that is closed at once.
#[test]
fn no_session_began(rt: HostRuntime) -> Result<(), Fail> {
    let sizes = Sizes {
        latches: 16,
        lanes: 1,
        rows: 500,
    };
    let (core, desk, passes) = match Desk::new(rt.alloc(), sizes) {
        Ok(made) => made,
        Err(_) => panic!(&rt; "the sizes are good"),
    };
    assert!(&rt; passes.len() == 1 && passes[0].who() == 1);
    let history = close_new::<Brand>(core, desk, passes);
    assert!(&rt; history.entries.is_empty());
    Ok(())
}
