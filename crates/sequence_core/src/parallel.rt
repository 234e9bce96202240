// Sessions on threads of their own share a desk. A mutex keeps it, and no lock is held while a request polls or is poisoned.
ghost use Rattle.std.specs.Prelude.{◌≡◌, ℕ, ◌<◌, ◌+◌, [], ◌∷◌, All, length, slice_index_or};
ghost use Rattle.latch_model.specs.Legal.{IsLegal};
ghost use Rattle.waiter.specs.Says.{MayAbandon, id_of};
ghost use Rattle.signal_board.specs.Rule.{open_count};
ghost use Rattle.signal_board.specs.Says.{PassSays};

use crate::desk::Desk;
use crate::sessions::{begin, close_four, four_sessions, request};
use latch_model::history::{Fault, History, Sizes};
use latch_model::latch::{Access, Mode, Policy};
use latch_model::legality::legal_so_far;
use signal_board::board::Pass;
use std::alloc::Global;
use std::marker::{Brand, PhantomData};
use std::process::Abort;
use std::sync::{Mutex, Wait};
use std::test::Fail;
use std::thread;
use std::thread::Threads;
use waiter::{Checked, Core, Ending, Opened, Optimist, Polled, Waiting};

const SESSIONS: u32 = 4;

const ROUNDS: u32 = 60;

const POLLS: u32 = 400;

const ROWS: u32 = 208;

/// Which core, desk and passes belong together. The test picks it.
pub trait Making {
    ghost use Rattle.waiter.specs.Says.{CoreId};

    ghost core: { CoreId };
}

impl Making for Brand {
    ghost use Rattle.std.specs.Prelude.{[]};

    ghost core = { record {
      signals = record { words = 0; slots = 0; views_name = 0; atom = 0; block = 0; offset = 0; slot_names = [] };
      rows = record { words = 0; slots = 0; views_name = 0; atom = 0; block = 0; offset = 0; slot_names = [] };
    } };
}

/// The desk behind the mutex.
struct Locked<N: Making> {
    desk: Desk,
    of: PhantomData<N>,
    ghost is: { (desk.core ≡ N.core) × (desk.given ≡ 4) },
}

// A request begins, with two latches on keys that others have too.
fn open<N: Making, R: Wait + Abort>(
    rt: &R,
    alloc: Global,
    core: &Core,
    desk: &Mutex<Locked<N>>,
    pass: &mut Pass,
    round: u32,
    mode: Mode,
) -> Opened
    requires core { id_of core.now ≡ N.core }
    requires pass { (pass.old.table ≡ N.core.signals) × (open_count pass.old.p.mine ≡ 0) }
    ensures pass { (pass.new.table ≡ N.core.signals) × (pass.new.p.who ≡ pass.old.p.who) }
    ensures opened { (result.core ≡ N.core) × (result.r.who ≡ pass.old.p.who) × (result.r.mode ≡ mode) }
{
    let who = pass.who();
    let key = b'a'.wrapping_add((round % 3 + who % 2) as u8);
    let policy = if who == 2 {
        Policy::Error
    } else {
        Policy::Wait
    };
    let access = if round % 5 == 0 {
        Access::Read
    } else {
        Access::Write
    };
    let request = request(rt, alloc, access, policy, key, 2);
    let mut guard = desk.lock(rt);
    let locked = &mut *guard;
    begin(rt, alloc, core, &mut locked.desk, pass, request, mode)
}

// Polls until it isn't blocked any more, but not for ever.
fn poll_on(core: &Core, waiting: &mut Waiting)
    requires table { waiting.old.core ≡ id_of core.now }
    ensures same { (waiting.new.core ≡ waiting.old.core) × (waiting.new.r.who ≡ waiting.old.r.who) }
{
    'polls: for _ in 0..POLLS {
        match waiting.poll(core) {
            Polled::Ready | Polled::Poisoned { by: _, place: _ } => return,
            Polled::Blocked { by: _, place: _ } => {}
        }
    }
}

// The request ends.
fn finish<N: Making, R: Wait + Abort>(
    rt: &R,
    core: &Core,
    desk: &Mutex<Locked<N>>,
    pass: &mut Pass,
    ending: Ending,
)
    requires core { id_of core.now ≡ N.core }
    requires pass { (pass.old.table ≡ N.core.signals) × (pass.old.p.who ≡ ending.r.who) }
    requires ending { ending.core ≡ N.core }
    ensures pass { (pass.new.table ≡ N.core.signals) × (pass.new.p.who ≡ pass.old.p.who) × (open_count pass.new.p.mine ≡ 0) }
{
    let mut guard = desk.lock(rt);
    let locked = &mut *guard;
    locked.desk.end(core, pass, ending);
}

// What becomes of a request that waits: it may be poisoned, and polls until it is ready or has waited long enough.
fn wait_on(core: &Core, mut waiting: Waiting, poisons: bool) -> Ending
    requires core { waiting.core ≡ id_of core.now }
    ensures { (result.core ≡ waiting.core) × (result.r.who ≡ waiting.r.who) }
{
    if poisons {
        waiting.poison(core);
    }
    poll_on(core, &mut waiting);
    match waiting.poll(core) {
        Polled::Ready => waiting.grant(core).finish(),
        Polled::Poisoned { by, place: _ } => abandon(core, waiting, Fault::Poisoned(by)),
        Polled::Blocked { by: _, place: _ } => {
            let turns = waiting.turns();
            abandon(core, waiting, Fault::Cancelled(turns))
        }
    }
}

// The request gives up.
fn abandon(core: &Core, waiting: Waiting, fault: Fault) -> Ending
    requires core { waiting.core ≡ id_of core.now }
    requires fault { MayAbandon waiting fault }
    ensures { (result.core ≡ waiting.core) × (result.r.who ≡ waiting.r.who) }
{
    let (ending, _) = waiting.abandon(core, fault);
    ending
}

// An optimistic request checks its own latches, and waits where they meet something.
fn check_on(rt: &impl Abort, alloc: Global, core: &Core, mut optimist: Optimist) -> Ending
    requires core { optimist.core ≡ id_of core.now }
    ensures { (result.core ≡ optimist.core) × (result.r.who ≡ optimist.r.who) }
{
    let Ok(own) = optimist.request().latches().copy(alloc) else {
        panic!(rt; "no memory")
    };
    match optimist.check(core, own) {
        Checked::Clear => optimist.confirm(core).finish(),
        Checked::Met { .. } | Checked::NotDeclared { .. } => {
            wait_on(core, optimist.into_waiting(), false)
        }
    }
}

// A request of each kind in turn begins, comes to its end and ends: a poisoned one, one that only waits, an optimistic one, and a look.
fn one_request<N: Making, R: Wait + Abort>(
    rt: &R,
    alloc: Global,
    core: &Core,
    desk: &Mutex<Locked<N>>,
    pass: &mut Pass,
    round: u32,
)
    requires core { id_of core.now ≡ N.core }
    requires pass { (pass.old.table ≡ N.core.signals) × (open_count pass.old.p.mine ≡ 0) }
    ensures pass { (pass.new.table ≡ N.core.signals) × (pass.new.p.who ≡ pass.old.p.who) × (open_count pass.new.p.mine ≡ 0) }
{
    let ending = match round % 4 {
        0 => {
            let opened = open(rt, alloc, core, desk, pass, round, Mode::Optimistic);
            check_on(rt, alloc, core, opened.optimist())
        }
        1 => {
            let opened = open(rt, alloc, core, desk, pass, round, Mode::Look);
            wait_on(core, opened.waiting(), false)
        }
        kind => {
            let opened = open(rt, alloc, core, desk, pass, round, Mode::Acquire);
            wait_on(core, opened.waiting(), kind == 2)
        }
    };
    finish(rt, core, desk, pass, ending);
}

fn session<N: Making, R: Wait + Abort>(
    rt: &R,
    alloc: Global,
    core: &Core,
    desk: &Mutex<Locked<N>>,
    pass: &mut Pass,
)
    requires core { id_of core.now ≡ N.core }
    requires pass { (pass.old.table ≡ N.core.signals) × (open_count pass.old.p.mine ≡ 0) }
    ensures pass { (pass.new.table ≡ N.core.signals) × (pass.new.p.who ≡ pass.old.p.who) × (open_count pass.new.p.mine ≡ 0) }
{
    for round in 0..ROUNDS {
        one_request(rt, alloc, core, desk, pass, round);
    }
}

// Each session on a thread of its own.
fn sessions<N: Making + Send + Sync, R: Threads + Wait + Abort + Sync>(
    rt: &R,
    alloc: Global,
    core: &Core,
    desk: &Mutex<Locked<N>>,
    passes: &mut [Pass],
)
    requires core { id_of core.now ≡ N.core }
    requires passes { All (λ p. (p.table ≡ N.core.signals) × (open_count p.p.mine ≡ 0)) passes.old }
    ensures passes { (i : ℕ) (d : PassSays) → i < length passes.old → ((slice_index_or passes.new i d).table ≡ N.core.signals)
        × ((slice_index_or passes.new i d).p.who ≡ (slice_index_or passes.old i d).p.who) × (open_count (slice_index_or passes.new i d).p.mine ≡ 0) }
{
    thread::for_each_mut(
        rt,
        passes,
        4,
        &|_: usize, pass: &mut Pass| {
            session(rt, alloc, core, desk, pass);
        },
    );
}

// The four sessions beside each other, from the empty history to the end of the desk.
fn beside_each_other<N: Making + Send + Sync, R: Threads + Wait + Abort + Sync>(
    rt: &R,
    alloc: Global,
    core: Core,
    desk: Desk,
    passes: [Pass; 4],
) -> History
    requires core { id_of core ≡ N.core }
    requires desk { (desk.core ≡ N.core) × (desk.given ≡ 4) }
    requires passes { (i : ℕ) (d : PassSays) → i < 4 → ((slice_index_or passes i d).table ≡ N.core.signals)
        × ((slice_index_or passes i d).p.who ≡ i + 1) × (open_count (slice_index_or passes i d).p.mine ≡ 0) }
    ensures { IsLegal result.entries result.sizes }
{
    let locked = Mutex::new(Locked::<N> {
        desk,
        of: PhantomData,
    });
    let mut passes = passes;
    sessions(rt, alloc, &core, &locked, &mut passes);
    let done = passes;
    let [one, two, three, four] = done;
    let Locked { desk, of: _ } = locked.into_inner();
    assert_eq!(rt; desk.metrics().free, ROWS);
    close_four(rt, alloc, core, desk, one, two, three, four)
}

// Four threads begin, poison, check, poll, grant, cancel and end requests of one desk. All end, in one legal history, and all rows are free again.
#[test]
fn threads_share_a_desk(rt: HostRuntime) -> Result<(), Fail> {
    let alloc = rt.alloc();
    let sizes = Sizes {
        latches: 16,
        lanes: SESSIONS,
        rows: ROWS,
    };
    let (core, desk, one, two, three, four) = four_sessions(&rt, alloc, sizes);
    let history = beside_each_other::<Brand, HostRuntime>(
        &rt,
        alloc,
        core,
        desk,
        [one, two, three, four],
    );
    assert_eq!(&rt; history.entries.len(), (2 * SESSIONS * ROUNDS) as usize);
    assert!(&rt; legal_so_far(history.entries.as_slice(), &history.sizes));
    Ok(())
}
