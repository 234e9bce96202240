// The desk behind a mutex, and the core beside it.
ghost use Rattle.std.specs.Prelude.{◌≡◌, ℕ, ◌≤◌, false, IfOk, IfErr, None};
ghost use Rattle.std.specs.List.{Contains};
ghost use Rattle.latch_model.specs.Histories.{is_open};
ghost use Rattle.latch_model.specs.Legal.{IsLegal};
ghost use Rattle.latch_model.specs.declared.latch.Mode.TheVariants.{Acquire, Look, Optimistic};
ghost use Rattle.signal_board.specs.Rule.{ByGiven, IsPrefix, open_count, own};
ghost use Rattle.signal_board.specs.Says.{PassSays};
ghost use Rattle.waiter.specs.Says.{id_of};
ghost use Rattle.latch_manager.specs.Acquiring.{AcquireFails, Acquires, Looks, WaitEnds, as_acquire_fault};
ghost use Rattle.latch_manager.specs.Making.{Began, CountsSome, Finished, HasAllPasses, done_with};
ghost use Rattle.latch_manager.specs.Declining.{Declined};
ghost use Rattle.latch_manager.specs.Waiting.{WaitGrants};

use crate::patience::Patience;
use crate::wait::{Failed, WaitFault, until_granted};
use crate::wakes::Wakes;
use latch_model::history::{History, Sizes};
use latch_model::latch::Mode;
use latch_model::request::Request;
use sequence_core::desk::{Desk, SeqRefusal};
use sequence_core::metrics::Metrics;
use signal_board::board::Pass;
use std::alloc::Global;
use std::marker::{Brand, Model, PhantomData};
use std::sync::{Mutex, MutexGuard, Wait};
use std::thread;
use waiter::{Core, Ending, Granted, Mark, Opened, Optimist, Waiting};

/// How often the desk is tried before a caller sleeps until it is free.
const TRIES: u32 = 20;

/// Which core and which desk belong together. A program makes its desk first, and then enters a function that is generic in its making.
pub trait Making {
    ghost use Rattle.latch_manager.specs.Making.{Made};

    ghost made: { Made };
}

impl Making for Brand {
    ghost use Rattle.latch_manager.specs.Making.{nothing_made};

    ghost made = { nothing_made };
}

// A desk of the making.
struct Locked<N: Making> {
    desk: Desk,
    of: PhantomData<N>,
    ghost is: { (desk.core ≡ N.made.core) × (desk.sizes ≡ N.made.sizes) },
}

/// A desk that threads share. The mutex is held for the desk's own calls alone: while it takes a snapshot and begins a request, and while it ends one.
pub struct Manager<N: Making> {
    core: Core,
    desk: Mutex<Locked<N>>,
    wakes: Wakes,
}

impl<N: Making> Model for Manager<N> {
    ghost use Rattle.std.specs.Prelude.{◌≡◌};
    ghost use Rattle.latch_model.specs.declared.history.Sizes.{Sizes};
    ghost use Rattle.waiter.specs.Says.{id_of};

    ghost Value = { Sizes };

    ghost view = { λ m. m.core.board.sizes };

    ghost invariant = { λ m. (id_of m.core ≡ N.made.core) × (m.core.board.sizes ≡ N.made.sizes) };
}

/// Why nothing was acquired: the request didn't begin, it met this latch of a poisoned request, or its patience refused.
#[derive(Drop)]
pub enum AcquireFault {
    Seq(SeqRefusal),
    Poisoned(Mark),
    Cancelled { turns: u64 },
}

impl<N: Making> Manager<N> {
    /// A manager of this desk.
    pub fn new(core: Core, desk: Desk) -> Manager<N>
        requires core { (id_of core ≡ N.made.core) × (core.board.sizes ≡ N.made.sizes) }
        requires desk { (desk.core ≡ N.made.core) × (desk.sizes ≡ N.made.sizes) }
        ensures { result ≡ core.board.sizes }
    {
        Manager {
            core,
            desk: Mutex::new(Locked {
                desk,
                of: PhantomData,
            }),
            wakes: Wakes::new(),
        }
    }

    /// The core and the desk.
    pub fn into_parts(self) -> (Core, Desk)
        ensures core { (id_of result.0 ≡ N.made.core) × (result.0.board.sizes ≡ N.made.sizes) }
        ensures desk { (result.1.core ≡ N.made.core) × (result.1.sizes ≡ N.made.sizes) }
    {
        let Manager {
            core,
            desk,
            wakes: _,
        } = self;
        let Locked { desk, of: _ } = desk.into_inner();
        (core, desk)
    }

    /// What the requests share.
    pub fn core(&self) -> &Core
        ensures core { id_of result.now ≡ N.made.core }
        ensures sizes { result.now.board.sizes ≡ self.now }
    {
        &self.core
    }

    /// Begins a request, whose snapshot is taken and whose latches are inserted under one hold of the mutex.
    pub fn sequence<R: Wait>(
        &self,
        rt: &R,
        alloc: Global,
        pass: &mut Pass,
        request: Request,
        mode: Mode,
    ) -> Result<Opened, SeqRefusal>
        requires table { pass.old.table ≡ N.made.core.signals }
        requires idle { open_count pass.old.p.mine ≡ 0 }
        ensures began { IfOk result (λ opened. Began N.made pass.old mode request opened pass.new) }
        ensures declined { IfErr result (λ e. Declined N.made pass.old mode request e.fault pass.new) }
        ensures handed_back { IfErr result (λ e. e.request ≡ request) }
    {
        let mut guard = self.lock(rt);
        begin(&mut guard, alloc, &self.core, pass, request, mode)
    }

    /// Begins an optimistic request, which checks instead of waiting.
    pub fn optimistic<R: Wait>(
        &self,
        rt: &R,
        alloc: Global,
        pass: &mut Pass,
        request: Request,
    ) -> Result<Optimist, SeqRefusal>
        requires table { pass.old.table ≡ N.made.core.signals }
        requires idle { open_count pass.old.p.mine ≡ 0 }
        ensures began { IfOk result (λ o. Began N.made pass.old Optimistic request (record { core = o.core; r = o.r }) pass.new) }
        ensures unchecked { IfOk result (λ o. (o.met ≡ None) × (o.passed ≡ None)) }
        ensures declined { IfErr result (λ e. Declined N.made pass.old Optimistic request e.fault pass.new) }
        ensures handed_back { IfErr result (λ e. e.request ≡ request) }
    {
        match self.sequence(rt, alloc, pass, request, Mode::Optimistic) {
            Ok(opened) => Ok(opened.optimist()),
            Err(refusal) => Err(refusal),
        }
    }

    /// Waits until the request is granted. It polls outside the mutex, sleeps between polls, and ends the request where its wait fails.
    pub fn wait<R: Wait, P: Patience>(
        &self,
        rt: &R,
        pass: &mut Pass,
        waiting: Waiting,
        patience: &mut P,
    ) -> Result<Granted, WaitFault>
        requires core { (pass.old.table ≡ N.made.core.signals) × (waiting.core ≡ N.made.core) }
        requires session { waiting.r.who ≡ pass.old.p.who }
        ensures granted { IfOk result (λ g. WaitGrants waiting g × (pass.new ≡ pass.old)) }
        ensures failed { IfErr result (λ f.
            WaitEnds N.made pass.old waiting (P.refusals patience.old) (P.refusals patience.new) (P.limit patience.old) f pass.new) }
        ensures later { P.refusals patience.old ≤ P.refusals patience.new }
        ensures limit { P.limit patience.new ≡ P.limit patience.old }
    {
        match until_granted(rt, &self.core, &self.wakes, waiting, patience) {
            Ok(granted) => Ok(granted),
            Err(failed) => {
                let Failed { ending, fault } = failed;
                self.end(rt, pass, ending);
                Err(fault)
            }
        }
    }

    /// Begins a request and waits until it is granted.
    pub fn acquire<R: Wait, P: Patience>(
        &self,
        rt: &R,
        alloc: Global,
        pass: &mut Pass,
        request: Request,
        patience: &mut P,
    ) -> Result<Granted, AcquireFault>
        requires table { pass.old.table ≡ N.made.core.signals }
        requires idle { open_count pass.old.p.mine ≡ 0 }
        ensures granted { IfOk result (λ g. Acquires N.made pass.old request Acquire g pass.new) }
        ensures failed { IfErr result (λ f.
            AcquireFails N.made pass.old request Acquire (P.refusals patience.old) (P.refusals patience.new) (P.limit patience.old) f pass.new) }
        ensures later { P.refusals patience.old ≤ P.refusals patience.new }
        ensures limit { P.limit patience.new ≡ P.limit patience.old }
    {
        match self.sequence(rt, alloc, pass, request, Mode::Acquire) {
            Err(refusal) => Err(AcquireFault::Seq(refusal)),
            Ok(opened) => match self.wait(rt, pass, opened.waiting(), patience) {
                Ok(granted) => Ok(granted),
                Err(fault) => Err(acquire_fault(fault)),
            },
        }
    }

    /// Begins a look, waits until it would be granted and ends it. It holds nothing. The number is the look's.
    pub fn wait_for<R: Wait, P: Patience>(
        &self,
        rt: &R,
        alloc: Global,
        pass: &mut Pass,
        request: Request,
        patience: &mut P,
    ) -> Result<u64, AcquireFault>
        requires table { pass.old.table ≡ N.made.core.signals }
        requires idle { open_count pass.old.p.mine ≡ 0 }
        ensures looked { IfOk result (λ id. Looks N.made pass.old request Look id pass.new) }
        ensures failed { IfErr result (λ f.
            AcquireFails N.made pass.old request Look (P.refusals patience.old) (P.refusals patience.new) (P.limit patience.old) f pass.new) }
        ensures later { P.refusals patience.old ≤ P.refusals patience.new }
        ensures limit { P.limit patience.new ≡ P.limit patience.old }
    {
        match self.sequence(rt, alloc, pass, request, Mode::Look) {
            Err(refusal) => Err(AcquireFault::Seq(refusal)),
            Ok(opened) => match self.wait(rt, pass, opened.waiting(), patience) {
                Ok(granted) => {
                    let id = granted.id();
                    self.release(rt, pass, granted);
                    Ok(id)
                }
                Err(fault) => Err(acquire_fault(fault)),
            },
        }
    }

    /// Ends a granted request, and wakes who sleeps until its end.
    pub fn release<R: Wait>(&self, rt: &R, pass: &mut Pass, granted: Granted)
        requires core { (pass.old.table ≡ N.made.core.signals) × (granted.core ≡ N.made.core) }
        requires session { granted.r.who ≡ pass.old.p.who }
        ensures finished { Finished N.made pass.old (done_with granted) pass.new }
    {
        self.end(rt, pass, granted.finish());
    }

    /// Ends a request that was given up, and wakes who sleeps until its end.
    pub fn give_up<R: Wait>(&self, rt: &R, pass: &mut Pass, ending: Ending)
        requires core { (pass.old.table ≡ N.made.core.signals) × (ending.core ≡ N.made.core) }
        requires session { ending.r.who ≡ pass.old.p.who }
        ensures finished { Finished N.made pass.old ending pass.new }
    {
        self.end(rt, pass, ending);
    }

    /// Wakes all who wait, so that a poisoning is seen.
    pub fn nudge<R: Wait>(&self, rt: &R) {
        self.wakes.raise_all(rt);
    }

    /// How many latches are held and how many reads are pending, by scope, and how many rows are free, at some moment of the call. The latches and the reads
    /// are those of some history of the making, which is legal. Where no request of it is open, all rows are free.
    pub fn metrics<R: Wait>(&self, rt: &R) -> Metrics
        ensures { CountsSome N.made result }
    {
        let guard = self.lock(rt);
        counts(&guard)
    }

    /// Ends the manager with all its passes. What comes out is the whole history: it is legal, no request of it is open, and the entries of each session
    /// are its pass's own, and no entry is of another.
    pub fn close(self, passes: Vec<Pass>) -> History
        requires { HasAllPasses N.made passes.items }
        ensures sizes { result.sizes ≡ N.made.sizes }
        ensures legal { IsLegal result.entries result.sizes }
        ensures closed { (id : ℕ) → is_open result.entries id ≡ false }
        ensures own { (p : PassSays) → Contains passes.items p → p.p.mine ≡ own p.p.who result.entries }
        ensures by_given { ByGiven result.entries N.made.sizes.lanes }
        ensures shown { (p : PassSays) → Contains passes.items p → IsPrefix p.p.shown result.entries }
    {
        let (core, desk) = self.into_parts();
        desk.known();
        desk.close(core, passes)
    }

    // Ends a request under the mutex, and then wakes who sleeps at it.
    fn end<R: Wait>(&self, rt: &R, pass: &mut Pass, ending: Ending)
        requires core { (pass.old.table ≡ N.made.core.signals) × (ending.core ≡ N.made.core) }
        requires session { ending.r.who ≡ pass.old.p.who }
        ensures finished { Finished N.made pass.old ending pass.new }
    {
        let id = ending.id();
        self.end_one(rt, pass, ending);
        self.wakes.raise(rt, id);
    }

    // The desk, as soon as nobody else has it. A hold is short and a sleep is not, so before the caller sleeps it lets others run and tries again.
    fn lock<R: Wait>(&self, rt: &R) -> MutexGuard<'_, Locked<N>> {
        for _ in 0..TRIES {
            if let Some(guard) = self.desk.try_lock() {
                return guard;
            }
            thread::yield_now();
        }
        self.desk.lock(rt)
    }

    fn end_one<R: Wait>(&self, rt: &R, pass: &mut Pass, ending: Ending)
        requires core { (pass.old.table ≡ N.made.core.signals) × (ending.core ≡ N.made.core) }
        requires session { ending.r.who ≡ pass.old.p.who }
        ensures finished { Finished N.made pass.old ending pass.new }
    {
        let mut guard = self.lock(rt);
        guard.desk.end(&self.core, pass, ending);
    }
}

// Begins a request on a desk of the making.
fn begin<N: Making>(
    locked: &mut Locked<N>,
    alloc: Global,
    core: &Core,
    pass: &mut Pass,
    request: Request,
    mode: Mode,
) -> Result<Opened, SeqRefusal>
    requires core { (id_of core.now ≡ N.made.core) × (pass.old.table ≡ N.made.core.signals) }
    requires idle { open_count pass.old.p.mine ≡ 0 }
    ensures began { IfOk result (λ opened. Began N.made pass.old mode request opened pass.new) }
    ensures declined { IfErr result (λ e. Declined N.made pass.old mode request e.fault pass.new) }
    ensures handed_back { IfErr result (λ e. e.request ≡ request) }
{
    let begun = locked.desk.begin(alloc, core, pass, request, mode);
    locked.desk.known();
    begun
}

// What a desk of the making counts.
fn counts<N: Making>(locked: &Locked<N>) -> Metrics
    ensures { CountsSome N.made result }
{
    locked.desk.known();
    locked.desk.metrics()
}

// Why a wait failed, as why nothing was acquired.
fn acquire_fault(fault: WaitFault) -> AcquireFault
    ensures { result ≡ as_acquire_fault fault }
{
    match fault {
        WaitFault::Poisoned(mark) => AcquireFault::Poisoned(mark),
        WaitFault::Cancelled { turns } => AcquireFault::Cancelled { turns },
    }
}
