// A request that checks instead of waiting.
ghost use Rattle.std.specs.Prelude.{◌≡◌, ◌≢◌, ◌↔◌, List, map, IfOk, IsTrue, Some, None};
ghost use Rattle.std.specs.List.{All, Any};
ghost use Rattle.std.specs.Option.{option_map};
ghost use Rattle.latch_model.specs.Checks.{is_declared};
ghost use Rattle.latch_model.specs.Histories.{ascending};
ghost use Rattle.latch_model.specs.Latches.{LiesInLatch};
ghost use Rattle.latch_model.specs.declared.history.Cause.TheVariants.{Called};
ghost use Rattle.latch_model.specs.declared.history.Fault.TheVariants.{None as no_fault};
ghost use Rattle.latch_model.specs.declared.history.Grant.TheVariants.{Checked as was_checked, Never};
ghost use Rattle.latch_model.specs.declared.latch.Latch.{Latch};
ghost use Rattle.signal_board.specs.Says.{first_cause};
ghost use Rattle.waiter.specs.Polls.{Checks, first_undeclared};
ghost use Rattle.waiter.specs.Says.{ShowsMet, Unpolled, id_of};
ghost use Rattle.shot_walks.specs.Waits.{waits_for};

use crate::granted::{Ending, Granted};
use crate::mark::{Mark, Met, keep};
use crate::shared::Core;
use crate::waiting::{Stage, Waiting};
use latch_model::history::{Cause, Fault, Grant};
use latch_model::latch::{Latch, Latches, Mode, lies_in};
use latch_model::request::Request;
use latch_shots::Shots;
use row_pool::Rows;
use shot_walks::{Place, first_met, numbers_met, order_of};
use signal_board::board::LaneSeat;
use span_key::Memory;
use std::alloc::Global;
use std::marker::Model;

/// What a check answers: no asked latch meets the snapshot; the first that is met is latch number `place`, from 0, of request `by`; or the asked latch at place
/// `index` lies in no declared one. What isn't kept is handed back.
#[derive(Debug, Drop)]
pub enum Checked {
    Clear,
    Met { by: u64, place: u32, asked: Latches },
    NotDeclared { index: usize, asked: Latches },
}

/// An optimistic request. It must be spent.
pub struct Optimist {
    pub(crate) seat: LaneSeat,
    pub(crate) who: u32,
    pub(crate) request: Request,
    pub(crate) shots: Shots,
    pub(crate) met: Met,
    pub(crate) has_met: bool,
    pub(crate) passed: Option<Latches>,
}

impl Model for Optimist {
    ghost use Rattle.latch_shots.specs.Shots.{table_of};
    ghost use Rattle.waiter.specs.Kept.{OptimistKept};
    ghost use Rattle.waiter.specs.Met.{held_of, met_of};
    ghost use Rattle.waiter.specs.Says.{OptimistSays};

    ghost Value = { OptimistSays };

    ghost view = { λ o. record {
      core = record { signals = o.seat.table; rows = table_of o.shots };
      r = o.seat.r;
      met = met_of o.has_met (held_of o.met);
      passed = o.passed;
    } };

    ghost invariant = { λ o. OptimistKept o.who o.request o.shots o.passed o.seat };
}

impl Optimist {
    /// The number of the request.
    pub fn id(&self) -> u64
        ensures { result ≡ self.now.r.id }
    {
        self.seat.id()
    }

    /// The number of its session.
    pub fn who(&self) -> u32
        ensures { result ≡ self.now.r.who }
    {
        self.who
    }

    /// What it declares.
    pub fn request(&self) -> &Request
        ensures { result.now ≡ self.now.r.request }
    {
        &self.request
    }

    /// The cause for which it is poisoned, or none.
    pub fn cause(&self) -> Cause
        ensures { result ≡ self.now.r.cause }
    {
        self.seat.cause()
    }

    /// The latch that the last check met. There is none exactly where no check has met.
    pub fn mark(&self) -> Option<&Mark>
        ensures { ShowsMet (option_map (λ m. m.now) result) self.now.met }
    {
        if self.has_met {
            Some(&self.met.mark)
        } else {
            None
        }
    }

    /// Tests latches against the snapshot. One that conflicts counts even where its request has ended since. It takes no memory.
    pub fn check(&mut self, core: &Core, asked: Latches) -> Checked
        requires core { self.old.core ≡ id_of core.now }
        ensures { Checks self.old self.new asked result }
    {
        match undeclared(self.request.latches().list(), asked.list()) {
            Some(index) => Checked::NotDeclared { index, asked },
            None => self.meet(&core.rows, asked),
        }
    }

    // Tests latches that lie in declared ones.
    fn meet(&mut self, rows: &Rows, asked: Latches) -> Checked
        requires rows { self.old.core.rows ≡ rows.now }
        requires declared { first_undeclared self.old.r.request.latches asked ≡ None }
        requires lie { All (λ l. Any (LiesInLatch l) self.old.r.request.latches) asked }
        ensures { Checks self.old self.new asked result }
    {
        let order = order_of(asked.list());
        match first_met(rows, &mut self.shots, asked.list(), order.as_slice()) {
            None => {
                self.passed = Some(asked);
                Checked::Clear
            }
            Some(x) => {
                keep(&mut self.met, &x, rows, &mut self.shots);
                self.has_met = true;
                self.passed = None;
                Checked::Met {
                    by: x.by,
                    place: x.place,
                    asked,
                }
            }
        }
    }

    /// Whether a check that passed stands.
    pub fn passed(&self) -> bool
        ensures { IsTrue result ↔ (self.now.passed ≢ None) }
    {
        self.passed.is_some()
    }

    /// The numbers, ascending and each once, of the requests whose held latches its own ones meet. Only want of memory is refused.
    pub fn prerequisites(&mut self, alloc: Global, core: &Core) -> Result<Vec<u64>, Memory>
        requires core { self.old.core ≡ id_of core.now }
        ensures numbers { IfOk result (λ ids. ids.items ≡ ascending (map (λ x. x.by) (waits_for self.old.r))) }
        ensures same { self.new ≡ self.old }
    {
        let latches = self.request.latches().list();
        let order = order_of(latches);
        numbers_met(
            alloc,
            &core.rows,
            &mut self.shots,
            latches,
            order.as_slice(),
        )
    }

    /// The cause becomes Called, unless there is one.
    pub fn poison(&mut self, core: &Core)
        requires core { self.old.core ≡ id_of core.now }
        ensures { self.new ≡ record self.old { r = record self.old.r { cause = first_cause self.old.r.cause Called } } }
    {
        core.board.poison(&mut self.seat, Cause::Called);
    }

    /// The request is granted by the check that passed. Its snapshot is let go.
    pub fn confirm(self, core: &Core) -> Granted
        requires core { self.core ≡ id_of core.now }
        requires passed { self.passed ≢ None }
        ensures { (asked : List Latch) × (self.passed ≡ Some asked) × (result ≡ record { core = self.core; r = self.r; grant = was_checked asked }) }
    {
        let Optimist {
            seat,
            who,
            request,
            shots,
            met: _,
            has_met: _,
            passed,
        } = self;
        let Some(asked) = passed else { unreachable!() };
        Granted {
            seat,
            who,
            mode: Mode::Optimistic,
            request,
            grant: Grant::Checked(asked),
            returned: shots.close(&core.rows),
        }
    }

    /// The request, which is to wait on the same snapshot. A check that passed is given up.
    pub fn into_waiting(self) -> Waiting
        ensures { result ≡ record { core = self.core; r = self.r; turns = 0; last = Unpolled } }
    {
        let Optimist {
            seat,
            who,
            request,
            shots,
            met,
            has_met: _,
            passed: _,
        } = self;
        let order = order_of(request.latches().list());
        Waiting {
            seat,
            who,
            mode: Mode::Optimistic,
            request,
            shots,
            met,
            stage: Stage::Unpolled,
            turns: 0,
            order,
            place: Place::start(),
        }
    }

    /// The request gives up. Its snapshot is let go.
    pub fn abandon(self, core: &Core) -> Ending
        requires core { self.core ≡ id_of core.now }
        ensures { result ≡ record { core = self.core; r = self.r; grant = Never; fault = no_fault } }
    {
        let Optimist {
            seat,
            who,
            request,
            shots,
            met: _,
            has_met: _,
            passed: _,
        } = self;
        Ending {
            seat,
            who,
            mode: Mode::Optimistic,
            request,
            grant: Grant::Never,
            fault: Fault::None,
            returned: shots.close(&core.rows),
        }
    }
}

// The place of the first latch that lies in no declared one.
fn undeclared(declared: &[Latch], asked: &[Latch]) -> Option<usize>
    ensures first { result ≡ first_undeclared declared.now asked.now }
    ensures lie { result ≡ None → All (λ l. Any (LiesInLatch l) declared.now) asked.now }
{
    for (k, latch) in asked.iter().enumerate() {
        if !is_declared(declared, latch) {
            return Some(k);
        }
    }
    None
}

// Whether a latch lies in a declared one.
fn is_declared(declared: &[Latch], latch: &Latch) -> bool
    ensures test { result ≡ is_declared declared.now latch.now }
    ensures fact { IsTrue result → Any (LiesInLatch latch.now) declared.now }
{
    for other in declared {
        if lies_in(latch, other) {
            return true;
        }
    }
    false
}
