// A request that holds its latches, and one that is to end.
ghost use Rattle.std.specs.Prelude.{◌≡◌, ℕ, ◌≤◌, length, true, Some};
ghost use Rattle.std.specs.List.{Contains};
ghost use Rattle.latch_model.specs.Histories.{has_ended};
ghost use Rattle.latch_model.specs.declared.history.Cause.TheVariants.{Called};
ghost use Rattle.latch_model.specs.declared.history.Fault.TheVariants.{None as no_fault};
ghost use Rattle.signal_board.specs.Rule.{IsPrefix};
ghost use Rattle.signal_board.specs.Says.{first_cause, shown_to};
ghost use Rattle.signal_board.specs.Steps.{FaultGiven, GrantGiven};
ghost use Rattle.waiter.specs.Kept.{IsBack};
ghost use Rattle.waiter.specs.Says.{id_of};

use crate::shared::Core;
use latch_model::history::{Cause, Fault, Grant};
use latch_model::latch::Mode;
use latch_model::request::Request;
use latch_shots::Returned;
use signal_board::board::{DeskSeat, LaneSeat};
use std::marker::Model;

/// A request that was granted, by waiting or by a check. It must be spent.
pub struct Granted {
    pub(crate) seat: LaneSeat,
    pub(crate) who: u32,
    pub(crate) mode: Mode,
    pub(crate) request: Request,
    pub(crate) grant: Grant,
    // what is left of its shots, which goes back to the desk at its end
    pub(crate) returned: Returned,
}

impl Model for Granted {
    ghost use Rattle.waiter.specs.Kept.{GrantedKept};
    ghost use Rattle.waiter.specs.Says.{GrantedSays};

    ghost Value = { GrantedSays };

    ghost view = { λ g. record { core = record { signals = g.seat.table; rows = g.returned.seat.table }; r = g.seat.r; grant = g.grant } };

    ghost invariant = { λ g. GrantedKept g.who g.mode g.request g.grant g.returned g.seat };
}

impl Granted {
    /// The number of the request.
    pub fn id(&self) -> u64
        ensures { result ≡ self.now.r.id }
    {
        self.seat.id()
    }

    /// The number of its session.
    pub fn who(&self) -> u32
        ensures { result ≡ self.now.r.who }
    {
        self.who
    }

    /// What it declares.
    pub fn request(&self) -> &Request
        ensures { result.now ≡ self.now.r.request }
    {
        &self.request
    }

    /// How it was granted.
    pub fn grant(&self) -> &Grant
        ensures { result.now ≡ self.now.grant }
    {
        &self.grant
    }

    /// The cause for which it is poisoned, or none.
    pub fn cause(&self) -> Cause
        ensures { result ≡ self.now.r.cause }
    {
        self.seat.cause()
    }

    /// The cause becomes Called, unless there is one.
    pub fn poison(&mut self, core: &Core)
        requires core { self.old.core ≡ id_of core.now }
        ensures { self.new ≡ record self.old { r = record self.old.r { cause = first_cause self.old.r.cause Called } } }
    {
        core.board.poison(&mut self.seat, Cause::Called);
    }

    /// The request has then been shown the whole history, in which each request that it knows ended has its end.
    pub fn tell(&mut self, core: &Core, desk: &mut DeskSeat)
        requires core { (desk.old.table ≡ core.now.board.table) × (self.old.core ≡ id_of core.now) }
        ensures desk { desk.new ≡ desk.old }
        ensures told { self.new ≡ record self.old { r = shown_to desk.old.log self.old.r } }
        ensures goes_on { IsPrefix self.old.r.shown desk.old.log }
        ensures ended { (p : ℕ) → Contains self.old.r.ended p → has_ended desk.old.log p ≡ true }
        ensures front { (front : ℕ) → self.old.r.front ≡ Some front → front ≤ length desk.old.log }
    {
        core.board.tell(desk, &mut self.seat);
    }

    /// The request, which is to end.
    pub fn finish(self) -> Ending
        ensures { result ≡ record { core = self.core; r = self.r; grant = self.grant; fault = no_fault } }
    {
        let Granted {
            seat,
            who,
            mode,
            request,
            grant,
            returned,
        } = self;
        Ending {
            seat,
            who,
            mode,
            request,
            grant,
            fault: Fault::None,
            returned,
        }
    }
}

/// A request that is to end. It must be spent.
pub struct Ending {
    pub(crate) seat: LaneSeat,
    pub(crate) who: u32,
    pub(crate) mode: Mode,
    pub(crate) request: Request,
    pub(crate) grant: Grant,
    pub(crate) fault: Fault,
    pub(crate) returned: Returned,
}

impl Model for Ending {
    ghost use Rattle.waiter.specs.Kept.{EndingKept};
    ghost use Rattle.waiter.specs.Says.{EndingSays};

    ghost Value = { EndingSays };

    ghost view = { λ e. record {
      core = record { signals = e.seat.table; rows = e.returned.seat.table };
      r = e.seat.r;
      grant = e.grant;
      fault = e.fault;
    } };

    ghost invariant = { λ e. EndingKept e.who e.mode e.request e.grant e.fault e.returned e.seat };
}

/// What the end of a request is made of.
pub struct EndParts {
    pub seat: LaneSeat,
    pub who: u32,
    pub mode: Mode,
    pub request: Request,
    pub grant: Grant,
    pub fault: Fault,
    /// What is left of its shots.
    pub returned: Returned,
}

impl Ending {
    /// The number of the request.
    pub fn id(&self) -> u64
        ensures { result ≡ self.now.r.id }
    {
        self.seat.id()
    }

    /// The number of its session.
    pub fn who(&self) -> u32
        ensures { result ≡ self.now.r.who }
    {
        self.who
    }

    /// What it declares.
    pub fn request(&self) -> &Request
        ensures { result.now ≡ self.now.r.request }
    {
        &self.request
    }

    /// Its parts, with which its seat may end.
    pub fn into_parts(self) -> EndParts
        ensures seat { result.seat ≡ record { table = self.core.signals; r = self.r } }
        ensures who { result.who ≡ self.r.who }
        ensures mode { result.mode ≡ self.r.mode }
        ensures request { result.request ≡ self.r.request }
        ensures returned { IsBack self.core.rows result.returned }
        ensures grant { result.grant ≡ self.grant }
        ensures fault { result.fault ≡ self.fault }
        ensures grant_given { GrantGiven self.r self.grant }
        ensures fault_given { FaultGiven self.r self.grant self.fault }
    {
        let Ending {
            seat,
            who,
            mode,
            request,
            grant,
            fault,
            returned,
        } = self;
        EndParts {
            seat,
            who,
            mode,
            request,
            grant,
            fault,
            returned,
        }
    }
}
