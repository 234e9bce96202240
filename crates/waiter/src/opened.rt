// A request that has begun and neither waits nor checks yet.
ghost use Rattle.std.specs.Prelude.{◌≡◌, ◌≢◌, None};
ghost use Rattle.latch_model.specs.declared.latch.Mode.TheVariants.{Optimistic};
ghost use Rattle.latch_shots.specs.Shots.{AreShots, table_of};
ghost use Rattle.waiter.specs.Says.{OptimistSays, WaitingSays, Unpolled};

use crate::mark::unmet;
use crate::optimist::Optimist;
use crate::waiting::{Stage, Waiting};
use latch_model::latch::Mode;
use latch_model::request::Request;
use latch_shots::Shots;
use shot_walks::{Place, order_of};
use signal_board::board::LaneSeat;
use span_key::SpanRoom;
use std::marker::Model;

/// A request that has begun. It must be spent.
pub struct Opened {
    seat: LaneSeat,
    who: u32,
    mode: Mode,
    request: Request,
    shots: Shots,
    mark: SpanRoom,
}

impl Model for Opened {
    ghost use Rattle.latch_shots.specs.Shots.{table_of};
    ghost use Rattle.waiter.specs.Kept.{OpenedKept};
    ghost use Rattle.waiter.specs.Says.{OpenedSays};

    ghost Value = { OpenedSays };

    ghost view = { λ o. record { core = record { signals = o.seat.table; rows = table_of o.shots }; r = o.seat.r } };

    ghost invariant = { λ o. OpenedKept o.who o.mode o.request o.shots o.seat };
}

impl Opened {
    /// The request of this seat, with its session, its mode, what it declares, and the shots that stand for its snapshot. `mark` is room for the span of a
    /// latch that it meets.
    pub fn new(
        seat: LaneSeat,
        who: u32,
        mode: Mode,
        request: Request,
        shots: Shots,
        mark: SpanRoom,
    ) -> Opened
        requires who { who ≡ seat.r.who }
        requires mode { mode ≡ seat.r.mode }
        requires request { request ≡ seat.r.request }
        requires shots { AreShots shots seat.r.shot }
        ensures { result ≡ record { core = record { signals = seat.table; rows = table_of shots }; r = seat.r } }
    {
        Opened {
            seat,
            who,
            mode,
            request,
            shots,
            mark,
        }
    }

    /// The number of the request.
    pub fn id(&self) -> u64
        ensures { result ≡ self.now.r.id }
    {
        self.seat.id()
    }

    /// The number of its session.
    pub fn who(&self) -> u32
        ensures { result ≡ self.now.r.who }
    {
        self.who
    }

    /// How it is sequenced.
    pub fn mode(&self) -> Mode
        ensures { result ≡ self.now.r.mode }
    {
        self.mode
    }

    /// What it declares.
    pub fn request(&self) -> &Request
        ensures { result.now ≡ self.now.r.request }
    {
        &self.request
    }

    /// The request, which is to wait for its latches.
    pub fn waiting(self) -> Waiting
        requires { self.r.mode ≢ Optimistic }
        ensures { result ≡ record { core = self.core; r = self.r; turns = 0; last = Unpolled } }
    {
        let Opened {
            seat,
            who,
            mode,
            request,
            shots,
            mark,
        } = self;
        let order = order_of(request.latches().list());
        Waiting {
            seat,
            who,
            mode,
            request,
            shots,
            met: unmet(mark),
            stage: Stage::Unpolled,
            turns: 0,
            order,
            place: Place::start(),
        }
    }

    /// The request, which is to check instead of waiting.
    pub fn optimist(self) -> Optimist
        requires { self.r.mode ≡ Optimistic }
        ensures { result ≡ record { core = self.core; r = self.r; met = None; passed = None } }
    {
        let Opened {
            seat,
            who,
            mode: _,
            request,
            shots,
            mark,
        } = self;
        Optimist {
            seat,
            who,
            request,
            shots,
            met: unmet(mark),
            has_met: false,
            passed: None,
        }
    }
}
