// A request that waits for the latches that it met in its snapshot.
ghost use Rattle.std.specs.Prelude.{◌≡◌, ◌≢◌, ℕ, ◌≤◌, ◌↔◌, length, map, true, false, IfOk, IsTrue, Some, MatchOption};
ghost use Rattle.std.specs.Option.{option_map};
ghost use Rattle.std.specs.List.{Contains};
ghost use Rattle.latch_model.specs.Histories.{ascending, has_ended};
ghost use Rattle.latch_model.specs.declared.history.Cause.TheVariants.{Called};
ghost use Rattle.latch_model.specs.declared.history.Grant.TheVariants.{Waited, Never};
ghost use Rattle.signal_board.specs.Rule.{IsPrefix, IsPrerequisite};
ghost use Rattle.signal_board.specs.Says.{absent_cause, first_cause, shown_to};
ghost use Rattle.signal_board.specs.Steps.{if_caused, warned};
ghost use Rattle.waiter.specs.Kept.{IsKept, WalkKept};
ghost use Rattle.waiter.specs.Met.{held_of, last_of};
ghost use Rattle.waiter.specs.Polls.{Polls, SameBut};
ghost use Rattle.waiter.specs.Says.{Blocked, Last, MayAbandon, ShowsLast, Ready as is_ready, id_of};
ghost use Rattle.waiter.specs.Steps.{Judged};
ghost use Rattle.latch_shots.specs.Shots.{table_of};
ghost use Rattle.shot_walks.specs.Waits.{AllEnded, FirstOpen, IsWaitedFor, Learns, waits_for};

use crate::granted::{Ending, Granted};
use crate::mark::{Mark, Met, keep};
use crate::optimist::Optimist;
use crate::shared::Core;
use latch_model::history::{Cause, Fault, Grant};
use latch_model::latch::{Latch, Mode, Policy};
use latch_model::request::Request;
use latch_shots::Shots;
use row_pool::Rows;
use shot_walks::{Next, Place, Places, last_open, numbers_met};
use signal_board::board::{Board, DeskSeat, LaneSeat};
use span_key::Memory;
use std::alloc::Global;
use std::marker::Model;

// What the last poll answered.
#[derive(Clone, Copy)]
pub(crate) enum Stage {
    Unpolled,
    Ready,
    Blocked,
    Poisoned,
}

/// What a poll answers: each prerequisite has ended; or latch number `place`, from 0, of request `by` blocks the request; or it does, and its request is
/// poisoned, which ends the wait under the policy Error.
#[derive(Clone, Copy, Debug, PartialEq, Eq)]
pub enum Polled {
    Ready,
    Blocked { by: u64, place: u32 },
    Poisoned { by: u64, place: u32 },
}

/// A request that waits. It must be spent.
pub struct Waiting {
    pub(crate) seat: LaneSeat,
    pub(crate) who: u32,
    pub(crate) mode: Mode,
    pub(crate) request: Request,
    pub(crate) shots: Shots,
    pub(crate) met: Met,
    pub(crate) stage: Stage,
    pub(crate) turns: u64,
    // The waiting order of its latches, and how far the last poll came.
    pub(crate) order: Places,
    pub(crate) place: Place,
}

impl Model for Waiting {
    ghost use Rattle.latch_shots.specs.Shots.{table_of};
    ghost use Rattle.waiter.specs.Kept.{WaitingKept};
    ghost use Rattle.waiter.specs.Met.{held_of, last_of};
    ghost use Rattle.waiter.specs.Says.{WaitingSays};

    ghost Value = { WaitingSays };

    ghost view = { λ w. record {
      core = record { signals = w.seat.table; rows = table_of w.shots };
      r = w.seat.r;
      turns = w.turns;
      last = last_of w.stage (held_of w.met);
    } };

    ghost invariant = { λ w. WaitingKept w.who w.mode w.request w.shots w.turns (last_of w.stage (held_of w.met)) w.order.items w.place w.seat };
}

impl Waiting {
    /// The number of the request.
    pub fn id(&self) -> u64
        ensures { result ≡ self.now.r.id }
    {
        self.seat.id()
    }

    /// The number of its session.
    pub fn who(&self) -> u32
        ensures { result ≡ self.now.r.who }
    {
        self.who
    }

    /// What it declares.
    pub fn request(&self) -> &Request
        ensures { result.now ≡ self.now.r.request }
    {
        &self.request
    }

    /// The cause for which it is poisoned, or none.
    pub fn cause(&self) -> Cause
        ensures { result ≡ self.now.r.cause }
    {
        self.seat.cause()
    }

    /// Whether the last poll was Ready.
    pub fn is_ready(&self) -> bool
        ensures { IsTrue result ↔ (self.now.last ≡ is_ready) }
    {
        match self.stage {
            Stage::Ready => true,
            Stage::Unpolled | Stage::Blocked | Stage::Poisoned => false,
        }
    }

    /// How many of its polls were Blocked. It stays at its type's end.
    pub fn turns(&self) -> u64
        ensures { result ≡ self.now.turns }
    {
        self.turns
    }

    /// The latch of the last poll. There is none exactly where no poll was made or the last was Ready.
    pub fn mark(&self) -> Option<&Mark>
        ensures { ShowsLast (option_map (λ m. m.now) result) self.now.last }
    {
        match self.stage {
            Stage::Unpolled | Stage::Ready => None,
            Stage::Blocked | Stage::Poisoned => Some(&self.met.mark),
        }
    }

    /// Goes on from where the last poll was blocked, over the held latches that it waits for, in the waiting order, up to the first whose request hasn't ended.
    /// It takes no memory.
    pub fn poll(&mut self, core: &Core) -> Polled
        requires core { self.old.core ≡ id_of core.now }
        ensures same { SameBut self.old self.new }
        ensures answer { Polls self.old self.new result }
    {
        let found = find_open(
            &core.rows,
            &core.board,
            &mut self.seat,
            &mut self.shots,
            self.request.latches().list(),
            self.order.as_slice(),
            &mut self.place,
            &mut self.met,
        );
        if !found {
            self.stage = Stage::Ready;
            return Polled::Ready;
        }
        let by = self.met.mark.by;
        let place = self.met.mark.place;
        let policy = self.request.policy();
        if is_poisoned(&core.board, &mut self.seat, policy, self.met.lane, by) {
            self.stage = Stage::Poisoned;
            Polled::Poisoned { by, place }
        } else {
            self.stage = Stage::Blocked;
            self.turns = self.turns.saturating_add(1);
            Polled::Blocked { by, place }
        }
    }

    /// One of the requests that it waits for: the last of the waiting order that it finds open, or else the one that blocks it.
    pub fn last_open(&mut self, core: &Core) -> u64
        requires core { self.old.core ≡ id_of core.now }
        requires blocked { (x : _) × (self.old.last ≡ Blocked x) }
        ensures same { self.new ≡ record self.old { r = record self.old.r { ended = self.new.r.ended } } }
        ensures ended { (p : ℕ) → Contains self.old.r.ended p → Contains self.new.r.ended p }
        ensures waited_for { IsWaitedFor self.old.r result }
    {
        let latches = self.request.latches().list();
        match last_open(
            &core.rows,
            &core.board,
            &mut self.seat,
            &mut self.shots,
            latches,
            self.order.as_slice(),
        ) {
            Some(by) => by,
            None => self.met.mark.by,
        }
    }

    /// The numbers, ascending and each once, of the requests that it waits for. Only want of memory is refused.
    pub fn prerequisites(&mut self, alloc: Global, core: &Core) -> Result<Vec<u64>, Memory>
        requires core { self.old.core ≡ id_of core.now }
        ensures numbers { IfOk result (λ ids. ids.items ≡ ascending (map (λ x. x.by) (waits_for self.old.r))) }
        ensures same { self.new ≡ self.old }
    {
        let ids = numbers_met(
            alloc,
            &core.rows,
            &mut self.shots,
            self.request.latches().list(),
            self.order.as_slice(),
        )?;
        // Where it waits for nothing, no poll has to walk over its shots again.
        if ids.is_empty() {
            self.place = Place::end();
        }
        Ok(ids)
    }

    /// The cause becomes Called, unless there is one.
    pub fn poison(&mut self, core: &Core)
        requires core { self.old.core ≡ id_of core.now }
        ensures { self.new ≡ record self.old { r = record self.old.r { cause = first_cause self.old.r.cause Called } } }
    {
        core.board.poison(&mut self.seat, Cause::Called);
    }

    /// The request has then been shown the whole history, in which each request that it knows ended has its end.
    pub fn tell(&mut self, core: &Core, desk: &mut DeskSeat)
        requires core { (desk.old.table ≡ core.now.board.table) × (self.old.core ≡ id_of core.now) }
        ensures desk { desk.new ≡ desk.old }
        ensures told { self.new ≡ record self.old { r = shown_to desk.old.log self.old.r } }
        ensures goes_on { IsPrefix self.old.r.shown desk.old.log }
        ensures ended { (p : ℕ) → Contains self.old.r.ended p → has_ended desk.old.log p ≡ true }
        ensures front { (front : ℕ) → self.old.r.front ≡ Some front → front ≤ length desk.old.log }
    {
        core.board.tell(desk, &mut self.seat);
    }

    /// The other request is then known poisoned to this one exactly where it has a cause. It learns in turn what this one knew poisoned.
    pub fn hear_waiting(&mut self, core: &Core, other: &mut Waiting)
        requires core { (self.old.core ≡ id_of core.now) × (other.old.core ≡ id_of core.now) }
        ensures hears { self.new ≡ record self.old { r = warned (if_caused other.old.r.id other.old.r.cause) self.old.r } }
        ensures other { other.new ≡ record other.old { r = warned self.old.r.poisoned other.old.r } }
        ensures exactly { Contains self.new.r.poisoned other.old.r.id ↔ (other.old.r.cause ≢ absent_cause) }
    {
        core.board.hear(&mut self.seat, &mut other.seat);
    }

    /// As `hear_waiting`, of an optimistic request.
    pub fn hear_optimist(&mut self, core: &Core, other: &mut Optimist)
        requires core { (self.old.core ≡ id_of core.now) × (other.old.core ≡ id_of core.now) }
        ensures hears { self.new ≡ record self.old { r = warned (if_caused other.old.r.id other.old.r.cause) self.old.r } }
        ensures other { other.new ≡ record other.old { r = warned self.old.r.poisoned other.old.r } }
        ensures exactly { Contains self.new.r.poisoned other.old.r.id ↔ (other.old.r.cause ≢ absent_cause) }
    {
        core.board.hear(&mut self.seat, &mut other.seat);
    }

    /// As `hear_waiting`, of a granted request.
    pub fn hear_granted(&mut self, core: &Core, other: &mut Granted)
        requires core { (self.old.core ≡ id_of core.now) × (other.old.core ≡ id_of core.now) }
        ensures hears { self.new ≡ record self.old { r = warned (if_caused other.old.r.id other.old.r.cause) self.old.r } }
        ensures other { other.new ≡ record other.old { r = warned self.old.r.poisoned other.old.r } }
        ensures exactly { Contains self.new.r.poisoned other.old.r.id ↔ (other.old.r.cause ≢ absent_cause) }
    {
        core.board.hear(&mut self.seat, &mut other.seat);
    }

    /// The request is granted, by the length of the history, by which each of its prerequisites had ended. Its snapshot is let go.
    pub fn grant(self, core: &Core) -> Granted
        requires core { self.core ≡ id_of core.now }
        requires ready { self.last ≡ is_ready }
        ensures { (front : ℕ) × (length self.r.shown ≤ front)
            × (result ≡ record { core = self.core; r = record self.r { front = Some front }; grant = Waited front }) }
    {
        let Waiting {
            mut seat,
            who,
            mode,
            request,
            shots,
            met: _,
            stage: _,
            turns: _,
            order: _,
            place: _,
        } = self;
        let front = core.board.stamp(&mut seat);
        Granted {
            seat,
            who,
            mode,
            request,
            grant: Grant::Waited(front),
            returned: shots.close(&core.rows),
        }
    }

    /// The request gives up, for a fault that its last poll allows. Its mark is handed back, and its snapshot let go.
    pub fn abandon(self, core: &Core, fault: Fault) -> (Ending, Option<Mark>)
        requires core { self.core ≡ id_of core.now }
        requires fault { MayAbandon self fault }
        ensures ending { result.0 ≡ record { core = self.core; r = self.r; grant = Never; fault = fault } }
        ensures mark { ShowsLast result.1 self.last }
    {
        let Waiting {
            seat,
            who,
            mode,
            request,
            shots,
            met,
            stage,
            turns: _,
            order: _,
            place: _,
        } = self;
        let shown = shown_mark(stage, met);
        let ending = Ending {
            seat,
            who,
            mode,
            request,
            grant: Grant::Never,
            fault,
            returned: shots.close(&core.rows),
        };
        (ending, shown)
    }
}

// Goes on to the first held latch for which a request waits and whose request hasn't ended, and keeps it. The one at which it stands is kept already.
fn find_open(
    rows: &Rows,
    board: &Board,
    seat: &mut LaneSeat,
    shots: &mut Shots,
    latches: &[Latch],
    order: &[u8],
    place: &mut Place,
    met: &mut Met,
) -> bool
    requires core { (seat.old.table ≡ board.now.table) × (table_of shots.old ≡ rows.now) }
    requires latches { latches.now ≡ seat.old.r.request.latches }
    requires stands { (last : Last) × IsKept last met.old × WalkKept seat.old.r shots.old order.now place.old last }
    ensures same { table_of shots.new ≡ table_of shots.old }
    ensures learns { Learns seat.old seat.new }
    ensures found { result ≡ true → FirstOpen seat.old.r seat.new.r (held_of met.new)
        × WalkKept seat.new.r shots.new order.now place.new (Blocked (held_of met.new)) }
    ensures none { result ≡ false → AllEnded seat.new.r.ended (waits_for seat.old.r)
        × WalkKept seat.new.r shots.new order.now place.new is_ready }
{
    match place.find_open(rows, board, seat, shots, latches, order) {
        Next::AllEnded => false,
        Next::Still => true,
        Next::Open(x) => {
            keep(met, &x, rows, shots);
            true
        }
    }
}

// Whether the request that blocks is found poisoned and the policy is Error. Under the policy Wait this one is then poisoned too, unless it has a cause.
fn is_poisoned(board: &Board, seat: &mut LaneSeat, policy: Policy, lane: u32, by: u64) -> bool
    requires table { seat.old.table ≡ board.now.table }
    requires prerequisite { IsPrerequisite seat.old.r by lane }
    requires policy { policy ≡ seat.old.r.request.policy }
    ensures { Judged policy seat.old seat.new by result }
{
    if !board.poisoned(seat, lane, by) {
        return false;
    }
    match policy {
        Policy::Error => true,
        Policy::Wait => {
            board.poison(seat, Cause::From(by));
            false
        }
    }
}

// The mark of the last poll, where it met a latch.
fn shown_mark(stage: Stage, met: Met) -> Option<Mark>
    ensures { ShowsLast result (last_of stage (held_of met)) }
{
    let Met {
        mark,
        lane: _,
        access: _,
    } = met;
    match stage {
        Stage::Unpolled | Stage::Ready => None,
        Stage::Blocked | Stage::Poisoned => Some(mark),
    }
}
