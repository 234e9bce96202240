// The held latches of a history.
ghost use Rattle.std.specs.Prelude.{◌≡◌, ℕ, ◌+◌, ◌*◌, ◌≤◌, List, [], ◌∷◌, ◌++◌, length, IfOk};
ghost use Rattle.latch_model.specs.Histories.{Begin, entry_of, latches_held, open_begins, shot};
ghost use Rattle.latch_model.specs.Legal.{IsLegal};
ghost use Rattle.latch_model.specs.declared.history.Entry.{Entry};
ghost use Rattle.latch_model.specs.declared.history.Sizes.{Sizes};
ghost use Rattle.latch_shots.specs.Shots.{AreShots, IsReturned, table_of as shots_table};
ghost use Rattle.history_latches.specs.Counted.{counts_of};
ghost use Rattle.history_latches.specs.Logs.{HoldsLog, InBounds, IsBeginOf, MayBegin, MayEnd, free_of, table_of, to_hold};

use held_latches::{Counted, HeldLatches};
use latch_model::history::Sizes;
use latch_model::latch::{Latch, Mode};
use latch_model::prerequisites::holds;
use latch_shots::{Returned, Shots};
use row_pool::{Memory, Rows};
use span_key::Scope;
use std::alloc::Global;

/// The latches that the open requests of a history hold, in counted rows. `begin` and `end` take them from one entry of the history to the next. It must be
/// spent.
pub struct HistoryLatches {
    pub(crate) held: HeldLatches,
}

impl HistoryLatches {
    /// What the empty history holds, which is nothing. All rows are free.
    pub fn new(alloc: Global, sizes: &Sizes) -> Result<(Rows, HistoryLatches), Memory>
        requires { InBounds sizes.now }
        ensures table { IfOk result (λ made. table_of made.1 ≡ made.0) }
        ensures holds { IfOk result (λ made. HoldsLog made.1 [] sizes.now) }
    {
        let (rows, held) = HeldLatches::new(alloc, sizes.rows, sizes.lanes)?;
        Ok((rows, HistoryLatches { held }))
    }

    /// The request of this number begins. It captures what is held, and holds its own latches from now on, but for a look; for these 13 rows a latch are free.
    pub fn begin(&mut self, rows: &Rows, id: u64, lane: u32, latches: &[Latch], mode: Mode) -> Shots
        requires table { table_of self.old ≡ rows.now }
        requires may { (log : List Entry) × (sizes : Sizes) × (b : Begin) × MayBegin self.old log sizes b × IsBeginOf b id lane latches.now mode }
        requires room { 13 * length (to_hold mode latches.now) ≤ free_of self.old }
        ensures table { table_of self.new ≡ table_of self.old }
        ensures shots_table { shots_table result ≡ table_of self.old }
        ensures holds { (log : List Entry) (sizes : Sizes) (b : Begin) → MayBegin self.old log sizes b → IsBeginOf b id lane latches.now mode
            → HoldsLog self.new (log ++ entry_of b ∷ []) sizes }
        ensures shots { (log : List Entry) (sizes : Sizes) (b : Begin) → MayBegin self.old log sizes b → IsBeginOf b id lane latches.now mode
            → AreShots result (shot (log ++ entry_of b ∷ []) b.id) }
        ensures free { free_of self.old ≤ free_of self.new + 13 * length (to_hold mode latches.now) }
    {
        self.held
            .begin(rows, id, lane, latches, to_hold(mode, latches))
    }

    /// The open request of this number ends. What it captured comes back, closed, and it holds nothing any more. No row is used.
    pub fn end(
        &mut self,
        rows: &Rows,
        id: u64,
        lane: u32,
        latches: &[Latch],
        mode: Mode,
        returned: Returned,
    )
        requires table { table_of self.old ≡ rows.now }
        requires may { (log : List Entry) × (sizes : Sizes) × (e : Entry) × (b : Begin) × MayEnd self.old log sizes e b
            × IsBeginOf b id lane latches.now mode }
        requires returned { (number : ℕ) × IsReturned rows.now number returned }
        ensures table { table_of self.new ≡ table_of self.old }
        ensures holds { (log : List Entry) (sizes : Sizes) (e : Entry) (b : Begin) → MayEnd self.old log sizes e b → IsBeginOf b id lane latches.now mode
            → HoldsLog self.new (log ++ e ∷ []) sizes }
        ensures free { free_of self.old ≤ free_of self.new }
    {
        self.held.take_back(rows, returned);
        self.held.remove(rows, id, lane, to_hold(mode, latches));
    }

    /// How many latches are held.
    pub fn total(&self) -> u32
        requires { (log : List Entry) × (sizes : Sizes) × HoldsLog self.now log sizes }
        ensures { (log : List Entry) (sizes : Sizes) → HoldsLog self.now log sizes → result ≡ length (latches_held log) }
    {
        self.held.total()
    }

    /// How many rows are free and not set aside for the latches that are held. Where no request is open, these are all rows.
    pub fn free(&self) -> u32
        requires { (log : List Entry) × (sizes : Sizes) × HoldsLog self.now log sizes }
        ensures free { result ≡ free_of self.now }
        ensures all { (log : List Entry) (sizes : Sizes) → HoldsLog self.now log sizes → open_begins log ≡ [] → result ≡ sizes.rows }
    {
        self.held.free()
    }

    /// How many latches of a scope are held.
    pub fn counts(&self, scope: Scope) -> Counted
        requires { (log : List Entry) × (sizes : Sizes) × HoldsLog self.now log sizes }
        ensures { (log : List Entry) (sizes : Sizes) → HoldsLog self.now log sizes → IsLegal log sizes → result ≡ counts_of scope log }
    {
        self.held.counts(scope)
    }

    /// Ends the held latches, where no request is open any more, with their pool.
    pub fn close(self, rows: Rows)
        requires table { table_of self ≡ rows }
        requires holds { (log : List Entry) × (sizes : Sizes) × HoldsLog self log sizes × (open_begins log ≡ []) }
    {
        let HistoryLatches { held } = self;
        held.close(rows);
    }
}

/// The latches that a request of this mode holds: all that it declares, or none.
fn to_hold(mode: Mode, latches: &[Latch]) -> &[Latch]
    ensures { result.now ≡ to_hold mode latches.now }
{
    if holds(mode) { latches } else { &latches[..0] }
}
