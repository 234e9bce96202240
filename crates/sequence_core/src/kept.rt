// What a desk keeps beside its seat.
ghost use Rattle.std.specs.Prelude.{◌≡◌, ℕ, ◌+◌, ◌*◌, ◌≤◌, ◌<◌, ◌^◌, List, [], ◌∷◌, ◌++◌, length, IfOk, OnOk};
ghost use Rattle.latch_model.specs.Histories.{Begin, entry_of, open_begins, shot};
ghost use Rattle.latch_model.specs.declared.history.Entry.{Entry as AnyEntry};
ghost use Rattle.latch_model.specs.declared.history.Sizes.{Sizes as TheSizes};
ghost use Rattle.latch_shots.specs.Shots.{AreShots, IsReturned, table_of as shots_table};
ghost use Rattle.history_latches.specs.Logs.{HoldsLog, InBounds, IsBeginOf, MayBegin, MayEnd, free_of, table_of, to_hold};
ghost use Rattle.sequence_core.specs.Lanes.{Falls, lanes_below, least};
ghost use Rattle.sequence_core.specs.Preparing.{AddsBegin, AddsEnd, HasRoom, SameBut, begin_next};

use crate::book::Book;
use crate::lanes::FreeLanes;
use history_latches::HistoryLatches;
use latch_model::history::{Entry, Sizes};
use latch_model::latch::{Latch, Mode};
use latch_model::request::Request;
use latch_shots::{Returned, Shots};
use row_pool::Rows;
use span_key::{Memory, SpanRoom};
use std::alloc::Global;

/// The entries, how many requests have begun, the free lanes, and the held latches. It must be spent.
pub(crate) struct Kept {
    pub(crate) book: Book,
    pub(crate) begun: u64,
    pub(crate) free: FreeLanes,
    pub(crate) held: HistoryLatches,
}

/// What a begin takes memory for beside its entries: the request once more, and room for a mark.
#[derive(Drop)]
pub(crate) struct Prepared {
    pub(crate) copy: Request,
    pub(crate) mark: SpanRoom,
}

impl Kept {
    /// What is kept of the empty history, and the rows for what is held.
    pub(crate) fn new(alloc: Global, sizes: &Sizes) -> Result<(Rows, Kept), Memory>
        requires { InBounds sizes.now }
        ensures book { IfOk result (λ made. made.1.book ≡ record { entries = []; room = 0 }) }
        ensures begun { IfOk result (λ made. made.1.begun ≡ 0) }
        ensures lanes { IfOk result (λ made. made.1.free ≡ record { free = lanes_below sizes.now.lanes; lanes = sizes.now.lanes }) }
        ensures held { IfOk result (λ made. HoldsLog made.1.held [] sizes.now × (table_of made.1.held ≡ made.0)) }
    {
        let free = FreeLanes::new(alloc, sizes.lanes)?;
        let (rows, held) = HistoryLatches::new(alloc, sizes)?;
        let kept = Kept {
            book: Book::new(alloc),
            begun: 0,
            free,
            held,
        };
        Ok((rows, kept))
    }

    /// Takes all memory for one more request of this declaration: room for both entries beside the ends of those that are open, and for a mark.
    pub(crate) fn prepare(&mut self, alloc: Global, request: &Request) -> Result<Prepared, Memory>
        requires lanes { (length self.old.free.free ≤ self.old.free.lanes) × (self.old.free.lanes < 2 ^ 16) }
        ensures same { SameBut self.old self.new }
        ensures copy { IfOk result (λ prepared. prepared.copy ≡ request.now) }
        ensures room { OnOk result (HasRoom self.new) }
    {
        let taken = self.free.taken();
        self.book.make_room(taken + 2)?;
        Ok(Prepared {
            copy: request.share()?,
            mark: SpanRoom::roomy(alloc)?,
        })
    }

    /// The entry of the next begin.
    pub(crate) fn next_entry(&self, who: u32, mode: Mode, request: Request) -> Entry
        requires lanes { 0 < length self.now.free.free }
        requires number { self.now.begun + 1 < 2 ^ 64 }
        ensures { result ≡ entry_of (begin_next self.now who mode request) }
    {
        Entry::Begun {
            id: self.begun + 1,
            lane: self.free.least(),
            who,
            mode,
            request,
        }
    }

    /// Keeps the next begin, of a request of these latches. It captures what is held.
    pub(crate) fn add_begin(
        &mut self,
        rows: &Rows,
        entry: Entry,
        latches: &[Latch],
        mode: Mode,
    ) -> Shots
        requires table { table_of self.old.held ≡ rows.now }
        requires number { self.old.begun + 1 < 2 ^ 64 }
        requires lanes { 0 < length self.old.free.free }
        requires room { 0 < self.old.book.room }
        requires may { (log : List AnyEntry) × (sizes : TheSizes) × (b : Begin) × MayBegin self.old.held log sizes b
            × IsBeginOf b (self.old.begun + 1) (least self.old.free.free) latches.now mode }
        requires rows { 13 * length (to_hold mode latches.now) ≤ free_of self.old.held }
        ensures table { table_of self.new.held ≡ table_of self.old.held }
        ensures shots_table { shots_table result ≡ table_of self.old.held }
        ensures adds { AddsBegin self.old entry (self.old.begun + 1) (least self.old.free.free) self.new }
        ensures holds { (log : List AnyEntry) (sizes : TheSizes) (b : Begin) → MayBegin self.old.held log sizes b
            → IsBeginOf b (self.old.begun + 1) (least self.old.free.free) latches.now mode → HoldsLog self.new.held (log ++ entry_of b ∷ []) sizes }
        ensures shots { (log : List AnyEntry) (sizes : TheSizes) (b : Begin) → MayBegin self.old.held log sizes b
            → IsBeginOf b (self.old.begun + 1) (least self.old.free.free) latches.now mode → AreShots result (shot (log ++ entry_of b ∷ []) b.id) }
        ensures free { free_of self.old.held ≤ free_of self.new.held + 13 * length (to_hold mode latches.now) }
    {
        let id = self.begun + 1;
        let lane = self.free.least();
        self.begun = id;
        self.book.add(entry);
        self.free.take();
        self.held.begin(rows, id, lane, latches, mode)
    }

    /// Keeps the end of a request of these latches. What it captured comes back, closed.
    pub(crate) fn add_end(
        &mut self,
        rows: &Rows,
        entry: Entry,
        id: u64,
        lane: u32,
        latches: &[Latch],
        mode: Mode,
        returned: Returned,
    )
        requires table { table_of self.old.held ≡ rows.now }
        requires room { (0 < self.old.book.room) × (length self.old.free.free < self.old.free.lanes) }
        requires falls { Falls self.old.free.free }
        requires may { (log : List AnyEntry) × (sizes : TheSizes) × (b : Begin) × MayEnd self.old.held log sizes entry b
            × IsBeginOf b id lane latches.now mode }
        requires returned { (number : ℕ) × IsReturned rows.now number returned }
        ensures table { table_of self.new.held ≡ table_of self.old.held }
        ensures adds { AddsEnd self.old entry lane self.new }
        ensures holds { (log : List AnyEntry) (sizes : TheSizes) (b : Begin) → MayEnd self.old.held log sizes entry b → IsBeginOf b id lane latches.now mode
            → HoldsLog self.new.held (log ++ entry ∷ []) sizes }
        ensures free { free_of self.old.held ≤ free_of self.new.held }
    {
        self.book.add(entry);
        self.free.give(lane);
        self.held.end(rows, id, lane, latches, mode, returned);
    }

    /// Ends what is kept, where no request is open any more. The entries come out.
    pub(crate) fn close(self, rows: Rows) -> Vec<Entry>
        requires table { table_of self.held ≡ rows }
        requires holds { (log : List AnyEntry) × (sizes : TheSizes) × HoldsLog self.held log sizes × (open_begins log ≡ []) }
        ensures { result.items ≡ self.book.entries }
    {
        let Kept {
            book,
            begun: _,
            free: _free,
            held,
        } = self;
        held.close(rows);
        book.into_entries()
    }
}
