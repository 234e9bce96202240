// The desk, which begins and ends requests.
ghost use Rattle.std.specs.Prelude.{◌≡◌, ◌≢◌, ℕ, ◌+◌, ◌<◌, ◌≤◌, ◌^◌, List, [], ◌∷◌, ◌++◌, false, true, length, vec_capacity, IfOk, IfErr, IsTrue, OnOk};
ghost use Rattle.std.specs.Prelude.{MatchResult, None, Some};
ghost use Rattle.std.specs.List.{Contains};
ghost use Rattle.latch_model.specs.Histories.{begin_with, has_ended, holds_latches, is_open, latches_held, open_begins};
ghost use Rattle.latch_model.specs.Legal.{IsLegal};
ghost use Rattle.signal_board.specs.Rule.{ByGiven, IsPrefix, begun_as, open_count, own};
ghost use Rattle.signal_board.specs.Says.{PassSays, shown_all, shown_to};
ghost use Rattle.signal_board.specs.Steps.{new_request, wrote};
ghost use Rattle.latch_model.specs.declared.history.Entry.{Entry as AnyEntry};
ghost use Rattle.latch_model.specs.declared.history.Sizes.{Sizes as TheSizes};
ghost use Rattle.history_latches.specs.Logs.{HoldsLog, free_of, table_of, to_hold};
ghost use Rattle.sequence_core.specs.Counted.{counts_of, metrics_of};
ghost use Rattle.sequence_core.specs.Bounds.{bad_size};
ghost use Rattle.sequence_core.specs.Kept.{IsKept};
ghost use Rattle.sequence_core.specs.Preparing.{FitsIn, HasRoom, Lacks, RowsFor, SameBut};
ghost use Rattle.sequence_core.specs.Says.{AreFresh, HasEachPass, HasPlace, HasRows, Refuses, RefusesNew, end_entry, logs, next_entry, rows_for};
ghost use Rattle.waiter.specs.Says.{id_of};

use crate::fault::{NewFault, SeqFault};
use crate::kept::{Kept, Prepared};
use crate::limits::{LATCH_ROWS, bad_size};
use crate::metrics::{Counts, Metrics};
use history_latches::HistoryLatches;
use latch_model::history::{Entry, History, Sizes};
use latch_model::latch::{Latch, Mode};
use latch_model::prerequisites::holds;
use latch_model::request::Request;
use row_pool::Rows;
use signal_board::board::{Board, DeskSeat, Pass};
use span_key::Scope;
use std::alloc::{AllocFailed, Global};
use std::marker::Model;
use waiter::{Core, EndParts, Ending, Granted, Opened, Waiting};

/// A request that doesn't begin, with the reason.
#[derive(Drop)]
pub struct SeqRefusal {
    pub fault: SeqFault,
    pub request: Request,
}

/// The one that begins and ends requests. It keeps the history and the held latches, and must be spent.
pub struct Desk {
    seat: DeskSeat,
    sizes: Sizes,
    kept: Kept,
}

impl Model for Desk {
    ghost use Rattle.history_latches.specs.Logs.{free_of, table_of};
    ghost use Rattle.sequence_core.specs.Says.{DeskState};
    ghost use Rattle.sequence_core.specs.Kept.{Rests};

    ghost Value = { DeskState };

    ghost view = { λ d. record {
      core = record { signals = d.seat.table; rows = table_of d.kept.held };
      sizes = d.sizes;
      log = d.seat.log;
      given = d.seat.given;
      free = free_of d.kept.held;
    } };

    ghost invariant = { λ d. Rests d.seat d.sizes d.kept };
}

impl Desk {
    /// A desk with an empty history, what its requests share, and a pass for each lane.
    pub fn new(alloc: Global, sizes: Sizes) -> Result<(Core, Desk, Vec<Pass>), NewFault>
        ensures refused { MatchResult result (λ _. bad_size sizes ≡ None) (RefusesNew sizes) }
        ensures core { IfOk result (λ made. made.0.board.sizes ≡ sizes) }
        ensures desk { IfOk result (λ made. made.1 ≡ record { core = id_of made.0; sizes = sizes; log = []; given = sizes.lanes; free = made.1.free }) }
        ensures passes { IfOk result (λ made. AreFresh made.0.board.table sizes.lanes made.2.items) }
    {
        if let Some(which) = bad_size(&sizes) {
            return Err(NewFault::BadSizes { which });
        }
        let passes = Vec::with_capacity(alloc, sizes.lanes as usize)?;
        let (rows, kept) = match Kept::new(alloc, &sizes) {
            Err(_) => {
                passes.destroy_empty();
                return Err(NewFault::Memory);
            }
            Ok(made) => made,
        };
        match Board::new(alloc, sizes) {
            Err(_) => {
                passes.destroy_empty();
                let _ = kept.close(rows);
                Err(NewFault::Memory)
            }
            Ok((board, seat)) => Ok(furnish(rows, board, seat, sizes, kept, passes)),
        }
    }

    /// The history grows by the begin of a request of this pass, which is shown the whole history first. Where there is no place, are too few
    /// rows or no memory the request is handed back, and nothing has changed but what the pass has been shown.
    pub fn begin(
        &mut self,
        alloc: Global,
        core: &Core,
        pass: &mut Pass,
        request: Request,
        mode: Mode,
    ) -> Result<Opened, SeqRefusal>
        requires core { (self.old.core ≡ id_of core.now) × (pass.old.table ≡ core.now.board.table) }
        requires idle { open_count pass.old.p.mine ≡ 0 }
        ensures later { pass.old.p.seen ≤ length self.old.log }
        ensures goes_on { IsPrefix pass.old.p.shown self.old.log }
        ensures opened { IfOk result (λ opened. let e = next_entry self.old.log pass.old.p.who mode request in
            opened ≡ record { core = self.old.core; r = shown_to (self.old.log ++ e ∷ []) (new_request self.old.log e) }) }
        ensures desk { OnOk result (self.new ≡ logs (next_entry self.old.log pass.old.p.who mode request) self.new.free self.old) }
        ensures rows { OnOk result (self.old.free ≤ self.new.free + rows_for (to_hold mode request.latches)) }
        ensures pass { OnOk result (let e = next_entry self.old.log pass.old.p.who mode request in
            pass.new ≡ record pass.old { p = shown_all (self.old.log ++ e ∷ []) (wrote pass.old.p (length self.old.log) e) }) }
        ensures busy { OnOk result (open_count pass.new.p.mine ≡ 1) }
        ensures fits { OnOk result (HasPlace self.old mode request.latches × HasRows self.old mode request.latches) }
        ensures refused { IfErr result (λ e. Refuses self.old mode request.latches e.fault) }
        ensures same { IfErr result (λ e. (self.new ≡ self.old) × (e.request ≡ request)
            × (pass.new ≡ record pass.old { p = shown_all self.old.log pass.old.p })) }
    {
        core.board.show(&mut self.seat, pass);
        self.kept.book.is_small();
        match reserve(&mut self.kept, self.sizes.latches, alloc, &request, mode) {
            Err(fault) => Err(SeqRefusal { fault, request }),
            Ok(prepared) => Ok(open(
                &mut self.seat,
                &mut self.kept,
                core,
                pass,
                request,
                mode,
                prepared,
            )),
        }
    }

    /// The history grows by the end of the request, and stays legal. It has no refusal, since its room was taken at the begin.
    pub fn end(&mut self, core: &Core, pass: &mut Pass, ending: Ending)
        requires core { (self.old.core ≡ id_of core.now) × (pass.old.table ≡ core.now.board.table) × (ending.core ≡ id_of core.now) }
        requires session { ending.r.who ≡ pass.old.p.who }
        ensures desk { self.new ≡ logs (end_entry ending) self.new.free self.old }
        ensures rows { self.old.free ≤ self.new.free }
        ensures legal { IsLegal (self.old.log ++ end_entry ending ∷ []) self.old.sizes }
        ensures begun { begin_with self.old.log ending.r.id ≡ Some (begun_as ending.r) }
        ensures later { pass.old.p.seen ≤ length self.old.log }
        ensures goes_on { IsPrefix pass.old.p.shown self.old.log }
        ensures pass { let e = end_entry ending in
            pass.new ≡ record pass.old { p = shown_all (self.old.log ++ e ∷ []) (wrote pass.old.p (length self.old.log) e) } }
        ensures idle { open_count pass.new.p.mine ≡ 0 }
    {
        let EndParts {
            seat,
            who,
            mode,
            request,
            grant,
            fault,
            returned,
        } = ending.into_parts();
        let id = seat.id();
        let lane = seat.lane();
        let entry = Entry::Ended {
            id,
            who,
            grant,
            poison: seat.cause(),
            fault,
        };
        self.kept.book.is_small();
        core.board.end(&mut self.seat, pass, seat, &entry);
        let latches = request.latches().list();
        self.kept
            .add_end(&core.rows, entry, id, lane, latches, mode, returned);
    }

    /// The waiting request has then been shown the whole history, in which each request that it knows ended has its end.
    pub fn tell(&mut self, core: &Core, waiting: &mut Waiting)
        requires core { (self.old.core ≡ id_of core.now) × (waiting.old.core ≡ id_of core.now) }
        ensures desk { self.new ≡ self.old }
        ensures told { waiting.new ≡ record waiting.old { r = shown_to self.old.log waiting.old.r } }
        ensures goes_on { IsPrefix waiting.old.r.shown self.old.log }
        ensures ended { (p : ℕ) → Contains waiting.old.r.ended p → has_ended self.old.log p ≡ true }
        ensures front { (front : ℕ) → waiting.old.r.front ≡ Some front → front ≤ length self.old.log }
    {
        waiting.tell(core, &mut self.seat);
    }

    /// As `tell`, of a granted request.
    pub fn tell_granted(&mut self, core: &Core, granted: &mut Granted)
        requires core { (self.old.core ≡ id_of core.now) × (granted.old.core ≡ id_of core.now) }
        ensures desk { self.new ≡ self.old }
        ensures told { granted.new ≡ record granted.old { r = shown_to self.old.log granted.old.r } }
        ensures goes_on { IsPrefix granted.old.r.shown self.old.log }
        ensures ended { (p : ℕ) → Contains granted.old.r.ended p → has_ended self.old.log p ≡ true }
        ensures front { (front : ℕ) → granted.old.r.front ≡ Some front → front ≤ length self.old.log }
    {
        granted.tell(core, &mut self.seat);
    }

    /// The pass has then seen and been shown the whole history. Where it has no open request, fewer requests are open than there are lanes.
    pub fn show(&mut self, core: &Core, pass: &mut Pass)
        requires core { (self.old.core ≡ id_of core.now) × (pass.old.table ≡ core.now.board.table) }
        ensures desk { self.new ≡ self.old }
        ensures later { pass.old.p.seen ≤ length self.old.log }
        ensures goes_on { IsPrefix pass.old.p.shown self.old.log }
        ensures pass { pass.new ≡ record pass.old { p = shown_all self.old.log pass.old.p } }
        ensures lane_left { open_count pass.old.p.mine ≡ 0 → length (open_begins self.old.log) < self.old.given }
    {
        core.board.show(&mut self.seat, pass);
    }

    /// The history is legal at any time, each lane has its pass, and the history's length is below what its type has.
    pub fn known(&self)
        ensures legal { IsLegal self.now.log self.now.sizes }
        ensures given { self.now.given ≡ self.now.sizes.lanes }
        ensures short { length self.now.log < 2 ^ 64 }
    {
        self.kept.book.is_small();
    }

    /// How many latches are held and how many reads are pending, by scope, and how many rows are free. Where no request is open, these are all rows.
    pub fn metrics(&self) -> Metrics
        ensures counts { result ≡ metrics_of self.now.log self.now.free }
        ensures all { open_begins self.now.log ≡ [] → result.free ≡ self.now.sizes.rows }
    {
        Metrics {
            global: counts(&self.kept.held, Scope::Global),
            local: counts(&self.kept.held, Scope::Local),
            free: self.kept.held.free(),
        }
    }

    /// Ends the desk with all its passes. What comes out is the whole history: it is legal, no request of it is open, and the entries of
    /// each session are its pass's own, and no entry is of another.
    pub fn close(self, core: Core, mut passes: Vec<Pass>) -> History
        requires core { self.core ≡ id_of core }
        requires passes { HasEachPass self passes.items }
        ensures history { result ≡ record { entries = self.log; sizes = self.sizes } }
        ensures legal { IsLegal self.log self.sizes }
        ensures closed { (id : ℕ) → is_open self.log id ≡ false }
        ensures own { (p : PassSays) → Contains passes.items p → p.p.mine ≡ own p.p.who self.log }
        ensures by_given { ByGiven self.log self.given }
        ensures shown { (p : PassSays) → Contains passes.items p → IsPrefix p.p.shown self.log }
    {
        let Core { rows, board } = core;
        let Desk {
            mut seat,
            sizes,
            kept,
        } = self;
        while let Some(pass) = passes.pop() {
            board.retire(&mut seat, pass);
        }
        passes.destroy_empty();
        board.close(seat);
        History {
            entries: kept.close(rows),
            sizes,
        }
    }
}

// A desk of the board, whose passes it gives.
fn furnish(
    rows: Rows,
    board: Board,
    mut seat: DeskSeat,
    sizes: Sizes,
    kept: Kept,
    mut passes: Vec<Pass>,
) -> (Core, Desk, Vec<Pass>)
    requires bounds { bad_size sizes ≡ None }
    requires board { board.sizes ≡ sizes }
    requires seat { seat ≡ record { table = board.table; sizes = sizes; log = []; given = 0; retired = [] } }
    requires kept { IsKept [] sizes kept }
    requires rows { table_of kept.held ≡ rows }
    requires passes { (passes.items ≡ []) × (sizes.lanes ≤ vec_capacity passes) }
    ensures core { result.0.board.sizes ≡ sizes }
    ensures desk { result.1 ≡ record { core = id_of result.0; sizes = sizes; log = []; given = sizes.lanes; free = result.1.free } }
    ensures passes { AreFresh result.0.board.table sizes.lanes result.2.items }
{
    for given in 0..sizes.lanes {
        let pass = board.enroll(&mut seat, given + 1);
        match passes.push(pass) {
            Ok(()) => {}
            Err(AllocFailed { value: _value }) => unreachable!(),
        }
    }
    (Core { rows, board }, Desk { seat, sizes, kept }, passes)
}

// How many latches of a scope are held, and how many reads of it are pending.
fn counts(held: &HistoryLatches, scope: Scope) -> Counts
    requires { (log : List AnyEntry) × (sizes : TheSizes) × HoldsLog held.now log sizes × IsLegal log sizes }
    ensures { (log : List AnyEntry) (sizes : TheSizes) → HoldsLog held.now log sizes → IsLegal log sizes → result ≡ counts_of scope log }
{
    let counted = held.counts(scope);
    Counts {
        read: counted.read,
        pending: counted.pending,
        write: counted.write,
    }
}

// Whether there are place and rows for as many latches.
fn fits(held: &HistoryLatches, limit: u32, mode: Mode, latches: &[Latch]) -> Result<(), SeqFault>
    requires held { (log : List AnyEntry) × (sizes : TheSizes) × HoldsLog held.now log sizes × (length (latches_held log) < 2 ^ 16) }
    requires few { length latches.now ≤ 16 }
    ensures fits { (log : List AnyEntry) (sizes : TheSizes) → HoldsLog held.now log sizes
        → OnOk result (FitsIn limit mode (length (latches_held log)) (length latches.now) × RowsFor mode (free_of held.now) latches.now) }
    ensures refused { (log : List AnyEntry) (sizes : TheSizes) → HoldsLog held.now log sizes
        → IfErr result (Lacks limit mode (length (latches_held log)) (free_of held.now) latches.now) }
{
    if !holds(mode) {
        return Ok(());
    }
    let held_now = held.total();
    let asked = latches.len() as u32;
    if held_now + asked > limit {
        return Err(SeqFault::LatchesFull {
            held: held_now,
            asked,
        });
    }
    let free = held.free();
    let need = LATCH_ROWS * asked;
    if free < need {
        return Err(SeqFault::RowsOut { free, need });
    }
    Ok(())
}

// Takes all that the next begin needs, where there are place and rows for its latches.
fn reserve(
    kept: &mut Kept,
    limit: u32,
    alloc: Global,
    request: &Request,
    mode: Mode,
) -> Result<Prepared, SeqFault>
    requires held { (log : List AnyEntry) × (sizes : TheSizes) × HoldsLog kept.old.held log sizes × (length (latches_held log) < 2 ^ 16) }
    requires lanes { (length kept.old.free.free ≤ kept.old.free.lanes) × (kept.old.free.lanes < 2 ^ 16) }
    ensures same { SameBut kept.old kept.new }
    ensures prepared { IfOk result (λ prepared. (prepared.copy ≡ request.now) × HasRoom kept.new) }
    ensures fits { (log : List AnyEntry) (sizes : TheSizes) → HoldsLog kept.old.held log sizes
        → OnOk result (FitsIn limit mode (length (latches_held log)) (length request.now.latches)
        × RowsFor mode (free_of kept.old.held) request.now.latches) }
    ensures refused { (log : List AnyEntry) (sizes : TheSizes) → HoldsLog kept.old.held log sizes
        → IfErr result (Lacks limit mode (length (latches_held log)) (free_of kept.old.held) request.now.latches) }
{
    match fits(&kept.held, limit, mode, request.latches().list()) {
        Err(fault) => Err(fault),
        Ok(()) => match kept.prepare(alloc, request) {
            Err(_) => Err(SeqFault::Memory),
            Ok(prepared) => Ok(prepared),
        },
    }
}

// The next request begins.
fn open(
    seat: &mut DeskSeat,
    kept: &mut Kept,
    core: &Core,
    pass: &mut Pass,
    request: Request,
    mode: Mode,
    prepared: Prepared,
) -> Opened
    requires core { (seat.old.table ≡ core.now.board.table) × (table_of kept.old.held ≡ core.now.rows) × (pass.old.table ≡ core.now.board.table) }
    requires idle { open_count pass.old.p.mine ≡ 0 }
    requires bounds { bad_size seat.old.sizes ≡ None }
    requires legal { IsLegal seat.old.log seat.old.sizes }
    requires kept { IsKept seat.old.log seat.old.sizes kept.old }
    requires lanes { length (open_begins seat.old.log) < seat.old.sizes.lanes }
    requires fits { FitsIn seat.old.sizes.latches mode (length (latches_held seat.old.log)) (length request.latches) }
    requires rows { RowsFor mode (free_of kept.old.held) request.latches }
    requires prepared { (prepared.copy ≡ request) × HasRoom kept.old }
    ensures seat { let e = next_entry seat.old.log pass.old.p.who mode request in seat.new ≡ record seat.old { log = seat.old.log ++ e ∷ [] } }
    ensures kept { IsKept (seat.old.log ++ next_entry seat.old.log pass.old.p.who mode request ∷ []) seat.old.sizes kept.new }
    ensures legal { IsLegal (seat.old.log ++ next_entry seat.old.log pass.old.p.who mode request ∷ []) seat.old.sizes }
    ensures opened { let e = next_entry seat.old.log pass.old.p.who mode request in
        result ≡ record { core = id_of core.now; r = shown_to (seat.old.log ++ e ∷ []) (new_request seat.old.log e) } }
    ensures table { table_of kept.new.held ≡ table_of kept.old.held }
    ensures free { free_of kept.old.held ≤ free_of kept.new.held + rows_for (to_hold mode request.latches) }
    ensures pass { let e = next_entry seat.old.log pass.old.p.who mode request in
        pass.new ≡ record pass.old { p = shown_all (seat.old.log ++ e ∷ []) (wrote pass.old.p (length seat.old.log) e) } }
    ensures busy { open_count pass.new.p.mine ≡ 1 }
{
    let who = pass.who();
    let Prepared { copy, mark } = prepared;
    kept.book.is_small();
    let entry = kept.next_entry(who, mode, copy);
    let lane = core.board.begin(seat, pass, &entry);
    let shots = kept.add_begin(&core.rows, entry, request.latches().list(), mode);
    Opened::new(lane, who, mode, request, shots, mark)
}
