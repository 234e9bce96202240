// How far a request has come in what it waits for.
ghost use Rattle.std.specs.Prelude.{◌≡◌, true, false, List, [], ◌∷◌, ◌++◌, Option, Some, None, IfSome, MatchOption};
ghost use Rattle.std.specs.List.{Contains, flat_map};
ghost use Rattle.latch_model.specs.Histories.{HeldLatch, Snapshot, has_ended, met_by};
ghost use Rattle.latch_model.specs.declared.latch.Latch.{Latch as latch};
ghost use Rattle.signal_board.specs.Views.{RequestView};
ghost use Rattle.latch_shots.specs.Met.{IsMet};
ghost use Rattle.latch_shots.specs.Shots.{AreShots, Content, ShowsSnapshot, content_of, table_of, view_of};
ghost use Rattle.latch_shots.specs.Walks.{Meets};
ghost use Rattle.shot_walks.specs.Orders.{IsOrder};
ghost use Rattle.shot_walks.specs.Places.{ComesTo, Finds, FindsNone, FindsOpen, Stands};
ghost use Rattle.shot_walks.specs.Waits.{Learns, waits_for};

use crate::open::{is_open, next_open};
use latch_model::latch::Latch;
use latch_shots::{MetLatch, Shots, Walk};
use row_pool::Rows;
use signal_board::board::{Board, LaneSeat};

/// How far a request has come in what it waits for. It takes no memory.
#[derive(Debug, Drop)]
pub struct Place {
    // the number, in the waiting order, of the latch with which it goes on, and the walk of that one, where it has begun
    ask: usize,
    walk: Option<Walk>,
    // the held latch at which it stands
    met: Option<MetLatch>,
}

/// What a request finds when it goes on: all for which it waits has ended; the held latch at which it stood is still open; or another one is, at which it
/// stands now.
#[derive(Clone, Copy, Debug)]
pub enum Next {
    AllEnded,
    Still,
    Open(MetLatch),
}

impl Place {
    /// In front of all for which a request waits.
    pub fn start() -> Place
        ensures { (c : Content) (r : RequestView) → ShowsSnapshot c r.shot → Stands c result r None }
    {
        Place {
            ask: 0,
            walk: None,
            met: None,
        }
    }

    /// Behind all for which a request waits, where it waits for nothing.
    pub fn end() -> Place
        ensures { (c : Content) (r : RequestView) → ShowsSnapshot c r.shot → waits_for r ≡ [] → Stands c result r None }
    {
        Place {
            // behind each latch, so that no walk begins
            ask: usize::MAX,
            walk: None,
            met: None,
        }
    }

    /// Goes on to the first held latch, in the waiting order, whose request isn't found done. Where the one at which it stands is still open, that takes one
    /// load.
    pub fn find_open(
        &mut self,
        rows: &Rows,
        board: &Board,
        seat: &mut LaneSeat,
        shots: &mut Shots,
        latches: &[Latch],
        order: &[u8],
    ) -> Next
        requires tables { (table_of shots.old ≡ rows.now) × (seat.old.table ≡ board.now.table) }
        requires mine { latches.now ≡ seat.old.r.request.latches }
        requires order { IsOrder order.now latches.now }
        requires stands { (last : Option HeldLatch) × Stands (content_of shots.old) self.old seat.old.r last }
        ensures same { content_of shots.new ≡ content_of shots.old }
        ensures learns { Learns seat.old seat.new }
        ensures finds { (last : Option HeldLatch) → Stands (content_of shots.old) self.old seat.old.r last
            → Finds (content_of shots.new) self.new seat.old seat.new last result }
    {
        if self.is_still_open(board, seat) {
            return Next::Still;
        }
        match self.find_later(rows, board, seat, shots, latches, order) {
            None => Next::AllEnded,
            Some(met) => Next::Open(met),
        }
    }

    // Whether the held latch at which it stands is still open. Else it stands there no more.
    fn is_still_open(&mut self, board: &Board, seat: &mut LaneSeat) -> bool
        requires table { seat.old.table ≡ board.now.table }
        requires stands { (c : Content) × (last : Option HeldLatch) × Stands c self.old seat.old.r last }
        ensures learns { Learns seat.old seat.new }
        ensures still { result ≡ true → (self.new ≡ self.old) × (seat.new ≡ seat.old) × ((c : Content) (last : Option HeldLatch)
            → Stands c self.old seat.old.r last → (x : HeldLatch) × (last ≡ Some x) × (has_ended seat.old.r.shown x.by ≡ false)) }
        ensures over { result ≡ false → (c : Content) (last : Option HeldLatch) → Stands c self.old seat.old.r last
            → IfSome last (λ x. Contains seat.new.r.ended x.by) × Stands c self.new seat.new.r None }
    {
        let Some(met) = self.met else {
            return false;
        };
        if is_open(board, seat, &met) {
            return true;
        }
        self.met = None;
        false
    }

    // The first held latch behind it whose request isn't found done.
    fn find_later(
        &mut self,
        rows: &Rows,
        board: &Board,
        seat: &mut LaneSeat,
        shots: &mut Shots,
        latches: &[Latch],
        order: &[u8],
    ) -> Option<MetLatch>
        requires tables { (table_of shots.old ≡ rows.now) × (seat.old.table ≡ board.now.table) }
        requires mine { latches.now ≡ seat.old.r.request.latches }
        requires order { IsOrder order.now latches.now }
        requires stands { Stands (content_of shots.old) self.old seat.old.r None }
        ensures same { content_of shots.new ≡ content_of shots.old }
        ensures learns { Learns seat.old seat.new }
        ensures finds { MatchOption result (FindsNone (content_of shots.new) self.new seat.old.r seat.new.r)
            (λ m. (x : HeldLatch) × IsMet (view_of shots.new) m x × FindsOpen (content_of shots.new) self.new seat.old.r seat.new.r x) }
    {
        for k in self.ask..order.len() {
            let asked = &latches[order[k] as usize];
            let mut walk = begun(rows, shots, asked, self.walk.take());
            if let Some(met) = next_open(rows, board, seat, shots, asked, &mut walk) {
                self.ask = k;
                self.walk = Some(walk);
                self.met = Some(met);
                return Some(met);
            }
        }
        self.ask = order.len();
        None
    }
}

// The walk of a latch, which begins here unless it has begun.
fn begun(rows: &Rows, shots: &mut Shots, asked: &Latch, walk: Option<Walk>) -> Walk
    requires table { table_of shots.old ≡ rows.now }
    requires shown { (s : Snapshot) × AreShots shots.old s }
    ensures same { content_of shots.new ≡ content_of shots.old }
    ensures walk { (s : Snapshot) (ls : List latch) (later : List HeldLatch) → AreShots shots.old s
        → ComesTo (content_of shots.old) walk s (asked.now ∷ ls) later
        → (todo : List HeldLatch) × Meets shots.new result asked.now todo × (later ≡ todo ++ flat_map (met_by s) ls) }
{
    match walk {
        Some(walk) => walk,
        None => Walk::first(rows, shots, asked),
    }
}
