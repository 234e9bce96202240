// Held latches whose requests are open.
ghost use Rattle.std.specs.Prelude.{◌≡◌, true, false, List, ◌∷◌, MatchOption};
ghost use Rattle.std.specs.List.{Contains};
ghost use Rattle.latch_model.specs.Histories.{HeldLatch, has_ended};
ghost use Rattle.signal_board.specs.Rule.{IsPrerequisite};
ghost use Rattle.latch_shots.specs.Met.{IsMet};
ghost use Rattle.latch_shots.specs.Shots.{content_of, table_of, view_of};
ghost use Rattle.latch_shots.specs.Walks.{Meets};
ghost use Rattle.shot_walks.specs.Waits.{AllEnded, Learns, Passed, WaitsForEach};

use latch_model::latch::Latch;
use latch_shots::{MetLatch, Shots, Walk};
use row_pool::Rows;
use signal_board::board::{Board, LaneSeat};

/// Whether the request of a held latch, for which one waits, isn't found done. It takes one load.
pub(crate) fn is_open(board: &Board, seat: &mut LaneSeat, met: &MetLatch) -> bool
    requires table { seat.old.table ≡ board.now.table }
    requires waits { IsPrerequisite seat.old.r met.now.by met.now.lane }
    ensures learns { Learns seat.old seat.new }
    ensures open { result ≡ true → (seat.new ≡ seat.old) × (has_ended seat.old.r.shown met.now.by ≡ false) }
    ensures over { result ≡ false → Contains seat.new.r.ended met.now.by }
{
    !board.done(seat, met.lane, met.by)
}

/// The walk of a latch goes on to the first held latch whose request isn't found done.
pub(crate) fn next_open(
    rows: &Rows,
    board: &Board,
    seat: &mut LaneSeat,
    shots: &mut Shots,
    asked: &Latch,
    walk: &mut Walk,
) -> Option<MetLatch>
    requires tables { (table_of shots.old ≡ rows.now) × (seat.old.table ≡ board.now.table) }
    requires walk { (todo : List HeldLatch) × Meets shots.old walk.old asked.now todo × WaitsForEach seat.old.r todo }
    ensures same { content_of shots.new ≡ content_of shots.old }
    ensures learns { Learns seat.old seat.new }
    ensures next { (todo : List HeldLatch) → Meets shots.old walk.old asked.now todo → WaitsForEach seat.old.r todo
        → MatchOption result (AllEnded seat.new.r.ended todo)
        (λ m. (x : HeldLatch) × (rest : List HeldLatch) × Passed seat.new.r.ended todo (x ∷ rest) × IsMet (view_of shots.new) m x
        × (has_ended seat.old.r.shown x.by ≡ false) × Meets shots.new walk.new asked.now rest) }
{
    while let Some(met) = walk.next(rows, shots, asked) {
        if is_open(board, seat, &met) {
            return Some(met);
        }
    }
    None
}
