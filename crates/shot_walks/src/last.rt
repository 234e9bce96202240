// From the end of the waiting order down to a held latch whose request is open.
ghost use Rattle.std.specs.Prelude.{◌≡◌, IfSome};
ghost use Rattle.latch_model.specs.Histories.{met_by};
ghost use Rattle.latch_shots.specs.Shots.{AreShots, content_of, table_of};
ghost use Rattle.shot_walks.specs.Orders.{IsOrder};
ghost use Rattle.shot_walks.specs.Waits.{IsLastOpen, IsWaitedFor, Learns, WaitsForEach, waits_for};

use crate::open::is_open;
use latch_model::latch::Latch;
use latch_shots::{Shots, Walk};
use row_pool::Rows;
use signal_board::board::{Board, LaneSeat};

/// The last request, from the end of the waiting order, for which one waits and which isn't found done. There is none where each has ended.
pub fn last_open(
    rows: &Rows,
    board: &Board,
    seat: &mut LaneSeat,
    shots: &mut Shots,
    latches: &[Latch],
    order: &[u8],
) -> Option<u64>
    requires tables { (table_of shots.old ≡ rows.now) × (seat.old.table ≡ board.now.table) }
    requires shown { AreShots shots.old seat.old.r.shot }
    requires mine { latches.now ≡ seat.old.r.request.latches }
    requires order { IsOrder order.now latches.now }
    ensures same { content_of shots.new ≡ content_of shots.old }
    ensures learns { Learns seat.old seat.new }
    ensures last { IsLastOpen seat.old.r seat.new.r (waits_for seat.old.r) result }
    ensures waited_for { IfSome result (IsWaitedFor seat.old.r) }
{
    let many = order.len();
    for passed in 0..many {
        let asked = &latches[order[many - 1 - passed] as usize];
        if let Some(by) = last_for(rows, board, seat, shots, asked) {
            return Some(by);
        }
    }
    None
}

// The same of those whose held latches one latch meets.
fn last_for(
    rows: &Rows,
    board: &Board,
    seat: &mut LaneSeat,
    shots: &mut Shots,
    asked: &Latch,
) -> Option<u64>
    requires tables { (table_of shots.old ≡ rows.now) × (seat.old.table ≡ board.now.table) }
    requires shown { AreShots shots.old seat.old.r.shot }
    requires waits { WaitsForEach seat.old.r (met_by seat.old.r.shot asked.now) }
    ensures same { content_of shots.new ≡ content_of shots.old }
    ensures learns { Learns seat.old seat.new }
    ensures last { IsLastOpen seat.old.r seat.new.r (met_by seat.old.r.shot asked.now) result }
{
    let mut walk = Walk::first(rows, shots, asked);
    let mut last = None;
    while let Some(met) = walk.next(rows, shots, asked) {
        if is_open(board, seat, &met) {
            last = Some(met.by);
        }
    }
    last
}
