// The first held latch that some latches meet.
ghost use Rattle.std.specs.Prelude.{◌≡◌, List, [], ◌∷◌, MatchOption};
ghost use Rattle.latch_model.specs.Histories.{HeldLatch, Snapshot, met_in};
ghost use Rattle.latch_shots.specs.Met.{IsMet};
ghost use Rattle.latch_shots.specs.Shots.{AreShots, content_of, table_of, view_of};
ghost use Rattle.shot_walks.specs.Orders.{IsOrder};

use latch_model::latch::Latch;
use latch_shots::{MetLatch, Shots};
use row_pool::Rows;

/// The first held latch that these latches meet, in the waiting order, whether its request has ended or not.
pub fn first_met(
    rows: &Rows,
    shots: &mut Shots,
    latches: &[Latch],
    order: &[u8],
) -> Option<MetLatch>
    requires table { table_of shots.old ≡ rows.now }
    requires shown { (s : Snapshot) × AreShots shots.old s }
    requires order { IsOrder order.now latches.now }
    ensures same { content_of shots.new ≡ content_of shots.old }
    ensures first { (s : Snapshot) → AreShots shots.old s → MatchOption result (met_in s latches.now ≡ [])
        (λ m. (x : HeldLatch) × (rest : List HeldLatch) × (met_in s latches.now ≡ x ∷ rest) × IsMet (view_of shots.new) m x) }
{
    for k in 0..order.len() {
        let asked = &latches[order[k] as usize];
        if let Some(met) = shots.first_met(rows, asked) {
            return Some(met);
        }
    }
    None
}
