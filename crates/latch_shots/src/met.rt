// Held latches that were met.
ghost use Rattle.std.specs.Prelude.{◌≡◌, true, false, MatchOption};
ghost use Rattle.latch_model.specs.Histories.{HeldLatch};
ghost use Rattle.latch_model.specs.Latches.{interfere, normal, read_meets_write};
ghost use Rattle.latch_item.specs.Items.{Item, HasItem};
ghost use Rattle.latch_shots.specs.Held.{held_as};
ghost use Rattle.latch_shots.specs.Met.{IsMet, counts};
ghost use Rattle.latch_shots.specs.Shots.{table_of, view_of};

use crate::shots::Shots;
use hlc_stamp::Stamp;
use latch_item::{item_facts, item_span};
use latch_model::latch::{Access, Latch};
use row_pool::{RowSeat, Rows};
use span_key::SpanRoom;

/// A held latch that was met. It is plain data, and its span stands in the rows to which the shots refer.
#[derive(Clone, Copy, Debug)]
pub struct MetLatch {
    /// The request that holds it.
    pub by: u64,
    /// The latch's place in that request, from 0.
    pub place: u32,
    /// The lane in which that request runs.
    pub lane: u32,
    /// The normal stamp.
    pub stamp: Stamp,
    pub access: Access,
    // where it stands
    row: u32,
}

impl MetLatch {
    /// The span of the latch goes into the room.
    pub fn span(&self, rows: &Rows, shots: &mut Shots, room: &mut SpanRoom)
        requires table { table_of shots.old ≡ rows.now }
        requires met { (x : HeldLatch) × IsMet (view_of shots.old) self.now x }
        ensures same { shots.new ≡ shots.old }
        ensures span { (x : HeldLatch) → IsMet (view_of shots.old) self.now x → room.new ≡ x.latch.span }
    {
        item_span(rows, &mut shots.seat, self.row, room);
    }
}

// The latch of an item that overlaps a latch of a request, where it is of another request and gets in the way of that.
pub(crate) fn met_at(
    rows: &Rows,
    seat: &mut RowSeat,
    own: u64,
    asked: &Latch,
    access: Access,
    row: u32,
) -> Option<MetLatch>
    requires table { seat.old.table ≡ rows.now }
    requires item { (x : Item) × HasItem seat.old.view row x }
    ensures same { seat.new ≡ seat.old }
    ensures met { (x : Item) → HasItem seat.old.view row x → MatchOption result (counts own asked.now (held_as access x) ≡ false)
        (λ m. (counts own asked.now (held_as access x) ≡ true) × IsMet seat.new.view m (held_as access x)) }
{
    let facts = item_facts(rows, seat, row);
    if facts.id == own || !interferes(asked, access, facts.stamp) {
        return None;
    }
    Some(MetLatch {
        by: facts.id,
        place: facts.place,
        lane: facts.lane,
        stamp: facts.stamp,
        access,
        row,
    })
}

// Whether a latch and a held one get in each other's way by their accesses and stamps. That the held one's is normal doesn't matter here.
fn interferes(asked: &Latch, access: Access, stamp: Stamp) -> bool
    ensures { result ≡ interfere asked.now.access (normal asked.now) access stamp }
{
    match (asked.access, access) {
        (Access::Write, Access::Write) => true,
        (Access::Read, Access::Read) => false,
        (Access::Read, Access::Write) => meet(asked.normal(), stamp),
        (Access::Write, Access::Read) => meet(stamp, asked.normal()),
    }
}

// Whether a read and a write get in each other's way at these stamps.
fn meet(read: Stamp, write: Stamp) -> bool
    ensures { result ≡ read_meets_write read write }
{
    read.is_empty() || write.is_empty() || write <= read
}
