// The latch that a request met last, kept so that it can be shown.
ghost use Rattle.std.specs.Prelude.{◌≡◌};
ghost use Rattle.latch_model.specs.Histories.{HeldLatch};
ghost use Rattle.latch_shots.specs.Met.{IsMet};
ghost use Rattle.latch_shots.specs.Shots.{table_of, view_of};
ghost use Rattle.waiter.specs.Met.{held_of};

use hlc_stamp::Stamp;
use latch_model::latch::Access;
use latch_shots::{MetLatch, Shots};
use row_pool::Rows;
use span_key::SpanRoom;

/// A held latch that a request met: latch number `place`, from 0, of request `by`, with its span and its normal stamp.
#[derive(Debug, Drop)]
pub struct Mark {
    pub by: u64,
    pub place: u32,
    pub span: SpanRoom,
    pub stamp: Stamp,
}

/// A mark, and what else is kept of the held latch: the lane of its request, and its access.
#[derive(Drop)]
pub(crate) struct Met {
    pub(crate) mark: Mark,
    pub(crate) lane: u32,
    pub(crate) access: Access,
}

/// Room for a held latch that is still to be met.
pub(crate) fn unmet(span: SpanRoom) -> Met {
    Met {
        mark: Mark {
            by: 0,
            place: 0,
            span,
            stamp: Stamp::EMPTY,
        },
        lane: 0,
        access: Access::Read,
    }
}

/// Keeps this held latch in the place of the last one. It takes no memory.
pub(crate) fn keep(met: &mut Met, x: &MetLatch, rows: &Rows, shots: &mut Shots)
    requires table { table_of shots.old ≡ rows.now }
    requires met { (held : HeldLatch) × IsMet (view_of shots.old) x.now held }
    ensures same { shots.new ≡ shots.old }
    ensures kept { (held : HeldLatch) → IsMet (view_of shots.old) x.now held → held_of met.new ≡ held }
{
    x.span(rows, shots, &mut met.mark.span);
    met.mark.by = x.by;
    met.mark.place = x.place;
    met.mark.stamp = x.stamp;
    met.lane = x.lane;
    met.access = x.access;
}
