// A whole walk.
ghost use Rattle.std.specs.Prelude.{◌≡◌, ℕ, suc, ◌+◌, ◌*◌, ◌≤◌, List, map, length, IfOk};
ghost use Rattle.row_pool.specs.Trees.{Tree, tree_word};
ghost use Rattle.latch_item.specs.Shape.{Refers};
ghost use Rattle.overlap_iter.specs.Overlaps.{found};

use crate::cursor::Cursor;
use latch_item::Shot;
use row_pool::{Memory, RowSeat, Rows};
use span_key::Span;
use std::alloc::Global;

/// The rows of the items that overlap a span, in tree order. Memory is taken for the answer alone.
pub fn overlapping(
    alloc: Global,
    rows: &Rows,
    seat: &mut RowSeat,
    shot: &Shot,
    span: &Span,
) -> Result<Vec<u32>, Memory>
    requires table { seat.old.table ≡ rows.now }
    requires shot { (xs : List Tree) × Refers seat.old.view shot.now xs }
    ensures same { (seat.new.table ≡ seat.old.table) × (seat.new.view ≡ seat.old.view) }
    ensures items { (xs : List Tree) → Refers seat.old.view shot.now xs → IfOk result (λ rows. map suc rows.items ≡ map tree_word (found span.now xs)) }
    ensures follows { (xs : List Tree) → Refers seat.old.view shot.now xs
        → seat.new.follows ≤ seat.old.follows + 96 * shot.now.height * suc (length (found span.now xs)) }
{
    let mut items = Vec::new(alloc);
    let mut cursor = Cursor::first(rows, seat, shot, span);
    while let Some(item) = cursor.next(rows, seat, span) {
        items.push(item)?;
    }
    Ok(items)
}
