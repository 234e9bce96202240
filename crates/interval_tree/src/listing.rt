// The items of a tree in order.
ghost use Rattle.std.specs.Prelude.{◌≡◌, ℕ, suc, ◌+◌, ◌<◌, ◌≤◌, List, ◌++◌, IfOk};
ghost use mathlib.Core.Option.{some};
ghost use lib.ListN.{get_elem?};
ghost use Rattle.row_pool.specs.Trees.{Tree, tree_word, children};
ghost use Rattle.row_pool.specs.Views.{Reaches};
ghost use Rattle.row_pool.specs.SeatState.{kind_of};
ghost use Rattle.latch_item.specs.Shape.{Refers};
ghost use Rattle.interval_tree.specs.Listings.{Rest, rows_of};

use latch_item::Shot;
use row_pool::{Memory, RowSeat, Rows};
use std::alloc::Global;

/// The word of a node with the number of its items, and the first of its links.
const COUNT: u32 = 2;

const LINKS: u32 = 3;

/// The row to which the link k of a live node leads.
fn live_row_at(rows: &Rows, seat: &mut RowSeat, node: u32, k: u32) -> u32
    requires table { seat.old.table ≡ rows.now }
    requires link { (t u : Tree) × Reaches seat.old.view t × (tree_word t ≡ suc node) × (2 ≤ kind_of t) × (kind_of t ≤ 3) × (k < 64)
        × (get_elem? (children t) k ≡ some u) × (0 < tree_word u) }
    ensures same { (seat.new.table ≡ seat.old.table) × (seat.new.view ≡ seat.old.view) }
    ensures row { (t u : Tree) → Reaches seat.old.view t → tree_word t ≡ suc node → 2 ≤ kind_of t → kind_of t ≤ 3 → get_elem? (children t) k ≡ some u
        → tree_word u ≡ suc result }
{
    let Some(next) = rows.follow(seat, node, LINKS + k) else {
        unreachable!()
    };
    next
}

/// The rows of the items of a live leaf from its place i on.
fn list_leaf(
    rows: &Rows,
    seat: &mut RowSeat,
    node: u32,
    i: u32,
    out: &mut Vec<u32>,
) -> Result<(), Memory>
    requires table { seat.old.table ≡ rows.now }
    requires low { i ≤ 31 }
    requires rest { (t : Tree) × (zs : List Tree) × Reaches seat.old.view t × (tree_word t ≡ suc node) × Rest 0 t i zs }
    ensures same { (seat.new.table ≡ seat.old.table) × (seat.new.view ≡ seat.old.view) }
    ensures rows { IfOk result (λ u. (t : Tree) (zs : List Tree) → Reaches seat.old.view t → tree_word t ≡ suc node → Rest 0 t i zs
        → out.new.items ≡ out.old.items ++ rows_of zs) }
{
    let n = rows.read(seat, node, COUNT);
    if i as u64 == n {
        return Ok(());
    }
    let item = live_row_at(rows, seat, node, 1 + i);
    out.push(item)?;
    list_leaf(rows, seat, node, i + 1, out)
}

/// The rows of the items of a live node from its child number i on.
fn list_from(
    rows: &Rows,
    seat: &mut RowSeat,
    node: u32,
    level: u32,
    i: u32,
    out: &mut Vec<u32>,
) -> Result<(), Memory>
    requires table { seat.old.table ≡ rows.now }
    requires low { (level ≤ 2) × (i ≤ 31) }
    requires rest { (t : Tree) × (zs : List Tree) × Reaches seat.old.view t × (tree_word t ≡ suc node) × Rest level t i zs }
    ensures same { (seat.new.table ≡ seat.old.table) × (seat.new.view ≡ seat.old.view) }
    ensures rows { IfOk result (λ u. (t : Tree) (zs : List Tree) → Reaches seat.old.view t → tree_word t ≡ suc node → Rest level t i zs
        → out.new.items ≡ out.old.items ++ rows_of zs) }
{
    if level == 0 {
        return list_leaf(rows, seat, node, i, out);
    }
    let child = live_row_at(rows, seat, node, 32 + i);
    list_from(rows, seat, child, level - 1, 0, out)?;
    let n = rows.read(seat, node, COUNT);
    if i as u64 == n {
        return Ok(());
    }
    let item = live_row_at(rows, seat, node, 1 + i);
    out.push(item)?;
    list_from(rows, seat, node, level, i + 1, out)
}

/// The rows of the items of a shot, in order.
pub(crate) fn list_shot(
    alloc: Global,
    rows: &Rows,
    seat: &mut RowSeat,
    shot: &Shot,
) -> Result<Vec<u32>, Memory>
    requires table { seat.old.table ≡ rows.now }
    requires shot { (xs : List Tree) × Refers seat.old.view shot.now xs }
    ensures same { (seat.new.table ≡ seat.old.table) × (seat.new.view ≡ seat.old.view) }
    ensures rows { IfOk result (λ v. (xs : List Tree) → Refers seat.old.view shot.now xs → v.items ≡ rows_of xs) }
{
    let mut out = Vec::new(alloc);
    match shot.root {
        None => Ok(out),
        Some(root) => {
            list_from(rows, seat, root, shot.height - 1, 0, &mut out)?;
            Ok(out)
        }
    }
}
