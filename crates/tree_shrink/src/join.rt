// Two nodes of 15 items become one.
ghost use Rattle.std.specs.Prelude.{◌≡◌, ◌≢◌, ℕ, ◌+◌, ◌<◌, ◌≤◌, ◌^◌, List, [], ◌∷◌, ◌++◌, length};
ghost use Rattle.row_pool.specs.Chains.{IsChain};
ghost use Rattle.row_pool.specs.declared.chain.Chain.{Chain as ChainValue};
ghost use Rattle.interval_tree.specs.Held.{Spends};
ghost use Rattle.tree_shrink.specs.Steps.{SpendsAll, CanCover, Covers, CanMoveChildren, MovesChildren, CanJoin, JoinsInto};

use interval_tree::workshop::{
    kind_of, move_links, publish_node, raise_top, row_at, set_count, swap,
};
use row_pool::{Chain, RowSeat, Rows};

/// The kind of an inner node.
const INNER: u64 = 3;

/// The first link of an owned node takes in the bounds of an item, the seat's newest reference, and of another owned node.
fn cover(rows: &Rows, seat: &mut RowSeat, left: u32, right: u32, item: u64, chain: &mut Chain)
    requires table { seat.old.table ≡ rows.now }
    requires small { item ≤ 4194304 }
    requires nodes { CanCover seat.old.view left right item }
    requires chain { (rs : List ℕ) × IsChain seat.old.view chain.old rs }
    ensures same { (seat.new.table ≡ seat.old.table) × (seat.new.view.refs ≡ seat.old.view.refs) }
    ensures nodes { Covers seat.old.view seat.new.view left right item }
    ensures spends { SpendsAll 0 (left ∷ []) (left ∷ []) seat.old.view seat.new.view chain.old chain.new }
{
    raise_top(rows, seat, left, (item - 1) as u32, chain);
    let top = row_at(rows, seat, right, 0);
    raise_top(rows, seat, left, top, chain);
}

/// The children of an owned inner node of 15 items go behind those of another. A leaf has none.
fn move_children(rows: &Rows, seat: &mut RowSeat, from: u32, to: u32)
    requires table { seat.old.table ≡ rows.now }
    requires children { CanMoveChildren seat.old.view from to }
    ensures same { (seat.new.table ≡ seat.old.table) × (seat.new.view.refs ≡ seat.old.view.refs) }
    ensures moved { MovesChildren seat.old.view seat.new.view from to }
    ensures spends { (rs : List ℕ) (c : ChainValue) → IsChain seat.old.view c rs
        → Spends 0 (from ∷ to ∷ []) (from ∷ to ∷ []) rs seat.old.view seat.new.view c }
{
    if kind_of(rows, seat, from) == INNER {
        move_links(rows, seat, from, to, 32, 48, 16);
    }
}

/// The right one of two nodes of 15 items goes into the left one, behind the item between them, the seat's newest reference. Its row goes into the chain.
pub(crate) fn join_nodes(
    rows: &Rows,
    seat: &mut RowSeat,
    left: u32,
    right: u32,
    item: u64,
    chain: &mut Chain,
)
    requires table { seat.old.table ≡ rows.now }
    requires small { item ≤ 4194304 }
    requires nodes { CanJoin seat.old.view left right item }
    requires chain { (rs : List ℕ) × IsChain seat.old.view chain.old rs }
    ensures table { seat.new.table ≡ seat.old.table }
    ensures joined { JoinsInto seat.old.view seat.new.view left right item }
    ensures spends { SpendsAll 0 (left ∷ right ∷ []) (left ∷ []) seat.old.view seat.new.view chain.old chain.new }
{
    cover(rows, seat, left, right, item, chain);
    swap(rows, seat, left, 16, item);
    move_links(rows, seat, right, left, 1, 17, 15);
    move_children(rows, seat, right, left);
    set_count(rows, seat, left, 31);
    publish_node(rows, seat, right);
    rows.drop_ref(seat, right, chain);
}
