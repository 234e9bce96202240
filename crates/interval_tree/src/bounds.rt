// The greatest upper bound of a node, and a full node in two halves.
ghost use Rattle.std.specs.Prelude.{◌≡◌, ◌≢◌, ℕ, suc, ◌+◌, ◌<◌, ◌≤◌, ◌^◌, List, [], ◌∷◌, ◌++◌, length};
ghost use Rattle.row_pool.specs.Trees.{Tree, nil, tree_word};
ghost use Rattle.row_pool.specs.Views.{Reaches};
ghost use Rattle.row_pool.specs.Chains.{IsChain};
ghost use Rattle.row_pool.specs.declared.chain.Chain.{Chain as ChainValue};
ghost use Rattle.latch_item.specs.Items.{IsLatch};
ghost use Rattle.latch_item.specs.Shape.{Each, Sorted, Pairs, IsTop, Node};
ghost use Rattle.interval_tree.specs.Held.{OwnsNode, Spends, HasRoom};
ghost use Rattle.interval_tree.specs.Nodes.{LevelKid, Many, Body, Raised, joined};
ghost use Rattle.interval_tree.specs.Steps.{SingleUpTo, HasItems, BestItem, HasChildren, BestBelow, CanMove, MovesLinks, HasNoChildren};
ghost use Rattle.interval_tree.specs.States.{ReachesItem, Best, Greatest, CutParts, Halves};

use crate::nodes::{count_of, fresh_node, kind_of, move_links, row_at, set_count, swap, top_of};
use latch_item::{bound_cmp, is_point};
use row_pool::{Chain, RowSeat, Rows};

/// The one of two items whose bound is greater.
fn greater(rows: &Rows, seat: &mut RowSeat, one: u32, other: u32) -> u32
    requires table { seat.old.table ≡ rows.now }
    requires items { (s t : Tree) × ReachesItem seat.old.view s one × ReachesItem seat.old.view t other }
    ensures same { seat.new ≡ seat.old }
    ensures best { (s t : Tree) → ReachesItem seat.old.view s one → ReachesItem seat.old.view t other → Best seat.old.view s (t ∷ []) result }
{
    if bound_cmp(rows, seat, one, other).is_lt() {
        other
    } else {
        one
    }
}

/// The same, where the other item is known to have no greater bound if it is a single key: bounds are compared only where it is none.
fn greater_unless_single(rows: &Rows, seat: &mut RowSeat, one: u32, other: u32) -> u32
    requires table { seat.old.table ≡ rows.now }
    requires items { (s t : Tree) × ReachesItem seat.old.view s one × ReachesItem seat.old.view t other }
    ensures same { seat.new ≡ seat.old }
    ensures best { (s t : Tree) → ReachesItem seat.old.view s one → ReachesItem seat.old.view t other → SingleUpTo s t
        → Best seat.old.view s (t ∷ []) result }
{
    if is_point(rows, seat, other) {
        one
    } else {
        greater(rows, seat, one, other)
    }
}

/// The greatest of an item and of those that n links of an owned node lead to, from the link k on.
fn best_item(rows: &Rows, seat: &mut RowSeat, row: u32, k: u32, n: u32, best: u32) -> u32
    requires table { seat.old.table ≡ rows.now }
    requires links { HasItems seat.old.view row k n best }
    ensures same { (seat.new.table ≡ seat.old.table) × (seat.new.view ≡ seat.old.view) }
    ensures best { BestItem seat.old.view row k n best result }
{
    if n == 0 {
        return best;
    }
    let item = row_at(rows, seat, row, k);
    let better = greater_unless_single(rows, seat, best, item);
    best_item(rows, seat, row, k + 1, n - 1, better)
}

/// The greatest of an item and of those in n children of an owned node, from the link k on.
fn best_below(rows: &Rows, seat: &mut RowSeat, row: u32, k: u32, n: u32, best: u32) -> u32
    requires table { seat.old.table ≡ rows.now }
    requires links { HasChildren seat.old.view row k n best }
    ensures same { (seat.new.table ≡ seat.old.table) × (seat.new.view ≡ seat.old.view) }
    ensures best { BestBelow seat.old.view row k n best result }
{
    if n == 0 {
        return best;
    }
    let child = row_at(rows, seat, row, k);
    let top = top_of(rows, seat, child);
    let better = greater(rows, seat, best, top);
    best_below(rows, seat, row, k + 1, n - 1, better)
}

/// How many children an owned node has.
fn child_count(rows: &Rows, seat: &mut RowSeat, row: u32) -> u32
    requires table { seat.old.table ≡ rows.now }
    requires node { (h kind n : ℕ) × (us xs : List Tree) × OwnsNode seat.old.view row kind n us × Body h kind n us xs }
    ensures same { seat.new ≡ seat.old }
    ensures count { (h kind n : ℕ) (us xs : List Tree) → OwnsNode seat.old.view row kind n us → Body h kind n us xs → Many h result n }
{
    let kind = kind_of(rows, seat, row);
    if kind == 3 {
        count_of(rows, seat, row) as u32 + 1
    } else {
        0
    }
}

/// The item of the greatest bound in an owned node and below it.
fn greatest(rows: &Rows, seat: &mut RowSeat, row: u32) -> u32
    requires table { seat.old.table ≡ rows.now }
    requires node { (h kind n : ℕ) × (us xs : List Tree) × OwnsNode seat.old.view row kind n us × Body h kind n us xs × (1 ≤ n) × Sorted xs }
    ensures same { (seat.new.table ≡ seat.old.table) × (seat.new.view ≡ seat.old.view) }
    ensures item { (h kind n : ℕ) (us xs : List Tree) → OwnsNode seat.old.view row kind n us → Body h kind n us xs → 1 ≤ n → Sorted xs
        → Greatest seat.old.view xs result }
{
    let n = count_of(rows, seat, row) as u32;
    let children = child_count(rows, seat, row);
    // A single key in front of the last item has no greater bound. Of equal bounds the last item's is kept: items often go in the order in which they came,
    // and then it stays longest.
    let last = row_at(rows, seat, row, n);
    let item = best_item(rows, seat, row, 1, n - 1, last);
    best_below(rows, seat, row, 32, children, item)
}

/// The first link of an owned node leads to the item instead.
fn replace_top(rows: &Rows, seat: &mut RowSeat, row: u32, item: u32, chain: &mut Chain)
    requires table { seat.old.table ≡ rows.now }
    requires node { (kind n : ℕ) × (u : Tree) × (us : List Tree) × (t : Tree) × OwnsNode seat.old.view row kind n (u ∷ us) × Reaches seat.old.view t
        × (tree_word t ≡ suc item) }
    requires few { length seat.old.view.refs + 1 < 2 ^ 32 }
    requires chain { (rs : List ℕ) × IsChain seat.old.view chain.old rs }
    ensures same { (seat.new.table ≡ seat.old.table) × (seat.new.view.refs ≡ seat.old.view.refs) }
    ensures node { (kind n : ℕ) (u : Tree) (us : List Tree) (t : Tree) → OwnsNode seat.old.view row kind n (u ∷ us) → Reaches seat.old.view t
        → tree_word t ≡ suc item → OwnsNode seat.new.view row kind n (t ∷ us) }
    ensures spends { (rs : List ℕ) → IsChain seat.old.view chain.old rs → Spends 0 (row ∷ []) (row ∷ []) rs seat.old.view seat.new.view chain.new }
{
    rows.hold(seat, item);
    let old = swap(rows, seat, row, 0, item as u64 + 1);
    if old != 0 {
        rows.drop_ref(seat, (old - 1) as u32, chain);
    }
}

/// The first link of an owned node is set to the item of the greatest bound.
pub fn set_top(rows: &Rows, seat: &mut RowSeat, row: u32, chain: &mut Chain)
    requires table { seat.old.table ≡ rows.now }
    requires node { (h kind n : ℕ) × (us xs : List Tree) × OwnsNode seat.old.view row kind n us × Body h kind n us xs × (1 ≤ n) × Sorted xs }
    requires few { length seat.old.view.refs + 1 < 2 ^ 32 }
    requires chain { (rs : List ℕ) × IsChain seat.old.view chain.old rs }
    ensures same { (seat.new.table ≡ seat.old.table) × (seat.new.view.refs ≡ seat.old.view.refs) }
    ensures node { (h kind n : ℕ) (us xs : List Tree) → OwnsNode seat.old.view row kind n us → Body h kind n us xs → 1 ≤ n → Sorted xs
        → (vs : List Tree) × OwnsNode seat.new.view row kind n vs × Node h kind n vs xs }
    ensures spends { (rs : List ℕ) → IsChain seat.old.view chain.old rs → Spends 0 (row ∷ []) (row ∷ []) rs seat.old.view seat.new.view chain.new }
{
    let item = greatest(rows, seat, row);
    replace_top(rows, seat, row, item, chain);
}

/// The item becomes the one of the greatest bound of an owned node, where its bound is greater.
pub fn raise_top(rows: &Rows, seat: &mut RowSeat, row: u32, item: u32, chain: &mut Chain)
    requires table { seat.old.table ≡ rows.now }
    requires node { (kind n : ℕ) × (top : Tree) × (us : List Tree) × (it : Tree) × OwnsNode seat.old.view row kind n (top ∷ us) × IsLatch top
        × ReachesItem seat.old.view it item }
    requires few { length seat.old.view.refs + 1 < 2 ^ 32 }
    requires chain { (rs : List ℕ) × IsChain seat.old.view chain.old rs }
    ensures same { (seat.new.table ≡ seat.old.table) × (seat.new.view.refs ≡ seat.old.view.refs) }
    ensures node { (kind n : ℕ) (top : Tree) (us : List Tree) (it : Tree) → OwnsNode seat.old.view row kind n (top ∷ us) → IsLatch top
        → ReachesItem seat.old.view it item → (new : Tree) × Raised it top new × OwnsNode seat.new.view row kind n (new ∷ us) }
    ensures spends { (rs : List ℕ) → IsChain seat.old.view chain.old rs → Spends 0 (row ∷ []) (row ∷ []) rs seat.old.view seat.new.view chain.new }
{
    let top = row_at(rows, seat, row, 0);
    if bound_cmp(rows, seat, top, item).is_lt() {
        replace_top(rows, seat, row, item, chain);
    }
}

/// The children behind the middle item of a full owned node go to another one. Nodes of other kinds than 3 have none, and none of their links is looked at.
fn move_children(rows: &Rows, seat: &mut RowSeat, from: u32, to: u32, kind: u64)
    requires table { seat.old.table ≡ rows.now }
    requires links { CanMove seat.old.view from to 48 32 16 }
    requires none { kind ≢ 3 → HasNoChildren seat.old.view from }
    ensures same { (seat.new.table ≡ seat.old.table) × (seat.new.view.refs ≡ seat.old.view.refs) }
    ensures moved { MovesLinks seat.old.view seat.new.view from to 48 32 16 }
    ensures spends { (rs : List ℕ) (c : ChainValue) → IsChain seat.old.view c rs → Spends 0 (from ∷ to ∷ []) (from ∷ to ∷ []) rs seat.old.view seat.new.view c }
{
    if kind == 3 {
        move_links(rows, seat, from, to, 48, 32, 16);
    }
}

/// The items behind the middle one of a full owned node go to a new owned node, with their children, and the middle one comes out. The first links of both
/// are not set yet.
fn cut_node(rows: &Rows, seat: &mut RowSeat, row: u32, chain: &mut Chain) -> (u32, u32)
    requires table { seat.old.table ≡ rows.now }
    requires node { (h kind : ℕ) × (us xs : List Tree) × OwnsNode seat.old.view row kind 31 us × Body h kind 31 us xs }
    requires few { length seat.old.view.refs + 3 < 2 ^ 32 }
    requires room { HasRoom 1 seat.old.view chain.old }
    ensures table { seat.new.table ≡ seat.old.table }
    ensures parts { (h kind : ℕ) (us xs : List Tree) → OwnsNode seat.old.view row kind 31 us → Body h kind 31 us xs
        → CutParts h seat.new.view row result.0 result.1 kind xs seat.old.view.refs }
    ensures spends { (rs : List ℕ) → IsChain seat.old.view chain.old rs
        → Spends 1 (row ∷ []) (row ∷ result.0 ∷ []) rs seat.old.view seat.new.view chain.new }
{
    let kind = kind_of(rows, seat, row);
    let right = fresh_node(rows, seat, kind, 15, chain);
    move_links(rows, seat, row, right, 17, 1, 15);
    move_children(rows, seat, row, right, kind);
    let middle = swap(rows, seat, row, 16, 0);
    set_count(rows, seat, row, 15);
    (right, (middle - 1) as u32)
}

/// A full owned node keeps the items in front of its middle one; those behind it go to a new owned node. The seat has a reference to the middle item. The
/// first link of the full node may lead anywhere. The answer is the new node and the middle item.
pub(crate) fn split_node(rows: &Rows, seat: &mut RowSeat, row: u32, chain: &mut Chain) -> (u32, u32)
    requires table { seat.old.table ≡ rows.now }
    requires node { (h kind : ℕ) × (us xs : List Tree) × OwnsNode seat.old.view row kind 31 us × Body h kind 31 us xs × Sorted xs }
    requires few { length seat.old.view.refs + 3 < 2 ^ 32 }
    requires room { HasRoom 1 seat.old.view chain.old }
    ensures table { seat.new.table ≡ seat.old.table }
    ensures halves { (h kind : ℕ) (us xs : List Tree) → OwnsNode seat.old.view row kind 31 us → Body h kind 31 us xs → Sorted xs
        → Halves h seat.new.view row result.0 result.1 kind xs seat.old.view.refs }
    ensures spends { (rs : List ℕ) → IsChain seat.old.view chain.old rs
        → Spends 1 (row ∷ []) (row ∷ result.0 ∷ []) rs seat.old.view seat.new.view chain.new }
{
    let (right, middle) = cut_node(rows, seat, row, chain);
    set_top(rows, seat, row, chain);
    set_top(rows, seat, right, chain);
    (right, middle)
}
