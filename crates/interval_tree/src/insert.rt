// An item goes into an owned node, or below it.
ghost use Rattle.std.specs.Prelude.{◌≡◌, ◌≢◌, ℕ, suc, ◌+◌, ◌*◌, ◌<◌, ◌≤◌, ◌^◌, List, [], ◌∷◌, ◌++◌, length};
ghost use Rattle.row_pool.specs.Trees.{Tree, nil, tree_word, depth};
ghost use Rattle.row_pool.specs.Chains.{IsChain};
ghost use Rattle.row_pool.specs.declared.chain.Chain.{Chain as ChainValue};
ghost use Rattle.latch_item.specs.Items.{IsLatch};
ghost use Rattle.latch_item.specs.Shape.{Each, Sorted, Node};
ghost use Rattle.interval_tree.specs.Held.{OwnsNode, IsNodeRow, OthersStand, Spends, HasRoom};
ghost use Rattle.interval_tree.specs.Nodes.{Between, Hole, item_front, hole_end};
ghost use Rattle.interval_tree.specs.States.{ReachesItem, Ready, Grown, Opened, Filled, Whole};
ghost use Rattle.interval_tree.specs.Steps.{HasPlace, FindsPlace, CanLink, Links};

use crate::bounds::{raise_top, split_node};
use crate::nodes::{
    count_of, fresh_node, insert_link, move_links, own_node, publish_node, row_at, set_count, swap,
};
use latch_item::item_cmp;
use row_pool::{Chain, RowSeat, Rows};

/// The place of the item among those of an owned node, which lies between two places. It is found by halving.
fn place_between(rows: &Rows, seat: &mut RowSeat, row: u32, item: u32, low: u32, high: u32) -> u32
    requires table { seat.old.table ≡ rows.now }
    requires between { HasPlace seat.old.view row item low high }
    ensures same { (seat.new.table ≡ seat.old.table) × (seat.new.view ≡ seat.old.view) }
    ensures place { FindsPlace seat.old.view row item low high result }
    ensures low { result ≤ 31 }
{
    if low == high {
        return low;
    }
    let middle = low + (high - low) / 2;
    let other = row_at(rows, seat, row, 1 + middle);
    if item_cmp(rows, seat, other, item).is_lt() {
        place_between(rows, seat, row, item, middle + 1, high)
    } else {
        place_between(rows, seat, row, item, low, middle)
    }
}

/// How many items of an owned node are before the item.
pub fn place(rows: &Rows, seat: &mut RowSeat, row: u32, item: u32) -> u32
    requires table { seat.old.table ≡ rows.now }
    requires node { (kind n : ℕ) × (u : Tree) × (its ds : List Tree) × (it : Tree) × OwnsNode seat.old.view row kind n (u ∷ (its ++ ds)) × (length its ≡ n)
        × (n ≤ 31) × Each IsLatch its × Sorted its × ReachesItem seat.old.view it item }
    ensures same { (seat.new.table ≡ seat.old.table) × (seat.new.view ≡ seat.old.view) }
    ensures place { (kind n : ℕ) (u : Tree) (its ds : List Tree) (it : Tree) → OwnsNode seat.old.view row kind n (u ∷ (its ++ ds)) → length its ≡ n → n ≤ 31
        → Each IsLatch its → Sorted its → ReachesItem seat.old.view it item → Between it its result result }
    ensures low { result ≤ 31 }
{
    let n = count_of(rows, seat, row) as u32;
    place_between(rows, seat, row, item, 0, n)
}

/// An item goes into an owned leaf that isn't full.
fn insert_in_leaf(rows: &Rows, seat: &mut RowSeat, row: u32, item: u32, chain: &mut Chain)
    requires table { seat.old.table ≡ rows.now }
    requires ready { (kind n : ℕ) × (us xs : List Tree) × (it : Tree) × (rest : List Tree) × Ready 0 seat.old.view row item kind n us xs it rest }
    requires chain { (rs : List ℕ) × IsChain seat.old.view chain.old rs }
    ensures table { seat.new.table ≡ seat.old.table }
    ensures grown { (kind n : ℕ) (us xs : List Tree) (it : Tree) (rest : List Tree) → Ready 0 seat.old.view row item kind n us xs it rest
        → Grown 0 seat.new.view row kind n xs it rest }
    ensures spends { (rs : List ℕ) → IsChain seat.old.view chain.old rs → Spends 0 (row ∷ []) (row ∷ []) rs seat.old.view seat.new.view chain.new }
{
    raise_top(rows, seat, row, item, chain);
    let i = place(rows, seat, row, item);
    insert_link(rows, seat, row, 1 + i, item as u64 + 1);
    let n = count_of(rows, seat, row);
    set_count(rows, seat, row, n + 1);
}

/// The child that is to get the item is owned, and its link is empty. The answer is its row and its number.
fn open_child(rows: &Rows, seat: &mut RowSeat, row: u32, item: u32, chain: &mut Chain) -> (u32, u32)
    requires table { seat.old.table ≡ rows.now }
    requires ready { (h kind n : ℕ) × (us xs : List Tree) × (it : Tree) × (rest : List Tree) × Ready (suc h) seat.old.view row item kind n us xs it rest }
    requires room { HasRoom 1 seat.old.view chain.old }
    ensures table { seat.new.table ≡ seat.old.table }
    ensures opened { (h kind n : ℕ) (us xs : List Tree) (it : Tree) (rest : List Tree) → Ready (suc h) seat.old.view row item kind n us xs it rest
        → (top : Tree) × Opened h seat.new.view row kind n top result.0 result.1 item xs it rest }
    ensures spends { (rs : List ℕ) → IsChain seat.old.view chain.old rs
        → Spends 1 (row ∷ []) (row ∷ result.0 ∷ []) rs seat.old.view seat.new.view chain.new }
{
    raise_top(rows, seat, row, item, chain);
    let i = place(rows, seat, row, item);
    let child = swap(rows, seat, row, 32 + i, 0);
    let child = own_node(rows, seat, (child - 1) as u32, chain);
    (child, i)
}

/// An owned node goes live, and the empty link k of another leads to it.
pub fn link_node(rows: &Rows, seat: &mut RowSeat, row: u32, k: u32, child: u32)
    requires table { seat.old.table ≡ rows.now }
    requires link { CanLink seat.old.view row k child }
    ensures table { seat.new.table ≡ seat.old.table }
    ensures linked { Links seat.old.view seat.new.view row k child }
    ensures spends { (rs : List ℕ) (c : ChainValue) → IsChain seat.old.view c rs
        → Spends 0 (row ∷ child ∷ []) (row ∷ []) rs seat.old.view seat.new.view c }
{
    publish_node(rows, seat, child);
    swap(rows, seat, row, k, child as u64 + 1);
}

/// The seat's newest reference, to an item, goes into the place of the child that is out, and a further link for a child opens behind it.
fn make_room(rows: &Rows, seat: &mut RowSeat, row: u32, i: u32, item: u32)
    requires table { seat.old.table ≡ rows.now }
    requires hole { (h kind n : ℕ) × (top m : Tree) × (us ps qs rest : List Tree) × Hole h kind n us ps qs i × (n < 31)
        × OwnsNode seat.old.view row kind n (top ∷ us) × (tree_word m ≡ suc item) × (seat.old.view.refs ≡ m ∷ rest) × (length rest < 2 ^ 31 + 1) }
    ensures table { seat.new.table ≡ seat.old.table }
    ensures node { (h kind n : ℕ) (top m : Tree) (us ps qs rest : List Tree) (o : Hole h kind n us ps qs i) → n < 31
        → OwnsNode seat.old.view row kind n (top ∷ us) → tree_word m ≡ suc item → seat.old.view.refs ≡ m ∷ rest
        → OwnsNode seat.new.view row kind (n + 1) ((item_front o top m ++ nil ∷ []) ++ nil ∷ (o.ds ++ hole_end o)) × (seat.new.view.refs ≡ rest) }
    ensures others { OthersStand row seat.old.view seat.new.view }
{
    insert_link(rows, seat, row, 1 + i, item as u64 + 1);
    insert_link(rows, seat, row, 33 + i, 0);
    let n = count_of(rows, seat, row);
    set_count(rows, seat, row, n + 1);
}

/// The child that is to get the item isn't full: a full one is split, and its middle item and the other half are linked. The answer is the child and its
/// number.
fn room_below(
    rows: &Rows,
    seat: &mut RowSeat,
    row: u32,
    child: u32,
    i: u32,
    item: u32,
    chain: &mut Chain,
) -> (u32, u32)
    requires table { seat.old.table ≡ rows.now }
    requires opened { (h kind n : ℕ) × (top : Tree) × (xs : List Tree) × (it : Tree) × (rest : List Tree) × (h ≤ 1) × (n < 31)
        × Opened h seat.old.view row kind n top child i item xs it rest }
    requires room { HasRoom 1 seat.old.view chain.old }
    ensures table { seat.new.table ≡ seat.old.table }
    ensures opened { (h kind n : ℕ) (top : Tree) (xs : List Tree) (it : Tree) (rest : List Tree) → h ≤ 1 → n < 31
        → Opened h seat.old.view row kind n top child i item xs it rest
        → (m : ℕ) × (n ≤ m) × (m ≤ 31) × (o : Opened h seat.new.view row kind m top result.0 result.1 item xs it rest) × (o.count < 31) }
    ensures spends { (rs : List ℕ) → IsChain seat.old.view chain.old rs
        → Spends 1 (row ∷ child ∷ []) (row ∷ result.0 ∷ []) rs seat.old.view seat.new.view chain.new }
{
    let count = count_of(rows, seat, child);
    if count < 31 {
        return (child, i);
    }
    let (right, middle) = split_node(rows, seat, child, chain);
    let goes_right = item_cmp(rows, seat, middle, item).is_lt();
    make_room(rows, seat, row, i, middle);
    if goes_right {
        link_node(rows, seat, row, 32 + i, child);
        (right, i + 1)
    } else {
        link_node(rows, seat, row, 33 + i, right);
        (child, i)
    }
}

/// The child with the item goes live, and is linked again.
fn close_child(rows: &Rows, seat: &mut RowSeat, row: u32, child: u32, j: u32)
    requires table { seat.old.table ≡ rows.now }
    requires filled { (h kind n : ℕ) × (xs : List Tree) × (it : Tree) × (rest : List Tree) × (h ≤ 1) × Filled h seat.old.view row kind n child j xs it rest }
    requires low { j ≤ 31 }
    ensures table { seat.new.table ≡ seat.old.table }
    ensures whole { (h kind n : ℕ) (xs : List Tree) (it : Tree) (rest : List Tree) → h ≤ 1 → Filled h seat.old.view row kind n child j xs it rest
        → Whole (suc h) seat.new.view row kind n xs it rest }
    ensures spends { (rs : List ℕ) (c : ChainValue) → IsChain seat.old.view c rs
        → Spends 0 (row ∷ child ∷ []) (row ∷ []) rs seat.old.view seat.new.view c }
{
    link_node(rows, seat, row, 32 + j, child);
}

/// An item goes into an owned node that isn't full and stands `height` levels above the leaves.
pub(crate) fn insert_owned(
    rows: &Rows,
    seat: &mut RowSeat,
    row: u32,
    height: u32,
    item: u32,
    chain: &mut Chain,
)
    requires table { seat.old.table ≡ rows.now }
    requires low { height ≤ 2 }
    requires ready { (kind n : ℕ) × (us xs : List Tree) × (it : Tree) × (rest : List Tree) × Ready height seat.old.view row item kind n us xs it rest }
    requires room { HasRoom (height * 2) seat.old.view chain.old }
    ensures table { seat.new.table ≡ seat.old.table }
    ensures grown { (kind n : ℕ) (us xs : List Tree) (it : Tree) (rest : List Tree) → Ready height seat.old.view row item kind n us xs it rest
        → Grown height seat.new.view row kind n xs it rest }
    ensures spends { (rs : List ℕ) → IsChain seat.old.view chain.old rs
        → Spends (height * 2) (row ∷ []) (row ∷ []) rs seat.old.view seat.new.view chain.new }
{
    if height == 0 {
        insert_in_leaf(rows, seat, row, item, chain);
    } else {
        let (child, i) = open_child(rows, seat, row, item, chain);
        let (goes, j) = room_below(rows, seat, row, child, i, item, chain);
        insert_owned(rows, seat, goes, height - 1, item, chain);
        close_child(rows, seat, row, goes, j);
    }
}

/// A full owned root becomes two live children of a new owned root, which takes over its first link.
pub(crate) fn grow_root(rows: &Rows, seat: &mut RowSeat, row: u32, chain: &mut Chain) -> u32
    requires table { seat.old.table ≡ rows.now }
    requires node { (h kind : ℕ) × (us xs : List Tree) × (h ≤ 1) × OwnsNode seat.old.view row kind 31 us × Node h kind 31 us xs × Sorted xs }
    requires few { length seat.old.view.refs + 3 < 2 ^ 32 }
    requires room { HasRoom 2 seat.old.view chain.old }
    ensures same { (seat.new.table ≡ seat.old.table) × (seat.new.view.refs ≡ seat.old.view.refs) }
    ensures root { (h kind : ℕ) (us xs : List Tree) → h ≤ 1 → OwnsNode seat.old.view row kind 31 us → Node h kind 31 us xs → Sorted xs
        → (vs : List Tree) × OwnsNode seat.new.view result 3 1 vs × Node (suc h) 3 1 vs xs }
    ensures spends { (rs : List ℕ) → IsChain seat.old.view chain.old rs
        → Spends 2 (row ∷ []) (result ∷ []) rs seat.old.view seat.new.view chain.new }
{
    let over = fresh_node(rows, seat, 3, 1, chain);
    move_links(rows, seat, row, over, 0, 0, 1);
    let (right, middle) = split_node(rows, seat, row, chain);
    swap(rows, seat, over, 1, middle as u64 + 1);
    link_node(rows, seat, over, 32, row);
    link_node(rows, seat, over, 33, right);
    over
}
