// An item goes out of an owned node, or from below it.
ghost use Rattle.std.specs.Prelude.{◌≡◌, ◌≢◌, ℕ, suc, ◌+◌, ◌*◌, ◌<◌, ◌≤◌, ◌^◌, List, [], ◌∷◌, ◌++◌, length, Option, IsTrue, IsFalse};
ghost use Rattle.row_pool.specs.Trees.{Tree};
ghost use Rattle.row_pool.specs.Chains.{IsChain};
ghost use Rattle.latch_item.specs.Shape.{Node, Sorted};
ghost use Rattle.interval_tree.specs.Held.{OwnsNode, HasRoom};
ghost use Rattle.tree_shrink.specs.Slots.{Flat};
ghost use Rattle.tree_shrink.specs.Stages.{Open, Heads, Aim, Target, Way, Aimed, Entered, Stood, Shrunk, Lowers, Finishing, Replacing, Replaced};
ghost use Rattle.tree_shrink.specs.Steps.{SpendsAll};

use crate::links::{cut_item, take_child};
use crate::mend::roomy_below;
use interval_tree::workshop::{count_of, link_node, place, row_at, set_top, swap};
use row_pool::{Chain, RowSeat, Rows};

/// The first link of an owned node is set anew where it leads to the item that went, a link word.
fn lower_top(rows: &Rows, seat: &mut RowSeat, row: u32, item: u64, chain: &mut Chain)
    requires table { seat.old.table ≡ rows.now }
    requires node { (h kind n : ℕ) × (xs ys : List Tree) × (it : Tree) × Lowers h seat.old.view row kind n xs ys it item }
    requires few { length seat.old.view.refs + 1 < 2 ^ 32 }
    requires chain { (rs : List ℕ) × IsChain seat.old.view chain.old rs }
    ensures same { (seat.new.table ≡ seat.old.table) × (seat.new.view.refs ≡ seat.old.view.refs) }
    ensures node { (h kind n : ℕ) (xs ys : List Tree) (it : Tree) → Lowers h seat.old.view row kind n xs ys it item → Stood h seat.new.view row kind n ys }
    ensures spends { SpendsAll 0 (row ∷ []) (row ∷ []) seat.old.view seat.new.view chain.old chain.new }
{
    if count_of(rows, seat, row) == 0 {
        return;
    }
    let top = row_at(rows, seat, row, 0);
    if top as u64 + 1 == item {
        set_top(rows, seat, row, chain);
    }
}

/// The item number i of an owned leaf comes out. The answer is its link word, and the seat's newest reference is to it.
fn remove_in_leaf(rows: &Rows, seat: &mut RowSeat, row: u32, i: u32, chain: &mut Chain) -> u64
    requires table { seat.old.table ≡ rows.now }
    requires leaf { (kind n : ℕ) × (us is js : List Tree) × (it : Tree) × OwnsNode seat.old.view row kind n us × Node 0 kind n us (is ++ it ∷ js)
        × (length is ≡ i) × (2 ≤ n) × Sorted (is ++ it ∷ js) }
    requires few { length seat.old.view.refs + 4 < 2 ^ 32 }
    requires chain { (rs : List ℕ) × IsChain seat.old.view chain.old rs }
    ensures table { seat.new.table ≡ seat.old.table }
    ensures shrunk { (kind n : ℕ) (us is js : List Tree) (it : Tree) → OwnsNode seat.old.view row kind n us → Node 0 kind n us (is ++ it ∷ js) → length is ≡ i
        → 2 ≤ n → Sorted (is ++ it ∷ js) → Shrunk 0 seat.new.view row kind n (is ++ it ∷ js) it result seat.old.view.refs }
    ensures spends { SpendsAll 0 (row ∷ []) (row ∷ []) seat.old.view seat.new.view chain.old chain.new }
{
    let n = count_of(rows, seat, row) as u32;
    let item = cut_item(rows, seat, row, i, n);
    lower_top(rows, seat, row, item, chain);
    item
}

/// How many items of an owned node are in front of the one that is to go, or of the child that it is in or in front of. Where no item is named the last one
/// is to go.
fn way(rows: &Rows, seat: &mut RowSeat, row: u32, height: u32, goal: Option<u32>) -> u32
    requires table { seat.old.table ≡ rows.now }
    requires aimed { (kind n : ℕ) × (us xs : List Tree) × (it : Tree) × (rest : List Tree) × Aimed height seat.old.view row goal kind n us xs it rest }
    ensures same { (seat.new.table ≡ seat.old.table) × (seat.new.view ≡ seat.old.view) }
    ensures leaf { height ≡ 0 → (kind n : ℕ) (us xs : List Tree) (it : Tree) (rest : List Tree) → Aimed height seat.old.view row goal kind n us xs it rest
        → (is js : List Tree) × (xs ≡ is ++ it ∷ js) × (length is ≡ result) }
    ensures inner { height ≢ 0 → (kind n : ℕ) (us xs : List Tree) (it : Tree) (rest : List Tree) (f : Flat height kind n us xs)
        → Aimed height seat.old.view row goal kind n us xs it rest → (is js : List Tree) × (f.its ≡ is ++ js) × (length is ≡ result) × Way goal it is js }
    ensures low { result ≤ 31 }
{
    match goal {
        Some(item) => place(rows, seat, row, item),
        None => {
            let n = count_of(rows, seat, row) as u32;
            if height == 0 { n - 1 } else { n }
        }
    }
}

/// Whether the item behind the child that is out, number i, is the one that is to go.
fn is_next(rows: &Rows, seat: &mut RowSeat, row: u32, i: u32, goal: Option<u32>) -> bool
    requires table { seat.old.table ≡ rows.now }
    requires state { (h n child : ℕ) × (xs ps ys qs rest : List Tree) × (it : Tree) × Open h seat.old.view row n child i xs ps ys qs rest
        × Target goal it ys qs }
    ensures same { (seat.new.table ≡ seat.old.table) × (seat.new.view ≡ seat.old.view) }
    ensures next { IsTrue result → (h n child : ℕ) (xs ps ys qs rest : List Tree) (it : Tree) → Open h seat.old.view row n child i xs ps ys qs rest
        → Target goal it ys qs → Heads it qs }
    ensures below { IsFalse result → (h n child : ℕ) (xs ps ys qs rest : List Tree) (it : Tree) → Open h seat.old.view row n child i xs ps ys qs rest
        → Target goal it ys qs → Aim goal it ys }
{
    match goal {
        None => false,
        Some(item) => is_item_at(rows, seat, row, i, item),
    }
}

/// Whether an owned node has more than i items, and the item number i is in this row.
fn is_item_at(rows: &Rows, seat: &mut RowSeat, row: u32, i: u32, item: u32) -> bool
    requires table { seat.old.table ≡ rows.now }
    requires state { (h n child : ℕ) × (xs ps ys qs rest : List Tree) × Open h seat.old.view row n child i xs ps ys qs rest }
    ensures same { (seat.new.table ≡ seat.old.table) × (seat.new.view ≡ seat.old.view) }
    ensures next { IsTrue result → (h n child : ℕ) (xs ps ys qs rest : List Tree) (it : Tree) → Open h seat.old.view row n child i xs ps ys qs rest
        → Target (Some item) it ys qs → Heads it qs }
    ensures below { IsFalse result → (h n child : ℕ) (xs ps ys qs rest : List Tree) (it : Tree) → Open h seat.old.view row n child i xs ps ys qs rest
        → Target (Some item) it ys qs → Aim (Some item) it ys }
{
    // One row stands for one tree.
    seat.known();
    let n = count_of(rows, seat, row);
    if i as u64 == n {
        return false;
    }
    let at = row_at(rows, seat, row, 1 + i);
    at == item
}

/// The child goes live and is linked again, and the greatest bound is lowered where the item that went, a link word, had it.
fn finish(
    rows: &Rows,
    seat: &mut RowSeat,
    row: u32,
    child: u32,
    j: u32,
    item: u64,
    chain: &mut Chain,
)
    requires table { seat.old.table ≡ rows.now }
    requires low { j ≤ 31 }
    requires state { (h n : ℕ) × (xs ps zs qs : List Tree) × (it : Tree) × (h ≤ 1) × Finishing h seat.old.view row n child j xs ps zs qs it item }
    requires few { length seat.old.view.refs + 3 < 2 ^ 32 }
    requires chain { (rs : List ℕ) × IsChain seat.old.view chain.old rs }
    ensures same { (seat.new.table ≡ seat.old.table) × (seat.new.view.refs ≡ seat.old.view.refs) }
    ensures stood { (h n : ℕ) (xs ps zs qs : List Tree) (it : Tree) → h ≤ 1 → Finishing h seat.old.view row n child j xs ps zs qs it item
        → Stood (suc h) seat.new.view row 3 n (ps ++ (zs ++ qs)) }
    ensures spends { SpendsAll 0 (row ∷ child ∷ []) (row ∷ []) seat.old.view seat.new.view chain.old chain.new }
{
    link_node(rows, seat, row, 32 + j, child);
    lower_top(rows, seat, row, item, chain);
}

/// The newest reference, to the child's last item, takes the place of the item behind the child, and the child is linked again. The answer is the item that
/// went, a link word.
fn take_over(
    rows: &Rows,
    seat: &mut RowSeat,
    row: u32,
    child: u32,
    j: u32,
    last: u64,
    chain: &mut Chain,
) -> u64
    requires table { seat.old.table ≡ rows.now }
    requires low { j ≤ 31 }
    requires state { (h n : ℕ) × (xs ps zs qs : List Tree) × (it m : Tree) × (rest : List Tree) × (h ≤ 1)
        × Replacing h seat.old.view row n child j xs ps zs qs it m last rest }
    requires chain { (rs : List ℕ) × IsChain seat.old.view chain.old rs }
    ensures table { seat.new.table ≡ seat.old.table }
    ensures replaced { (h n : ℕ) (xs ps zs qs : List Tree) (it m : Tree) (rest : List Tree) → h ≤ 1
        → Replacing h seat.old.view row n child j xs ps zs qs it m last rest → Replaced (suc h) seat.new.view row n xs it result rest }
    ensures spends { SpendsAll 0 (row ∷ child ∷ []) (row ∷ []) seat.old.view seat.new.view chain.old chain.new }
{
    let item = swap(rows, seat, row, 1 + j, last);
    finish(rows, seat, row, child, j, item, chain);
    item
}

/// An owned inner node is opened at the child that the way leads to, which has more than 15 items then. The answer is the child and its number.
fn enter(
    rows: &Rows,
    seat: &mut RowSeat,
    row: u32,
    height: u32,
    goal: Option<u32>,
    chain: &mut Chain,
) -> (u32, u32)
    requires table { seat.old.table ≡ rows.now }
    requires aimed { (h kind n : ℕ) × (us xs : List Tree) × (it : Tree) × (rest : List Tree) × (height ≡ suc h) × (h ≤ 1)
        × Aimed height seat.old.view row goal kind n us xs it rest }
    requires room { HasRoom 2 seat.old.view chain.old }
    ensures table { seat.new.table ≡ seat.old.table }
    ensures entered { (h kind n : ℕ) (us xs : List Tree) (it : Tree) (rest : List Tree) → height ≡ suc h → h ≤ 1
        → Aimed height seat.old.view row goal kind n us xs it rest → Entered h seat.new.view row n result.0 result.1 xs it goal rest }
    ensures spends { SpendsAll 2 (row ∷ []) (row ∷ result.0 ∷ []) seat.old.view seat.new.view chain.old chain.new }
{
    let i = way(rows, seat, row, height, goal);
    let child = take_child(rows, seat, row, 32 + i, chain);
    roomy_below(rows, seat, row, child, i, chain)
}

/// The item in a row, or the last one where no row is named, goes out of an owned node that stands `height` levels above the leaves. The answer is its link
/// word, and the seat's newest reference is to it.
pub(crate) fn remove_owned(
    rows: &Rows,
    seat: &mut RowSeat,
    row: u32,
    height: u32,
    goal: Option<u32>,
    chain: &mut Chain,
) -> u64
    requires table { seat.old.table ≡ rows.now }
    requires low { height ≤ 2 }
    requires aimed { (kind n : ℕ) × (us xs : List Tree) × (it : Tree) × (rest : List Tree) × Aimed height seat.old.view row goal kind n us xs it rest }
    requires room { HasRoom (height * 2) seat.old.view chain.old }
    ensures table { seat.new.table ≡ seat.old.table }
    ensures shrunk { (kind n : ℕ) (us xs : List Tree) (it : Tree) (rest : List Tree) → Aimed height seat.old.view row goal kind n us xs it rest
        → Shrunk height seat.new.view row kind n xs it result rest }
    ensures spends { SpendsAll (height * 2) (row ∷ []) (row ∷ []) seat.old.view seat.new.view chain.old chain.new }
{
    if height == 0 {
        let i = way(rows, seat, row, height, goal);
        return remove_in_leaf(rows, seat, row, i, chain);
    }
    let (goes, j) = enter(rows, seat, row, height, goal, chain);
    if is_next(rows, seat, row, j, goal) {
        let last = remove_owned(rows, seat, goes, height - 1, None, chain);
        return take_over(rows, seat, row, goes, j, last, chain);
    }
    let item = remove_owned(rows, seat, goes, height - 1, goal, chain);
    finish(rows, seat, row, goes, j, item, chain);
    item
}
