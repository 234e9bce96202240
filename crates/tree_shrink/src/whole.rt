// An item goes out of a tree of any size.
ghost use Rattle.std.specs.Prelude.{◌≡◌, ℕ, suc, ◌+◌, ◌*◌, ◌<◌, ◌≤◌, ◌^◌, List, [], ◌∷◌, length, None, Some};
ghost use Rattle.row_pool.specs.Trees.{Tree as Row, tree_word};
ghost use Rattle.row_pool.specs.Changes.{without_tree};
ghost use Rattle.row_pool.specs.Chains.{IsChain};
ghost use Rattle.latch_item.specs.Shape.{Among, RefersTo};
ghost use Rattle.interval_tree.specs.Held.{HasRoom};
ghost use Rattle.interval_tree.specs.States.{Standing};
ghost use Rattle.interval_tree.specs.Trees.{Keeps, beside, other_refs};
ghost use Rattle.tree_shrink.specs.Stages.{Removed, Leaving, Left};
ghost use Rattle.tree_shrink.specs.Steps.{SpendsAll};

use crate::descent::remove_owned;
use interval_tree::Tree;
use interval_tree::workshop::{count_of, own_node, publish_node, swap};
use row_pool::{Chain, RowSeat, Rows};

/// The root is owned, and the item goes out of its tree. The answer is the owned root.
fn take_item(
    rows: &Rows,
    seat: &mut RowSeat,
    root: u32,
    level: u32,
    item: u32,
    chain: &mut Chain,
) -> u32
    requires table { seat.old.table ≡ rows.now }
    requires tree { (xs : List Row) × (it : Row) × Leaving level seat.old.view root item xs it }
    requires room { HasRoom (level * 2 + 1) seat.old.view chain.old }
    ensures table { seat.new.table ≡ seat.old.table }
    ensures left { (xs : List Row) (it : Row) → Leaving level seat.old.view root item xs it
        → Left level seat.new.view result xs it (without_tree root seat.old.view.refs) }
    ensures spends { SpendsAll (level * 2 + 1) [] (result ∷ []) seat.old.view seat.new.view chain.old chain.new }
{
    let node = own_node(rows, seat, root, chain);
    remove_owned(rows, seat, node, level, Some(item), chain);
    rows.drop_ref(seat, item, chain);
    node
}

/// An owned root goes live. One without items gives way to its child. The answer is the root and how far it stands above the leaves.
fn settle_root(
    rows: &Rows,
    seat: &mut RowSeat,
    node: u32,
    level: u32,
    chain: &mut Chain,
) -> (u32, u32)
    requires table { seat.old.table ≡ rows.now }
    requires left { (xs : List Row) × (it : Row) × (rest : List Row) × Left level seat.old.view node xs it rest }
    requires chain { (rs : List ℕ) × IsChain seat.old.view chain.old rs }
    ensures table { seat.new.table ≡ seat.old.table }
    ensures standing { (xs : List Row) (it : Row) (rest : List Row) → Left level seat.old.view node xs it rest → (ys : List Row) × Removed it xs ys
        × Standing seat.new.view result.0 (result.1 + 1) ys rest }
    ensures low { result.1 ≤ 2 }
    ensures spends { SpendsAll 0 (node ∷ []) [] seat.old.view seat.new.view chain.old chain.new }
{
    if count_of(rows, seat, node) > 0 {
        publish_node(rows, seat, node);
        return (node, level);
    }
    let child = (swap(rows, seat, node, 32, 0) - 1) as u32;
    publish_node(rows, seat, node);
    rows.drop_ref(seat, node, chain);
    (child, level - 1)
}

/// An item goes out of a tree of at least two items. The answer is the root and how far it stands above the leaves.
fn remove_live(
    rows: &Rows,
    seat: &mut RowSeat,
    root: u32,
    level: u32,
    item: u32,
    chain: &mut Chain,
) -> (u32, u32)
    requires table { seat.old.table ≡ rows.now }
    requires tree { (xs : List Row) × (it : Row) × Leaving level seat.old.view root item xs it }
    requires room { HasRoom 5 seat.old.view chain.old }
    ensures table { seat.new.table ≡ seat.old.table }
    ensures standing { (xs : List Row) (it : Row) → Leaving level seat.old.view root item xs it → (ys : List Row) × Removed it xs ys
        × Standing seat.new.view result.0 (result.1 + 1) ys (without_tree root seat.old.view.refs) }
    ensures low { result.1 ≤ 2 }
    ensures spends { SpendsAll 5 [] [] seat.old.view seat.new.view chain.old chain.new }
{
    let node = take_item(rows, seat, root, level, item, chain);
    settle_root(rows, seat, node, level, chain)
}

/// The tree of one item goes, and the item's row is freed last, so that the next item takes it and the next leaf the root's: a row that was a node before
/// needs no blanking.
fn uproot(rows: &Rows, seat: &mut RowSeat, root: u32, item: u32, chain: &mut Chain)
    requires table { seat.old.table ≡ rows.now }
    requires tree { (height : ℕ) × (xs : List Row) × (it : Row) × RefersTo seat.old.view (Some root) height xs × Among it xs × (tree_word it ≡ suc item) }
    requires few { length seat.old.view.refs < 2 ^ 31 }
    requires chain { (rs : List ℕ) × IsChain seat.old.view chain.old rs }
    ensures same { (seat.new.table ≡ seat.old.table) × (seat.new.view.refs ≡ without_tree root seat.old.view.refs) }
    ensures spends { SpendsAll 0 [] [] seat.old.view seat.new.view chain.old chain.new }
{
    rows.hold(seat, item);
    rows.drop_ref(seat, root, chain);
    rows.drop_ref(seat, item, chain);
}

/// An item goes out of the tree of a root, which has `len` items. The answer is the root and the height that are left.
fn remove_some(
    rows: &Rows,
    seat: &mut RowSeat,
    root: u32,
    height: u32,
    len: u32,
    item: u32,
    chain: &mut Chain,
) -> (Option<u32>, u32)
    requires table { seat.old.table ≡ rows.now }
    requires tree { (xs : List Row) × (it : Row) × RefersTo seat.old.view (Some root) height xs × (len ≡ length xs) × Among it xs
        × (tree_word it ≡ suc item) }
    requires few { length seat.old.view.refs < 2 ^ 31 }
    requires room { HasRoom 5 seat.old.view chain.old }
    ensures table { seat.new.table ≡ seat.old.table }
    ensures tree { (xs : List Row) (it : Row) → RefersTo seat.old.view (Some root) height xs → len ≡ length xs → Among it xs → tree_word it ≡ suc item
        → (ys : List Row) × Removed it xs ys × RefersTo seat.new.view result.0 result.1 ys
        × (beside result.0 seat.new.view.refs ≡ without_tree root seat.old.view.refs) }
    ensures empty { result.0 ≡ None → result.1 ≡ 0 }
    ensures few { length seat.new.view.refs ≤ length seat.old.view.refs }
    ensures spends { SpendsAll 5 [] [] seat.old.view seat.new.view chain.old chain.new }
{
    if len == 1 {
        uproot(rows, seat, root, item, chain);
        return (None, 0);
    }
    let (over, level) = remove_live(rows, seat, root, height - 1, item, chain);
    (Some(over), level + 1)
}

/// An item goes out of the tree. Nodes that no shot shares are changed in place, others are copied; rows that nothing leads to any more go into the chain. At
/// most 5 rows of the chain are used.
pub fn remove(tree: &mut Tree, rows: &Rows, seat: &mut RowSeat, item: u32, chain: &mut Chain)
    requires table { seat.old.table ≡ rows.now }
    requires tree { (xs : List Row) × (it : Row) × Keeps seat.old.view tree.old xs × Among it xs × (tree_word it ≡ suc item) }
    requires few { length seat.old.view.refs < 2 ^ 31 }
    requires room { HasRoom 5 seat.old.view chain.old }
    ensures table { seat.new.table ≡ seat.old.table }
    ensures tree { (xs : List Row) (it : Row) → Keeps seat.old.view tree.old xs → Among it xs → tree_word it ≡ suc item
        → (ys : List Row) × Removed it xs ys × Keeps seat.new.view tree.new ys }
    ensures references { other_refs tree.new seat.new.view.refs ≡ other_refs tree.old seat.old.view.refs }
    ensures few { length seat.new.view.refs ≤ length seat.old.view.refs }
    ensures spends { SpendsAll 5 [] [] seat.old.view seat.new.view chain.old chain.new }
{
    if let Some(root) = tree.root() {
        let len = tree.len();
        let (left, height) = remove_some(rows, seat, root, tree.height(), len, item, chain);
        *tree = Tree::of_parts(left, height, len - 1);
    }
}
