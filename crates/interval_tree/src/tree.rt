// A tree of any size: how it begins, grows and is read.
ghost use Rattle.std.specs.Prelude.{◌≡◌, ◌≢◌, ℕ, suc, ◌+◌, ◌*◌, ◌<◌, ◌≤◌, ◌^◌, List, [], ◌∷◌, length, None, Some, IfOk};
ghost use Rattle.row_pool.specs.Trees.{Tree as Row, tree_word};
ghost use Rattle.row_pool.specs.SeatView.{SeatView};
ghost use Rattle.row_pool.specs.Changes.{tree_of, without_tree, with_ref};
ghost use Rattle.row_pool.specs.Chains.{IsChain};
ghost use Rattle.latch_item.specs.Items.{Item, IsLatch, IsItemOf, word};
ghost use Rattle.latch_item.specs.Shape.{Node, Sorted, Stands, Refers, RefersTo};
ghost use Rattle.interval_tree.specs.Held.{OwnsNode, Spends, HasRoom};
ghost use Rattle.interval_tree.specs.Nodes.{Inserted};
ghost use Rattle.interval_tree.specs.States.{RootNode, Coming, Entering, Standing};
ghost use Rattle.interval_tree.specs.Listings.{rows_of};
ghost use Rattle.interval_tree.specs.Trees.{Keeps, IsNewItem, height_of, root_of, other_refs, beside};

use crate::insert::{grow_root, insert_owned};
use crate::listing::list_shot;
use crate::nodes::{count_of, fresh_node, own_node, publish_node, swap};
use latch_item::Shot;
use row_pool::{Chain, Memory, RowSeat, Rows};
use std::alloc::Global;

/// An interval tree over the rows of a pool, which shares its rows with the shots that were taken of it. Contracts see it as a sorted list of items with a
/// height; which list it is, its seat knows.
#[derive(Debug, Drop)]
pub struct Tree {
    // the row of the root, none of an empty tree
    root: Option<u32>,
    // how many levels of nodes there are
    height: u32,
    // how many items there are
    len: u32,
}

/// A live item, the seat's newest reference, becomes a tree of one leaf.
fn plant(rows: &Rows, seat: &mut RowSeat, item: u32, chain: &mut Chain) -> u32
    requires table { seat.old.table ≡ rows.now }
    requires item { (it : Row) × (rest : List Row) × (seat.old.view.refs ≡ it ∷ rest) × (tree_word it ≡ suc item) × IsLatch it × (length rest < 2 ^ 31) }
    requires room { HasRoom 1 seat.old.view chain.old }
    ensures table { seat.new.table ≡ seat.old.table }
    ensures tree { (it : Row) (rest : List Row) → seat.old.view.refs ≡ it ∷ rest → tree_word it ≡ suc item → IsLatch it
        → Standing seat.new.view result 1 (it ∷ []) rest }
    ensures spends { (rs : List ℕ) → IsChain seat.old.view chain.old rs → Spends 1 [] [] rs seat.old.view seat.new.view chain.new }
{
    let leaf = fresh_node(rows, seat, 2, 1, chain);
    rows.hold(seat, item);
    swap(rows, seat, leaf, 0, item as u64 + 1);
    swap(rows, seat, leaf, 1, item as u64 + 1);
    publish_node(rows, seat, leaf);
    leaf
}

/// An owned root that isn't full, in place of one that may be: a full one becomes two children of a new root. The answer is the root and how far it stands
/// above the leaves.
fn roomy_root(
    rows: &Rows,
    seat: &mut RowSeat,
    node: u32,
    level: u32,
    chain: &mut Chain,
) -> (u32, u32)
    requires table { seat.old.table ≡ rows.now }
    requires node { (xs : List Row) × RootNode level seat.old.view node xs × (level ≤ 2) × (length xs < 8190) × Sorted xs }
    requires few { length seat.old.view.refs + 3 < 2 ^ 32 }
    requires room { HasRoom 2 seat.old.view chain.old }
    ensures same { (seat.new.table ≡ seat.old.table) × (seat.new.view.refs ≡ seat.old.view.refs) }
    ensures node { (xs : List Row) → RootNode level seat.old.view node xs → level ≤ 2 → length xs < 8190 → Sorted xs
        → (root : RootNode result.1 seat.new.view result.0 xs) × (root.many < 31) }
    ensures low { result.1 ≤ 2 }
    ensures spends { (rs : List ℕ) → IsChain seat.old.view chain.old rs
        → Spends 2 (node ∷ []) (result.0 ∷ []) rs seat.old.view seat.new.view chain.new }
{
    let count = count_of(rows, seat, node);
    if count < 31 {
        return (node, level);
    }
    let over = grow_root(rows, seat, node, chain);
    (over, level + 1)
}

/// A live item, the seat's newest reference, goes into the tree of a root. The answer is the new root and how far it stands above the leaves.
fn insert_live(
    rows: &Rows,
    seat: &mut RowSeat,
    root: u32,
    level: u32,
    item: u32,
    chain: &mut Chain,
) -> (u32, u32)
    requires table { seat.old.table ≡ rows.now }
    requires tree { (xs : List Row) × (it : Row) × (rest : List Row) × Coming level seat.old.view root item xs it rest }
    requires room { HasRoom 7 seat.old.view chain.old }
    ensures table { seat.new.table ≡ seat.old.table }
    ensures tree { (xs : List Row) (it : Row) (rest : List Row) → Coming level seat.old.view root item xs it rest
        → (ys : List Row) × Inserted it xs ys × Standing seat.new.view result.0 (result.1 + 1) ys (without_tree root rest) }
    ensures low { result.1 ≤ 2 }
    ensures spends { (rs : List ℕ) → IsChain seat.old.view chain.old rs → Spends 7 [] [] rs seat.old.view seat.new.view chain.new }
{
    let node = own_node(rows, seat, root, chain);
    let (top, level) = roomy_root(rows, seat, node, level, chain);
    insert_owned(rows, seat, top, level, item, chain);
    publish_node(rows, seat, top);
    (top, level)
}

/// A live item, the seat's newest reference, comes into a tree. The answer is the new root and height.
fn insert_any(
    rows: &Rows,
    seat: &mut RowSeat,
    root: Option<u32>,
    height: u32,
    item: u32,
    chain: &mut Chain,
) -> (u32, u32)
    requires table { seat.old.table ≡ rows.now }
    requires tree { (xs : List Row) × (it : Row) × (rest : List Row) × Entering root height seat.old.view item xs it rest }
    requires room { HasRoom 7 seat.old.view chain.old }
    ensures table { seat.new.table ≡ seat.old.table }
    ensures tree { (xs : List Row) (it : Row) (rest : List Row) → Entering root height seat.old.view item xs it rest
        → (ys : List Row) × Inserted it xs ys × Standing seat.new.view result.0 result.1 ys (beside root rest) }
    ensures spends { (rs : List ℕ) → IsChain seat.old.view chain.old rs → Spends 7 [] [] rs seat.old.view seat.new.view chain.new }
{
    match root {
        None => (plant(rows, seat, item, chain), 1),
        Some(root) => {
            let (over, level) = insert_live(rows, seat, root, height - 1, item, chain);
            (over, level + 1)
        }
    }
}

impl Tree {
    /// A tree without items.
    pub fn new() -> Tree
        ensures tree { (v : SeatView) → Keeps v result [] }
        ensures root { root_of result ≡ None }
        ensures height { height_of result ≡ 0 }
    {
        Tree {
            root: None,
            height: 0,
            len: 0,
        }
    }

    /// The tree of this root, height and number of items. That a seat refers to its root is for the caller to keep.
    pub fn of_parts(root: Option<u32>, height: u32, len: u32) -> Tree
        requires { root ≡ None → height ≡ 0 }
        ensures tree { (v : SeatView) (xs : List Row) → RefersTo v root height xs → len ≡ length xs → Keeps v result xs }
        ensures root { root_of result ≡ root }
        ensures height { height_of result ≡ height }
    {
        Tree { root, height, len }
    }

    /// The row of its root, none of an empty tree.
    pub fn root(&self) -> Option<u32>
        ensures { result ≡ root_of self.now }
    {
        self.root
    }

    /// The number of its items.
    pub fn len(&self) -> u32
        ensures { (v : SeatView) (xs : List Row) → Keeps v self.now xs → result ≡ length xs }
    {
        self.len
    }

    /// How many levels of nodes there are.
    pub fn height(&self) -> u32
        ensures { result ≡ height_of self.now }
    {
        self.height
    }

    /// An owned item comes into the tree and goes live. Nodes that no shot shares are changed in place, others are copied, and full ones on the way are
    /// split. At most 7 rows of the chain are used.
    pub fn insert(&mut self, rows: &Rows, seat: &mut RowSeat, item: u32, chain: &mut Chain)
        requires table { seat.old.table ≡ rows.now }
        requires tree { (xs : List Row) × (x : Item) × Keeps seat.old.view self.old xs × IsNewItem seat.old.view item x xs × (length xs < 8190) }
        requires few { length seat.old.view.refs < 2 ^ 31 }
        requires room { HasRoom 7 seat.old.view chain.old }
        ensures table { seat.new.table ≡ seat.old.table }
        ensures tree { (xs : List Row) (x : Item) → Keeps seat.old.view self.old xs → IsNewItem seat.old.view item x xs → length xs < 8190
            → (it : Row) × (ys : List Row) × (tree_word it ≡ suc item) × IsItemOf it x × Inserted it xs ys × Keeps seat.new.view self.new ys }
        ensures references { other_refs self.new seat.new.view.refs ≡ other_refs self.old seat.old.view.refs }
        ensures few { length seat.new.view.refs ≤ length seat.old.view.refs + 1 }
        ensures spends { (rs : List ℕ) → IsChain seat.old.view chain.old rs → Spends 7 (item ∷ []) [] rs seat.old.view seat.new.view chain.new }
    {
        seat.known();
        rows.publish(seat, item);
        let (root, height) = insert_any(rows, seat, self.root, self.height, item, chain);
        self.root = Some(root);
        self.height = height;
        self.len += 1;
    }

    /// The tree as it is now: the seat refers once more to its root, and to what the tree has at this moment, whatever is inserted later.
    pub fn snapshot(&self, rows: &Rows, seat: &mut RowSeat) -> Shot
        requires table { seat.old.table ≡ rows.now }
        requires tree { (xs : List Row) × Keeps seat.old.view self.now xs }
        requires few { length seat.old.view.refs < 2 ^ 32 }
        ensures table { seat.new.table ≡ seat.old.table }
        ensures shot { (xs : List Row) → Keeps seat.old.view self.now xs → Refers seat.new.view result xs × (result.height ≡ height_of self.now) }
        ensures root { result.root ≡ root_of self.now }
        ensures tree { (xs : List Row) → Keeps seat.old.view self.now xs → Keeps seat.new.view self.now xs }
        ensures reference { (root : ℕ) → result.root ≡ Some root → seat.new.view ≡ with_ref (tree_of root seat.old.view.refs) seat.old.view }
        ensures empty { result.root ≡ None → seat.new.view ≡ seat.old.view }
    {
        match self.root {
            None => Shot {
                root: None,
                height: self.height,
            },
            Some(root) => {
                rows.hold(seat, root);
                Shot {
                    root: Some(root),
                    height: self.height,
                }
            }
        }
    }

    /// The numbers of the rows that hold its items, in the order of the items: by key, then by end, where a single key comes first, then by request, and
    /// then by place in the request. Neither the tree nor what the seat has changes. `Memory` where a growth of the list was refused.
    ///
    /// It serves tests, since it walks the whole tree: for m items in k nodes it follows m + k - 1 links and reads a number of items m + k times, each by one
    /// load, and takes no other step. The memory that it takes is the list's, 4 bytes an item and what a `Vec` keeps free as it grows.
    pub fn list(&self, alloc: Global, rows: &Rows, seat: &mut RowSeat) -> Result<Vec<u32>, Memory>
        requires table { seat.old.table ≡ rows.now }
        requires tree { (xs : List Row) × Keeps seat.old.view self.now xs }
        ensures same { (seat.new.table ≡ seat.old.table) × (seat.new.view ≡ seat.old.view) }
        ensures rows { IfOk result (λ v. (xs : List Row) → Keeps seat.old.view self.now xs → v.items ≡ rows_of xs) }
    {
        let shot = Shot {
            root: self.root,
            height: self.height,
        };
        list_shot(alloc, rows, seat, &shot)
    }
}
