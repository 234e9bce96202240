// Steps on nodes that a seat owns.
ghost use Rattle.std.specs.Prelude.{◌≡◌, ◌≢◌, ℕ, suc, ◌+◌, ◌<◌, ◌≤◌, ◌^◌, List, [], ◌∷◌, ◌++◌, length, replicate};
ghost use Rattle.row_pool.specs.Trees.{Tree, nil, tree_word, children, depth};
ghost use Rattle.row_pool.specs.Changes.{tree_of, without_tree};
ghost use Rattle.row_pool.specs.Chains.{IsChain};
ghost use Rattle.row_pool.specs.declared.chain.Chain.{Chain as ChainValue};
ghost use Rattle.latch_item.specs.Items.{word};
ghost use Rattle.latch_item.specs.Shape.{Each, Stands};
ghost use Rattle.row_pool.specs.Views.{Reaches};
ghost use Rattle.interval_tree.specs.Nodes.{LevelKid};
ghost use Rattle.interval_tree.specs.States.{Greatest};
ghost use Rattle.interval_tree.specs.Held.{OwnsNode, OthersStand, Frame, Spends, HasRoom};
ghost use Rattle.interval_tree.specs.Steps.{CanSwap, Swaps, CanInsert, Inserts, CanCopy, Copies, CanMove, MovesLinks, WentLive, LeadsTo};

use row_pool::{Chain, RowSeat, Rows};

/// The word of a node with the number of its items.
const COUNT: u32 = 2;

/// The first word of its links: to an item of the greatest upper bound, then to the items, then to the children.
const LINKS: u32 = 3;

/// The link k of an owned node takes `goal`, the seat's newest reference or nothing. What it held before becomes the newest reference.
pub fn swap(rows: &Rows, seat: &mut RowSeat, row: u32, k: u32, goal: u64) -> u64
    requires table { seat.old.table ≡ rows.now }
    requires link { CanSwap seat.old.view row k goal }
    ensures table { seat.new.table ≡ seat.old.table }
    ensures node { Swaps seat.old.view seat.new.view row k goal result }
    ensures others { OthersStand row seat.old.view seat.new.view }
    ensures low { result ≤ 4194304 }
{
    rows.swap_link(seat, row, LINKS + k, goal)
}

/// The links from k on, up to the first empty one, move by one place, and `goal` comes in front of them.
pub fn insert_link(rows: &Rows, seat: &mut RowSeat, row: u32, k: u32, goal: u64)
    requires table { seat.old.table ≡ rows.now }
    requires link { CanInsert seat.old.view row k goal }
    ensures table { seat.new.table ≡ seat.old.table }
    ensures node { Inserts seat.old.view seat.new.view row k goal }
    ensures others { OthersStand row seat.old.view seat.new.view }
{
    let moved = swap(rows, seat, row, k, goal);
    if moved != 0 {
        insert_link(rows, seat, row, k + 1, moved);
    }
}

/// The row to which the link k of an owned node leads.
pub fn row_at(rows: &Rows, seat: &mut RowSeat, row: u32, k: u32) -> u32
    requires table { seat.old.table ≡ rows.now }
    requires link { (kind n : ℕ) × (us vs : List Tree) × (u : Tree) × OwnsNode seat.old.view row kind n (us ++ u ∷ vs) × (length us ≡ k) × (k < 64)
        × (0 < tree_word u) }
    ensures same { (seat.new.table ≡ seat.old.table) × (seat.new.view ≡ seat.old.view) }
    ensures row { LeadsTo seat.old.view row k result }
{
    let Some(next) = rows.follow(seat, row, LINKS + k) else {
        unreachable!()
    };
    next
}

/// The item of the greatest bound of a child.
pub fn top_of(rows: &Rows, seat: &mut RowSeat, child: u32) -> u32
    requires table { seat.old.table ≡ rows.now }
    requires child { (h : ℕ) × (c : Tree) × (ys : List Tree) × Reaches seat.old.view c × (tree_word c ≡ suc child) × LevelKid h c ys }
    ensures same { (seat.new.table ≡ seat.old.table) × (seat.new.view ≡ seat.old.view) }
    ensures top { (h : ℕ) (c : Tree) (ys : List Tree) → Reaches seat.old.view c → tree_word c ≡ suc child → LevelKid h c ys → Greatest seat.old.view ys result }
{
    let Some(top) = rows.follow(seat, child, LINKS) else {
        unreachable!()
    };
    top
}

/// The number of items of an owned node is written.
pub fn set_count(rows: &Rows, seat: &mut RowSeat, row: u32, n: u64)
    requires table { seat.old.table ≡ rows.now }
    requires node { (kind m : ℕ) × (us : List Tree) × OwnsNode seat.old.view row kind m us }
    ensures same { (seat.new.table ≡ seat.old.table) × (seat.new.view.refs ≡ seat.old.view.refs) }
    ensures node { (kind m : ℕ) (us : List Tree) → OwnsNode seat.old.view row kind m us → OwnsNode seat.new.view row kind n us }
    ensures others { OthersStand row seat.old.view seat.new.view }
{
    rows.write(seat, row, COUNT, n);
}

/// The number of items of an owned node.
pub fn count_of(rows: &Rows, seat: &mut RowSeat, row: u32) -> u64
    requires table { seat.old.table ≡ rows.now }
    requires node { (kind n : ℕ) × (us : List Tree) × OwnsNode seat.old.view row kind n us }
    ensures same { seat.new ≡ seat.old }
    ensures count { (kind n : ℕ) (us : List Tree) → OwnsNode seat.old.view row kind n us → result ≡ n }
{
    rows.read(seat, row, COUNT)
}

/// The kind of an owned node: 2 for a leaf, 3 for an inner node.
pub fn kind_of(rows: &Rows, seat: &mut RowSeat, row: u32) -> u64
    requires table { seat.old.table ≡ rows.now }
    requires node { (kind n : ℕ) × (us : List Tree) × OwnsNode seat.old.view row kind n us }
    ensures same { seat.new ≡ seat.old }
    ensures kind { (kind n : ℕ) (us : List Tree) → OwnsNode seat.old.view row kind n us → result ≡ kind }
{
    rows.read(seat, row, 1)
}

/// An owned node goes live, and the seat has the one reference to it.
pub fn publish_node(rows: &Rows, seat: &mut RowSeat, row: u32)
    requires table { seat.old.table ≡ rows.now }
    requires node { (kind n : ℕ) × (us : List Tree) × OwnsNode seat.old.view row kind n us × Each (λ u. depth u ≤ 3) us }
    requires room { length seat.old.view.refs < 2 ^ 32 }
    ensures table { seat.new.table ≡ seat.old.table }
    ensures node { (kind n : ℕ) (us : List Tree) → OwnsNode seat.old.view row kind n us → WentLive seat.old.view seat.new.view row kind n us }
{
    rows.publish(seat, row);
}

/// A free row becomes a node without links that says it has n items.
pub(crate) fn fresh_node(
    rows: &Rows,
    seat: &mut RowSeat,
    kind: u64,
    n: u64,
    chain: &mut Chain,
) -> u32
    requires table { seat.old.table ≡ rows.now }
    requires kind { (2 ≤ kind) × (kind ≤ 3) }
    requires room { HasRoom 1 seat.old.view chain.old }
    ensures same { (seat.new.table ≡ seat.old.table) × (seat.new.view.refs ≡ seat.old.view.refs) }
    ensures node { OwnsNode seat.new.view result kind n (replicate 64 nil) }
    ensures spends { (rs : List ℕ) → IsChain seat.old.view chain.old rs → Spends 1 [] (result ∷ []) rs seat.old.view seat.new.view chain.new }
{
    let row = chain.pop(rows, seat);
    rows.start_node(seat, row, kind);
    rows.write(seat, row, COUNT, n);
    row
}

/// The link k of a live node is held, and put into the same place of an owned node.
fn copy_link(rows: &Rows, seat: &mut RowSeat, row: u32, copy: u32, k: u32)
    requires table { seat.old.table ≡ rows.now }
    requires links { CanCopy seat.old.view row copy k 1 }
    ensures same { (seat.new.table ≡ seat.old.table) × (seat.new.view.refs ≡ seat.old.view.refs) }
    ensures node { Copies seat.old.view seat.new.view row copy k 1 }
    ensures others { OthersStand copy seat.old.view seat.new.view }
{
    if let Some(target) = rows.follow(seat, row, LINKS + k) {
        rows.hold(seat, target);
        swap(rows, seat, copy, k, target as u64 + 1);
    }
}

/// m links of a live node from k on are held, and put into the same places of an owned node.
fn copy_links(rows: &Rows, seat: &mut RowSeat, row: u32, copy: u32, k: u32, m: u32)
    requires table { seat.old.table ≡ rows.now }
    requires links { CanCopy seat.old.view row copy k m }
    ensures same { (seat.new.table ≡ seat.old.table) × (seat.new.view.refs ≡ seat.old.view.refs) }
    ensures node { Copies seat.old.view seat.new.view row copy k m }
    ensures others { OthersStand copy seat.old.view seat.new.view }
{
    if m > 0 {
        copy_link(rows, seat, row, copy, k);
        copy_links(rows, seat, row, copy, k + 1, m - 1);
    }
}

/// All links of a live node are held, and put into the same places of an owned one. Those that are empty are not looked at.
fn copy_node(rows: &Rows, seat: &mut RowSeat, row: u32, copy: u32, kind: u64, n: u32)
    requires table { seat.old.table ≡ rows.now }
    requires node { (h : ℕ) × (xs : List Tree) × (tree_word (tree_of row seat.old.view.refs) ≡ suc row) × Stands h (tree_of row seat.old.view.refs) xs
        × (kind ≡ word (tree_of row seat.old.view.refs) 1) × (n ≡ word (tree_of row seat.old.view.refs) 2)
        × OwnsNode seat.old.view copy kind n (replicate 64 nil) × (length seat.old.view.refs + 1 < 2 ^ 32) }
    ensures same { (seat.new.table ≡ seat.old.table) × (seat.new.view.refs ≡ seat.old.view.refs) }
    ensures node { OwnsNode seat.new.view copy kind n (children (tree_of row seat.old.view.refs)) }
    ensures others { OthersStand copy seat.old.view seat.new.view }
{
    copy_links(rows, seat, row, copy, 0, n + 1);
    if kind == 3 {
        copy_links(rows, seat, row, copy, 32, n + 1);
    }
}

/// The seat's reference to a live node becomes an owned node with the same links: the row itself where its count is 1, else a copy.
#[inline(always)]
pub fn own_node(rows: &Rows, seat: &mut RowSeat, row: u32, chain: &mut Chain) -> u32
    requires table { seat.old.table ≡ rows.now }
    requires node { (h : ℕ) × (xs : List Tree) × (tree_word (tree_of row seat.old.view.refs) ≡ suc row) × Stands h (tree_of row seat.old.view.refs) xs }
    requires few { length seat.old.view.refs + 1 < 2 ^ 32 }
    requires room { HasRoom 1 seat.old.view chain.old }
    ensures same { (seat.new.table ≡ seat.old.table) × (seat.new.view.refs ≡ without_tree row seat.old.view.refs) }
    ensures node { OwnsNode seat.new.view result (word (tree_of row seat.old.view.refs) 1) (word (tree_of row seat.old.view.refs) 2)
        (children (tree_of row seat.old.view.refs)) }
    ensures spends { (rs : List ℕ) → IsChain seat.old.view chain.old rs → Spends 1 [] (result ∷ []) rs seat.old.view seat.new.view chain.new }
{
    seat.known();
    if rows.own_if_single(seat, row) {
        return row;
    }
    let kind = rows.read(seat, row, 1);
    let n = rows.read(seat, row, COUNT);
    let copy = fresh_node(rows, seat, kind, n, chain);
    copy_node(rows, seat, row, copy, kind, n as u32);
    rows.drop_ref(seat, row, chain);
    copy
}

/// n links of an owned node, from the place a on, go to another one's empty links from the place b on.
pub fn move_links(rows: &Rows, seat: &mut RowSeat, from: u32, to: u32, a: u32, b: u32, n: u32)
    requires table { seat.old.table ≡ rows.now }
    requires links { CanMove seat.old.view from to a b n }
    ensures same { (seat.new.table ≡ seat.old.table) × (seat.new.view.refs ≡ seat.old.view.refs) }
    ensures moved { MovesLinks seat.old.view seat.new.view from to a b n }
    ensures spends { (rs : List ℕ) (c : ChainValue) → IsChain seat.old.view c rs → Spends 0 (from ∷ to ∷ []) (from ∷ to ∷ []) rs seat.old.view seat.new.view c }
{
    if n > 0 {
        let moved = swap(rows, seat, from, a, 0);
        swap(rows, seat, to, b, moved);
        move_links(rows, seat, from, to, a + 1, b + 1, n - 1);
    }
}
