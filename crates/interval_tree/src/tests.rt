// Trees that grow, and shots of them.
ghost use Rattle.std.specs.Prelude.{◌≡◌, ℕ, suc, ◌+◌, ◌*◌, ◌<◌, ◌≤◌, List, [], ◌∷◌, length, None, IfOk};
ghost use Rattle.row_pool.specs.declared.chain.Chain.{Chain as ChainValue};
ghost use Rattle.row_pool.specs.SeatView.{SeatView};
ghost use Rattle.row_pool.specs.Trees.{Tree as Row};
ghost use Rattle.latch_item.specs.Shape.{Refers};
ghost use Rattle.interval_tree.specs.Trees.{Keeps, root_of};
ghost use Rattle.interval_tree.specs.TestTrees.{Growing, Gone, with_shot, without_shot, HasShot, ShotsStand};

use crate::listing::list_shot;
use crate::tree::Tree;
use hlc_stamp::Stamp;
use latch_item::{Shot, write_item};
use row_pool::{Chain, Memory, RowSeat, Rows};
use span_key::{Key, Span};
use std::alloc::Global;
use std::test::Fail;

/// Which span the item number k of a test has.
#[derive(Clone, Copy)]
enum Order {
    Ascending,
    Descending,
    Shuffled,
    // one key, many requests
    Equal,
    // ranges of which each lies in the one before
    Nested,
    // keys of 256 bytes that differ in the last one, descending
    Long,
}

impl Order {
    /// The span of the item number k.
    fn span(self, alloc: Global, k: u32) -> Option<Span> {
        match self {
            Order::Ascending => point(alloc, &k.to_be_bytes()),
            Order::Descending => point(alloc, &(4_000_000_000 - k.min(1_000_000)).to_be_bytes()),
            Order::Shuffled => point(alloc, &shuffled(k).to_be_bytes()),
            Order::Equal => point(alloc, &[7]),
            Order::Nested => {
                let end = Key::new(alloc, &(4_000_000_000 - k.min(1_000_000)).to_be_bytes()).ok()?;
                let key = Key::new(alloc, &k.to_be_bytes()).ok()?;
                Span::range(key, end).ok()
            }
            Order::Long => {
                let mut bytes = [7; 256];
                bytes[255] = 255 - (k % 256) as u8;
                point(alloc, &bytes)
            }
        }
    }

    /// The place of the item number k among n.
    fn rank(self, k: u32, n: u32) -> u32 {
        match self {
            Order::Ascending | Order::Equal | Order::Nested => k,
            Order::Descending | Order::Long => n.saturating_sub(k).saturating_sub(1),
            Order::Shuffled => shuffled(k),
        }
    }
}

fn point(alloc: Global, bytes: &[u8]) -> Option<Span> {
    Some(Span::point(Key::new(alloc, bytes).ok()?))
}

/// The numbers below 1,000 in a mixed order.
fn shuffled(k: u32) -> u32 {
    (k % 1000 * 377 + 500) % 1000
}

/// An item of the span comes into the tree, as the latch of the request `id`. The answer is its row; none where there is no room.
fn add(
    rows: &Rows,
    seat: &mut RowSeat,
    chain: &mut Chain,
    tree: &mut Tree,
    id: u64,
    span: &Span,
) -> Option<u32>
    requires growing { (roots : List ℕ) × Growing rows.now seat.old chain.old tree.old id roots × (length roots < 1000) }
    ensures growing { (roots : List ℕ) → Growing rows.now seat.old chain.old tree.old id roots → length roots < 1000
        → Growing rows.now seat.new chain.new tree.new (id + 1) roots }
    ensures others { (roots : List ℕ) → Growing rows.now seat.old chain.old tree.old id roots → length roots < 1000
        → ShotsStand roots seat.old.view seat.new.view }
{
    seat.known();
    let free = chain.len();
    if free < 8 {
        return None;
    }
    let many = tree.len();
    if many >= 8190 {
        return None;
    }
    let row = chain.pop(rows, seat);
    let stamp = Stamp {
        wall: 0,
        logical: 0,
    };
    write_item(rows, seat, row, id, 0, 0, span, stamp);
    tree.insert(rows, seat, row, chain);
    seat.known();
    Some(row)
}

/// The single key of one byte comes into the tree, as the latch of the request `id`.
fn add_point(
    alloc: Global,
    rows: &Rows,
    seat: &mut RowSeat,
    chain: &mut Chain,
    tree: &mut Tree,
    id: u64,
    key: u8,
) -> Option<u32>
    requires growing { (roots : List ℕ) × Growing rows.now seat.old chain.old tree.old id roots × (length roots < 1000) }
    ensures growing { (roots : List ℕ) → Growing rows.now seat.old chain.old tree.old id roots → length roots < 1000
        → Growing rows.now seat.new chain.new tree.new (id + 1) roots }
{
    let span = point(alloc, &[key])?;
    add(rows, seat, chain, tree, id, &span)
}

/// The item number k comes into the tree. Its row is listed.
fn add_next(
    alloc: Global,
    rows: &Rows,
    seat: &mut RowSeat,
    chain: &mut Chain,
    tree: &mut Tree,
    order: Order,
    k: u32,
    came: &mut Vec<u32>,
)
    requires growing { (roots : List ℕ) × Growing rows.now seat.old chain.old tree.old k roots × (length roots < 1000) }
    ensures growing { (roots : List ℕ) → Growing rows.now seat.old chain.old tree.old k roots → length roots < 1000
        → Growing rows.now seat.new chain.new tree.new (k + 1) roots }
    ensures others { (roots : List ℕ) → Growing rows.now seat.old chain.old tree.old k roots → length roots < 1000
        → ShotsStand roots seat.old.view seat.new.view }
{
    let Some(span) = order.span(alloc, k) else {
        return;
    };
    if let Some(row) = add(rows, seat, chain, tree, k as u64, &span) {
        let _ = came.push(row);
    }
}

/// Items come into the tree, with the numbers from `from` up to `to`. The rows are listed in the order in which they came.
fn grow(
    alloc: Global,
    rows: &Rows,
    seat: &mut RowSeat,
    chain: &mut Chain,
    tree: &mut Tree,
    order: Order,
    from: u32,
    to: u32,
    came: &mut Vec<u32>,
)
    requires growing { (roots : List ℕ) × Growing rows.now seat.old chain.old tree.old from roots × (length roots < 1000) }
    requires upward { from ≤ to }
    ensures growing { (roots : List ℕ) → Growing rows.now seat.old chain.old tree.old from roots → length roots < 1000
        → Growing rows.now seat.new chain.new tree.new to roots }
    ensures others { (roots : List ℕ) → Growing rows.now seat.old chain.old tree.old from roots → length roots < 1000
        → ShotsStand roots seat.old.view seat.new.view }
{
    for k in from..to {
        add_next(alloc, rows, seat, chain, tree, order, k, came);
    }
}

/// Whether the tree has just these items, in their order.
fn is_in_order(
    alloc: Global,
    rows: &Rows,
    seat: &mut RowSeat,
    tree: &Tree,
    order: Order,
    came: &[u32],
) -> bool
    requires growing { (chain : ChainValue) × (n : ℕ) × (roots : List ℕ) × Growing rows.now seat.old chain tree.now n roots }
    ensures growing { (chain : ChainValue) (n : ℕ) (roots : List ℕ) → Growing rows.now seat.old chain tree.now n roots
        → Growing rows.now seat.new chain tree.now n roots }
{
    let Ok(list) = tree.list(alloc, rows, seat) else {
        return false;
    };
    let n = came.len().min(10_000) as u32;
    for k in 0..n {
        if list.get(order.rank(k, n) as usize) != came.get(k as usize) {
            return false;
        }
    }
    list.len() == came.len()
}

/// Whether the rows came in ascending order out of a pool that was new. A row that is copied goes in front of the chain and comes again, so then nothing was
/// copied.
fn is_nothing_copied(came: &[u32]) -> bool {
    let mut next = 0;
    for row in came {
        if *row < next {
            return false;
        }
        next = *row;
    }
    true
}

/// Ends the pool: the tree's rows go back into the chain.
fn finish(rows: Rows, mut seat: RowSeat, mut chain: Chain, tree: Tree)
    requires growing { (n : ℕ) × Growing rows seat chain tree n [] }
{
    let_go(&rows, &mut seat, &mut chain, &tree);
    chain.whole(&seat);
    rows.close(seat, chain);
}

/// The tree's rows go back into the chain.
fn let_go(rows: &Rows, seat: &mut RowSeat, chain: &mut Chain, tree: &Tree)
    requires growing { (n : ℕ) × Growing rows.now seat.old chain.old tree.now n [] }
    ensures gone { Gone rows.now seat.new chain.new }
{
    if let Some(root) = tree.snapshot(rows, seat).root {
        rows.drop_ref(seat, root, chain);
        rows.drop_ref(seat, root, chain);
    }
}

/// A pool of 5,000 free rows, with a tree that is empty.
fn new_pool(alloc: Global, tree: &Tree) -> Result<(Rows, RowSeat, Chain), Memory>
    requires empty { (v : SeatView) → Keeps v tree.now [] }
    requires root { root_of tree.now ≡ None }
    ensures growing { IfOk result (λ r. Growing r.0 r.1 r.2 tree.now 0 []) }
{
    let _ = tree.height();
    let (rows, seat, chain) = Rows::new(alloc, 5000)?;
    Ok((rows, seat, chain))
}

/// The heights of a tree of 31, of 32 and of n items, its length, and whether its list is in order and nothing was copied.
fn heights(alloc: Global, order: Order, n: u32) -> Result<(u32, u32, u32, u32, bool), Memory>
    requires { 32 ≤ n }
{
    let mut came = Vec::new(alloc);
    let mut tree = Tree::new();
    let (rows, mut seat, mut chain) = new_pool(alloc, &tree)?;
    grow(
        alloc, &rows, &mut seat, &mut chain, &mut tree, order, 0, 31, &mut came,
    );
    let first = tree.height();
    grow(
        alloc, &rows, &mut seat, &mut chain, &mut tree, order, 31, 32, &mut came,
    );
    let second = tree.height();
    grow(
        alloc, &rows, &mut seat, &mut chain, &mut tree, order, 32, n, &mut came,
    );
    let third = tree.height();
    let len = tree.len();
    let listed = is_in_order(alloc, &rows, &mut seat, &tree, order, came.as_slice());
    finish(rows, seat, chain, tree);
    Ok((
        first,
        second,
        third,
        len,
        listed && is_nothing_copied(came.as_slice()),
    ))
}

#[test]
fn lists_stay_in_order_as_unshared_trees_grow_in_place(rt: HostRuntime) -> Result<(), Fail> {
    let seen = heights(rt.alloc(), Order::Ascending, 1000)?;
    assert_eq!(rt; seen, (1, 2, 3, 1000, true));
    let seen = heights(rt.alloc(), Order::Descending, 1000)?;
    assert_eq!(rt; seen, (1, 2, 3, 1000, true));
    let seen = heights(rt.alloc(), Order::Shuffled, 1000)?;
    assert_eq!(rt; seen, (1, 2, 3, 1000, true));
    let seen = heights(rt.alloc(), Order::Equal, 300)?;
    assert_eq!(rt; seen, (1, 2, 2, 300, true));
    let seen = heights(rt.alloc(), Order::Nested, 300)?;
    assert_eq!(rt; seen, (1, 2, 2, 300, true));
    let seen = heights(rt.alloc(), Order::Long, 200)?;
    assert_eq!(rt; seen, (1, 2, 2, 200, true));
    Ok(())
}

/// A shot of the tree, to which the seat refers from then on.
fn take_shot(rows: &Rows, seat: &mut RowSeat, tree: &Tree) -> Shot
    requires growing { (chain : ChainValue) × (n : ℕ) × (roots : List ℕ) × Growing rows.now seat.old chain tree.now n roots × (length roots < 1000) }
    ensures growing { (chain : ChainValue) (n : ℕ) (roots : List ℕ) → Growing rows.now seat.old chain tree.now n roots
        → Growing rows.now seat.new chain tree.now n (with_shot result.root roots) }
    ensures shot { (xs : List Row) × Refers seat.new.view result xs }
    ensures others { (roots : List ℕ) → ShotsStand roots seat.old.view seat.new.view }
{
    tree.snapshot(rows, seat)
}

/// The seat's reference to a shot is given up, whichever of its shots that is.
fn drop_shot(rows: &Rows, seat: &mut RowSeat, chain: &mut Chain, tree: &Tree, shot: &Shot)
    requires growing { (n : ℕ) × (roots : List ℕ) × Growing rows.now seat.old chain.old tree.now n roots × HasShot shot.now.root roots }
    ensures growing { (n : ℕ) (roots : List ℕ) → Growing rows.now seat.old chain.old tree.now n roots → HasShot shot.now.root roots
        → Growing rows.now seat.new chain.new tree.now n (without_shot shot.now.root roots) }
    ensures others { (n : ℕ) (roots : List ℕ) → Growing rows.now seat.old chain.old tree.now n roots → HasShot shot.now.root roots
        → ShotsStand (without_shot shot.now.root roots) seat.old.view seat.new.view }
{
    let _ = tree.height();
    seat.known();
    if let Some(root) = shot.root {
        rows.drop_ref(seat, root, chain);
    }
}

/// Whether the two lists are of the same rows, whatever their order.
fn are_the_same_rows(alloc: Global, one: &[u32], other: &[u32]) -> Result<bool, Memory> {
    let mut one = one.to_vec(alloc)?;
    let mut other = other.to_vec(alloc)?;
    one.sort()?;
    other.sort()?;
    Ok(one == other)
}

/// Whether these are the rows that were listed, whatever their order.
fn has_just(alloc: Global, listed: &Result<Vec<u32>, Memory>, came: &[u32]) -> bool {
    match listed {
        Ok(listed) => matches!(are_the_same_rows(alloc, listed, came), Ok(true)),
        Err(_) => false,
    }
}

fn are_equal(one: &Result<Vec<u32>, Memory>, other: &Result<Vec<u32>, Memory>) -> bool {
    match (one, other) {
        (Ok(one), Ok(other)) => one == other,
        _ => false,
    }
}

/// Items come into the tree, with the numbers from `from` up to `to`. At every tenth a shot is taken. Once all have come, each shot, the newest first, is
/// listed again and given up. The answer is whether each listed both times just the rows that had come when it was taken.
fn shots_stand(
    alloc: Global,
    rows: &Rows,
    seat: &mut RowSeat,
    chain: &mut Chain,
    tree: &mut Tree,
    order: Order,
    from: u32,
    to: u32,
    came: &mut Vec<u32>,
) -> bool
    requires growing { (roots : List ℕ) × Growing rows.now seat.old chain.old tree.old from roots × (length roots * 10 ≤ from) }
    requires range { (from ≤ to) × (to ≤ 1000) }
    ensures growing { (roots : List ℕ) → Growing rows.now seat.old chain.old tree.old from roots → length roots * 10 ≤ from
        → Growing rows.now seat.new chain.new tree.new to roots }
    ensures others { (roots : List ℕ) → Growing rows.now seat.old chain.old tree.old from roots → length roots * 10 ≤ from
        → ShotsStand roots seat.old.view seat.new.view }
{
    if to - from < 10 {
        grow(alloc, rows, seat, chain, tree, order, from, to, came);
        return true;
    }
    let next = from + 10;
    grow(alloc, rows, seat, chain, tree, order, from, next, came);
    let shot = take_shot(rows, seat, tree);
    let listed = list_shot(alloc, rows, seat, &shot);
    let whole = has_just(alloc, &listed, came.as_slice());
    let others_stand = shots_stand(alloc, rows, seat, chain, tree, order, next, to, came);
    let again = list_shot(alloc, rows, seat, &shot);
    drop_shot(rows, seat, chain, tree, &shot);
    whole && others_stand && are_equal(&listed, &again)
}

/// Whether a tree of n items is in order, and all of its shots, one for every tenth item, stand.
fn tree_and_shots_stand(alloc: Global, order: Order, n: u32) -> Result<bool, Memory>
    requires { n ≤ 1000 }
{
    let mut came = Vec::new(alloc);
    let mut tree = Tree::new();
    let (rows, mut seat, mut chain) = new_pool(alloc, &tree)?;
    let stand = shots_stand(
        alloc, &rows, &mut seat, &mut chain, &mut tree, order, 0, n, &mut came,
    );
    let listed = is_in_order(alloc, &rows, &mut seat, &tree, order, came.as_slice());
    finish(rows, seat, chain, tree);
    Ok(stand && listed && came.len() == n as usize)
}

#[test]
fn shots_of_every_tenth_insertion_stand(rt: HostRuntime) -> Result<(), Fail> {
    assert!(rt; tree_and_shots_stand(rt.alloc(), Order::Ascending, 1000)?);
    assert!(rt; tree_and_shots_stand(rt.alloc(), Order::Descending, 1000)?);
    assert!(rt; tree_and_shots_stand(rt.alloc(), Order::Shuffled, 1000)?);
    assert!(rt; tree_and_shots_stand(rt.alloc(), Order::Equal, 1000)?);
    assert!(rt; tree_and_shots_stand(rt.alloc(), Order::Nested, 1000)?);
    assert!(rt; tree_and_shots_stand(rt.alloc(), Order::Long, 250)?);
    Ok(())
}

/// Whether a shot that is given up before the 31st insertion and one that is taken after it have one root: nothing was copied.
fn is_changed_in_place(alloc: Global, order: Order) -> Result<bool, Memory> {
    let mut came = Vec::new(alloc);
    let mut tree = Tree::new();
    let (rows, mut seat, mut chain) = new_pool(alloc, &tree)?;
    grow(
        alloc, &rows, &mut seat, &mut chain, &mut tree, order, 0, 30, &mut came,
    );
    let first = take_shot(&rows, &mut seat, &tree);
    drop_shot(&rows, &mut seat, &mut chain, &tree, &first);
    grow(
        alloc, &rows, &mut seat, &mut chain, &mut tree, order, 30, 31, &mut came,
    );
    let second = take_shot(&rows, &mut seat, &tree);
    drop_shot(&rows, &mut seat, &mut chain, &tree, &second);
    finish(rows, seat, chain, tree);
    Ok(first.root.is_some() && first.root == second.root)
}

/// Whether a shot that is kept over the 31st insertion and one that is taken after it have two roots. The older one is given up first.
fn is_copied(alloc: Global, order: Order) -> Result<bool, Memory> {
    let mut came = Vec::new(alloc);
    let mut tree = Tree::new();
    let (rows, mut seat, mut chain) = new_pool(alloc, &tree)?;
    grow(
        alloc, &rows, &mut seat, &mut chain, &mut tree, order, 0, 30, &mut came,
    );
    let first = take_shot(&rows, &mut seat, &tree);
    grow(
        alloc, &rows, &mut seat, &mut chain, &mut tree, order, 30, 31, &mut came,
    );
    let second = take_shot(&rows, &mut seat, &tree);
    drop_shot(&rows, &mut seat, &mut chain, &tree, &first);
    drop_shot(&rows, &mut seat, &mut chain, &tree, &second);
    finish(rows, seat, chain, tree);
    Ok(first.root.is_some() && second.root.is_some() && first.root != second.root)
}

#[test]
fn a_root_is_copied_exactly_where_a_shot_has_it(rt: HostRuntime) -> Result<(), Fail> {
    assert!(rt; is_changed_in_place(rt.alloc(), Order::Ascending)?);
    assert!(rt; is_copied(rt.alloc(), Order::Ascending)?);
    Ok(())
}

/// Whether the key 61 is listed in front of the key 62, which came first.
fn is_sorted_by_key(alloc: Global) -> Result<bool, Memory> {
    let mut tree = Tree::new();
    let (rows, mut seat, mut chain) = new_pool(alloc, &tree)?;
    let later = add_point(alloc, &rows, &mut seat, &mut chain, &mut tree, 0, 0x62);
    let earlier = add_point(alloc, &rows, &mut seat, &mut chain, &mut tree, 1, 0x61);
    let list = tree.list(alloc, &rows, &mut seat);
    finish(rows, seat, chain, tree);
    match (list?.as_slice(), earlier, later) {
        ([one, other], Some(earlier), Some(later)) => Ok(*one == earlier && *other == later),
        _ => Ok(false),
    }
}

#[test]
fn items_are_listed_by_key(rt: HostRuntime) -> Result<(), Fail> {
    assert!(rt; is_sorted_by_key(rt.alloc())?);
    Ok(())
}
