// Searches in trees, against plain lists.
ghost use Rattle.std.specs.Prelude.{◌≡◌, ℕ, ◌<◌, ◌≤◌, List, [], length, IfOk};
ghost use Rattle.row_pool.specs.Trees.{Tree as Row};
ghost use Rattle.row_pool.specs.SeatState.{SameSeat};
ghost use Rattle.latch_item.specs.Shape.{Refers};
ghost use Rattle.tree_rows.specs.Planting.{OwnsChain, Planted, Shown, NewItem};

use hlc_stamp::Stamp;
use interval_tree::Tree;
use latch_item::{Shot, item_facts, write_item};
use overlap_iter::Cursor;
use row_pool::{Chain, Memory, RowSeat, Rows};
use span_key::{Key, Span};
use std::alloc::Global;
use std::test::Fail;

/// The keys from `a` up to `b`, or the key `a` alone where b isn't greater. Keys have four bytes, so they are ordered as numbers.
pub(crate) fn span_of(alloc: Global, a: u32, b: u32) -> Result<Span, Memory> {
    let key = key_of(alloc, a)?;
    if b <= a {
        return Ok(Span::point(key));
    }
    match Span::range(key, key_of(alloc, b)?) {
        Ok(span) => Ok(span),
        Err(_) => Err(Memory),
    }
}

fn key_of(alloc: Global, n: u32) -> Result<Key, Memory> {
    match Key::new(alloc, &n.to_be_bytes()) {
        Ok(key) => Ok(key),
        Err(_) => Err(Memory),
    }
}

/// The bounds of the latch number `i` of a sort. Those of sort 0 are the even single keys, ascending. Of the others one in four is a single key, and some end
/// where a single key stands.
fn bounds(sort: u32, i: u32) -> (u32, u32) {
    if sort == 0 {
        return (i % 20000 * 2, 0);
    }
    let a = i.wrapping_mul(sort) % 20000;
    match i % 4 {
        0 => (a, a),
        1 => (a, a + 1),
        2 => (a, a + 3 + i % 50),
        _ => (a, if i % 400 == 3 { a + 3000 } else { a + 1 }),
    }
}

/// Twice a bound, and 1 more where it is a key that belongs to the span.
fn past(bounds: (u32, u32)) -> u64 {
    if bounds.1 <= bounds.0 {
        bounds.0 as u64 * 2 + 1
    } else {
        bounds.1 as u64 * 2
    }
}

fn have_a_key(a: (u32, u32), b: (u32, u32)) -> bool {
    (a.0 as u64 * 2) < past(b) && (b.0 as u64 * 2) < past(a)
}

/// The numbers of those latches that have a key in common with these bounds.
fn wanted(alloc: Global, sort: u32, n: u32, sought: (u32, u32)) -> Result<Vec<u64>, Memory> {
    let mut ids = Vec::new(alloc);
    for i in 0..n {
        if have_a_key(bounds(sort, i), sought) {
            ids.push(i as u64 + 1)?;
        }
    }
    Ok(ids)
}

/// What items are ordered by: key, end, number.
fn place_of(sort: u32, id: u64) -> (u32, u32, u64) {
    let (a, b) = bounds(sort, (id.saturating_sub(1) % 4294967296) as u32);
    (a, if b <= a { 0 } else { b }, id)
}

fn is_ordered(sort: u32, ids: &[u64]) -> bool {
    let mut last = (0, 0, 0);
    for id in ids {
        let here = place_of(sort, *id);
        if here <= last {
            return false;
        }
        last = here;
    }
    true
}

/// The numbers of the items that overlap a span, in the order of the tree.
fn ids(
    alloc: Global,
    rows: &Rows,
    seat: &mut RowSeat,
    shot: &Shot,
    span: &Span,
) -> Result<Vec<u64>, Memory>
    requires table { seat.old.table ≡ rows.now }
    requires shot { (xs : List Row) × Refers seat.old.view shot.now xs }
    ensures same { (seat.new.table ≡ seat.old.table) × (seat.new.view ≡ seat.old.view) }
{
    let mut ids = Vec::new(alloc);
    let mut cursor = Cursor::first(rows, seat, shot, span);
    while let Some(item) = cursor.next(rows, seat, span) {
        ids.push(item_facts(rows, seat, item).id)?;
    }
    Ok(ids)
}

/// Whether a search answers what a plain list has, in order, and follows few links. Beside it the links that were followed.
fn query(
    alloc: Global,
    rows: &Rows,
    seat: &mut RowSeat,
    shot: &Shot,
    sort: u32,
    n: u32,
    sought: (u32, u32),
) -> Result<(bool, usize, u64), Memory>
    requires table { seat.old.table ≡ rows.now }
    requires shot { (xs : List Row) × Refers seat.old.view shot.now xs }
    ensures same { (seat.new.table ≡ seat.old.table) × (seat.new.view ≡ seat.old.view) }
{
    let before = seat.follows();
    let span = span_of(alloc, sought.0, sought.1)?;
    let mut found = ids(alloc, rows, seat, shot, &span)?;
    let links = seat.follows().saturating_sub(before);
    let is_in_order = is_ordered(sort, found.as_slice());
    found.sort()?;
    let all = wanted(alloc, sort, n, sought)?;
    let k = found.len();
    let most = (96 * shot.height as u64).saturating_mul((k as u64).saturating_add(1));
    Ok((is_in_order && found == all && links <= most, k, links))
}

/// Whether the searches for the bounds of so many latches of another sort answer what a plain list has.
fn queries(
    alloc: Global,
    rows: &Rows,
    seat: &mut RowSeat,
    shot: &Shot,
    sort: u32,
    n: u32,
    many: u32,
) -> Result<bool, Memory>
    requires table { seat.old.table ≡ rows.now }
    requires shot { (xs : List Row) × Refers seat.old.view shot.now xs }
    ensures same { (seat.new.table ≡ seat.old.table) × (seat.new.view ≡ seat.old.view) }
{
    let mut good = true;
    for q in 0..many {
        let (right, _, _) = query(alloc, rows, seat, shot, sort, n, bounds(7919, q))?;
        good = good && right;
    }
    Ok(good)
}

pub(crate) fn new_pool(alloc: Global, n: u32) -> Result<(Rows, RowSeat, Chain), Memory>
    requires { (1 ≤ n) × (n ≤ 4194304) }
    ensures owns { IfOk result (λ r. (rs : List ℕ) × OwnsChain r.0 r.1 r.2 rs × (r.1.view.refs ≡ [])) }
    ensures first { IfOk result (λ r. (r.1.view.number ≡ 1) × (r.1.view.out ≡ [])) }
{
    let (rows, seat, chain) = Rows::new(alloc, n)?;
    Ok((rows, seat, chain))
}

/// The item of a row of the chain.
fn new_item(rows: &Rows, seat: &mut RowSeat, chain: &mut Chain, id: u64, span: &Span) -> u32
    requires owns { (rs : List ℕ) × OwnsChain rows.now seat.old chain.old rs × (1 ≤ length rs) }
    ensures item { (rs : List ℕ) → OwnsChain rows.now seat.old chain.old rs → NewItem rows.now seat.old seat.new chain.new rs result id }
    ensures table { seat.new.table ≡ seat.old.table }
{
    let row = chain.pop(rows, seat);
    let stamp = Stamp {
        wall: id,
        logical: 0,
    };
    write_item(rows, seat, row, id, 0, 0, span, stamp);
    row
}

/// A latch goes into the tree, where there is room. The answer is its row.
pub(crate) fn add(
    rows: &Rows,
    seat: &mut RowSeat,
    chain: &mut Chain,
    tree: &mut Tree,
    id: u64,
    span: &Span,
) -> Option<u32>
    requires stand { (rs : List ℕ) × (xs : List Row) × (n : ℕ) × Planted rows.now seat.old chain.old tree.old rs xs n × (n < id) }
    ensures stand { (rs : List ℕ) (xs : List Row) (n : ℕ) → Planted rows.now seat.old chain.old tree.old rs xs n → n < id
        → (us : List ℕ) × (ys : List Row) × Planted rows.now seat.new chain.new tree.new us ys id }
    ensures same_seat { SameSeat seat.old.view seat.new.view }
{
    if chain.len() < 8 || tree.len() >= 8190 {
        return None;
    }
    let row = new_item(rows, seat, chain, id, span);
    tree.insert(rows, seat, row, chain);
    Some(row)
}

/// The latches of a sort go into the tree.
fn grow(
    alloc: Global,
    rows: &Rows,
    seat: &mut RowSeat,
    chain: &mut Chain,
    tree: &mut Tree,
    sort: u32,
    n: u32,
) -> Result<bool, Memory>
    requires stand { (rs : List ℕ) × (xs : List Row) × Planted rows.now seat.old chain.old tree.old rs xs 0 }
    ensures stand { (us : List ℕ) × (ys : List Row) × (m : ℕ) × Planted rows.now seat.new chain.new tree.new us ys m }
    ensures same_seat { SameSeat seat.old.view seat.new.view }
{
    let mut good = true;
    for i in 0..n {
        let (a, b) = bounds(sort, i);
        let span = span_of(alloc, a, b)?;
        let added = add(rows, seat, chain, tree, i as u64 + 1, &span);
        good = good && added.is_some();
    }
    Ok(good)
}

fn take_shot(rows: &Rows, seat: &mut RowSeat, chain: &Chain, tree: &Tree) -> Shot
    requires stand { (rs : List ℕ) × (xs : List Row) × (n : ℕ) × Planted rows.now seat.old chain.now tree.now rs xs n }
    ensures stand { (rs : List ℕ) × (xs : List Row) × Shown rows.now seat.new chain.now result rs xs }
    ensures same_seat { SameSeat seat.old.view seat.new.view }
{
    let _free = chain.len();
    tree.snapshot(rows, seat)
}

/// Both references to the root are given up.
fn give_up(rows: &Rows, seat: &mut RowSeat, chain: &mut Chain, shot: &Shot)
    requires stand { (rs : List ℕ) × (xs : List Row) × Shown rows.now seat.old chain.old shot.now rs xs }
    ensures owns { (us : List ℕ) × OwnsChain rows.now seat.new chain.new us × (seat.new.view.refs ≡ []) }
    ensures same_seat { SameSeat seat.old.view seat.new.view }
{
    if let Some(root) = shot.root {
        rows.drop_ref(seat, root, chain);
        rows.drop_ref(seat, root, chain);
    }
}

pub(crate) fn close_all(rows: Rows, seat: RowSeat, chain: Chain)
    requires owns { (rs : List ℕ) × OwnsChain rows seat chain rs × (seat.view.refs ≡ []) }
    requires first { (seat.view.number ≡ 1) × (seat.view.out ≡ []) }
{
    chain.whole(&seat);
    rows.close(seat, chain);
}

/// What was asked of a tree: whether all latches went in, whether many searches were right, and three answers; and the tree's height and length.
#[derive(Drop)]
struct Asked {
    grown: Result<bool, Memory>,
    good: Result<bool, Memory>,
    first: Result<(bool, usize, u64), Memory>,
    second: Result<(bool, usize, u64), Memory>,
    third: Result<(bool, usize, u64), Memory>,
    height: u32,
    len: u32,
}

/// A tree of the latches of a sort is made, asked, and given up.
fn ask(
    alloc: Global,
    rows: &Rows,
    seat: &mut RowSeat,
    chain: &mut Chain,
    sort: u32,
    n: u32,
    sought: &[(u32, u32); 3],
) -> Asked
    requires owns { (rs : List ℕ) × OwnsChain rows.now seat.old chain.old rs × (seat.old.view.refs ≡ []) }
    ensures owns { (us : List ℕ) × OwnsChain rows.now seat.new chain.new us × (seat.new.view.refs ≡ []) }
    ensures same_seat { SameSeat seat.old.view seat.new.view }
{
    let mut tree = Tree::new();
    let grown = grow(alloc, rows, seat, chain, &mut tree, sort, n);
    let shot = take_shot(rows, seat, chain, &tree);
    let good = queries(alloc, rows, seat, &shot, sort, n, 40);
    let first = query(alloc, rows, seat, &shot, sort, n, sought[0]);
    let second = query(alloc, rows, seat, &shot, sort, n, sought[1]);
    let third = query(alloc, rows, seat, &shot, sort, n, sought[2]);
    give_up(rows, seat, chain, &shot);
    Asked {
        grown,
        good,
        first,
        second,
        third,
        height: shot.height,
        len: tree.len(),
    }
}

#[test]
fn a_tree_of_1000(rt: HostRuntime) -> Result<(), Fail> {
    let (rows, mut seat, mut chain) = new_pool(rt.alloc(), 5000)?;
    let sought = [(78, 78), (0, 2000), (77, 77)];
    let asked = ask(rt.alloc(), &rows, &mut seat, &mut chain, 0, 1000, &sought);
    let free = chain.len();
    close_all(rows, seat, chain);
    assert!(rt; asked.grown? && asked.good?);
    let (right, count, _) = asked.first?;
    assert!(rt; right && count == 1);
    let (right, count, _) = asked.second?;
    assert!(rt; right && count == 1000);
    let (right, count, _) = asked.third?;
    assert!(rt; right && count == 0);
    assert_eq!(rt; (asked.height, asked.len, free), (3, 1000, 5000));
    Ok(())
}

#[test]
fn a_tree_of_8000(rt: HostRuntime) -> Result<(), Fail> {
    let (rows, mut seat, mut chain) = new_pool(rt.alloc(), 12000)?;
    let sought = [(4000000, 4000000), (0, 30000), (500, 600)];
    let asked = ask(rt.alloc(), &rows, &mut seat, &mut chain, 377, 8000, &sought);
    let free = chain.len();
    close_all(rows, seat, chain);
    assert!(rt; asked.grown? && asked.good?);
    let (right, count, links) = asked.first?;
    assert!(rt; right && count == 0 && links <= 6144);
    let (right, count, _) = asked.second?;
    assert!(rt; right && count == 8000);
    let (right, _, _) = asked.third?;
    assert!(rt; right);
    assert_eq!(rt; (asked.height, asked.len, free), (3, 8000, 12000));
    Ok(())
}

fn is_right(asked: &Asked) -> bool {
    matches!(asked.grown, Ok(true))
        && matches!(asked.good, Ok(true))
        && matches!(asked.first, Ok((true, _, _)))
        && matches!(asked.second, Ok((true, _, _)))
        && matches!(asked.third, Ok((true, _, _)))
}

#[test]
fn trees_of_other_orders(rt: HostRuntime) -> Result<(), Fail> {
    let (rows, mut seat, mut chain) = new_pool(rt.alloc(), 2000)?;
    let sought = [(0, 30000), (19999, 19999), (100, 101)];
    let one = ask(rt.alloc(), &rows, &mut seat, &mut chain, 31, 700, &sought);
    let two = ask(rt.alloc(), &rows, &mut seat, &mut chain, 997, 700, &sought);
    let three = ask(rt.alloc(), &rows, &mut seat, &mut chain, 6007, 700, &sought);
    let free = chain.len();
    close_all(rows, seat, chain);
    assert!(rt; is_right(&one));
    assert!(rt; is_right(&two));
    assert!(rt; is_right(&three));
    assert_eq!(rt; free, 2000);
    Ok(())
}
