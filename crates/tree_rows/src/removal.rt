// Trees from which items go, against plain lists.
ghost use Rattle.std.specs.Prelude.{◌≡◌, ℕ, ◌+◌, ◌<◌, ◌≤◌, List, [], ◌∷◌, length, IfOk, IsTrue};
ghost use Rattle.std.specs.List.{Contains};
ghost use Rattle.row_pool.specs.SeatState.{SameSeat};
ghost use Rattle.row_pool.specs.declared.chain.Chain.{Chain as ChainValue};
ghost use Rattle.tree_rows.specs.Planting.{OwnsChain};
ghost use Rattle.tree_rows.specs.Shrinking.{HasPlanted, HoldsTree, Stays};

use crate::tests::{add, close_all, new_pool, span_of};
use interval_tree::Tree;
use row_pool::{Chain, Memory, RowSeat, Rows};
use std::alloc::Global;
use std::test::Fail;
use tree_shrink::remove;

/// What a plain list knows of an item: the key, of four bytes, and the row.
#[derive(Clone, Copy)]
struct Known {
    key: u32,
    row: u32,
}

/// In which order the items of a script come.
#[derive(Clone, Copy)]
enum Order {
    Ascending,
    Descending,
}

/// Which item of the order goes.
#[derive(Clone, Copy)]
enum Place {
    First,
    Middle,
    Last,
}

impl Order {
    /// The key of the item number k.
    fn key(self, k: u32) -> u32 {
        match self {
            Order::Ascending => k,
            Order::Descending => 1_000_000 - k.min(1_000_000),
        }
    }
}

impl Place {
    /// The item's place among n.
    fn index(self, n: usize) -> usize {
        match self {
            Place::First => 0,
            Place::Middle => n / 2,
            Place::Last => n.saturating_sub(1),
        }
    }
}

/// A number that depends on k as by chance.
fn mixed(k: u32) -> u32 {
    let a = k.wrapping_mul(2654435761);
    let b = (a ^ (a >> 15)).wrapping_mul(2246822519);
    b ^ (b >> 13)
}

/// Whether the rows that were listed are those of the plain list, in its order.
fn has_just(listed: &Result<Vec<u32>, Memory>, plain: &[Known]) -> bool {
    match listed {
        Ok(list) => list.len() == plain.len()
            && list.iter().zip(plain).all(|(row, known)| *row == known.row),
        Err(_) => false,
    }
}

/// Whether the tree has just the items of the plain list, in its order.
fn is_just(alloc: Global, rows: &Rows, seat: &mut RowSeat, tree: &Tree, plain: &[Known]) -> bool
    requires stand { (chain : ChainValue) × (n : ℕ) × HasPlanted rows.now seat.old chain tree.now n }
    ensures stays { (chain : ChainValue) → Stays rows.now seat.old seat.new chain chain tree.now tree.now }
{
    let listed = tree.list(alloc, rows, seat);
    has_just(&listed, plain) && tree.len() as usize == plain.len()
}

/// The item of the key comes into the tree as the latch of the request `id`, and into the plain list.
fn come(
    alloc: Global,
    rows: &Rows,
    seat: &mut RowSeat,
    chain: &mut Chain,
    tree: &mut Tree,
    id: u64,
    key: u32,
    plain: &mut Vec<Known>,
) -> bool
    requires stand { (n : ℕ) × HasPlanted rows.now seat.old chain.old tree.old n × (n < id) }
    ensures stand { (n : ℕ) → HasPlanted rows.now seat.old chain.old tree.old n → n < id → HasPlanted rows.now seat.new chain.new tree.new id }
    ensures same_seat { SameSeat seat.old.view seat.new.view }
{
    let Ok(span) = span_of(alloc, key, 0) else {
        return false;
    };
    let Some(row) = add(rows, seat, chain, tree, id, &span) else {
        return false;
    };
    let place = plain.partition_point(|known| known.key <= key);
    plain.insert(place, Known { key, row }).is_ok()
}

/// Whether the row is one of these.
fn is_among(list: &[u32], row: u32) -> bool
    ensures { IsTrue result → Contains list.now row }
{
    list.contains(&row)
}

/// The item of this row goes out of the tree, where it is one of the tree's and there is room.
fn take_out(
    alloc: Global,
    rows: &Rows,
    seat: &mut RowSeat,
    chain: &mut Chain,
    tree: &mut Tree,
    row: u32,
) -> bool
    requires stand { (n : ℕ) × HasPlanted rows.now seat.old chain.old tree.old n }
    ensures stays { Stays rows.now seat.old seat.new chain.old chain.new tree.old tree.new }
{
    if chain.len() < 5 {
        return false;
    }
    let Ok(list) = tree.list(alloc, rows, seat) else {
        return false;
    };
    if !is_among(list.as_slice(), row) {
        return false;
    }
    remove(tree, rows, seat, row, chain);
    true
}

/// The item at this place of the plain list goes out of it, and out of the tree.
fn go(
    alloc: Global,
    rows: &Rows,
    seat: &mut RowSeat,
    chain: &mut Chain,
    tree: &mut Tree,
    place: usize,
    plain: &mut Vec<Known>,
) -> bool
    requires stand { (n : ℕ) × HasPlanted rows.now seat.old chain.old tree.old n }
    ensures stays { Stays rows.now seat.old seat.new chain.old chain.new tree.old tree.new }
{
    if place >= plain.len() {
        return false;
    }
    let known = plain.remove(place);
    take_out(alloc, rows, seat, chain, tree, known.row)
}

/// Whether an item is to come at the step number k, rather than to go: mostly so in some phases, and seldom in others.
fn is_coming(k: u32) -> bool {
    let seldom = mixed(k) % 4 == 0;
    (k / 1500 % 2 == 0) != seldom
}

/// The step number k: an item comes or goes, as chance has it.
fn change(
    alloc: Global,
    rows: &Rows,
    seat: &mut RowSeat,
    chain: &mut Chain,
    tree: &mut Tree,
    k: u32,
    plain: &mut Vec<Known>,
) -> bool
    requires stand { HasPlanted rows.now seat.old chain.old tree.old k }
    ensures stand { HasPlanted rows.now seat.new chain.new tree.new (k + 1) }
    ensures same_seat { SameSeat seat.old.view seat.new.view }
{
    let chance = mixed(k) / 4;
    let many = plain.len();
    if many == 0 || is_coming(k) {
        return come(
            alloc,
            rows,
            seat,
            chain,
            tree,
            k as u64 + 1,
            chance % 1000,
            plain,
        );
    }
    go(
        alloc,
        rows,
        seat,
        chain,
        tree,
        chance as usize % many,
        plain,
    )
}

/// The steps from the number `from` up to `to`. The answer is whether after each the tree had just the items of the plain list, in its order.
fn run(
    alloc: Global,
    rows: &Rows,
    seat: &mut RowSeat,
    chain: &mut Chain,
    tree: &mut Tree,
    from: u32,
    to: u32,
    plain: &mut Vec<Known>,
) -> bool
    requires stand { HasPlanted rows.now seat.old chain.old tree.old from }
    requires upward { from ≤ to }
    ensures stand { HasPlanted rows.now seat.new chain.new tree.new to }
    ensures same_seat { SameSeat seat.old.view seat.new.view }
{
    let mut good = true;
    for k in from..to {
        let changed = change(alloc, rows, seat, chain, tree, k, plain);
        let listed = is_just(alloc, rows, seat, tree, plain.as_slice());
        good = good && changed && listed;
    }
    good
}

/// A shot of the tree. The reference to it goes to a seat of its own, which keeps the tree as it is now.
fn hold_shot(rows: &Rows, seat: &mut RowSeat, chain: &Chain, tree: &Tree) -> (Tree, RowSeat)
    requires stand { (n : ℕ) × HasPlanted rows.now seat.old chain.now tree.now n }
    requires first { (seat.old.view.number ≡ 1) × (length seat.old.view.out < 65536) }
    ensures stand { (n : ℕ) → HasPlanted rows.now seat.old chain.now tree.now n → HasPlanted rows.now seat.new chain.now tree.now n }
    ensures held { HoldsTree rows.now result.1 result.0 }
    ensures out { (cap : ℕ) × (seat.new.view.out ≡ (result.1.view.number, cap) ∷ seat.old.view.out) }
    ensures same { (seat.new.view.number ≡ seat.old.view.number) × (seat.new.view.size ≡ seat.old.view.size) }
{
    let _free = chain.len();
    let len = tree.len();
    let shot = tree.snapshot(rows, seat);
    let kept = Tree::of_parts(shot.root, shot.height, len);
    match shot.root {
        None => (kept, rows.split(seat, &[])),
        Some(root) => (kept, rows.split(seat, &[root])),
    }
}

/// The rows of the items of the tree that a shot's seat keeps, in order.
fn list_held(
    alloc: Global,
    rows: &Rows,
    held: &mut RowSeat,
    kept: &Tree,
) -> Result<Vec<u32>, Memory>
    requires held { HoldsTree rows.now held.old kept.now }
    ensures held { HoldsTree rows.now held.new kept.now }
    ensures number { held.new.view.number ≡ held.old.view.number }
{
    kept.list(alloc, rows, held)
}

/// A shot's seat comes back, the newest first, and its reference is given up.
fn give_back(
    rows: &Rows,
    seat: &mut RowSeat,
    chain: &mut Chain,
    tree: &Tree,
    kept: &Tree,
    held: RowSeat,
)
    requires stand { (n : ℕ) × HasPlanted rows.now seat.old chain.old tree.now n }
    requires first { seat.old.view.number ≡ 1 }
    requires held { HoldsTree rows.now held kept.now }
    ensures stand { (n : ℕ) → HasPlanted rows.now seat.old chain.old tree.now n → HasPlanted rows.now seat.new chain.new tree.now n }
    ensures out { (cap : ℕ) (rest : List (ℕ × ℕ)) → seat.old.view.out ≡ (held.view.number, cap) ∷ rest → seat.new.view.out ≡ rest }
    ensures same { (seat.new.view.number ≡ seat.old.view.number) × (seat.new.view.size ≡ seat.old.view.size) }
{
    let _height = tree.height();
    rows.join(seat, held);
    seat.known();
    if let Some(root) = kept.root() {
        rows.drop_ref(seat, root, chain);
    }
}

fn are_equal(one: &Result<Vec<u32>, Memory>, other: &Result<Vec<u32>, Memory>) -> bool {
    match (one, other) {
        (Ok(one), Ok(other)) => one == other,
        _ => false,
    }
}

/// The steps from the number `from` up to `to`, with a shot now and then. Once all steps are done each shot is listed again, and then given up, the newest
/// first. The answer is whether after each step the tree had just the items of the plain list, in its order, and each shot both times what the plain list had
/// when it was taken.
fn rounds(
    alloc: Global,
    rows: &Rows,
    seat: &mut RowSeat,
    chain: &mut Chain,
    tree: &mut Tree,
    from: u32,
    to: u32,
    plain: &mut Vec<Known>,
) -> bool
    requires stand { HasPlanted rows.now seat.old chain.old tree.old from }
    requires range { (from ≤ to) × (to ≤ 10000) × (length seat.old.view.out ≤ from) }
    requires first { seat.old.view.number ≡ 1 }
    ensures stand { HasPlanted rows.now seat.new chain.new tree.new to }
    ensures same_seat { SameSeat seat.old.view seat.new.view }
{
    if from == to {
        return true;
    }
    let next = to.min(from + 1 + mixed(from) % 400);
    let (kept, mut held) = hold_shot(rows, seat, chain, tree);
    let listed = list_held(alloc, rows, &mut held, &kept);
    let whole = has_just(&listed, plain.as_slice());
    let good = run(alloc, rows, seat, chain, tree, from, next, plain);
    let others = rounds(alloc, rows, seat, chain, tree, next, to, plain);
    let again = list_held(alloc, rows, &mut held, &kept);
    give_back(rows, seat, chain, tree, &kept, held);
    whole && good && others && are_equal(&listed, &again)
}

/// The tree's reference to its root is given up.
fn let_go(rows: &Rows, seat: &mut RowSeat, chain: &mut Chain, tree: &Tree)
    requires stand { (n : ℕ) × HasPlanted rows.now seat.old chain.old tree.now n }
    ensures owns { (us : List ℕ) × OwnsChain rows.now seat.new chain.new us × (seat.new.view.refs ≡ []) }
    ensures same_seat { SameSeat seat.old.view seat.new.view }
{
    if let Some(root) = tree.root() {
        rows.drop_ref(seat, root, chain);
    }
}

/// Ends the pool.
fn finish(rows: Rows, mut seat: RowSeat, mut chain: Chain, tree: Tree)
    requires stand { (n : ℕ) × HasPlanted rows seat chain tree n }
    requires first { (seat.view.number ≡ 1) × (seat.view.out ≡ []) }
{
    let_go(&rows, &mut seat, &mut chain, &tree);
    close_all(rows, seat, chain);
}

/// So many items go, one after another, each from this place of the order. The answer is whether after each the tree had just the items of the plain list, in
/// its order.
fn shrink(
    alloc: Global,
    rows: &Rows,
    seat: &mut RowSeat,
    chain: &mut Chain,
    tree: &mut Tree,
    place: Place,
    many: u32,
    plain: &mut Vec<Known>,
) -> bool
    requires stand { (n : ℕ) × HasPlanted rows.now seat.old chain.old tree.old n }
    ensures stays { Stays rows.now seat.old seat.new chain.old chain.new tree.old tree.new }
{
    let mut good = true;
    for _turn in 0..many {
        let index = place.index(plain.len());
        let went = go(alloc, rows, seat, chain, tree, index, plain);
        let listed = is_just(alloc, rows, seat, tree, plain.as_slice());
        good = good && went && listed;
    }
    good
}

/// So many items come into a tree without items.
fn grow(
    alloc: Global,
    rows: &Rows,
    seat: &mut RowSeat,
    chain: &mut Chain,
    tree: &mut Tree,
    order: Order,
    many: u32,
    plain: &mut Vec<Known>,
) -> bool
    requires stand { HasPlanted rows.now seat.old chain.old tree.old 0 }
    ensures stand { HasPlanted rows.now seat.new chain.new tree.new many }
    ensures same_seat { SameSeat seat.old.view seat.new.view }
{
    let mut good = true;
    for k in 0..many {
        let came = come(
            alloc,
            rows,
            seat,
            chain,
            tree,
            k as u64 + 1,
            order.key(k),
            plain,
        );
        good = good && came;
    }
    good
}

/// A pool of so many rows, and in it a tree of so many items. The answer ends with whether all of them came.
fn new_tree(
    alloc: Global,
    free: u32,
    order: Order,
    many: u32,
    plain: &mut Vec<Known>,
) -> Result<(Rows, RowSeat, Chain, Tree, bool), Memory>
    requires { (1 ≤ free) × (free ≤ 4194304) }
    ensures stand { IfOk result (λ r. HasPlanted r.0 r.1 r.2 r.3 many) }
    ensures first { IfOk result (λ r. (r.1.view.number ≡ 1) × (r.1.view.out ≡ [])) }
{
    let mut tree = Tree::new();
    let (rows, mut seat, mut chain) = new_pool(alloc, free)?;
    let grown = grow(
        alloc, &rows, &mut seat, &mut chain, &mut tree, order, many, plain,
    );
    Ok((rows, seat, chain, tree, grown))
}

/// 8,000 steps by chance, and then all items go. The answer is whether all was right, and how many rows are free at the end.
fn course(alloc: Global) -> Result<(bool, u32), Memory> {
    let mut plain = Vec::new(alloc);
    let (rows, mut seat, mut chain, mut tree, _) = new_tree(
        alloc,
        60000,
        Order::Ascending,
        0,
        &mut plain,
    )?;
    let good = rounds(
        alloc, &rows, &mut seat, &mut chain, &mut tree, 0, 8000, &mut plain,
    );
    let many = tree.len();
    let emptied = shrink(
        alloc,
        &rows,
        &mut seat,
        &mut chain,
        &mut tree,
        Place::Middle,
        many,
        &mut plain,
    );
    let free = chain.len();
    let left = tree.len();
    finish(rows, seat, chain, tree);
    Ok((good && emptied && many > 100 && left == 0, free))
}

#[test]
fn trees_and_shots_are_as_plain_lists_have_them(rt: HostRuntime) -> Result<(), Fail> {
    assert_eq!(rt; course(rt.alloc())?, (true, 60000));
    Ok(())
}

/// A tree of 1,000 items, all of which go from this place of the order. The answer is whether all was right, and how many rows are free then.
fn emptied(alloc: Global, place: Place) -> Result<(bool, u32), Memory> {
    let mut plain = Vec::new(alloc);
    let (rows, mut seat, mut chain, mut tree, grown) = new_tree(
        alloc,
        5000,
        Order::Ascending,
        1000,
        &mut plain,
    )?;
    let shrunk = shrink(
        alloc, &rows, &mut seat, &mut chain, &mut tree, place, 1000, &mut plain,
    );
    let free = chain.len();
    let left = tree.len();
    finish(rows, seat, chain, tree);
    Ok((grown && shrunk && left == 0, free))
}

#[test]
fn an_emptied_tree_leaves_all_rows_free(rt: HostRuntime) -> Result<(), Fail> {
    assert_eq!(rt; emptied(rt.alloc(), Place::First)?, (true, 5000));
    assert_eq!(rt; emptied(rt.alloc(), Place::Middle)?, (true, 5000));
    assert_eq!(rt; emptied(rt.alloc(), Place::Last)?, (true, 5000));
    Ok(())
}

/// What is seen of a tree: the first three children of its root, each by its row and its number of items, its root's row, its height, its length, and how many
/// rows are free.
#[derive(Debug, Drop)]
struct Seen {
    first: Option<(u32, u64)>,
    second: Option<(u32, u64)>,
    third: Option<(u32, u64)>,
    root: Option<u32>,
    height: u32,
    len: u32,
    free: u32,
}

/// The child number i of the root, by its row and its number of items.
fn child_at(rows: &Rows, seat: &mut RowSeat, tree: &Tree, i: u32) -> Option<(u32, u64)>
    requires stand { (chain : ChainValue) × (n : ℕ) × HasPlanted rows.now seat.old chain tree.now n }
    requires low { i ≤ 31 }
    ensures stays { (chain : ChainValue) → Stays rows.now seat.old seat.new chain chain tree.now tree.now }
{
    seat.known();
    let root = tree.root()?;
    let child = rows.follow(seat, root, 35 + i)?;
    Some((child, rows.read(seat, child, 2)))
}

fn look(rows: &Rows, seat: &mut RowSeat, chain: &Chain, tree: &Tree) -> Seen
    requires stand { (n : ℕ) × HasPlanted rows.now seat.old chain.now tree.now n }
    ensures stays { Stays rows.now seat.old seat.new chain.now chain.now tree.now tree.now }
{
    let first = child_at(rows, seat, tree, 0);
    let second = child_at(rows, seat, tree, 1);
    let third = child_at(rows, seat, tree, 2);
    Seen {
        first,
        second,
        third,
        root: tree.root(),
        height: tree.height(),
        len: tree.len(),
        free: chain.len(),
    }
}

/// What is seen of a tree of n items before and after one removal, once so many items went from the same place of the order.
fn before_and_after(
    alloc: Global,
    order: Order,
    n: u32,
    gone: u32,
    place: Place,
) -> Result<(bool, Seen, Seen), Memory> {
    let mut plain = Vec::new(alloc);
    let (rows, mut seat, mut chain, mut tree, grown) = new_tree(alloc, 2000, order, n, &mut plain)?;
    let shrunk = shrink(
        alloc, &rows, &mut seat, &mut chain, &mut tree, place, gone, &mut plain,
    );
    let was = look(&rows, &mut seat, &chain, &tree);
    let went = shrink(
        alloc, &rows, &mut seat, &mut chain, &mut tree, place, 1, &mut plain,
    );
    let now = look(&rows, &mut seat, &chain, &tree);
    finish(rows, seat, chain, tree);
    Ok((grown && shrunk && went, was, now))
}

/// The numbers of items of the root's first three children; 0 where there is no child.
fn counts(seen: &Seen) -> (u64, u64, u64) {
    (count(seen.first), count(seen.second), count(seen.third))
}

fn count(child: Option<(u32, u64)>) -> u64 {
    match child {
        Some((_, n)) => n,
        None => 0,
    }
}

/// What is to be seen of a removal: the numbers of items of the root's first three children before and after it, the height after it, and how many rows it
/// leaves free.
#[derive(Clone, Copy)]
struct Case {
    was: (u64, u64, u64),
    now: (u64, u64, u64),
    height: u32,
    freed: u32,
}

/// Whether the child is in the row of one of the children that were seen, or there is no child.
fn is_in_place(child: Option<(u32, u64)>, was: &Seen) -> bool {
    match child {
        Some((row, _)) => is_child(row, was.first)
            || is_child(row, was.second)
            || is_child(row, was.third),
        None => true,
    }
}

fn is_child(row: u32, child: Option<(u32, u64)>) -> bool {
    match child {
        Some((other, _)) => row == other,
        None => false,
    }
}

/// Whether the removal of one item more, once `gone` of n items went from the same place of the order, is such a case. Nobody shares the tree: a root that
/// stays is in the row in which it was, and so is each of its children.
fn is_case(
    alloc: Global,
    order: Order,
    n: u32,
    gone: u32,
    place: Place,
    case: &Case,
) -> Result<bool, Memory> {
    let (good, was, now) = before_and_after(alloc, order, n, gone, place)?;
    let stays = was.height == now.height;
    let in_place = was.root == now.root
        && is_in_place(now.first, &was)
        && is_in_place(now.second, &was)
        && is_in_place(now.third, &was);
    Ok(
        good && was.len == n.saturating_sub(gone)
            && now.len == n.saturating_sub(gone).saturating_sub(1)
            && counts(&was) == case.was
            && counts(&now) == case.now
            && now.height == case.height
            && in_place == stays
            && now.free == was.free.saturating_add(case.freed),
    )
}

#[test]
fn a_child_of_15_items_gets_one_from_its_left_neighbour(rt: HostRuntime) -> Result<(), Fail> {
    let leaves = Case {
        was: (16, 15, 0),
        now: (15, 15, 0),
        height: 2,
        freed: 1,
    };
    assert!(rt; is_case(rt.alloc(), Order::Descending, 32, 0, Place::Last, &leaves)?);
    // The child has 16 items then, until two leaves below it become one.
    let inner = Case {
        was: (16, 15, 0),
        now: (15, 15, 0),
        height: 3,
        freed: 2,
    };
    assert!(rt; is_case(rt.alloc(), Order::Descending, 528, 0, Place::Last, &inner)?);
    Ok(())
}

#[test]
fn a_child_of_15_items_gets_one_from_its_right_neighbour(rt: HostRuntime) -> Result<(), Fail> {
    let leaves = Case {
        was: (15, 16, 0),
        now: (15, 15, 0),
        height: 2,
        freed: 1,
    };
    assert!(rt; is_case(rt.alloc(), Order::Ascending, 32, 0, Place::First, &leaves)?);
    // The left neighbour has 15 items as well.
    let between = Case {
        was: (15, 15, 16),
        now: (15, 15, 15),
        height: 2,
        freed: 1,
    };
    assert!(rt; is_case(rt.alloc(), Order::Ascending, 48, 0, Place::Middle, &between)?);
    let inner = Case {
        was: (15, 16, 0),
        now: (15, 15, 0),
        height: 3,
        freed: 2,
    };
    assert!(rt; is_case(rt.alloc(), Order::Ascending, 528, 0, Place::First, &inner)?);
    Ok(())
}

#[test]
fn a_child_of_15_items_merges_with_its_left_neighbour(rt: HostRuntime) -> Result<(), Fail> {
    let leaves = Case {
        was: (16, 15, 15),
        now: (16, 30, 0),
        height: 2,
        freed: 2,
    };
    assert!(rt; is_case(rt.alloc(), Order::Descending, 48, 0, Place::Last, &leaves)?);
    let inner = Case {
        was: (16, 15, 15),
        now: (16, 30, 0),
        height: 3,
        freed: 3,
    };
    assert!(rt; is_case(rt.alloc(), Order::Descending, 784, 0, Place::Last, &inner)?);
    Ok(())
}

#[test]
fn a_child_of_15_items_merges_with_its_right_neighbour(rt: HostRuntime) -> Result<(), Fail> {
    let leaves = Case {
        was: (15, 15, 16),
        now: (30, 16, 0),
        height: 2,
        freed: 2,
    };
    assert!(rt; is_case(rt.alloc(), Order::Ascending, 48, 0, Place::First, &leaves)?);
    let between = Case {
        was: (15, 15, 15),
        now: (15, 30, 0),
        height: 2,
        freed: 2,
    };
    assert!(rt; is_case(rt.alloc(), Order::Ascending, 48, 1, Place::Middle, &between)?);
    let inner = Case {
        was: (15, 15, 16),
        now: (30, 16, 0),
        height: 3,
        freed: 3,
    };
    assert!(rt; is_case(rt.alloc(), Order::Ascending, 784, 0, Place::First, &inner)?);
    Ok(())
}

/// Whether the root's first child is the root after the removal.
fn is_handed_down(alloc: Global, n: u32, gone: u32) -> Result<bool, Memory> {
    let (good, was, now) = before_and_after(alloc, Order::Ascending, n, gone, Place::First)?;
    match (was.first, now.root) {
        (Some((child, _)), Some(root)) => Ok(good && child == root),
        _ => Ok(false),
    }
}

#[test]
fn a_root_without_items_gives_way_to_its_child(rt: HostRuntime) -> Result<(), Fail> {
    let leaves = Case {
        was: (15, 15, 0),
        now: (0, 0, 0),
        height: 1,
        freed: 3,
    };
    assert!(rt; is_case(rt.alloc(), Order::Ascending, 32, 1, Place::First, &leaves)?);
    assert!(rt; is_handed_down(rt.alloc(), 32, 1)?);
    let inner = Case {
        was: (15, 15, 0),
        now: (30, 15, 15),
        height: 2,
        freed: 4,
    };
    assert!(rt; is_case(rt.alloc(), Order::Ascending, 513, 0, Place::First, &inner)?);
    assert!(rt; is_handed_down(rt.alloc(), 513, 0)?);
    Ok(())
}

/// The root of a shot that is taken and given up.
fn shot_root(rows: &Rows, seat: &mut RowSeat, chain: &mut Chain, tree: &Tree) -> Option<u32>
    requires stand { (n : ℕ) × HasPlanted rows.now seat.old chain.old tree.now n }
    requires first { (seat.old.view.number ≡ 1) × (length seat.old.view.out < 65536) }
    ensures stays { Stays rows.now seat.old seat.new chain.old chain.new tree.now tree.now }
{
    let (kept, held) = hold_shot(rows, seat, chain, tree);
    give_back(rows, seat, chain, tree, &kept, held);
    kept.root()
}

/// Whether a shot that is given up before a removal from a tree of 31 items and one that is taken after it have one root: nothing was copied.
fn is_changed_in_place(alloc: Global, place: Place) -> Result<bool, Memory> {
    let mut plain = Vec::new(alloc);
    let (rows, mut seat, mut chain, mut tree, grown) = new_tree(
        alloc,
        100,
        Order::Ascending,
        31,
        &mut plain,
    )?;
    let first = shot_root(&rows, &mut seat, &mut chain, &tree);
    let went = shrink(
        alloc, &rows, &mut seat, &mut chain, &mut tree, place, 1, &mut plain,
    );
    let second = shot_root(&rows, &mut seat, &mut chain, &tree);
    finish(rows, seat, chain, tree);
    Ok(grown && went && first.is_some() && first == second)
}

/// Whether a shot that is kept over a removal from a tree of 31 items and one that is taken after it have two roots.
fn is_copied(alloc: Global, place: Place) -> Result<bool, Memory> {
    let mut plain = Vec::new(alloc);
    let (rows, mut seat, mut chain, mut tree, grown) = new_tree(
        alloc,
        100,
        Order::Ascending,
        31,
        &mut plain,
    )?;
    let (kept, held) = hold_shot(&rows, &mut seat, &chain, &tree);
    let went = shrink(
        alloc, &rows, &mut seat, &mut chain, &mut tree, place, 1, &mut plain,
    );
    let second = shot_root(&rows, &mut seat, &mut chain, &tree);
    give_back(&rows, &mut seat, &mut chain, &tree, &kept, held);
    finish(rows, seat, chain, tree);
    Ok(grown && went && kept.root().is_some() && second.is_some() && kept.root() != second)
}

#[test]
fn a_root_is_copied_exactly_where_a_shot_has_it(rt: HostRuntime) -> Result<(), Fail> {
    assert!(rt; is_changed_in_place(rt.alloc(), Place::First)?);
    assert!(rt; is_changed_in_place(rt.alloc(), Place::Middle)?);
    assert!(rt; is_copied(rt.alloc(), Place::First)?);
    assert!(rt; is_copied(rt.alloc(), Place::Middle)?);
    Ok(())
}
