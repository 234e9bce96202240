// A child of 15 items gets more before the way goes down into it.
ghost use Rattle.std.specs.Prelude.{◌≡◌, ℕ, ◌+◌, ◌-◌, ◌<◌, ◌≤◌, List, [], ◌∷◌, IsTrue, IsFalse};
ghost use Rattle.row_pool.specs.Trees.{Tree};
ghost use Rattle.interval_tree.specs.Held.{HasRoom};
ghost use Rattle.tree_shrink.specs.Stages.{Open, Roomy};
ghost use Rattle.tree_shrink.specs.Steps.{SpendsAll, LeftIs, FromLeft, RightIs, FromRight, CanWeigh, Weighs, IsPoor, Mends};

use crate::ends::{gain_first, gain_last, lend_first, lend_last};
use crate::join::join_nodes;
use crate::links::{cut_item, take_child};
use interval_tree::workshop::{count_of, link_node, row_at, swap};
use row_pool::{Chain, RowSeat, Rows};

/// The least number of items of a node that isn't the root.
const LEAST: u64 = 15;

/// The child in front, number b, gives its last item and the child behind it: its item comes up, and the one between the two goes down.
fn from_left(rows: &Rows, seat: &mut RowSeat, row: u32, child: u32, b: u32, chain: &mut Chain)
    requires table { seat.old.table ≡ rows.now }
    requires low { b ≤ 30 }
    requires state { (n : ℕ) × LeftIs (λ k. 16 ≤ k) seat.old.view row child b n }
    requires room { HasRoom 1 seat.old.view chain.old }
    ensures table { seat.new.table ≡ seat.old.table }
    ensures roomy { (n : ℕ) → FromLeft (λ k. 16 ≤ k) seat.old.view seat.new.view row child b n child (b + 1) n }
    ensures spends { SpendsAll 1 (row ∷ child ∷ []) (row ∷ child ∷ []) seat.old.view seat.new.view chain.old chain.new }
{
    let left = take_child(rows, seat, row, 32 + b, chain);
    let (item, kid) = lend_last(rows, seat, left, chain);
    let middle = swap(rows, seat, row, 1 + b, item);
    gain_first(rows, seat, child, middle, kid, chain);
    link_node(rows, seat, row, 32 + b, left);
}

/// The child behind gives its first item and the child in front of it.
fn from_right(rows: &Rows, seat: &mut RowSeat, row: u32, child: u32, i: u32, chain: &mut Chain)
    requires table { seat.old.table ≡ rows.now }
    requires low { i ≤ 30 }
    requires state { (n : ℕ) × RightIs (λ k. 16 ≤ k) seat.old.view row child i n }
    requires room { HasRoom 1 seat.old.view chain.old }
    ensures table { seat.new.table ≡ seat.old.table }
    ensures roomy { (n : ℕ) → FromRight (λ k. 16 ≤ k) seat.old.view seat.new.view row child i n n }
    ensures spends { SpendsAll 1 (row ∷ child ∷ []) (row ∷ child ∷ []) seat.old.view seat.new.view chain.old chain.new }
{
    let right = take_child(rows, seat, row, 33 + i, chain);
    let (item, kid) = lend_first(rows, seat, right, chain);
    let middle = swap(rows, seat, row, 1 + i, item);
    gain_last(rows, seat, child, middle, kid, chain);
    link_node(rows, seat, row, 33 + i, right);
}

/// The child and the one behind it become one.
fn merge_right(
    rows: &Rows,
    seat: &mut RowSeat,
    row: u32,
    child: u32,
    i: u32,
    n: u32,
    chain: &mut Chain,
)
    requires table { seat.old.table ≡ rows.now }
    requires low { i ≤ 30 }
    requires state { RightIs (λ k. k ≡ 15) seat.old.view row child i n }
    requires room { HasRoom 1 seat.old.view chain.old }
    ensures table { seat.new.table ≡ seat.old.table }
    ensures roomy { FromRight (λ k. k ≡ 15) seat.old.view seat.new.view row child i n (n - 1) }
    ensures spends { SpendsAll 1 (row ∷ child ∷ []) (row ∷ child ∷ []) seat.old.view seat.new.view chain.old chain.new }
{
    let right = take_child(rows, seat, row, 33 + i, chain);
    let item = cut_item(rows, seat, row, i, n);
    join_nodes(rows, seat, child, right, item, chain);
}

/// The child and the one in front of it, number b, become one, which is the answer.
fn merge_left(
    rows: &Rows,
    seat: &mut RowSeat,
    row: u32,
    child: u32,
    b: u32,
    n: u32,
    chain: &mut Chain,
) -> u32
    requires table { seat.old.table ≡ rows.now }
    requires low { b ≤ 30 }
    requires state { LeftIs (λ k. k ≡ 15) seat.old.view row child b n }
    requires room { HasRoom 1 seat.old.view chain.old }
    ensures table { seat.new.table ≡ seat.old.table }
    ensures roomy { FromLeft (λ k. k ≡ 15) seat.old.view seat.new.view row child b n result b (n - 1) }
    ensures spends { SpendsAll 1 (row ∷ child ∷ []) (row ∷ result ∷ []) seat.old.view seat.new.view chain.old chain.new }
{
    let left = take_child(rows, seat, row, 32 + b, chain);
    let item = cut_item(rows, seat, row, b, n);
    join_nodes(rows, seat, left, child, item, chain);
    left
}

/// Whether the live child at the link k has more than 15 items.
fn is_rich(rows: &Rows, seat: &mut RowSeat, row: u32, k: u32) -> bool
    requires table { seat.old.table ≡ rows.now }
    requires child { CanWeigh seat.old.view row k }
    ensures same { (seat.new.table ≡ seat.old.table) × (seat.new.view ≡ seat.old.view) }
    ensures rich { IsTrue result → Weighs (λ k. 16 ≤ k) seat.old.view row k }
    ensures poor { IsFalse result → Weighs (λ k. k ≤ 15) seat.old.view row k }
{
    let child = row_at(rows, seat, row, k);
    rows.read(seat, child, 2) > LEAST
}

/// A child of 15 items that has one behind it gets more from that one, or becomes one with it.
fn mend_right(
    rows: &Rows,
    seat: &mut RowSeat,
    row: u32,
    child: u32,
    i: u32,
    n: u32,
    chain: &mut Chain,
)
    requires table { seat.old.table ≡ rows.now }
    requires low { (i < n) × (n ≤ 31) }
    requires poor { IsPoor seat.old.view row child i n }
    requires room { HasRoom 1 seat.old.view chain.old }
    ensures table { seat.new.table ≡ seat.old.table }
    ensures roomy { Mends seat.old.view seat.new.view row child i n child i }
    ensures spends { SpendsAll 1 (row ∷ child ∷ []) (row ∷ child ∷ []) seat.old.view seat.new.view chain.old chain.new }
{
    if is_rich(rows, seat, row, 33 + i) {
        from_right(rows, seat, row, child, i, chain);
    } else {
        merge_right(rows, seat, row, child, i, n, chain);
    }
}

/// A child of 15 items that has one in front of it, number b, gets more from a neighbour, or becomes one with a neighbour. The answer is the child and its
/// number.
fn mend_left(
    rows: &Rows,
    seat: &mut RowSeat,
    row: u32,
    child: u32,
    b: u32,
    n: u32,
    chain: &mut Chain,
) -> (u32, u32)
    requires table { seat.old.table ≡ rows.now }
    requires low { (b < n) × (n ≤ 31) }
    requires poor { IsPoor seat.old.view row child (b + 1) n }
    requires room { HasRoom 1 seat.old.view chain.old }
    ensures table { seat.new.table ≡ seat.old.table }
    ensures roomy { Mends seat.old.view seat.new.view row child (b + 1) n result.0 result.1 }
    ensures spends { SpendsAll 1 (row ∷ child ∷ []) (row ∷ result.0 ∷ []) seat.old.view seat.new.view chain.old chain.new }
{
    if is_rich(rows, seat, row, 32 + b) {
        from_left(rows, seat, row, child, b, chain);
        return (child, b + 1);
    }
    if b + 1 == n {
        return (merge_left(rows, seat, row, child, b, n, chain), b);
    }
    mend_right(rows, seat, row, child, b + 1, n, chain);
    (child, b + 1)
}

/// The child number i of n + 1 children has 15 items and gets more. The answer is the child and its number.
fn mend(
    rows: &Rows,
    seat: &mut RowSeat,
    row: u32,
    child: u32,
    i: u32,
    n: u32,
    chain: &mut Chain,
) -> (u32, u32)
    requires table { seat.old.table ≡ rows.now }
    requires low { (1 ≤ n) × (i ≤ n) × (n ≤ 31) }
    requires poor { IsPoor seat.old.view row child i n }
    requires room { HasRoom 1 seat.old.view chain.old }
    ensures table { seat.new.table ≡ seat.old.table }
    ensures roomy { Mends seat.old.view seat.new.view row child i n result.0 result.1 }
    ensures spends { SpendsAll 1 (row ∷ child ∷ []) (row ∷ result.0 ∷ []) seat.old.view seat.new.view chain.old chain.new }
{
    if i == 0 {
        mend_right(rows, seat, row, child, i, n, chain);
        (child, i)
    } else {
        mend_left(rows, seat, row, child, i - 1, n, chain)
    }
}

/// The child that is out has more than 15 items afterwards. The answer is the child and its number.
pub(crate) fn roomy_below(
    rows: &Rows,
    seat: &mut RowSeat,
    row: u32,
    child: u32,
    i: u32,
    chain: &mut Chain,
) -> (u32, u32)
    requires table { seat.old.table ≡ rows.now }
    requires state { (h n : ℕ) × (xs ps ys qs rest : List Tree) × (h ≤ 1) × (1 ≤ n) × Open h seat.old.view row n child i xs ps ys qs rest }
    requires room { HasRoom 1 seat.old.view chain.old }
    ensures table { seat.new.table ≡ seat.old.table }
    ensures roomy { (h n : ℕ) (xs ps ys qs rest : List Tree) → h ≤ 1 → 1 ≤ n → Open h seat.old.view row n child i xs ps ys qs rest
        → Roomy h seat.new.view row (n - 1) result.0 result.1 xs ps ys qs rest }
    ensures spends { SpendsAll 1 (row ∷ child ∷ []) (row ∷ result.0 ∷ []) seat.old.view seat.new.view chain.old chain.new }
{
    if count_of(rows, seat, child) > LEAST {
        return (child, i);
    }
    let n = count_of(rows, seat, row) as u32;
    mend(rows, seat, row, child, i, n, chain)
}
