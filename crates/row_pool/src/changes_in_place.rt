// A leaf and the item under it are changed in place, where nothing else refers to them.
ghost use Rattle.std.specs.Prelude.{◌≡◌, ◌≢◌, ℕ, suc, slice_index, ◌≤◌, List, ◌∷◌, [], length, IsTrue};
ghost use mathlib.Core.Option.{some};
ghost use Rattle.row_pool.specs.Lists.{find};
ghost use Rattle.row_pool.specs.Trees.{Tree, Entry, Link, tree_word, words_of};
ghost use Rattle.row_pool.specs.Changes.{with_link};
ghost use Rattle.row_pool.specs.SeatState.{SameSeat, OnlyViewChanges, OnlyEntryChanges, LinksToLive, kind_of};
ghost use Rattle.row_pool.specs.TestSeats.{Holding, IsLeafOver};

use crate::tests::{close_all, drop_one, hold_again, make_item, make_leaf, new_pool};
use crate::{Chain, RowSeat, Rows};
use std::test::Fail;

/// Owns the item under the first link of an owned leaf, writes a word of it and lets it go live again, where its count is 1.
fn change_linked(rows: &Rows, seat: &mut RowSeat, leaf: u32, item: u32, value: u64) -> bool
    requires table { seat.old.table ≡ rows.now }
    requires link { (d : Entry) × (u : Tree) × LinksToLive seat.old.view item leaf 0 d u × (kind_of u ≡ 1) }
    ensures same { OnlyViewChanges seat.old seat.new }
    ensures only { OnlyEntryChanges leaf seat.old.view seat.new.view }
    ensures link { (d : Entry) (u : Tree) → LinksToLive seat.old.view item leaf 0 d u → kind_of u ≡ 1
        → (w : Tree) × (find leaf seat.new.view.owned ≡ some (with_link 0 (Link.to w) d)) × (tree_word w ≡ suc item) × (kind_of w ≡ 1)
        × (IsTrue result → slice_index (words_of w) 5 ≡ value) }
{
    seat.known();
    if !rows.own_if_single(seat, item) {
        return false;
    }
    rows.write(seat, item, 5, value);
    rows.publish(seat, item);
    true
}

/// Writes a word of the item under a leaf in place, where nothing else refers to the leaf or the item. The answer is whether it did.
fn change_below(
    rows: &Rows,
    seat: &mut RowSeat,
    leaf: u32,
    item: u32,
    chain: &Chain,
    value: u64,
) -> bool
    requires stand { (x : Tree) × (w : Tree) × (ts : List Tree) × (rs : List ℕ) × Holding rows.now seat.old chain.now (x ∷ ts) rs × IsLeafOver leaf item x w }
    ensures stand { (x w : Tree) (ts : List Tree) (rs : List ℕ) → Holding rows.now seat.old chain.now (x ∷ ts) rs → IsLeafOver leaf item x w
        → (y : Tree) × (z : Tree) × Holding rows.now seat.new chain.now (y ∷ ts) rs × IsLeafOver leaf item y z
        × (IsTrue result → slice_index (words_of z) 5 ≡ value) }
    ensures same_seat { SameSeat seat.old.view seat.new.view }
{
    let _ = &chain.len;
    seat.known();
    if !rows.own_if_single(seat, leaf) {
        return false;
    }
    let changed = change_linked(rows, seat, leaf, item, value);
    seat.known();
    rows.publish(seat, leaf);
    changed
}

/// Gives up the second reference, which is to a row of another kind than the first.
fn drop_second(rows: &Rows, seat: &mut RowSeat, row: u32, chain: &mut Chain)
    requires stand { (x : Tree) × (t : Tree) × (ts : List Tree) × (rs : List ℕ) × Holding rows.now seat.old chain.old (x ∷ t ∷ ts) rs
        × (tree_word t ≡ suc row) × (kind_of x ≢ kind_of t) }
    ensures stand { (x t : Tree) (ts : List Tree) (rs : List ℕ) → Holding rows.now seat.old chain.old (x ∷ t ∷ ts) rs → tree_word t ≡ suc row
        → kind_of x ≢ kind_of t → (us : List ℕ) × Holding rows.now seat.new chain.new (x ∷ ts) us }
    ensures same_seat { SameSeat seat.old.view seat.new.view }
{
    seat.known();
    rows.drop_ref(seat, row, chain);
}

/// The word of the item under a leaf that `change_below` writes.
fn word_below(rows: &Rows, seat: &mut RowSeat, item: u32, chain: &Chain) -> u64
    requires stand { (leaf : ℕ) × (x : Tree) × (w : Tree) × (ts : List Tree) × (rs : List ℕ) × Holding rows.now seat.old chain.now (x ∷ ts) rs
        × IsLeafOver leaf item x w }
    ensures same { seat.new ≡ seat.old }
    ensures word { (leaf : ℕ) (x w : Tree) (ts : List Tree) (rs : List ℕ) → Holding rows.now seat.old chain.now (x ∷ ts) rs → IsLeafOver leaf item x w
        → result ≡ slice_index (words_of w) 5 }
{
    let _ = &chain.len;
    rows.read(seat, item, 5)
}

/// A leaf over an item that the seat has a reference of its own to, which it then gives up. The answer is their rows, and whether the item could be changed
/// in place before.
fn shared_below(rows: &Rows, seat: &mut RowSeat, chain: &mut Chain) -> (u32, u32, bool)
    requires stand { (rs : List ℕ) × Holding rows.now seat.old chain.old [] rs × (2 ≤ length rs) }
    ensures stand { (x : Tree) × (w : Tree) × (us : List ℕ) × Holding rows.now seat.new chain.new (x ∷ []) us × IsLeafOver result.0 result.1 x w }
    ensures same_seat { SameSeat seat.old.view seat.new.view }
{
    let item = make_item(rows, seat, chain);
    hold_again(rows, seat, item, chain);
    let leaf = make_leaf(rows, seat, chain, item);
    let changed = change_below(rows, seat, leaf, item, chain, 7);
    drop_second(rows, seat, item, chain);
    (leaf, item, changed)
}

/// The item under the leaf is changed in place and read, and the leaf is given up.
fn alone_below(
    rows: &Rows,
    seat: &mut RowSeat,
    chain: &mut Chain,
    leaf: u32,
    item: u32,
) -> (bool, u64)
    requires stand { (x : Tree) × (w : Tree) × (rs : List ℕ) × Holding rows.now seat.old chain.old (x ∷ []) rs × IsLeafOver leaf item x w }
    ensures stand { (us : List ℕ) × Holding rows.now seat.new chain.new [] us }
    ensures same_seat { SameSeat seat.old.view seat.new.view }
    ensures word { IsTrue result.0 → result.1 ≡ 9 }
{
    let changed = change_below(rows, seat, leaf, item, chain, 9);
    let word = word_below(rows, seat, item, chain);
    drop_one(rows, seat, leaf, chain);
    (changed, word)
}

#[test]
fn an_item_is_changed_below_its_leaf(rt: HostRuntime) -> Result<(), Fail> {
    let (rows, mut seat, mut chain) = new_pool(rt.alloc(), 3)?;
    let (leaf, item, shared) = shared_below(&rows, &mut seat, &mut chain);
    let free = chain.len();
    let (alone, word) = alone_below(&rows, &mut seat, &mut chain, leaf, item);
    let all = chain.len();
    close_all(rows, seat, chain);
    assert!(rt; !shared);
    assert_eq!(rt; free, 1);
    assert!(rt; alone);
    assert_eq!(rt; word, 9);
    assert_eq!(rt; all, 3);
    Ok(())
}
