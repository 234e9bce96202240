// Worked rows.
ghost use Rattle.std.specs.Prelude.{◌≡◌, ◌≢◌, ◌-◌, ℕ, suc, ◌≤◌, List, [], ◌∷◌, ◌++◌, length, true, false, IfOk};
ghost use mathlib.Core.Option.{some};
ghost use Rattle.row_pool.specs.Lists.{find, mem};
ghost use Rattle.row_pool.specs.Trees.{Entry};
ghost use Rattle.row_pool.specs.SeatState.{SameSeat};
ghost use Rattle.row_pool.specs.Chains.{IsChain};
ghost use Rattle.read_list.specs.Lists.{IsReadList};
ghost use Rattle.read_list.specs.TestLists.{Stock, IsBareItem};

use crate::ReadList;
use row_pool::{Chain, Memory, RowSeat, Rows};
use std::alloc::Global;
use std::test::Fail;

fn new_pool(alloc: Global, n: u32) -> Result<(Rows, RowSeat, Chain), Memory>
    requires { (1 ≤ n) × (n ≤ 4194304) }
    ensures stock { IfOk result (λ r. (rs : List ℕ) × Stock r.0 r.1 r.2 rs [] × (length rs ≡ n)) }
    ensures first { IfOk result (λ r. (r.1.view.number ≡ 1) × (r.1.view.out ≡ [])) }
{
    let (rows, seat, chain) = Rows::new(alloc, n)?;
    Ok((rows, seat, chain))
}

/// A row of the chain becomes an item.
fn make_item(rows: &Rows, seat: &mut RowSeat, chain: &mut Chain) -> u32
    requires stock { (rs items : List ℕ) × Stock rows.now seat.old chain.old rs items × (1 ≤ length rs) }
    ensures stock { (rs items : List ℕ) → Stock rows.now seat.old chain.old rs items
        → (us : List ℕ) × (length rs ≡ suc (length us)) × Stock rows.now seat.new chain.new us (result ∷ items) }
    ensures others { (q : ℕ) → q ≢ result → find q seat.new.view.owned ≡ find q seat.old.view.owned }
    ensures fresh { (rs items : List ℕ) → Stock rows.now seat.old chain.old rs items → mem result items ≡ false }
    ensures same_seat { SameSeat seat.old.view seat.new.view }
{
    let row = chain.pop(rows, seat);
    rows.write(seat, row, 1, 1);
    row
}

/// A new item comes last in the list.
fn push_new(rows: &Rows, seat: &mut RowSeat, chain: &mut Chain, list: &mut ReadList) -> u32
    requires stock { (rs items : List ℕ) × Stock rows.now seat.old chain.old rs items × IsReadList seat.old.view list.old items × (1 ≤ length rs) }
    ensures stock { (rs items : List ℕ) → Stock rows.now seat.old chain.old rs items → IsReadList seat.old.view list.old items
        → (us : List ℕ) × (length rs ≡ suc (length us)) × Stock rows.now seat.new chain.new us (items ++ result ∷ [])
        × IsReadList seat.new.view list.new (items ++ result ∷ []) }
    ensures same_seat { SameSeat seat.old.view seat.new.view }
{
    let row = make_item(rows, seat, chain);
    list.push_back(rows, seat, row);
    row
}

/// An item goes back into the chain.
fn drop_item(rows: &Rows, seat: &mut RowSeat, chain: &mut Chain, row: u32)
    requires stock { (rs items : List ℕ) × Stock rows.now seat.old chain.old rs items × (mem row items ≡ true) }
    ensures stock { (rs items left : List ℕ) → Stock rows.now seat.old chain.old rs items → mem row items ≡ true
        → ((q : ℕ) → mem q items ≡ true → q ≢ row → mem q left ≡ true) → ((q : ℕ) → mem q left ≡ true → (mem q items ≡ true) × (q ≢ row))
        → (us : List ℕ) × Stock rows.now seat.new chain.new us left × ((q : ℕ) → mem q left ≡ true → find q seat.new.view.owned ≡ find q seat.old.view.owned) }
    ensures same_seat { SameSeat seat.old.view seat.new.view }
{
    rows.publish(seat, row);
    rows.drop_ref(seat, row, chain);
}

/// The first item of the list leaves it, and goes back into the chain.
fn pop_and_drop(
    rows: &Rows,
    seat: &mut RowSeat,
    chain: &mut Chain,
    list: &mut ReadList,
) -> Option<u32>
    requires stock { (rs items : List ℕ) × Stock rows.now seat.old chain.old rs items × IsReadList seat.old.view list.old items }
    ensures stock { (rs items : List ℕ) → Stock rows.now seat.old chain.old rs items → IsReadList seat.old.view list.old items
        → (us left : List ℕ) × (length left ≡ length items - 1) × Stock rows.now seat.new chain.new us left × IsReadList seat.new.view list.new left }
    ensures same_seat { SameSeat seat.old.view seat.new.view }
{
    match list.pop_front(rows, seat) {
        None => None,
        Some(row) => {
            drop_item(rows, seat, chain, row);
            Some(row)
        }
    }
}

/// An item leaves the list, and goes back into the chain.
fn unlink_and_drop(
    rows: &Rows,
    seat: &mut RowSeat,
    chain: &mut Chain,
    list: &mut ReadList,
    row: u32,
)
    requires stock { (rs ps qs : List ℕ) × Stock rows.now seat.old chain.old rs (ps ++ row ∷ qs) × IsReadList seat.old.view list.old (ps ++ row ∷ qs) }
    ensures stock { (rs ps qs : List ℕ) → Stock rows.now seat.old chain.old rs (ps ++ row ∷ qs) → IsReadList seat.old.view list.old (ps ++ row ∷ qs)
        → (us : List ℕ) × Stock rows.now seat.new chain.new us (ps ++ qs) × IsReadList seat.new.view list.new (ps ++ qs) }
    ensures same_seat { SameSeat seat.old.view seat.new.view }
{
    list.unlink(rows, seat, row);
    drop_item(rows, seat, chain, row);
}

fn close_all(rows: Rows, seat: RowSeat, chain: Chain)
    requires stock { (rs : List ℕ) × Stock rows seat chain rs [] }
    requires first { (seat.view.number ≡ 1) × (seat.view.out ≡ []) }
{
    chain.whole(&seat);
    rows.close(seat, chain);
}

/// Three items are pushed, and the middle one leaves the list. The answers are the three, and the length that is left.
fn push_three(
    rows: &Rows,
    seat: &mut RowSeat,
    chain: &mut Chain,
    list: &mut ReadList,
) -> (u32, u32, u32)
    requires stock { (rs : List ℕ) × Stock rows.now seat.old chain.old rs [] × IsReadList seat.old.view list.old [] × (3 ≤ length rs) }
    ensures stock { (us : List ℕ) × Stock rows.now seat.new chain.new us (result.0 ∷ result.1 ∷ result.2 ∷ [])
        × IsReadList seat.new.view list.new (result.0 ∷ result.1 ∷ result.2 ∷ []) }
    ensures same_seat { SameSeat seat.old.view seat.new.view }
{
    let a = push_new(rows, seat, chain, list);
    let b = push_new(rows, seat, chain, list);
    let c = push_new(rows, seat, chain, list);
    (a, b, c)
}

/// Two items are popped, and then nothing is left to pop.
fn pop_three(
    rows: &Rows,
    seat: &mut RowSeat,
    chain: &mut Chain,
    list: &mut ReadList,
    a: u32,
    c: u32,
) -> (Option<u32>, u32, Option<u32>, Option<u32>)
    requires stock { (rs : List ℕ) × Stock rows.now seat.old chain.old rs (a ∷ c ∷ []) × IsReadList seat.old.view list.old (a ∷ c ∷ []) }
    ensures stock { (us : List ℕ) × Stock rows.now seat.new chain.new us [] }
    ensures same_seat { SameSeat seat.old.view seat.new.view }
{
    let first = pop_and_drop(rows, seat, chain, list);
    let left = list.len();
    let second = pop_and_drop(rows, seat, chain, list);
    let third = pop_and_drop(rows, seat, chain, list);
    (first, left, second, third)
}

#[test]
fn a_list_of_three(rt: HostRuntime) -> Result<(), Fail> {
    let (rows, mut seat, mut chain) = new_pool(rt.alloc(), 3)?;
    let mut list = ReadList::new();
    let (a, b, c) = push_three(&rows, &mut seat, &mut chain, &mut list);
    let before = list.len();
    unlink_and_drop(&rows, &mut seat, &mut chain, &mut list, b);
    let (first, left, second, third) = pop_three(&rows, &mut seat, &mut chain, &mut list, a, c);
    let all = chain.len();
    close_all(rows, seat, chain);
    assert_eq!(rt; before, 3);
    assert_eq!(rt; first, Some(a));
    assert_eq!(rt; left, 1);
    assert_eq!(rt; second, Some(c));
    assert_eq!(rt; third, None);
    assert_eq!(rt; all, 3);
    Ok(())
}
