// Eight threads on one pool: each holds, reads and drops references to one shared tree, and the first seat's makes and drops rows of its own beside them.
ghost use Rattle.std.specs.Prelude.{◌≡◌, ℕ, suc, All, slice_index_or, ◌<◌, ◌≤◌, ◌^◌, List, [], ◌∷◌, length};
ghost use Rattle.row_pool.specs.Trees.{Tree, tree_word};
ghost use Rattle.row_pool.specs.SeatState.{SeatState, SameSeat};
ghost use Rattle.row_pool.specs.TestSeats.{Holding, HoldsRow, HoldsNone};
ghost use Rattle.row_pool.specs.declared.chain.Chain.{Chain};

use crate::tests::{
    close_all, drop_one, make_item, make_leaf, new_pool, snapshot, take_back, work,
};
use crate::{Chain, RowSeat, Rows};
use std::test::Fail;
use std::thread;
use std::thread::Threads;

/// Each worker on a thread of its own.
fn eight_readers<R: Threads + Sync>(rt: &R, rows: &Rows, workers: &mut [(RowSeat, Chain)], row: u32)
    requires { All (λ w. HoldsRow rows.now row w) workers.old }
    ensures { (i : ℕ) (d : SeatState × Chain) → i < length workers.old
        → HoldsNone rows.now (slice_index_or workers.old i d) (slice_index_or workers.new i d) }
{
    thread::for_each_mut(
        rt,
        workers,
        8,
        &|_: usize, worker: &mut (RowSeat, Chain)| {
            work(rows, worker, row);
        },
    );
}

/// Two snapshots of the row, the newer one last.
fn two_snapshots(
    rows: &Rows,
    first_seat: &mut RowSeat,
    chain: &Chain,
    row: u32,
) -> ((RowSeat, Chain), (RowSeat, Chain))
    requires stand { (t : Tree) × (rs : List ℕ) × Holding rows.now first_seat.old chain.now (t ∷ []) rs × (tree_word t ≡ suc row) }
    requires first { (first_seat.old.view.number ≡ 1) × (length first_seat.old.view.out < 65535) }
    ensures stand { (t : Tree) × (rs : List ℕ) × Holding rows.now first_seat.new chain.now (t ∷ []) rs × (tree_word t ≡ suc row) }
    ensures shots { HoldsRow rows.now row result.0 × HoldsRow rows.now row result.1 }
    ensures first { first_seat.new.view.number ≡ 1 }
    ensures numbers { (2 ≤ result.0.0.view.number) × (2 ≤ result.1.0.view.number) }
    ensures out { (a : ℕ) × (b : ℕ)
        × (first_seat.new.view.out ≡ (result.1.0.view.number, b) ∷ (result.0.0.view.number, a) ∷ first_seat.old.view.out) }
{
    let one = snapshot(rows, first_seat, chain, row);
    let two = snapshot(rows, first_seat, chain, row);
    (one, two)
}

/// The two newest of the seats that are split off come back, the newer one first.
fn take_two_back(
    rows: &Rows,
    first_seat: &mut RowSeat,
    chain: &mut Chain,
    one: (RowSeat, Chain),
    two: (RowSeat, Chain),
)
    requires stand { (us : List ℕ) × Holding rows.now first_seat.old chain.old [] us }
    requires one { (us : List ℕ) × Holding rows.now one.0 one.1 [] us }
    requires two { (us : List ℕ) × Holding rows.now two.0 two.1 [] us }
    requires numbers { (first_seat.old.view.number ≡ 1) × (2 ≤ one.0.view.number) × (2 ≤ two.0.view.number) }
    ensures stand { (us : List ℕ) × Holding rows.now first_seat.new chain.new [] us }
    ensures first { first_seat.new.view.number ≡ 1 }
    ensures out { (a b : ℕ) (rest : List (ℕ × ℕ)) → first_seat.old.view.out ≡ (two.0.view.number, b) ∷ (one.0.view.number, a) ∷ rest
        → first_seat.new.view.out ≡ rest }
{
    let (one, its) = one;
    let (two, hers) = two;
    take_back(rows, first_seat, chain, two, hers);
    take_back(rows, first_seat, chain, one, its);
}

/// Eight workers beside each other.
fn eight_meet<R: Threads + Sync>(
    rt: &R,
    rows: &Rows,
    workers: [(RowSeat, Chain); 8],
    row: u32,
) -> [(RowSeat, Chain); 8]
    requires { All (λ w. HoldsRow rows.now row w) workers }
    ensures { (i : ℕ) (d : SeatState × Chain) → i < 8 → HoldsNone rows.now (slice_index_or workers i d) (slice_index_or result i d) }
{
    let mut workers = workers;
    eight_readers(rt, rows, &mut workers, row);
    workers
}

/// The first seat takes the seven others in, the newest first.
fn take_all_back(rows: &Rows, workers: [(RowSeat, Chain); 8]) -> (RowSeat, Chain)
    requires many { length workers ≡ 8 }
    requires none { (i : ℕ) (d : SeatState × Chain) → i < 8 → (us : List ℕ)
        × Holding rows.now (slice_index_or workers i d).0 (slice_index_or workers i d).1 [] us }
    requires numbers { (d : SeatState × Chain) → ((slice_index_or workers 0 d).0.view.number ≡ 1)
        × ((i : ℕ) → 1 ≤ i → i < 8 → 2 ≤ (slice_index_or workers i d).0.view.number) }
    requires out { (d : SeatState × Chain) → (caps : ℕ → ℕ) × ((slice_index_or workers 0 d).0.view.out
        ≡ ((slice_index_or workers 7 d).0.view.number, caps 7) ∷ ((slice_index_or workers 6 d).0.view.number, caps 6)
        ∷ ((slice_index_or workers 5 d).0.view.number, caps 5) ∷ ((slice_index_or workers 4 d).0.view.number, caps 4)
        ∷ ((slice_index_or workers 3 d).0.view.number, caps 3) ∷ ((slice_index_or workers 2 d).0.view.number, caps 2)
        ∷ ((slice_index_or workers 1 d).0.view.number, caps 1) ∷ []) }
    ensures stand { (us : List ℕ) × Holding rows.now result.0 result.1 [] us }
    ensures first { (result.0.view.number ≡ 1) × (result.0.view.out ≡ []) }
{
    let [
        (mut first_seat, mut chain),
        (one, its),
        two,
        three,
        four,
        five,
        six,
        seven,
    ] = workers;
    take_two_back(rows, &mut first_seat, &mut chain, six, seven);
    take_two_back(rows, &mut first_seat, &mut chain, four, five);
    take_two_back(rows, &mut first_seat, &mut chain, two, three);
    take_back(rows, &mut first_seat, &mut chain, one, its);
    (first_seat, chain)
}

/// Seven snapshots of the row, and the first seat in front of them.
fn with_seven_snapshots(
    rows: &Rows,
    first_seat: RowSeat,
    chain: Chain,
    row: u32,
) -> [(RowSeat, Chain); 8]
    requires stand { (t : Tree) × (rs : List ℕ) × Holding rows.now first_seat chain (t ∷ []) rs × (tree_word t ≡ suc row) }
    requires first { (first_seat.view.number ≡ 1) × (first_seat.view.out ≡ []) }
    ensures hold { All (λ w. HoldsRow rows.now row w) result }
    ensures numbers { (d : SeatState × Chain) → ((slice_index_or result 0 d).0.view.number ≡ 1)
        × ((i : ℕ) → 1 ≤ i → i < 8 → 2 ≤ (slice_index_or result i d).0.view.number) }
    ensures out { (d : SeatState × Chain) → (caps : ℕ → ℕ) × ((slice_index_or result 0 d).0.view.out
        ≡ ((slice_index_or result 7 d).0.view.number, caps 7) ∷ ((slice_index_or result 6 d).0.view.number, caps 6)
        ∷ ((slice_index_or result 5 d).0.view.number, caps 5) ∷ ((slice_index_or result 4 d).0.view.number, caps 4)
        ∷ ((slice_index_or result 3 d).0.view.number, caps 3) ∷ ((slice_index_or result 2 d).0.view.number, caps 2)
        ∷ ((slice_index_or result 1 d).0.view.number, caps 1) ∷ []) }
{
    let mut first_seat = first_seat;
    let one = snapshot(rows, &mut first_seat, &chain, row);
    let (two, three) = two_snapshots(rows, &mut first_seat, &chain, row);
    let (four, five) = two_snapshots(rows, &mut first_seat, &chain, row);
    let (six, seven) = two_snapshots(rows, &mut first_seat, &chain, row);
    [(first_seat, chain), one, two, three, four, five, six, seven]
}

#[test]
fn eight_threads_meet(rt: HostRuntime) -> Result<(), Fail> {
    let (rows, mut first_seat, mut chain) = new_pool(rt.alloc(), 5)?;
    let item = make_item(&rows, &mut first_seat, &mut chain);
    let row = make_leaf(&rows, &mut first_seat, &mut chain, item);
    let workers = with_seven_snapshots(&rows, first_seat, chain, row);
    let workers = eight_meet(&rt, &rows, workers, row);
    let (first_seat, chain) = take_all_back(&rows, workers);
    let all = chain.len();
    close_all(rows, first_seat, chain);
    assert_eq!(rt; all, 5);
    Ok(())
}
