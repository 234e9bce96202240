// Walks through trees are tested in a crate above, which has trees. Here are shots without roots.
ghost use Rattle.std.specs.Prelude.{◌≡◌, ℕ, ◌≤◌, List, [], ◌∷◌, length, IfOk};
ghost use Rattle.latch_model.specs.Histories.{Snapshot};
ghost use Rattle.row_pool.specs.TestSeats.{Holding};
ghost use Rattle.latch_shots.specs.Shots.{AreShots, content_of, number_of, table_of};
ghost use Rattle.latch_shots.specs.TestShots.{nothing};

use crate::{Returned, Shots, Walk};
use hlc_stamp::Stamp;
use latch_item::Shot;
use latch_model::latch::{Access, Latch};
use row_pool::{Chain, Memory, RowSeat, Rows};
use span_key::{Key, Span};
use std::alloc::Global;
use std::test::Fail;

/// A pool of one row, and its first seat.
fn new_pool(alloc: Global) -> Result<(Rows, RowSeat, Chain), Memory>
    ensures stand { IfOk result (λ r. (rs : List ℕ) × Holding r.0 r.1 r.2 [] rs) }
    ensures first { IfOk result (λ r. (r.1.view.number ≡ 1) × (r.1.view.out ≡ [])) }
{
    let (rows, seat, chain) = Rows::new(alloc, 1)?;
    Ok((rows, seat, chain))
}

/// Shots without roots, with a seat of their own.
fn capture_nothing(rows: &Rows, seat: &mut RowSeat, chain: &Chain) -> Shots
    requires stand { (rs : List ℕ) × Holding rows.now seat.old chain.now [] rs }
    requires first { (seat.old.view.number ≡ 1) × (seat.old.view.out ≡ []) }
    ensures stand { (rs : List ℕ) × Holding rows.now seat.new chain.now [] rs }
    ensures numbers { (seat.new.view.number ≡ 1) × (number_of result ≡ 2) × ((cap : ℕ) × (seat.new.view.out ≡ (2, cap) ∷ [])) }
    ensures shots { (table_of result ≡ rows.now) × AreShots result nothing }
{
    let _ = chain;
    let none = Shot {
        root: None,
        height: 0,
    };
    let own = rows.split(seat, &[]);
    Shots::new(own, 1, none, none, none, none)
}

/// Whether a latch meets something, by a walk that is asked twice and by the search for the first.
fn meets(rows: &Rows, shots: &mut Shots, asked: &Latch) -> bool
    requires table { table_of shots.old ≡ rows.now }
    requires shots { (s : Snapshot) × AreShots shots.old s }
    ensures { content_of shots.new ≡ content_of shots.old }
{
    let mut walk = Walk::first(rows, shots, asked);
    let next = walk.next(rows, shots, asked).is_some();
    let again = walk.next(rows, shots, asked).is_some();
    next || again || shots.first_met(rows, asked).is_some()
}

/// The shots are closed, and what they had comes back.
fn give_back(rows: &Rows, seat: &mut RowSeat, chain: &mut Chain, shots: Shots)
    requires stand { (rs : List ℕ) × Holding rows.now seat.old chain.old [] rs }
    requires numbers { (seat.old.view.number ≡ 1) × (number_of shots ≡ 2) × ((cap : ℕ) × (seat.old.view.out ≡ (2, cap) ∷ [])) }
    requires shots { (table_of shots ≡ rows.now) × ((s : Snapshot) × AreShots shots s) }
    ensures stand { (rs : List ℕ) × Holding rows.now seat.new chain.new [] rs }
    ensures first { (seat.new.view.number ≡ 1) × (seat.new.view.out ≡ []) }
{
    let Returned {
        seat: own,
        rows: free,
    } = shots.close(rows);
    rows.join(seat, own);
    chain.give(rows, seat, free);
}

fn close_all(rows: Rows, seat: RowSeat, chain: Chain)
    requires stand { (rs : List ℕ) × Holding rows seat chain [] rs }
    requires first { (seat.view.number ≡ 1) × (seat.view.out ≡ []) }
{
    chain.whole(&seat);
    rows.close(seat, chain);
}

#[test]
fn nothing_is_met_without_roots(rt: HostRuntime) -> Result<(), Fail> {
    let asked = Latch {
        access: Access::Write,
        span: Span::point(Key::new(rt.alloc(), b"a")?),
        stamp: Stamp::EMPTY,
    };
    let (rows, mut seat, mut chain) = new_pool(rt.alloc())?;
    let mut shots = capture_nothing(&rows, &mut seat, &chain);
    let met = meets(&rows, &mut shots, &asked);
    give_back(&rows, &mut seat, &mut chain, shots);
    close_all(rows, seat, chain);
    assert!(rt; !met);
    Ok(())
}
