// The numbers of the requests whose held latches some latches meet.
ghost use Rattle.std.specs.Prelude.{◌≡◌, ◌++◌, map, IfOk, OnOk};
ghost use Rattle.latch_model.specs.Histories.{Snapshot, ascending, met_by, met_in};
ghost use Rattle.latch_shots.specs.Shots.{AreShots, content_of, table_of};
ghost use Rattle.shot_walks.specs.Orders.{IsOrder};

use latch_model::latch::Latch;
use latch_shots::{Shots, Walk};
use row_pool::Rows;
use span_key::Memory;
use std::alloc::Global;

/// The numbers, ascending and each once, whether these requests have ended or not. Only want of memory is refused.
pub fn numbers_met(
    alloc: Global,
    rows: &Rows,
    shots: &mut Shots,
    latches: &[Latch],
    order: &[u8],
) -> Result<Vec<u64>, Memory>
    requires table { table_of shots.old ≡ rows.now }
    requires shown { (s : Snapshot) × AreShots shots.old s }
    requires order { IsOrder order.now latches.now }
    ensures same { content_of shots.new ≡ content_of shots.old }
    ensures numbers { (s : Snapshot) → AreShots shots.old s
        → IfOk result (λ ids. ids.items ≡ ascending (map (λ x. x.by) (met_in s latches.now))) }
{
    let mut ids = Vec::new(alloc);
    add_met(&mut ids, rows, shots, latches, order)?;
    sort_once(&mut ids);
    Ok(ids)
}

// Brings numbers into ascending order, each once.
fn sort_once(ids: &mut Vec<u64>)
    ensures { ids.new.items ≡ ascending ids.old.items }
{
    ids.sort_unstable();
    ids.dedup();
}

// Adds the number of each held latch that these latches meet, in the order in which they do.
fn add_met(
    ids: &mut Vec<u64>,
    rows: &Rows,
    shots: &mut Shots,
    latches: &[Latch],
    order: &[u8],
) -> Result<(), Memory>
    requires table { table_of shots.old ≡ rows.now }
    requires shown { (s : Snapshot) × AreShots shots.old s }
    requires order { IsOrder order.now latches.now }
    ensures same { content_of shots.new ≡ content_of shots.old }
    ensures added { (s : Snapshot) → AreShots shots.old s
        → OnOk result (ids.new.items ≡ ids.old.items ++ map (λ x. x.by) (met_in s latches.now)) }
{
    for k in 0..order.len() {
        add_for(ids, rows, shots, &latches[order[k] as usize])?;
    }
    Ok(())
}

// The same of one latch.
fn add_for(ids: &mut Vec<u64>, rows: &Rows, shots: &mut Shots, asked: &Latch) -> Result<(), Memory>
    requires table { table_of shots.old ≡ rows.now }
    requires shown { (s : Snapshot) × AreShots shots.old s }
    ensures same { content_of shots.new ≡ content_of shots.old }
    ensures added { (s : Snapshot) → AreShots shots.old s
        → OnOk result (ids.new.items ≡ ids.old.items ++ map (λ x. x.by) (met_by s asked.now)) }
{
    let mut walk = Walk::first(rows, shots, asked);
    while let Some(met) = walk.next(rows, shots, asked) {
        ids.push(met.by)?;
    }
    Ok(())
}
