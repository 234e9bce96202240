// Three requests from their begins to their ends, by all public calls.
ghost use Rattle.std.specs.Prelude.{◌≡◌, ℕ, ◌≤◌, [], length};
ghost use Rattle.latch_model.specs.Histories.{Snapshot};
ghost use Rattle.latch_shots.specs.Shots.{AreShots, table_of as shots_table};
ghost use Rattle.history_latches.specs.Example.{all_ended, three_begun, three_sizes};
ghost use Rattle.history_latches.specs.Logs.{HoldsLog, free_of, table_of};

use crate::HistoryLatches;
use held_latches::Counted;
use hlc_stamp::Stamp;
use latch_model::history::Sizes;
use latch_model::latch::{Access, Latch, Mode};
use latch_shots::Shots;
use row_pool::{Memory, Rows};
use span_key::{Key, Scope, Span};
use std::alloc::Global;
use std::test::Fail;

/// The sizes of all tests.
const SIZES: Sizes = Sizes {
    latches: 2,
    lanes: 3,
    rows: 208,
};

/// The shots of the three requests.
struct Three {
    first: Shots,
    second: Shots,
    look: Shots,
}

/// What was free at first, what the three met and what was counted while all were open, and what was left at the end.
#[derive(Clone, Copy, Debug, PartialEq, Eq)]
struct Seen {
    free_before: u32,
    first_met: bool,
    second_met: bool,
    look_met: bool,
    total: u32,
    counted: Counted,
    free: u32,
    total_after: u32,
    free_after: u32,
}

/// The first request acquires its latch, the second is optimistic, and the third looks.
fn begin_three(
    latches: &mut HistoryLatches,
    rows: &Rows,
    first: &[Latch],
    second: &[Latch],
    look: &[Latch],
) -> Three
    requires table { table_of latches.old ≡ rows.now }
    requires holds { HoldsLog latches.old [] three_sizes }
    requires room { 26 ≤ free_of latches.old }
    requires one { (length first.now ≡ 1) × (length second.now ≡ 1) × (length look.now ≡ 1) }
    ensures table { table_of latches.new ≡ table_of latches.old }
    ensures holds { HoldsLog latches.new (three_begun first.now second.now look.now) three_sizes }
    ensures first { (shots_table result.first ≡ rows.now) × (s : Snapshot) × AreShots result.first s }
    ensures second { (shots_table result.second ≡ rows.now) × (s : Snapshot) × AreShots result.second s }
    ensures look { (shots_table result.look ≡ rows.now) × (s : Snapshot) × AreShots result.look s }
{
    Three {
        first: latches.begin(rows, 1, 0, first, Mode::Acquire),
        second: latches.begin(rows, 2, 1, second, Mode::Optimistic),
        look: latches.begin(rows, 3, 2, look, Mode::Look),
    }
}

/// The first request ends, then the look, and then the second.
fn end_three(
    latches: &mut HistoryLatches,
    rows: &Rows,
    three: Three,
    first: &[Latch],
    second: &[Latch],
    look: &[Latch],
)
    requires table { table_of latches.old ≡ rows.now }
    requires holds { HoldsLog latches.old (three_begun first.now second.now look.now) three_sizes }
    requires one { (length first.now ≡ 1) × (length second.now ≡ 1) × (length look.now ≡ 1) }
    requires first { (shots_table three.first ≡ rows.now) × (s : Snapshot) × AreShots three.first s }
    requires second { (shots_table three.second ≡ rows.now) × (s : Snapshot) × AreShots three.second s }
    requires look { (shots_table three.look ≡ rows.now) × (s : Snapshot) × AreShots three.look s }
    ensures table { table_of latches.new ≡ table_of latches.old }
    ensures holds { HoldsLog latches.new (all_ended first.now second.now look.now) three_sizes }
{
    let Three {
        first: first_shots,
        second: second_shots,
        look: look_shots,
    } = three;
    latches.end(rows, 1, 0, first, Mode::Acquire, first_shots.close(rows));
    latches.end(rows, 3, 2, look, Mode::Look, look_shots.close(rows));
    latches.end(
        rows,
        2,
        1,
        second,
        Mode::Optimistic,
        second_shots.close(rows),
    );
}

/// What is seen of three requests with one latch each, where all are of a scope.
fn run(
    alloc: Global,
    scope: Scope,
    first: &[Latch],
    second: &[Latch],
    look: &[Latch],
) -> Result<Seen, Memory>
    requires { (length first.now ≡ 1) × (length second.now ≡ 1) × (length look.now ≡ 1) }
{
    let (rows, mut latches) = HistoryLatches::new(alloc, &SIZES)?;
    let free_before = latches.free();
    let mut three = begin_three(&mut latches, &rows, first, second, look);
    let first_met = three.first.first_met(&rows, &first[0]).is_some();
    let second_met = three.second.first_met(&rows, &second[0]).is_some();
    let look_met = three.look.first_met(&rows, &look[0]).is_some();
    let total = latches.total();
    let counted = latches.counts(scope);
    let free = latches.free();
    end_three(&mut latches, &rows, three, first, second, look);
    let total_after = latches.total();
    let free_after = latches.free();
    latches.close(rows);
    Ok(Seen {
        free_before,
        first_met,
        second_met,
        look_met,
        total,
        counted,
        free,
        total_after,
        free_after,
    })
}

/// A latch of one key.
fn latch(alloc: Global, access: Access, key: &[u8]) -> Result<Latch, Fail> {
    Ok(Latch {
        access,
        span: Span::point(Key::new(alloc, key)?),
        stamp: Stamp::EMPTY,
    })
}

#[test]
fn a_read_behind_a_write_is_pending(rt: HostRuntime) -> Result<(), Fail> {
    let write = [latch(rt.alloc(), Access::Write, b"a")?];
    let read = [latch(rt.alloc(), Access::Read, b"a")?];
    let seen = run(rt.alloc(), Scope::Global, &write, &read, &read)?;
    assert!(rt; !seen.first_met && seen.second_met && seen.look_met);
    assert!(rt; seen.free_before == 208 && seen.total == 2);
    assert!(rt;
        seen.counted
            == Counted {
                read: 1,
                pending: 1,
                write: 1
            }
    );
    // the write has its row, one of the tree and 5 set aside, the read its row and 12 set aside
    assert!(rt; seen.free == 208 - 7 - 13);
    assert!(rt; seen.total_after == 0 && seen.free_after == 208);
    Ok(())
}

#[test]
fn a_look_that_writes_captures_the_reads(rt: HostRuntime) -> Result<(), Fail> {
    let read = [latch(rt.alloc(), Access::Read, b"\x01a")?];
    let write = [latch(rt.alloc(), Access::Write, b"\x01a")?];
    let seen = run(rt.alloc(), Scope::Local, &read, &read, &write)?;
    assert!(rt; !seen.first_met && !seen.second_met && seen.look_met);
    assert!(rt; seen.free_before == 208 && seen.total == 2);
    assert!(rt;
        seen.counted
            == Counted {
                read: 2,
                pending: 0,
                write: 0
            }
    );
    // the reads have their rows, one of the tree, and 5 set aside for each
    assert!(rt; seen.free == 208 - 3 - 10);
    assert!(rt; seen.total_after == 0 && seen.free_after == 208);
    Ok(())
}
