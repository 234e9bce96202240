// A request from its begin to its end, by all public calls.
ghost use Rattle.std.specs.Prelude.{◌≡◌, ◌≤◌, ℕ, List, length, IfOk};
ghost use Rattle.span_key.specs.declared.scopes.Scope.TheVariants as scopes;
ghost use Rattle.latch_model.specs.Histories.{Snapshot};
ghost use Rattle.latch_shots.specs.Shots.{AreShots, table_of as shots_table};
ghost use Rattle.held_latches.specs.Holding.{HasSpare, SameSizes, slots_of, size_of, table_of, writer_of};
ghost use Rattle.held_latches.specs.Lists.{inserted, no_lists, own_from};

use crate::{Counted, HeldLatches};
use hlc_stamp::Stamp;
use latch_model::latch::{Access, Latch};
use latch_shots::Shots;
use row_pool::{Memory, Rows};
use span_key::{Key, Scope, Span};
use std::alloc::Global;
use std::test::Fail;

/// What was seen at the begin, while the latch was held, and at the end.
#[derive(Clone, Copy, Debug, PartialEq, Eq)]
struct Seen {
    free_before: u32,
    met: bool,
    total: u32,
    counted: Counted,
    beside: Counted,
    free: u32,
    total_after: u32,
    free_after: u32,
}

/// The request number 1 begins, in lane 0, where nothing is held. 13 rows of 64 are for its latch, and 51 are still spare.
fn begin(held: &mut HeldLatches, rows: &Rows, latches: &[Latch]) -> Shots
    requires table { table_of held.old ≡ rows.now }
    requires fresh { HasSpare held.old no_lists 0 64 }
    requires writers { (writer_of held.old scopes.Global ≡ 0) × (writer_of held.old scopes.Local ≡ 0) }
    requires sizes { slots_of held.old ≡ 16 }
    requires one { length latches.now ≡ 1 }
    ensures table { SameSizes held.old held.new }
    ensures shots { (shots_table result ≡ rows.now) × AreShots result no_lists }
    ensures held { HasSpare held.new (inserted (own_from 1 0 0 latches.now) no_lists) 1 51 }
{
    held.begin(rows, 1, 0, latches, latches)
}

/// It ends.
fn end(held: &mut HeldLatches, rows: &Rows, shots: Shots, latches: &[Latch])
    requires table { table_of held.old ≡ rows.now }
    requires shots { (shots_table shots ≡ rows.now) × AreShots shots no_lists }
    requires held { HasSpare held.old (inserted (own_from 1 0 0 latches.now) no_lists) 1 51 }
    requires one { length latches.now ≡ 1 }
    ensures table { SameSizes held.old held.new }
    ensures held { HasSpare held.new no_lists 0 51 }
{
    held.take_back(rows, shots.close(rows));
    held.remove(rows, 1, 0, latches);
}

/// A request with one latch, in a pool of 64 rows, of which 51 are spare while it is held.
fn one_latch(alloc: Global, latch: &[Latch], scope: Scope, other: Scope) -> Result<Seen, Memory>
    requires { length latch.now ≡ 1 }
    ensures { IfOk result (λ seen. 51 ≤ seen.free) }
{
    let (rows, mut held) = HeldLatches::new(alloc, 64, 1)?;
    let free_before = held.free();
    let mut shots = begin(&mut held, &rows, latch);
    let met = shots.first_met(&rows, &latch[0]).is_some();
    let total = held.total();
    let counted = held.counts(scope);
    let beside = held.counts(other);
    let free = held.free();
    end(&mut held, &rows, shots, latch);
    let total_after = held.total();
    let free_after = held.free();
    held.close(rows);
    Ok(Seen {
        free_before,
        met,
        total,
        counted,
        beside,
        free,
        total_after,
        free_after,
    })
}

#[test]
fn a_write_is_held_and_goes(rt: HostRuntime) -> Result<(), Fail> {
    let write = [Latch {
        access: Access::Write,
        span: Span::point(Key::new(rt.alloc(), b"a")?),
        stamp: Stamp::EMPTY,
    }];
    let seen = one_latch(rt.alloc(), &write, Scope::Global, Scope::Local)?;
    assert!(rt; seen.free_before == 64);
    assert!(rt;
        seen.total == 1
            && seen.counted
                == Counted {
                    read: 0,
                    pending: 0,
                    write: 1
                }
    );
    assert!(rt;
        seen.beside
            == Counted {
                read: 0,
                pending: 0,
                write: 0
            }
    );
    assert!(rt; !seen.met);
    assert!(rt; seen.free < 64 && seen.free >= 51);
    assert!(rt; seen.total_after == 0 && seen.free_after == 64);
    Ok(())
}

#[test]
fn a_read_is_pending_and_goes(rt: HostRuntime) -> Result<(), Fail> {
    let read = [Latch {
        access: Access::Read,
        span: Span::point(Key::new(rt.alloc(), b"\x01a")?),
        stamp: Stamp::EMPTY,
    }];
    let seen = one_latch(rt.alloc(), &read, Scope::Local, Scope::Global)?;
    assert!(rt; seen.free_before == 64);
    assert!(rt;
        seen.total == 1
            && seen.counted
                == Counted {
                    read: 1,
                    pending: 1,
                    write: 0
                }
    );
    assert!(rt;
        seen.beside
            == Counted {
                read: 0,
                pending: 0,
                write: 0
            }
    );
    assert!(rt; !seen.met);
    // the item's row, and the 12 that are set aside for it
    assert!(rt; seen.free == 51);
    assert!(rt; seen.total_after == 0 && seen.free_after == 64);
    Ok(())
}
