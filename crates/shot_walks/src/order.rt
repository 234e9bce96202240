// The waiting order of latches: global before local, in each reads before writes, and then as they stand.
ghost use Rattle.std.specs.Prelude.{◌≡◌, ◌≤◌, ◌<◌, ◌+◌, ◌++◌, ◌&&◌, length, map};
ghost use Rattle.std.specs.List.{All};
ghost use Rattle.latch_model.specs.Histories.{those_of};
ghost use Rattle.latch_model.specs.Latches.{has_access, in_scope};
ghost use Rattle.shot_walks.specs.Orders.{IsOrder, latch_at};

use arrayvec::ArrayVec;
use latch_model::latch::{Access, Latch};
use span_key::Scope;

/// The places of at most 16 latches.
pub type Places = ArrayVec<u8, 16>;

/// The places of these latches in the waiting order.
pub fn order_of(latches: &[Latch]) -> Places
    requires few { length latches.now ≤ 16 }
    ensures { IsOrder result.items latches.now }
{
    let mut order = ArrayVec::new();
    add_places(latches, Scope::Global, Access::Read, &mut order);
    add_places(latches, Scope::Global, Access::Write, &mut order);
    add_places(latches, Scope::Local, Access::Read, &mut order);
    add_places(latches, Scope::Local, Access::Write, &mut order);
    order
}

// Adds the places of the latches of one scope and access.
fn add_places(latches: &[Latch], scope: Scope, access: Access, order: &mut Places)
    requires few { length latches.now ≤ 16 }
    requires room { length order.old.items + length (those_of scope access latches.now) ≤ 16 }
    requires inside { All (λ k. k < length latches.now) order.old.items }
    ensures added { map (latch_at latches.now) order.new.items ≡ map (latch_at latches.now) order.old.items ++ those_of scope access latches.now }
    ensures count { length order.new.items ≡ length order.old.items + length (those_of scope access latches.now) }
    ensures inside { All (λ k. k < length latches.now) order.new.items }
{
    for (k, latch) in latches.iter().enumerate() {
        if is_of(latch, scope, access) {
            order.push(k as u8);
        }
    }
}

// Whether a latch is of this scope and access.
fn is_of(latch: &Latch, scope: Scope, access: Access) -> bool
    ensures { result ≡ (in_scope scope latch.now && has_access access latch.now) }
{
    latch.span.scope() == scope && latch.access == access
}
