// What a waiting request hears of the others.
ghost use Rattle.std.specs.Prelude.{◌≡◌, ◌<◌, ℕ, false, true, List, map, length, Some, slice_get};
ghost use Rattle.latch_model.proofs.Elements.{Each};
ghost use Rattle.signal_board.specs.Steps.{warned};
ghost use Rattle.step_run.specs.Asked.{blocker, may_be_poisoned};
ghost use Rattle.step_run.specs.Lives.{AreHeard, AreWarned, EachRequest, HasNoCause, Heard, HeardOf, IsLive, IsOf, KnowsOf, LiveSays, seen_live};
ghost use Rattle.step_run.specs.Lives.{warned_value, with_value};
ghost use Rattle.waiter.specs.Says.{id_of};

use crate::live::{Live, Value, is_none};
use latch_model::history::Cause;
use std::collections::VecDeque;
use waiter::{Core, Granted, Optimist, Polled, Waiting};

/// Before a poll: hears each live request that has a cause. Where none may have one, there is nobody to hear.
pub(crate) fn hear_causes(
    core: &Core,
    lives: &mut VecDeque<Live>,
    waiting: &mut Waiting,
    some_cause: bool,
)
    requires lives { Each (IsLive (id_of core.now)) (map seen_live lives.old.items) }
    requires core { waiting.old.core ≡ id_of core.now }
    requires causes { some_cause ≡ false → Each HasNoCause (map seen_live lives.old.items) }
    ensures lives { AreWarned (map seen_live lives.old.items) (map seen_live lives.new.items) }
    ensures waiting { (ps : List ℕ) × (waiting.new ≡ record waiting.old { r = warned ps waiting.old.r }) }
    ensures knows { EachRequest (KnowsOf waiting.new.r) (map seen_live lives.old.items) }
{
    if some_cause {
        // No request has the number 0.
        hear_some(core, lives, waiting, 0);
    }
}

/// After a poll: hears the request that is in the way, where it may have been found poisoned.
pub(crate) fn hear_blocker(
    core: &Core,
    lives: &mut VecDeque<Live>,
    waiting: &mut Waiting,
    polled: Polled,
)
    requires lives { Each (IsLive (id_of core.now)) (map seen_live lives.old.items) }
    requires core { waiting.old.core ≡ id_of core.now }
    ensures lives { AreWarned (map seen_live lives.old.items) (map seen_live lives.new.items) }
    ensures waiting { (ps : List ℕ) × (waiting.new ≡ record waiting.old { r = warned ps waiting.old.r }) }
    ensures heard { may_be_poisoned polled waiting.old.r.cause ≡ true →
        AreHeard (blocker polled) waiting.old.r waiting.new.r (map seen_live lives.old.items) }
{
    if may_be_poisoned(polled, waiting.cause()) {
        hear_some(core, lives, waiting, blocker(polled));
    }
}

// Whether the request in the way may have been found poisoned: where a poll finds it so and answers Blocked, the polled one is poisoned too.
fn may_be_poisoned(polled: Polled, cause: Cause) -> bool
    ensures { result ≡ may_be_poisoned polled cause }
{
    match polled {
        Polled::Ready => false,
        Polled::Blocked { by: _, place: _ } => !is_none(cause),
        Polled::Poisoned { by: _, place: _ } => true,
    }
}

// The number of the request that is in the way, or 0.
fn blocker(polled: Polled) -> u64
    ensures { result ≡ blocker polled }
{
    match polled {
        Polled::Ready => 0,
        Polled::Blocked { by, place: _ } | Polled::Poisoned { by, place: _ } => by,
    }
}

// Hears each live request that has a cause, and the one of this number.
fn hear_some(core: &Core, lives: &mut VecDeque<Live>, waiting: &mut Waiting, by: u64)
    requires lives { Each (IsLive (id_of core.now)) (map seen_live lives.old.items) }
    requires core { waiting.old.core ≡ id_of core.now }
    ensures lives { AreWarned (map seen_live lives.old.items) (map seen_live lives.new.items) }
    ensures waiting { (ps : List ℕ) × (waiting.new ≡ record waiting.old { r = warned ps waiting.old.r }) }
    ensures heard { AreHeard by waiting.old.r waiting.new.r (map seen_live lives.old.items) }
{
    for i in 0..lives.len() {
        hear_at(core, lives, i, waiting, by);
    }
}

// The same of the name at a place.
fn hear_at(core: &Core, lives: &mut VecDeque<Live>, i: usize, waiting: &mut Waiting, by: u64)
    requires inside { i < length lives.old.items }
    requires live { (l : LiveSays) → slice_get (map seen_live lives.old.items) i ≡ Some l → IsLive (id_of core.now) l }
    requires core { waiting.old.core ≡ id_of core.now }
    ensures lives { (l : LiveSays) → slice_get (map seen_live lives.old.items) i ≡ Some l →
        (ps : List ℕ) × (map seen_live lives.new.items ≡ with_value i (warned_value ps l.value) (map seen_live lives.old.items)) }
    ensures waiting { (ps : List ℕ) × (waiting.new ≡ record waiting.old { r = warned ps waiting.old.r }) }
    ensures heard { (l : LiveSays) → slice_get (map seen_live lives.old.items) i ≡ Some l → Heard by waiting.old.r waiting.new.r l.value }
{
    let live = &mut lives[i];
    hear(core, &mut *live.value, waiting, by);
}

// The same of one value.
fn hear(core: &Core, value: &mut Value, waiting: &mut Waiting, by: u64)
    requires value { (who : ℕ) × IsOf (id_of core.now) who value.old }
    requires core { waiting.old.core ≡ id_of core.now }
    ensures value { (ps : List ℕ) × (value.new ≡ warned_value ps value.old) }
    ensures waiting { (ps : List ℕ) × (waiting.new ≡ record waiting.old { r = warned ps waiting.old.r }) }
    ensures heard { Heard by waiting.old.r waiting.new.r value.old }
{
    match value {
        Value::Optimist(other) => hear_optimist(core, other, waiting, by),
        Value::Waiting(other) => hear_waiting(core, other, waiting, by),
        Value::Granted(other) => hear_granted(core, other, waiting, by),
        Value::Over => {}
    }
}

fn hear_optimist(core: &Core, other: &mut Optimist, waiting: &mut Waiting, by: u64)
    requires core { (waiting.old.core ≡ id_of core.now) × (other.old.core ≡ id_of core.now) }
    ensures other { (ps : List ℕ) × (other.new ≡ record other.old { r = warned ps other.old.r }) }
    ensures waiting { (ps : List ℕ) × (waiting.new ≡ record waiting.old { r = warned ps waiting.old.r }) }
    ensures heard { HeardOf by waiting.old.r waiting.new.r other.old.r }
{
    if !is_none(other.cause()) || other.id() == by {
        waiting.hear_optimist(core, other);
    }
}

fn hear_waiting(core: &Core, other: &mut Waiting, waiting: &mut Waiting, by: u64)
    requires core { (waiting.old.core ≡ id_of core.now) × (other.old.core ≡ id_of core.now) }
    ensures other { (ps : List ℕ) × (other.new ≡ record other.old { r = warned ps other.old.r }) }
    ensures waiting { (ps : List ℕ) × (waiting.new ≡ record waiting.old { r = warned ps waiting.old.r }) }
    ensures heard { HeardOf by waiting.old.r waiting.new.r other.old.r }
{
    if !is_none(other.cause()) || other.id() == by {
        waiting.hear_waiting(core, other);
    }
}

fn hear_granted(core: &Core, other: &mut Granted, waiting: &mut Waiting, by: u64)
    requires core { (waiting.old.core ≡ id_of core.now) × (other.old.core ≡ id_of core.now) }
    ensures other { (ps : List ℕ) × (other.new ≡ record other.old { r = warned ps other.old.r }) }
    ensures waiting { (ps : List ℕ) × (waiting.new ≡ record waiting.old { r = warned ps waiting.old.r }) }
    ensures heard { HeardOf by waiting.old.r waiting.new.r other.old.r }
{
    if !is_none(other.cause()) || other.id() == by {
        waiting.hear_granted(core, other);
    }
}
