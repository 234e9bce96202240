// Live names, and the values that stand for their requests.
ghost use Rattle.std.specs.Prelude.{◌≡◌, ℕ, ◌<◌, length, map, Some, IfOk, IfSome, false, slice_get, slice_index_or};
ghost use Rattle.std.specs.List.{position, remove};
ghost use Rattle.script.specs.Commands.{same_name};
ghost use Rattle.latch_model.specs.declared.history.Fault.TheVariants.{None as no_fault};
ghost use Rattle.script.specs.Follows.{passed_grant};
ghost use Rattle.latch_model.proofs.Elements.{Each};
ghost use Rattle.step_run.specs.Lives.{HasNoCause, IsOf, LiveSays, called_value, cause_of, ending_of, is_none, may_poison, seen_live, with_value};
ghost use Rattle.waiter.specs.Says.{id_of};

use latch_model::history::{Cause, Fault};
use latch_model::latch::Mode;
use script::command::Name;
use span_key::Memory;
use std::alloc::Global;
use std::collections::VecDeque;
use std::mem;
use waiter::{Core, Ending, Granted, Optimist, Waiting};

/// What stands for the request of a live name: it checks, waits or is granted, or it has ended.
pub(crate) enum Value {
    Optimist(Optimist),
    Waiting(Waiting),
    Granted(Granted),
    Over,
}

/// A live name with its session, how its request was opened, and what stands for the request. That is large: it is in a box, so that live names are moved
/// quickly.
pub(crate) struct Live<'s> {
    pub(crate) name: &'s Name,
    pub(crate) session: u32,
    pub(crate) mode: Mode,
    pub(crate) turns: Option<u32>,
    pub(crate) value: Box<Value>,
}

/// Room for a value that is to come.
pub(crate) fn new_room(alloc: Global) -> Result<Box<Value>, Memory>
    ensures { IfOk result (λ room. room.value ≡ Value.Over) }
{
    match Box::new(alloc, Value::Over) {
        Ok(room) => Ok(room),
        Err(refused) => {
            no_value(refused.value);
            Err(Memory)
        }
    }
}

/// The value goes into its room.
pub(crate) fn fill(room: Box<Value>, value: Value) -> Box<Value>
    requires { room.value ≡ Value.Over }
    ensures { result.value ≡ value }
{
    let mut room = room;
    no_value(mem::replace(&mut *room, value));
    room
}

/// Room that was not needed.
pub(crate) fn leave(room: Box<Value>)
    requires { room.value ≡ Value.Over }
{
    no_value(Box::into_inner(room));
}

// A value that is over is let go.
fn no_value(value: Value)
    requires { value ≡ Value.Over }
{
    match value {
        Value::Over => {}
        _held => unreachable!(),
    }
}

/// The place of the first live name that is called so.
pub(crate) fn live_place(lives: &VecDeque<Live>, name: &Name) -> Option<usize>
    ensures place { result ≡ position (λ n. same_name n.name name.now) (map seen_live lives.now.items) }
    ensures inside { IfSome result (λ i. i < length lives.now.items) }
{
    for i in 0..lives.len() {
        if lives[i].name.is(name) {
            return Some(i);
        }
    }
    None
}

/// The name at this place is live no more.
pub(crate) fn let_go<'s>(lives: &mut VecDeque<Live<'s>>, i: usize) -> Live<'s>
    requires { i < length lives.old.items }
    ensures value { result ≡ slice_index_or lives.old.items i result }
    ensures lives { lives.new.items ≡ remove lives.old.items i }
{
    match lives.remove(i) {
        Some(live) => live,
        None => unreachable!(),
    }
}

/// Takes out the value of the name at this place, which is over then.
pub(crate) fn take(lives: &mut VecDeque<Live>, i: usize) -> Value
    requires { i < length lives.old.items }
    ensures value { (l : LiveSays) → slice_get (map seen_live lives.old.items) i ≡ Some l → result ≡ l.value }
    ensures lives { map seen_live lives.new.items ≡ with_value i Value.Over (map seen_live lives.old.items) }
{
    let live = &mut lives[i];
    mem::replace(&mut *live.value, Value::Over)
}

/// Puts a value into the place of one that was taken out.
pub(crate) fn put(lives: &mut VecDeque<Live>, i: usize, value: Value)
    requires { (l : LiveSays) × (slice_get (map seen_live lives.old.items) i ≡ Some l) × (l.value ≡ Value.Over) }
    ensures { map seen_live lives.new.items ≡ with_value i value (map seen_live lives.old.items) }
{
    let live = &mut lives[i];
    no_value(mem::replace(&mut *live.value, value));
}

/// A request that is open and has no cause gets one. The answer is whether it did.
pub(crate) fn poison(core: &Core, value: &mut Value) -> bool
    requires { (who : ℕ) × IsOf (id_of core.now) who value.old }
    ensures value { value.new ≡ called_value value.old }
    ensures called { result ≡ may_poison value.old }
{
    match value {
        Value::Optimist(optimist) => {
            let called = is_none(optimist.cause());
            optimist.poison(core);
            called
        }
        Value::Waiting(waiting) => {
            let called = is_none(waiting.cause());
            waiting.poison(core);
            called
        }
        Value::Granted(granted) => {
            let called = is_none(granted.cause());
            granted.poison(core);
            called
        }
        Value::Over => false,
    }
}

/// The end of the request of a name that is released, unless it is over.
pub(crate) fn ending(core: &Core, value: Value) -> Option<Ending>
    requires { (who : ℕ) × IsOf (id_of core.now) who value }
    ensures { result ≡ ending_of value }
{
    match value {
        Value::Optimist(optimist) => Some(check_ending(core, optimist)),
        Value::Waiting(waiting) => {
            let (ending, _) = waiting.abandon(core, Fault::None);
            Some(ending)
        }
        Value::Granted(granted) => Some(granted.finish()),
        Value::Over => None,
    }
}

// An optimistic request ends by the check that passed, where one stands.
fn check_ending(core: &Core, optimist: Optimist) -> Ending
    requires { optimist.core ≡ id_of core.now }
    ensures { result ≡ record { core = optimist.core; r = optimist.r; grant = passed_grant optimist.passed; fault = no_fault } }
{
    if optimist.passed() {
        optimist.confirm(core).finish()
    } else {
        optimist.abandon(core)
    }
}

/// The cause of a value's request.
pub(crate) fn cause_of(value: &Value) -> Cause
    ensures { result ≡ cause_of value.now }
{
    match value {
        Value::Optimist(optimist) => optimist.cause(),
        Value::Waiting(waiting) => waiting.cause(),
        Value::Granted(granted) => granted.cause(),
        Value::Over => Cause::None,
    }
}

/// Whether the request of some live name has a cause.
pub(crate) fn some_cause(lives: &VecDeque<Live>) -> bool
    ensures { result ≡ false → Each HasNoCause (map seen_live lives.now.items) }
{
    for i in 0..lives.len() {
        if !is_none(cause_of(&lives[i].value)) {
            return true;
        }
    }
    false
}

/// Whether there is no cause.
pub(crate) fn is_none(cause: Cause) -> bool
    ensures { result ≡ is_none cause }
{
    match cause {
        Cause::None => true,
        Cause::Called | Cause::From(_) => false,
    }
}
