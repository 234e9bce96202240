// Waiting by polls, outside any lock.
ghost use Rattle.std.specs.Prelude.{◌≡◌, ◌≢◌, ◌≤◌, ◌<◌, ℕ, Option, Some, None, IfOk, IfErr};
ghost use Rattle.latch_model.specs.Histories.{HeldLatch};
ghost use Rattle.latch_model.specs.declared.history.Fault.TheVariants.{Cancelled as by_cancel, Poisoned as by_poison};
ghost use Rattle.latch_model.specs.declared.history.Grant.TheVariants.{Never};
ghost use Rattle.waiter.specs.Says.{Blocked, Poisoned, ShowsLast, id_of};
ghost use Rattle.waiter.specs.declared.mark.Mark.{Mark as Marks};
ghost use Rattle.latch_manager.specs.Acquiring.{WaitFailsAs};
ghost use Rattle.latch_manager.specs.Waiting.{WaitGrants};

use crate::patience::Patience;
use crate::wakes::Wakes;
use latch_model::history::{Cause, Fault};
use std::sync::Wait;
use waiter::{Core, Ending, Granted, Mark, Polled, Waiting};

/// Why a wait failed: it met this latch of a poisoned request, or its patience refused after so many polls that were blocked.
#[derive(Debug, Drop)]
pub enum WaitFault {
    Poisoned(Mark),
    Cancelled { turns: u64 },
}

// A wait that failed: the request, which is to end, and why.
pub(crate) struct Failed {
    pub(crate) ending: Ending,
    pub(crate) fault: WaitFault,
}

/// Polls until the request is granted, meets a poisoned one under the policy `Error`, or the patience refuses.
pub(crate) fn until_granted<R: Wait, P: Patience>(
    rt: &R,
    core: &Core,
    wakes: &Wakes,
    mut waiting: Waiting,
    patience: &mut P,
) -> Result<Granted, Failed>
    requires core { waiting.core ≡ id_of core.now }
    ensures granted { IfOk result (λ g. WaitGrants waiting g) }
    ensures failed { IfErr result (λ f. WaitFailsAs waiting f.ending (P.refusals patience.old) (P.refusals patience.new) (P.limit patience.old) f.fault) }
    ensures later { P.refusals patience.old ≤ P.refusals patience.new }
    ensures limit { P.limit patience.new ≡ P.limit patience.old }
{
    for _ in rt.forever() {
        let seen = wakes.now();
        let came = waiting.cause();
        match waiting.poll(core) {
            Polled::Ready => return Ok(waiting.grant(core)),
            Polled::Poisoned { by, place: _ } => return Err(fail(core, waiting, by)),
            Polled::Blocked { by, place: _ } => {
                spread(rt, wakes, came, waiting.cause());
                if !patience.more(waiting.turns()) {
                    return Err(cancel(core, waiting));
                }
                let at = place_to_sleep(core, wakes, &mut waiting, by);
                wakes.sleep(rt, seen, at);
            }
        }
    }
    unreachable!()
}

// Wakes all where the request was poisoned by its poll, so that those which wait for it see it.
fn spread<R: Wait>(rt: &R, wakes: &Wakes, came: Cause, now: Cause) {
    match (came, now) {
        (Cause::None, Cause::Called | Cause::From(_)) => wakes.raise_all(rt),
        (Cause::None, Cause::None) => {}
        (Cause::Called | Cause::From(_), _) => {}
    }
}

// The request at which one sleeps that this one blocks: the last open one that it waits for, so that few ends wake it in vain. Once anything was poisoned
// it is the one that blocks, since behind that one's end a poisoned one may come next.
fn place_to_sleep(core: &Core, wakes: &Wakes, waiting: &mut Waiting, by: u64) -> u64
    requires core { waiting.old.core ≡ id_of core.now }
    requires blocked { (x : HeldLatch) × (waiting.old.last ≡ Blocked x) }
    ensures same { waiting.new ≡ record waiting.old { r = record waiting.old.r { ended = waiting.new.r.ended } } }
{
    if wakes.is_calm() {
        waiting.last_open(core)
    } else {
        by
    }
}

// The request meets a latch of a poisoned one, and is to end so.
fn fail(core: &Core, waiting: Waiting, by: u64) -> Failed
    requires core { waiting.core ≡ id_of core.now }
    requires poisoned { (x : HeldLatch) × (waiting.last ≡ Poisoned x) × (x.by ≡ by) }
    ensures ending { result.ending ≡ record { core = waiting.core; r = waiting.r; grant = Never; fault = by_poison by } }
    ensures fault { (mark : Marks) × (result.fault ≡ WaitFault.Poisoned mark) × ShowsLast (Some mark) waiting.last }
{
    let (ending, mark) = waiting.abandon(core, Fault::Poisoned(by));
    Failed {
        ending,
        fault: WaitFault::Poisoned(there(mark)),
    }
}

// The mark of a request that was blocked.
fn there(mark: Option<Mark>) -> Mark
    requires { mark ≢ None }
    ensures { mark ≡ Some result }
{
    match mark {
        Some(mark) => mark,
        None => unreachable!(),
    }
}

// The patience refused, and the request is to end so.
fn cancel(core: &Core, waiting: Waiting) -> Failed
    requires core { waiting.core ≡ id_of core.now }
    requires blocked { (x : HeldLatch) × (waiting.last ≡ Blocked x) }
    ensures ending { result.ending ≡ record { core = waiting.core; r = waiting.r; grant = Never; fault = by_cancel waiting.turns } }
    ensures fault { result.fault ≡ WaitFault.Cancelled waiting.turns }
{
    let turns = waiting.turns();
    let (ending, _mark) = waiting.abandon(core, Fault::Cancelled(turns));
    Failed {
        ending,
        fault: WaitFault::Cancelled { turns },
    }
}
