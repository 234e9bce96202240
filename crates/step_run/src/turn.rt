// The turns of a waiting request.
ghost use Rattle.std.specs.Prelude.{◌≡◌, ℕ, ◌+◌, ◌≤◌, ◌++◌, [], ◌∷◌, codes, false, ◌&&◌, not, length, Some, OnOk, slice_get};
ghost use Rattle.latch_model.specs.Checks.{has_cause};
ghost use Rattle.latch_model.specs.Histories.{HeldLatch};
ghost use Rattle.latch_model.specs.declared.history.Entry.TheVariants.{Ended};
ghost use Rattle.latch_model.specs.declared.history.Grant.TheVariants.{Never, Waited};
ghost use Rattle.latch_model.proofs.Elements.{Each};
ghost use Rattle.script.specs.declared.limits.TheConstants.{SESSION_LIMIT};
ghost use Rattle.step_run.specs.Asked.{Asked, LastIs};
ghost use Rattle.step_run.specs.Lives.{AreWarned, HasNoCause, IsLive, is_none};
ghost use Rattle.step_run.specs.Runs.{AskedBlocked, AskedPoisoned, AskedReady, FitsRequest, FitsTurns, HasCounted, IsLent, IsSame, Makes, Sound, Stands};
ghost use Rattle.step_run.specs.Runs.{StandsBut};
ghost use Rattle.step_run.specs.Seen.{seen_run};
ghost use Rattle.step_run.specs.State.{Named, Pending, State};
ghost use Rattle.step_run.specs.Steps.{counted_turn, granted as granted_state, is_over, spent_turn, turn};
ghost use Rattle.step_run.specs.Texts.{met_text, named_line, spread_text};
ghost use Rattle.waiter.specs.Says.{Blocked, MayAbandon, Poisoned, Ready, WaitingSays, id_of};

use crate::hear::{hear_blocker, hear_causes};
use crate::lines::{number_line, polled_line, words_line};
use crate::live::{Value, is_none};
use crate::run::{StepRun, end, give_back};
use latch_model::history::{Cause, Fault, Grant};
use latch_model::latch::Mode;
use script::command::Name;
use sequence_core::desk::Desk;
use span_key::Memory;
use waiter::{Core, Granted, Polled, Waiting};

/// A turn of the request whose value was taken out of its place: it is granted, blocked, or fails.
pub(crate) fn turn(
    run: &mut StepRun,
    i: usize,
    mut waiting: Waiting,
    out: &mut Vec<u8>,
) -> Result<(), Memory>
    requires lent { IsLent i waiting.r.who (seen_run run.old) }
    requires sound { Sound waiting.r.who (seen_run run.old) }
    requires core { waiting.core ≡ id_of run.old.core }
    ensures sound { Sound 0 (seen_run run.new) }
    ensures turn { (s : State) (n : Named) → StandsBut i s (seen_run run.old) → slice_get s.names i ≡ Some n → n.phase ≡ Pending →
        FitsRequest s.history n waiting.r → FitsTurns n.turns n.counted waiting.turns →
        OnOk result (Makes (turn n s) (seen_run run.new) out.old.items out.new.items) }
{
    let had_cause = !is_none(waiting.cause());
    match ask(run, &mut waiting) {
        Polled::Ready => grant(run, i, waiting, out),
        Polled::Blocked { by, place: _ } => block(run, i, by, had_cause, waiting, out),
        Polled::Poisoned { by, place: _ } => fail(run, i, by, waiting, out),
    }
}

// What a turn meets: the request has been shown the whole history, and has heard who has a cause.
fn ask(run: &mut StepRun, waiting: &mut Waiting) -> Polled
    requires lives { Each (IsLive (id_of run.old.core)) (seen_run run.old).lives }
    requires core { (waiting.old.core ≡ id_of run.old.core) × (run.old.desk.core ≡ id_of run.old.core) }
    requires causes { run.old.some_cause ≡ false → Each HasNoCause (seen_run run.old).lives }
    ensures others { (run.new.core ≡ run.old.core) × (run.new.desk ≡ run.old.desk) × (run.new.passes.items ≡ run.old.passes.items)
        × (run.new.some_cause ≡ run.old.some_cause) }
    ensures lives { AreWarned (seen_run run.old).lives (seen_run run.new).lives }
    ensures same { (waiting.new.core ≡ waiting.old.core) × (waiting.new.r.who ≡ waiting.old.r.who) }
    ensures last { LastIs waiting.new result }
    ensures asked { (s : State) (i : ℕ) (n : Named) → StandsBut i s (seen_run run.old) → slice_get s.names i ≡ Some n →
        FitsRequest s.history n waiting.old.r → Asked s n waiting.old waiting.new result }
{
    run.desk.tell(&run.core, waiting);
    hear_causes(&run.core, &mut run.lives, waiting, run.some_cause);
    let polled = waiting.poll(&run.core);
    hear_blocker(&run.core, &mut run.lives, waiting, polled);
    run.desk.tell(&run.core, waiting);
    polled
}

// Nothing is left to wait for.
fn grant(run: &mut StepRun, i: usize, waiting: Waiting, out: &mut Vec<u8>) -> Result<(), Memory>
    requires lent { IsLent i waiting.r.who (seen_run run.old) }
    requires sound { Sound waiting.r.who (seen_run run.old) }
    requires core { waiting.core ≡ id_of run.old.core }
    requires ready { waiting.last ≡ Ready }
    ensures sound { Sound 0 (seen_run run.new) }
    ensures turn { (s : State) (n : Named) (old : WaitingSays) → StandsBut i s (seen_run run.old) → slice_get s.names i ≡ Some n → is_over n.phase ≡ false →
        AskedReady s n old waiting → OnOk result (Makes (turn n s) (seen_run run.new) out.old.items out.new.items) }
{
    let (granted, front) = stamp(&run.core, &mut run.desk, waiting);
    let written = number_line(run.lives[i].name, b"granted ", front, out);
    settle(run, i, granted);
    written
}

// The request is granted by a front, which is the number of entries where it has been shown all of them.
fn stamp(core: &Core, desk: &mut Desk, waiting: Waiting) -> (Granted, u64)
    requires core { (desk.old.core ≡ id_of core.now) × (waiting.core ≡ id_of core.now) }
    requires ready { waiting.last ≡ Ready }
    ensures desk { desk.new ≡ desk.old }
    ensures front { waiting.r.shown ≡ desk.old.log → result.1 ≡ length desk.old.log }
    ensures granted { result.0 ≡ record {
      core = waiting.core;
      r = record waiting.r { shown = desk.old.log; front = Some result.1 };
      grant = Waited result.1;
    } }
{
    let mut granted = waiting.grant(core);
    desk.tell_granted(core, &mut granted);
    let front = front_of(&granted);
    (granted, front)
}

// The front by which a request was granted that had waited.
fn front_of(granted: &Granted) -> u64
    requires { (front : ℕ) × (granted.now.grant ≡ Waited front) }
    ensures { granted.now.grant ≡ Waited result }
{
    match granted.grant() {
        Grant::Waited(front) => *front,
        Grant::Never | Grant::Checked(_) => unreachable!(),
    }
}

// A look ends once it is granted, and any other holds its latches.
fn settle(run: &mut StepRun, i: usize, granted: Granted)
    requires lent { IsLent i granted.r.who (seen_run run.old) }
    requires sound { Sound granted.r.who (seen_run run.old) }
    requires core { granted.core ≡ id_of run.old.core }
    ensures sound { Sound 0 (seen_run run.new) }
    ensures stands { (s : State) (n : Named) → StandsBut i s (seen_run run.old) → slice_get s.names i ≡ Some n → is_over n.phase ≡ false →
        FitsRequest s.history n granted.r → granted.grant ≡ Waited (length s.history) → Stands (granted_state n.mode n s) (seen_run run.new) }
{
    match run.lives[i].mode {
        Mode::Look => end(run, granted.finish()),
        Mode::Acquire | Mode::Optimistic => give_back(run, i, Value::Granted(granted)),
    }
}

// A request with the policy Error meets a latch of one that has a cause.
fn fail(
    run: &mut StepRun,
    i: usize,
    by: u64,
    waiting: Waiting,
    out: &mut Vec<u8>,
) -> Result<(), Memory>
    requires lent { IsLent i waiting.r.who (seen_run run.old) }
    requires sound { Sound waiting.r.who (seen_run run.old) }
    requires core { waiting.core ≡ id_of run.old.core }
    requires poisoned { (x : HeldLatch) × (waiting.last ≡ Poisoned x) × (x.by ≡ by) }
    ensures sound { Sound 0 (seen_run run.new) }
    ensures turn { (s : State) (n : Named) (old : WaitingSays) → StandsBut i s (seen_run run.old) → slice_get s.names i ≡ Some n → is_over n.phase ≡ false →
        AskedPoisoned s n by old waiting → OnOk result (Makes (turn n s) (seen_run run.new) out.old.items out.new.items) }
{
    let written = polled_line(run.lives[i].name, b"poisoned ", &waiting, out);
    give_up(run, waiting, Fault::Poisoned(by));
    written
}

// A waiting request that was lent ends with a fault.
fn give_up(run: &mut StepRun, waiting: Waiting, fault: Fault)
    requires sound { Sound waiting.r.who (seen_run run.old) }
    requires core { waiting.core ≡ id_of run.old.core }
    requires session { (1 ≤ waiting.r.who) × (waiting.r.who ≤ SESSION_LIMIT) }
    requires fault { MayAbandon waiting fault }
    ensures sound { Sound 0 (seen_run run.new) }
    ensures log { run.new.desk.log ≡ run.old.desk.log ++ Ended waiting.r.id waiting.r.who Never waiting.r.cause fault ∷ [] }
    ensures lives { run.new.lives.items ≡ run.old.lives.items }
{
    let (ending, _) = waiting.abandon(&run.core, fault);
    end(run, ending);
}

// A latch of another request is in the way, from which a cause may have spread.
fn block(
    run: &mut StepRun,
    i: usize,
    by: u64,
    had_cause: bool,
    waiting: Waiting,
    out: &mut Vec<u8>,
) -> Result<(), Memory>
    requires lent { IsLent i waiting.r.who (seen_run run.old) }
    requires sound { Sound waiting.r.who (seen_run run.old) }
    requires core { waiting.core ≡ id_of run.old.core }
    requires blocked { (x : HeldLatch) × (waiting.last ≡ Blocked x) }
    ensures sound { Sound 0 (seen_run run.new) }
    ensures turn { (s : State) (n : Named) (old : WaitingSays) → StandsBut i s (seen_run run.old) → slice_get s.names i ≡ Some n → n.phase ≡ Pending →
        FitsTurns n.turns n.counted old.turns → had_cause ≡ has_cause n.cause → AskedBlocked s n by old waiting →
        OnOk result (Makes (turn n s) (seen_run run.new) out.old.items out.new.items) }
{
    let spreads = is_new(had_cause, waiting.cause());
    match blocked_lines(run.lives[i].name, spreads, by, &waiting, out) {
        Ok(()) => spend(run, i, waiting, out),
        Err(refused) => {
            give_back(run, i, Value::Waiting(waiting));
            Err(refused)
        }
    }
}

fn blocked_lines(
    name: &Name,
    spreads: bool,
    by: u64,
    waiting: &Waiting,
    out: &mut Vec<u8>,
) -> Result<(), Memory>
    ensures { (x : HeldLatch) → waiting.now.last ≡ Blocked x → OnOk result (out.new.items ≡ out.old.items ++ (spread_text spreads name.now by
        ++ named_line name.now (met_text (codes "blocked ") x))) }
{
    spread_line(name, spreads, by, out)?;
    polled_line(name, b"blocked ", waiting, out)
}

// The line of a cause that has spread, if one has.
fn spread_line(name: &Name, spreads: bool, by: u64, out: &mut Vec<u8>) -> Result<(), Memory>
    ensures { OnOk result (out.new.items ≡ out.old.items ++ spread_text spreads name.now by) }
{
    if spreads {
        number_line(name, b"spreads ", by, out)
    } else {
        Ok(())
    }
}

// Whether a request has a cause that it had not.
fn is_new(had_cause: bool, cause: Cause) -> bool
    ensures { result ≡ (not had_cause && not (is_none cause)) }
{
    !had_cause && !is_none(cause)
}

// A turn that didn't end the wait is spent; at the last of them the request is cancelled.
fn spend(run: &mut StepRun, i: usize, waiting: Waiting, out: &mut Vec<u8>) -> Result<(), Memory>
    requires lent { IsLent i waiting.r.who (seen_run run.old) }
    requires sound { Sound waiting.r.who (seen_run run.old) }
    requires core { waiting.core ≡ id_of run.old.core }
    requires blocked { (x : HeldLatch) × (waiting.last ≡ Blocked x) }
    ensures sound { Sound 0 (seen_run run.new) }
    ensures spent { (s : State) (n m : Named) → StandsBut i s (seen_run run.old) → slice_get s.names i ≡ Some n → is_over n.phase ≡ false →
        IsSame n m → m.phase ≡ Pending → FitsRequest s.history m waiting.r → HasCounted m.turns m.counted waiting.turns →
        OnOk result (Makes (spent_turn m s m.turns) (seen_run run.new) out.old.items out.new.items) }
{
    match run.lives[i].turns {
        Some(turns) => count(run, i, turns, waiting, out),
        None => {
            give_back(run, i, Value::Waiting(waiting));
            Ok(())
        }
    }
}

// The same of a request with this number of turns.
fn count(
    run: &mut StepRun,
    i: usize,
    turns: u32,
    waiting: Waiting,
    out: &mut Vec<u8>,
) -> Result<(), Memory>
    requires lent { IsLent i waiting.r.who (seen_run run.old) }
    requires sound { Sound waiting.r.who (seen_run run.old) }
    requires core { waiting.core ≡ id_of run.old.core }
    requires blocked { (x : HeldLatch) × (waiting.last ≡ Blocked x) }
    ensures sound { Sound 0 (seen_run run.new) }
    ensures counted { (s : State) (n m : Named) → StandsBut i s (seen_run run.old) → slice_get s.names i ≡ Some n → is_over n.phase ≡ false →
        IsSame n m → m.phase ≡ Pending → FitsRequest s.history m waiting.r → m.turns ≡ Some turns → HasCounted m.turns m.counted waiting.turns →
        OnOk result (Makes (counted_turn m s turns) (seen_run run.new) out.old.items out.new.items) }
{
    let polls = waiting.turns();
    if polls != u64::from(turns) {
        give_back(run, i, Value::Waiting(waiting));
        return Ok(());
    }
    let written = words_line(run.lives[i].name, b"cancelled", out);
    give_up(run, waiting, Fault::Cancelled(polls));
    written
}
