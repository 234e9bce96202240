// The commands of a step run.
ghost use Rattle.std.specs.Prelude.{◌≡◌, ℕ, ◌<◌, length, Some, OnOk, IfErr, IfOk, slice_get};
ghost use Rattle.step_run.specs.Allowing.{Allowed, AllowedCheck};
ghost use Rattle.step_run.specs.Checking.{ChecksAs};
ghost use Rattle.step_run.specs.Faults.{OpeningLacks, StopsBy};
ghost use Rattle.step_run.specs.Lives.{IsOf, LiveSays};
ghost use Rattle.step_run.specs.Runs.{Makes, Sound, Stands};
ghost use Rattle.step_run.specs.Seen.{seen_run};
ghost use Rattle.step_run.specs.State.{Named, State};
ghost use Rattle.step_run.specs.Steps.{checked, on_name, one, poisoned, released, waited};
ghost use Rattle.waiter.specs.Says.{OptimistSays, id_of};

use crate::fault::RunFault;
use crate::lines::{checked_line, metrics_line, number_line, words_line};
use crate::live::{Live, Value, let_go, live_place, poison, take};
use crate::open::{Opening, open};
use crate::run::{StepRun, end_value, give_back};
use crate::turn::turn;
use latch_model::latch::{Latches, Policy};
use latch_model::request::Request;
use script::command::{Command, Name};
use span_key::Memory;
use std::alloc::Global;
use waiter::{Checked, Core, Optimist};

/// One command, which stands on this line: what it writes is added to `out`.
pub(crate) fn step<'s>(
    alloc: Global,
    run: &mut StepRun<'s>,
    line: u32,
    command: &'s Command,
    out: &mut Vec<u8>,
) -> Result<(), RunFault>
    requires sound { Sound 0 (seen_run run.old) }
    requires allowed { Allowed command.now (seen_run run.old).lives }
    ensures sound { Sound 0 (seen_run run.new) }
    ensures step { (s : State) → Stands s (seen_run run.old) → s.line ≡ line →
        OnOk result (Makes (one s command.now) (seen_run run.new) out.old.items out.new.items) }
    ensures stops { IfErr result (StopsBy (OpeningLacks command.now)) }
{
    match command {
        Command::Begin {
            session,
            name,
            mode,
            policy,
            turns,
            latches,
        } => {
            let request = declared(alloc, line, *policy, latches)?;
            let opening = Opening {
                name,
                session: *session,
                mode: *mode,
                turns: *turns,
            };
            open(alloc, run, opening, request, out)
        }
        Command::Wait { name } => Ok(wait(run, name, out)?),
        Command::Check { name, latches } => Ok(check(alloc, run, name, latches, out)?),
        Command::Poison { name } => Ok(poison_name(run, name, out)?),
        Command::Release { name } => Ok(release(run, name, out)?),
        Command::Metrics => Ok(metrics_line(&run.desk.metrics(), out)?),
    }
}

// What an opening declares, whose tag is its line.
fn declared(alloc: Global, line: u32, policy: Policy, latches: &Latches) -> Result<Request, Memory>
    ensures { IfOk result (λ r. r ≡ record { tag = line; policy = policy; latches = latches.now }) }
{
    let copy = latches.copy(alloc)?;
    match Request::new(alloc, line, policy, copy) {
        Ok(request) => Ok(request),
        Err((_, refused)) => Err(refused),
    }
}

fn wait(run: &mut StepRun, name: &Name, out: &mut Vec<u8>) -> Result<(), Memory>
    requires { Sound 0 (seen_run run.old) }
    ensures sound { Sound 0 (seen_run run.new) }
    ensures step { (s : State) → Stands s (seen_run run.old) →
        OnOk result (Makes (on_name s name.now (λ n. waited n.phase n s)) (seen_run run.new) out.old.items out.new.items) }
{
    match live_place(&run.lives, name) {
        Some(i) => wait_at(run, i, out),
        None => Ok(()),
    }
}

/// The request at this place waits: an optimistic one gives up its check first, and one that is granted or over has nothing to wait for.
pub(crate) fn wait_at(run: &mut StepRun, i: usize, out: &mut Vec<u8>) -> Result<(), Memory>
    requires sound { Sound 0 (seen_run run.old) }
    requires inside { i < length run.old.lives.items }
    ensures sound { Sound 0 (seen_run run.new) }
    ensures step { (s : State) (n : Named) → Stands s (seen_run run.old) → slice_get s.names i ≡ Some n →
        OnOk result (Makes (waited n.phase n s) (seen_run run.new) out.old.items out.new.items) }
{
    match take(&mut run.lives, i) {
        Value::Optimist(optimist) => turn(run, i, optimist.into_waiting(), out),
        Value::Waiting(waiting) => turn(run, i, waiting, out),
        Value::Granted(granted) => {
            give_back(run, i, Value::Granted(granted));
            Ok(())
        }
        Value::Over => Ok(()),
    }
}

fn check(
    alloc: Global,
    run: &mut StepRun,
    name: &Name,
    asked: &Latches,
    out: &mut Vec<u8>,
) -> Result<(), Memory>
    requires sound { Sound 0 (seen_run run.old) }
    requires optimistic { AllowedCheck name.now (seen_run run.old).lives }
    ensures sound { Sound 0 (seen_run run.new) }
    ensures step { (s : State) → Stands s (seen_run run.old) →
        OnOk result (Makes (on_name s name.now (λ n. checked n s asked.now)) (seen_run run.new) out.old.items out.new.items) }
{
    match live_place(&run.lives, name) {
        Some(i) => check_at(alloc, run, i, asked, out),
        None => Ok(()),
    }
}

// A check of the optimistic request at this place.
fn check_at(
    alloc: Global,
    run: &mut StepRun,
    i: usize,
    asked: &Latches,
    out: &mut Vec<u8>,
) -> Result<(), Memory>
    requires sound { Sound 0 (seen_run run.old) }
    requires inside { i < length run.old.lives.items }
    requires optimistic { (l : LiveSays) → slice_get (seen_run run.old).lives i ≡ Some l → (o : OptimistSays) × (l.value ≡ Value.Optimist o) }
    ensures sound { Sound 0 (seen_run run.new) }
    ensures step { (s : State) (n : Named) → Stands s (seen_run run.old) → slice_get s.names i ≡ Some n →
        OnOk result (Makes (checked n s asked.now) (seen_run run.new) out.old.items out.new.items) }
{
    let copy = asked.copy(alloc)?;
    let live = &mut run.lives[i];
    check_value(&run.core, live.name, &mut *live.value, copy, out)
}

// The same of its value.
fn check_value(
    core: &Core,
    name: &Name,
    value: &mut Value,
    asked: Latches,
    out: &mut Vec<u8>,
) -> Result<(), Memory>
    requires optimistic { (o : OptimistSays) × (value.old ≡ Value.Optimist o) }
    requires core { (who : ℕ) × IsOf (id_of core.now) who value.old }
    ensures kept { (o : OptimistSays) → value.old ≡ Value.Optimist o → (p : OptimistSays) × (value.new ≡ Value.Optimist p) × (p.core ≡ o.core) × (p.r ≡ o.r) }
    ensures checked { (o : OptimistSays) → value.old ≡ Value.Optimist o → OnOk result ((p : OptimistSays) × (value.new ≡ Value.Optimist p)
        × ChecksAs o p name.now asked out.old.items out.new.items) }
{
    match value {
        Value::Optimist(optimist) => check_latches(core, name, optimist, asked, out),
        Value::Waiting(_) | Value::Granted(_) | Value::Over => unreachable!(),
    }
}

// The first asked latch that isn't declared is named, and else the first held latch that is met, ended or not.
fn check_latches(
    core: &Core,
    name: &Name,
    optimist: &mut Optimist,
    asked: Latches,
    out: &mut Vec<u8>,
) -> Result<(), Memory>
    requires { optimist.old.core ≡ id_of core.now }
    ensures kept { (optimist.new.core ≡ optimist.old.core) × (optimist.new.r ≡ optimist.old.r) }
    ensures checked { OnOk result (ChecksAs optimist.old optimist.new name.now asked out.old.items out.new.items) }
{
    match optimist.check(core, asked) {
        Checked::NotDeclared { index, asked: _ } => {
            number_line(name, b"undeclared ", index as u64, out)
        }
        Checked::Met {
            by: _,
            place: _,
            asked: _,
        } => checked_line(name, b"met ", optimist, out),
        Checked::Clear => words_line(name, b"clear", out),
    }
}

fn poison_name(run: &mut StepRun, name: &Name, out: &mut Vec<u8>) -> Result<(), Memory>
    requires { Sound 0 (seen_run run.old) }
    ensures sound { Sound 0 (seen_run run.new) }
    ensures step { (s : State) → Stands s (seen_run run.old) →
        OnOk result (Makes (on_name s name.now (λ n. poisoned n s)) (seen_run run.new) out.old.items out.new.items) }
{
    match live_place(&run.lives, name) {
        Some(i) => poison_at(run, i, out),
        None => Ok(()),
    }
}

// The request at this place gets a cause, unless it is over or has one.
fn poison_at(run: &mut StepRun, i: usize, out: &mut Vec<u8>) -> Result<(), Memory>
    requires sound { Sound 0 (seen_run run.old) }
    requires inside { i < length run.old.lives.items }
    ensures sound { Sound 0 (seen_run run.new) }
    ensures step { (s : State) (n : Named) → Stands s (seen_run run.old) → slice_get s.names i ≡ Some n →
        OnOk result (Makes (poisoned n s) (seen_run run.new) out.old.items out.new.items) }
{
    let live = &mut run.lives[i];
    if poison(&run.core, &mut *live.value) {
        run.some_cause = true;
        words_line(live.name, b"poisons", out)
    } else {
        Ok(())
    }
}

fn release(run: &mut StepRun, name: &Name, out: &mut Vec<u8>) -> Result<(), Memory>
    requires { Sound 0 (seen_run run.old) }
    ensures sound { Sound 0 (seen_run run.new) }
    ensures step { (s : State) → Stands s (seen_run run.old) →
        OnOk result (Makes (on_name s name.now (λ n. released n s)) (seen_run run.new) out.old.items out.new.items) }
{
    match live_place(&run.lives, name) {
        Some(i) => release_at(run, i, out),
        None => Ok(()),
    }
}

// The name at this place is released: its request ends, unless it is over.
fn release_at(run: &mut StepRun, i: usize, out: &mut Vec<u8>) -> Result<(), Memory>
    requires sound { Sound 0 (seen_run run.old) }
    requires inside { i < length run.old.lives.items }
    ensures sound { Sound 0 (seen_run run.new) }
    ensures step { (s : State) (n : Named) → Stands s (seen_run run.old) → slice_get s.names i ≡ Some n →
        OnOk result (Makes (released n s) (seen_run run.new) out.old.items out.new.items) }
{
    let Live {
        name,
        session: _,
        mode: _,
        turns: _,
        value,
    } = let_go(&mut run.lives, i);
    let written = words_line(name, b"ended", out);
    end_value(run, value);
    written
}
