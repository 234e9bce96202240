// A run on a desk with a pass for each session, and its end.
ghost use Rattle.std.specs.Prelude.{◌≡◌, ℕ, ◌≤◌, [], ◌∷◌, ◌++◌, IfOk, None, Some, slice_get};
ghost use Rattle.script.specs.declared.limits.TheConstants.{SESSION_LIMIT};
ghost use Rattle.sequence_core.specs.Bounds.{bad_size};
ghost use Rattle.sequence_core.specs.Says.{end_entry};
ghost use Rattle.step_run.specs.Lives.{IsOf, LiveSays, ended_with, lent_by};
ghost use Rattle.step_run.specs.Runs.{HasProgramRoom, Sound, Stands, given_back};
ghost use Rattle.step_run.specs.Seen.{seen_run};
ghost use Rattle.step_run.specs.State.{start};
ghost use Rattle.waiter.specs.Says.{id_of};

use crate::live::{Live, Value, cause_of, ending, is_none, put, some_cause};
use latch_model::history::{History, Sizes};
use sequence_core::desk::Desk;
use sequence_core::fault::NewFault;
use signal_board::board::Pass;
use span_key::Memory;
use std::alloc::Global;
use std::collections::VecDeque;
use waiter::{Core, Ending};

/// What the requests share, the desk, pass w - 1 of each session w, the live names in the order of their opening, and whether some live
/// request may have a cause: where that is false, none has.
pub(crate) struct StepRun<'s> {
    pub(crate) core: Core,
    pub(crate) desk: Desk,
    pub(crate) passes: Vec<Pass>,
    pub(crate) lives: VecDeque<Live<'s>>,
    pub(crate) some_cause: bool,
}

/// A run without commands, on a desk of these sizes.
pub(crate) fn start<'s>(alloc: Global, sizes: Sizes) -> Result<StepRun<'s>, Memory>
    requires room { HasProgramRoom sizes }
    requires bounds { bad_size sizes ≡ None }
    ensures sound { IfOk result (λ run. Sound 0 (seen_run run)) }
    ensures stands { IfOk result (λ run. Stands start (seen_run run)) }
{
    match Desk::new(alloc, sizes) {
        Ok((core, desk, passes)) => Ok(StepRun {
            core,
            desk,
            passes,
            lives: VecDeque::new(alloc),
            some_cause: false,
        }),
        Err(NewFault::Memory) => Err(Memory),
        Err(NewFault::BadSizes { which: _ }) => unreachable!(),
    }
}

/// Gives back a value that was lent, and notes whether its request has a cause.
pub(crate) fn give_back(run: &mut StepRun, i: usize, value: Value)
    requires { (l : LiveSays) × (slice_get (seen_run run.old).lives i ≡ Some l) × (l.value ≡ Value.Over) }
    ensures { seen_run run.new ≡ given_back i value (seen_run run.old) }
{
    run.some_cause = run.some_cause || !is_none(cause_of(&value));
    put(&mut run.lives, i, value);
}

/// Ends a request that was lent.
pub(crate) fn end(run: &mut StepRun, ending: Ending)
    requires sound { Sound ending.r.who (seen_run run.old) }
    requires core { ending.core ≡ id_of run.old.core }
    requires session { (1 ≤ ending.r.who) × (ending.r.who ≤ SESSION_LIMIT) }
    ensures sound { Sound 0 (seen_run run.new) }
    ensures log { run.new.desk.log ≡ run.old.desk.log ++ end_entry ending ∷ [] }
    ensures lives { run.new.lives.items ≡ run.old.lives.items }
{
    let place = ending.who() as usize - 1;
    run.desk.end(&run.core, &mut run.passes[place], ending);
}

/// Ends the request of a value that was lent, unless it is over. Where it had a cause, the run looks whether a live request still has one.
pub(crate) fn end_value(run: &mut StepRun, value: Box<Value>)
    requires sound { Sound (lent_by value.value) (seen_run run.old) }
    requires value { (who : ℕ) × (1 ≤ who) × (who ≤ SESSION_LIMIT) × IsOf (id_of run.old.core) who value.value }
    ensures sound { Sound 0 (seen_run run.new) }
    ensures log { run.new.desk.log ≡ ended_with value.value run.old.desk.log }
    ensures lives { run.new.lives.items ≡ run.old.lives.items }
{
    let had_cause = !is_none(cause_of(&*value));
    end_lent(run, value);
    if had_cause {
        run.some_cause = some_cause(&run.lives);
    }
}

// The same, but that the run doesn't look.
fn end_lent(run: &mut StepRun, value: Box<Value>)
    requires sound { Sound (lent_by value.value) (seen_run run.old) }
    requires value { (who : ℕ) × (1 ≤ who) × (who ≤ SESSION_LIMIT) × IsOf (id_of run.old.core) who value.value }
    ensures sound { Sound 0 (seen_run run.new) }
    ensures log { run.new.desk.log ≡ ended_with value.value run.old.desk.log }
    ensures lives { run.new.lives.items ≡ run.old.lives.items }
{
    match ending(&run.core, Box::into_inner(value)) {
        Some(ending) => end(run, ending),
        None => {}
    }
}

/// Ends all requests and the desk. Where there is no live name, the history is that of the run.
pub(crate) fn close(run: StepRun) -> History
    requires { Sound 0 (seen_run run) }
    ensures { run.entry.lives.items ≡ [] → result.entries ≡ run.entry.desk.log }
{
    let mut run = run;
    while let Some(live) = run.lives.pop_back() {
        let Live {
            name: _,
            session: _,
            mode: _,
            turns: _,
            value,
        } = live;
        end_value(&mut run, value);
    }
    let StepRun {
        core,
        desk,
        passes,
        lives,
        some_cause: _,
    } = run;
    lives.destroy_empty();
    desk.close(core, passes)
}
