//! The step run of a script: its commands are run one after another on a desk, without any wait, session w by pass w, and what each
//! writes is proved to be what the definition of the step output says. All requests are ended and the desk is closed before it answers.
#![tactic(auto)]

mod command;
mod count;
mod fault;
mod hear;
mod last;
mod lines;
mod live;
mod open;
mod run;
mod sizes;
mod turn;

ghost use Rattle.std.specs.Prelude.{◌≡◌, [], IfErr, IfOk, None, OnOk};
ghost use Rattle.sequence_core.specs.Bounds.{bad_size};
ghost use Rattle.step_run.specs.Faults.{ScriptLacks, StopsBy};
ghost use Rattle.step_run.specs.Lines.{EndsLine};
ghost use Rattle.step_run.specs.Runs.{HasProgramRoom, Sound, Stands};
ghost use Rattle.step_run.specs.Seen.{seen_run};
ghost use Rattle.step_run.specs.State.{start};
ghost use Rattle.step_run.specs.Steps.{run as run_of, step_output};

use crate::command::step;
use crate::count::summary;
pub use crate::fault::{RunFault, run_fault};
pub use crate::last::last_line;
use crate::run::{StepRun, close, start};
pub use crate::sizes::{FIRST_SIZES, PROGRAM_SIZES};
use latch_model::history::{History, Sizes};
use script::command::Script;
use std::alloc::Global;

/// Runs a script step by step: each command is run to its end before the next, and a wait is one turn. The bytes are the step output,
/// whose last line counts how many requests began and how many ended in each way. Too few rows are answered only where an opening of the
/// script needs more than were free: a script to which rows are refused is run again from its start, on the program's whole pool.
pub fn run_step(alloc: Global, script: &Script) -> Result<Vec<u8>, RunFault>
    ensures output { IfOk result (λ out. out.items ≡ step_output script.now) }
    ensures ends { IfOk result (λ out. EndsLine out.items) }
    ensures stops { IfErr result (StopsBy (ScriptLacks script.now)) }
{
    let (output, _history) = run_recorded(alloc, script)?;
    Ok(output)
}

/// The same, and the history of the run, in which no request is open.
pub fn run_recorded(alloc: Global, script: &Script) -> Result<(Vec<u8>, History), RunFault>
    ensures output { IfOk result (λ x. x.0.items ≡ step_output script.now) }
    ensures ends { IfOk result (λ x. EndsLine x.0.items) }
    ensures history { IfOk result (λ x. x.1.entries ≡ (run_of start script.now).state.history) }
    ensures stops { IfErr result (StopsBy (ScriptLacks script.now)) }
{
    match run_on(alloc, script, FIRST_SIZES) {
        Err(RunFault::RowsOut { .. }) => run_on(alloc, script, PROGRAM_SIZES),
        answered => answered,
    }
}

// One run on a desk of these sizes; the last line of what it writes isn't looked at.
fn run_on(alloc: Global, script: &Script, sizes: Sizes) -> Result<(Vec<u8>, History), RunFault>
    requires room { HasProgramRoom sizes }
    requires bounds { bad_size sizes ≡ None }
    ensures output { IfOk result (λ x. x.0.items ≡ step_output script.now) }
    ensures history { IfOk result (λ x. x.1.entries ≡ (run_of start script.now).state.history) }
    ensures stops { IfErr result (StopsBy (ScriptLacks script.now)) }
{
    let mut run = start(alloc, sizes)?;
    let mut out = Vec::new(alloc);
    let done = run_all(alloc, &mut run, script, &mut out);
    let history = close(run);
    done?;
    summary(history.entries.as_slice()).summary_text(&mut out)?;
    Ok((out, history))
}

// All commands of a script, one after another.
fn run_all<'s>(
    alloc: Global,
    run: &mut StepRun<'s>,
    script: &'s Script,
    out: &mut Vec<u8>,
) -> Result<(), RunFault>
    requires sound { Sound 0 (seen_run run.old) }
    requires start { Stands start (seen_run run.old) }
    requires empty { out.old.items ≡ [] }
    ensures sound { Sound 0 (seen_run run.new) }
    ensures written { OnOk result (out.new.items ≡ (run_of start script.now).written) }
    ensures history { OnOk result (run.new.desk.log ≡ (run_of start script.now).state.history) }
    ensures lives { OnOk result (run.new.lives.items ≡ []) }
    ensures stops { IfErr result (StopsBy (ScriptLacks script.now)) }
{
    for (i, command) in script.commands().iter().enumerate() {
        step(alloc, run, i as u32 + 2, command, out)?;
    }
    Ok(())
}

#[cfg(test)]
mod tests;
