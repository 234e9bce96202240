// A script run by sessions on threads of their own, on one desk.
ghost use Rattle.std.specs.Prelude.{◌≡◌, ℕ, false, All, List, length, IfErr, IfOk, None, OnOk};
ghost use Rattle.latch_model.specs.Histories.{is_open};
ghost use Rattle.latch_model.specs.Legal.{IsLegal};
ghost use Rattle.script.specs.Follows.{FollowsScript};
ghost use Rattle.script.specs.Scripts.{IsScript};
ghost use Rattle.script.specs.declared.command.Command.{Command};
ghost use Rattle.sequence_core.specs.Bounds.{bad_size};
ghost use Rattle.sequence_core.specs.Says.{AreFresh};
ghost use Rattle.step_run.specs.Faults.{ScriptLacks, StopsBy};
ghost use Rattle.step_run.specs.Runs.{HasProgramRoom};
ghost use Rattle.waiter.specs.Says.{id_of};
ghost use Rattle.replay.specs.Running.{FollowsIn, Fresh, Rested, lane_numbers, program_sizes, whos};

use crate::crew::crew;
use latch_manager::gate::Gate;
use latch_manager::manager::{Making, Manager};
use latch_model::history::{History, Sizes};
use script::command::Script;
use sequence_core::desk::Desk;
use sequence_core::fault::NewFault;
use signal_board::board::Pass;
use std::alloc::Global;
use std::marker::Brand;
use std::sync::Wait;
use std::thread::Threads;
pub use step_run::PROGRAM_SIZES;
use step_run::{FIRST_SIZES, RunFault};
use waiter::Core;

/// Runs each session's commands in their order, in a worker of its own, and waits for all of them; where a worker can't be started, the caller runs that
/// session itself. Session w uses the pass with number w, and a request's tag is the number of the line that opened it. A session to which rows or memory are
/// refused ends what it has open and stops, while the others go on; the fault of the least such session is answered. Too few rows are answered only where an
/// opening of the script needs more than were free. In the end no pass has an open request.
pub fn sessions<N: Making + Send + Sync, G: Gate, R: Threads + Wait + Sync>(
    rt: &R,
    alloc: Global,
    script: &Script,
    manager: &Manager<N>,
    passes: &mut [Pass],
    gate: &G,
) -> Result<(), RunFault>
    requires sizes { HasProgramRoom N.made.sizes }
    requires passes { AreFresh N.made.core.signals 64 passes.old }
    ensures whos { whos passes.new ≡ whos passes.old }
    ensures rested { All (Rested N.made.core.signals) passes.new }
    ensures follows { OnOk result (All (FollowsIn script.now) passes.new) }
    ensures stops { IfErr result (StopsBy (ScriptLacks script.now)) }
{
    let sessions = script.sessions(alloc)?;
    crew(
        rt,
        alloc,
        script.commands(),
        sessions.as_slice(),
        manager,
        passes,
        gate,
    )
}

// The manager of a making, and what becomes of its passes.
fn within<N: Making + Send + Sync, G: Gate, R: Threads + Wait + Sync>(
    rt: &R,
    alloc: Global,
    script: &Script,
    core: Core,
    desk: Desk,
    passes: &mut Vec<Pass>,
    gate: &G,
) -> (Core, Desk, Result<(), RunFault>)
    requires core { (id_of core ≡ N.made.core) × (core.board.sizes ≡ N.made.sizes) }
    requires desk { (desk.core ≡ N.made.core) × (desk.sizes ≡ N.made.sizes) }
    requires sizes { HasProgramRoom N.made.sizes }
    requires passes { AreFresh N.made.core.signals 64 passes.old.items }
    ensures core { (id_of result.0 ≡ N.made.core) × (result.0.board.sizes ≡ N.made.sizes) }
    ensures desk { (result.1.core ≡ N.made.core) × (result.1.sizes ≡ N.made.sizes) }
    ensures whos { whos passes.new.items ≡ whos passes.old.items }
    ensures rested { All (Rested N.made.core.signals) passes.new.items }
    ensures follows { OnOk result.2 (All (FollowsIn script.now) passes.new.items) }
    ensures stops { IfErr result.2 (StopsBy (ScriptLacks script.now)) }
{
    let manager = Manager::<N>::new(core, desk);
    let ran = sessions(rt, alloc, script, &manager, passes.as_mut_slice(), gate);
    let (core, desk) = manager.into_parts();
    (core, desk, ran)
}

/// Runs a script with a worker for each session. The history that comes out is legal, no request of it is open, and it follows the script: each session's
/// entries are those of its commands, in their order, and no entry is of another. Too few rows are answered only where an opening of the script needs more
/// than were free: a script to which rows are refused is run again from its start, on the program's whole pool, and its gate meets the lines again. No rule on
/// histories asks for rows, so the history is given the program's sizes in both cases.
pub fn replay<G: Gate, R: Threads + Wait + Sync>(
    rt: &R,
    alloc: Global,
    script: &Script,
    gate: &G,
) -> Result<History, RunFault>
    ensures sizes { IfOk result (λ h. h.sizes ≡ program_sizes) }
    ensures legal { IfOk result (λ h. IsLegal h.entries h.sizes) }
    ensures closed { IfOk result (λ h. (id : ℕ) → is_open h.entries id ≡ false) }
    ensures follows { IfOk result (λ h. FollowsScript h.entries script.now) }
    ensures stops { IfErr result (StopsBy (ScriptLacks script.now)) }
{
    match replay_on(rt, alloc, script, gate, FIRST_SIZES) {
        Err(RunFault::RowsOut { .. }) => replay_on(rt, alloc, script, gate, PROGRAM_SIZES),
        answered => answered,
    }
}

// One run on a desk of these sizes.
fn replay_on<G: Gate, R: Threads + Wait + Sync>(
    rt: &R,
    alloc: Global,
    script: &Script,
    gate: &G,
    sizes: Sizes,
) -> Result<History, RunFault>
    requires room { HasProgramRoom sizes }
    requires bounds { bad_size sizes ≡ None }
    ensures sizes { IfOk result (λ h. h.sizes ≡ program_sizes) }
    ensures legal { IfOk result (λ h. IsLegal h.entries h.sizes) }
    ensures closed { IfOk result (λ h. (id : ℕ) → is_open h.entries id ≡ false) }
    ensures follows { IfOk result (λ h. FollowsScript h.entries script.now) }
    ensures stops { IfErr result (StopsBy (ScriptLacks script.now)) }
{
    match Desk::new(alloc, sizes) {
        Err(NewFault::Memory) => Err(RunFault::Memory),
        Err(NewFault::BadSizes { which: _ }) => unreachable!(),
        Ok((core, desk, mut passes)) => {
            let _keeps_the_rules = script.commands();
            let (core, desk, ran) = within::<Brand, G, R>(
                rt,
                alloc,
                script,
                core,
                desk,
                &mut passes,
                gate,
            );
            let history = finish(core, desk, passes);
            match ran {
                Ok(()) => Ok(history),
                Err(fault) => Err(fault),
            }
        }
    }
}

// Closes the desk with all its passes. Its history is given the program's sizes.
fn finish(core: Core, desk: Desk, passes: Vec<Pass>) -> History
    requires core { desk.core ≡ id_of core }
    requires room { HasProgramRoom desk.sizes }
    requires whos { whos passes.items ≡ lane_numbers 64 }
    requires rested { All (Rested desk.core.signals) passes.items }
    ensures sizes { result.sizes ≡ program_sizes }
    ensures legal { IsLegal result.entries result.sizes }
    ensures closed { (id : ℕ) → is_open result.entries id ≡ false }
    ensures follows { (cs : List Command) → IsScript cs → All (FollowsIn cs) passes.items → FollowsScript result.entries cs }
{
    desk.known();
    let History { entries, sizes: _ } = desk.close(core, passes);
    History {
        entries,
        sizes: PROGRAM_SIZES,
    }
}
