// A worker for each session.
ghost use Rattle.std.specs.Prelude.{◌≡◌, ◌<◌, ◌^◌, All, length, map, IfErr, IfOk, MatchResult, OnOk};
ghost use Rattle.std.specs.Thread.{IsSync};
ghost use Rattle.script.specs.Scripts.{IsScript};
ghost use Rattle.script.specs.Sessions.{AreSessions};
ghost use Rattle.step_run.specs.Faults.{ScriptLacks, StopsBy};
ghost use Rattle.step_run.specs.Runs.{HasProgramRoom};
ghost use Rattle.replay.specs.Running.{FollowsIn, Fresh, Rested, whos};

use crate::session::run_session;
use latch_manager::gate::Gate;
use latch_manager::manager::{Making, Manager};
use script::command::Command;
use signal_board::board::Pass;
use std::alloc::Global;
use std::sync::Wait;
use std::thread::{Threads, join_mut};
use step_run::RunFault;

/// Runs the session of each of these passes in a worker of its own, where the list of sessions tells the commands of each. The first half of them runs beside
/// the second, and so on by halves; where a worker can't be started, the caller runs its sessions itself.
pub(crate) fn crew<N: Making + Send + Sync, G: Gate, R: Threads + Wait + Sync>(
    rt: &R,
    alloc: Global,
    commands: &[Command],
    sessions: &[u32],
    manager: &Manager<N>,
    passes: &mut [Pass],
    gate: &G,
) -> Result<(), RunFault>
    requires script { IsScript commands.now }
    requires few { length commands.now < 2 ^ 31 }
    requires sessions { AreSessions commands.now sessions.now }
    requires sizes { HasProgramRoom N.made.sizes }
    requires fresh { All (Fresh N.made.core.signals) passes.old }
    ensures whos { whos passes.new ≡ whos passes.old }
    ensures rested { All (Rested N.made.core.signals) passes.new }
    ensures follows { OnOk result (All (FollowsIn commands.now) passes.new) }
    ensures stops { IfErr result (StopsBy (ScriptLacks commands.now)) }
{
    if passes.len() < 2 {
        return alone(rt, alloc, commands, sessions, manager, passes, gate);
    }
    let (front, back) = passes.split_at_mut(passes.len() / 2);
    let (first, second) = join_mut(
        rt,
        &mut ||
            requires { IsSync R.row × IsSync N.row × IsSync G.row × IsScript commands.now × (length commands.now < 2 ^ 31) × AreSessions commands.now sessions.now
                × HasProgramRoom N.made.sizes × All (Fresh N.made.core.signals) front.now }
            ensures whos { whos front.exit.now ≡ whos front.entry.now }
            ensures rested { All (Rested N.made.core.signals) front.exit.now }
            ensures follows { OnOk result (All (FollowsIn commands.entry.now) front.exit.now) }
            ensures stops { IfErr result (StopsBy (ScriptLacks commands.entry.now)) }
        { crew(rt, alloc, commands, sessions, manager, front, gate) },
        &mut ||
            requires { IsSync R.row × IsSync N.row × IsSync G.row × IsScript commands.now × (length commands.now < 2 ^ 31) × AreSessions commands.now sessions.now
                × HasProgramRoom N.made.sizes × All (Fresh N.made.core.signals) back.now }
            ensures whos { whos back.exit.now ≡ whos back.entry.now }
            ensures rested { All (Rested N.made.core.signals) back.exit.now }
            ensures follows { OnOk result (All (FollowsIn commands.entry.now) back.exit.now) }
            ensures stops { IfErr result (StopsBy (ScriptLacks commands.entry.now)) }
        { crew(rt, alloc, commands, sessions, manager, back, gate) },
    );
    both(first, second)
}

// The sessions of at most one pass.
fn alone<N: Making, G: Gate, R: Wait>(
    rt: &R,
    alloc: Global,
    commands: &[Command],
    sessions: &[u32],
    manager: &Manager<N>,
    passes: &mut [Pass],
    gate: &G,
) -> Result<(), RunFault>
    requires script { IsScript commands.now }
    requires few { length commands.now < 2 ^ 31 }
    requires sessions { AreSessions commands.now sessions.now }
    requires sizes { HasProgramRoom N.made.sizes }
    requires fresh { All (Fresh N.made.core.signals) passes.old }
    requires one { length passes.old < 2 }
    ensures whos { whos passes.new ≡ whos passes.old }
    ensures rested { All (Rested N.made.core.signals) passes.new }
    ensures follows { OnOk result (All (FollowsIn commands.now) passes.new) }
    ensures stops { IfErr result (StopsBy (ScriptLacks commands.now)) }
{
    if passes.len() == 0 {
        return Ok(());
    }
    run_session(rt, alloc, commands, sessions, manager, &mut passes[0], gate)
}

// Both were done, or rows or memory were refused to one of them: to the first, if it was to both.
fn both(first: Result<(), RunFault>, second: Result<(), RunFault>) -> Result<(), RunFault>
    ensures first { OnOk result (first ≡ Ok tt) }
    ensures second { OnOk result (second ≡ Ok tt) }
    ensures least { MatchResult first (λ _. result ≡ second) (λ fault. result ≡ Err fault) }
{
    first?;
    second
}
