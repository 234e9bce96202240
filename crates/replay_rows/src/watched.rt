// Runs of a script on a manager that the gate sees.
ghost use Rattle.std.specs.Prelude.{◌≡◌, All};
ghost use Rattle.sequence_core.specs.Says.{AreFresh};
ghost use Rattle.step_run.specs.Runs.{HasProgramRoom};
ghost use Rattle.waiter.specs.Says.{id_of};
ghost use Rattle.replay.specs.Running.{Rested, lane_numbers, whos};

use crate::gates::{Hold, Watching};
use latch_manager::manager::{Making, Manager};
use latch_model::history::History;
use replay::run::{PROGRAM_SIZES, sessions};
use script::Script;
use sequence_core::desk::Desk;
use signal_board::board::Pass;
use std::alloc::Global;
use std::marker::Brand;
use std::process::Abort;
use std::sync::Wait;
use std::thread::Threads;
use step_run::RunFault;
use waiter::Core;

/// In front of this line the gate waits until the manager counts so many latches.
#[derive(Clone, Copy)]
pub(crate) struct Watch<'s> {
    pub(crate) holds: &'s [Hold],
    pub(crate) line: u32,
    pub(crate) held: u32,
}

// The sessions run. Beside that, how many holds ran out.
fn run_watched<N: Making + Send + Sync, R: Threads + Wait + Sync>(
    rt: &R,
    alloc: Global,
    script: &Script,
    manager: &Manager<N>,
    passes: &mut [Pass],
    watch: &Watch,
) -> (Result<(), RunFault>, u64)
    requires sizes { HasProgramRoom N.made.sizes }
    requires passes { AreFresh N.made.core.signals 64 passes.old }
    ensures whos { whos passes.new ≡ whos passes.old }
    ensures rested { All (Rested N.made.core.signals) passes.new }
{
    let gate = Watching::new(manager, watch.holds, watch.line, watch.held);
    let ran = sessions(rt, alloc, script, manager, passes, &gate);
    (ran, gate.ran_out())
}

// The manager of a making, and what becomes of its passes.
fn within<N: Making + Send + Sync, R: Threads + Wait + Sync>(
    rt: &R,
    alloc: Global,
    script: &Script,
    core: Core,
    desk: Desk,
    passes: &mut Vec<Pass>,
    watch: &Watch,
) -> (Core, Desk, Result<(), RunFault>, u64)
    requires core { (id_of core ≡ N.made.core) × (core.board.sizes ≡ N.made.sizes) }
    requires desk { (desk.core ≡ N.made.core) × (desk.sizes ≡ N.made.sizes) }
    requires sizes { HasProgramRoom N.made.sizes }
    requires passes { AreFresh N.made.core.signals 64 passes.old.items }
    ensures core { (id_of result.0 ≡ N.made.core) × (result.0.board.sizes ≡ N.made.sizes) }
    ensures desk { (result.1.core ≡ N.made.core) × (result.1.sizes ≡ N.made.sizes) }
    ensures whos { whos passes.new.items ≡ whos passes.old.items }
    ensures rested { All (Rested N.made.core.signals) passes.new.items }
{
    let manager = Manager::<N>::new(core, desk);
    let (ran, ran_out) = run_watched(rt, alloc, script, &manager, passes.as_mut_slice(), watch);
    let (core, desk) = manager.into_parts();
    (core, desk, ran, ran_out)
}

fn close(core: Core, desk: Desk, passes: Vec<Pass>) -> History
    requires core { desk.core ≡ id_of core }
    requires sizes { HasProgramRoom desk.sizes }
    requires whos { whos passes.items ≡ lane_numbers 64 }
    requires rested { All (Rested desk.core.signals) passes.items }
{
    desk.known();
    desk.close(core, passes)
}

/// Runs a script with a gate that sees the manager. Beside its history, how many holds ran out.
pub(crate) fn watched<R: Threads + Wait + Sync + Abort>(
    rt: &R,
    alloc: Global,
    script: &Script,
    watch: &Watch,
) -> (History, u64) {
    let (core, desk, mut passes) = match Desk::new(alloc, PROGRAM_SIZES) {
        Ok(made) => made,
        Err(_) => panic!(rt; "the sizes are good"),
    };
    let (core, desk, ran, ran_out) = within::<Brand, R>(
        rt,
        alloc,
        script,
        core,
        desk,
        &mut passes,
        watch,
    );
    let history = close(core, desk, passes);
    assert!(rt; ran.is_ok());
    (history, ran_out)
}
