// The opening of a request.
ghost use Rattle.std.specs.Prelude.{◌≡◌, ℕ, ◌≤◌, ◌+◌, ◌<◌, ◌++◌, [], ◌∷◌, codes, decimal, false, map, length, Some, IfOk, OnOk};
ghost use Rattle.std.specs.VecDeque.{deque_capacity, deque_len};
ghost use Rattle.std.specs.Prelude.{IfErr, OnErr, slice_get};
ghost use Rattle.latch_model.specs.Declaration.{Declaration};
ghost use Rattle.report.specs.Words.{numbers_text};
ghost use Rattle.script.specs.declared.limits.TheConstants.{SESSION_LIMIT};
ghost use Rattle.sequence_core.specs.Says.{LacksRows, next_entry};
ghost use Rattle.step_run.specs.Faults.{StopsBy};
ghost use Rattle.step_run.specs.Lives.{IsOf, LiveSays, has_name, has_open, seen_live};
ghost use Rattle.step_run.specs.Openings.{IsBegun, TurnsRange, begun_request, begun_value, opening_of, opening_text};
ghost use Rattle.step_run.specs.Runs.{Makes, Sound, Stands};
ghost use Rattle.step_run.specs.Seen.{seen_run};
ghost use Rattle.step_run.specs.State.{Named, State};
ghost use Rattle.step_run.specs.Steps.{first_phase, first_turn as first_step, opening as opening_step};
ghost use Rattle.step_run.specs.Texts.{named_line};
ghost use Rattle.waiter.specs.Says.{id_of};

use crate::command::wait_at;
use crate::fault::{RunFault, run_fault};
use crate::lines::opening_line;
use crate::live::{Live, Value, fill, leave, new_room};
use crate::run::StepRun;
use latch_model::latch::Mode;
use latch_model::request::Request;
use script::command::Name;
use span_key::Memory;
use std::alloc::Global;
use waiter::Core;

/// What opens a request.
#[derive(Clone, Copy)]
pub(crate) struct Opening<'s> {
    pub(crate) name: &'s Name,
    pub(crate) session: u32,
    pub(crate) mode: Mode,
    pub(crate) turns: Option<u32>,
}

/// Opens a request that this line declares: its begin is in the history, and one that waits has its first turn.
pub(crate) fn open<'s>(
    alloc: Global,
    run: &mut StepRun<'s>,
    opening: Opening<'s>,
    request: Request,
    out: &mut Vec<u8>,
) -> Result<(), RunFault>
    requires sound { Sound 0 (seen_run run.old) }
    requires idle { has_name opening.session (seen_run run.old).lives ≡ false }
    requires session { (1 ≤ opening.session) × (opening.session ≤ SESSION_LIMIT) }
    requires few { length request.latches ≤ 16 }
    ensures sound { Sound 0 (seen_run run.new) }
    ensures stops { IfErr result (StopsBy (LacksRows opening.entry.mode request.latches)) }
    ensures opened { (s : State) → Stands s (seen_run run.old) → s.line ≡ request.tag → TurnsRange opening.entry.turns →
        OnOk result (Makes (opening_step s opening.entry.session opening.entry.name.now opening.entry.mode request.policy opening.entry.turns request.latches)
        (seen_run run.new) out.old.items out.new.items) }
{
    run.lives.reserve(1)?;
    let room = new_room(alloc)?;
    let value = begin_in(alloc, run, room, opening.session, request, opening.mode)?;
    let i = run.lives.len();
    push(run, opening, value);
    write_opening(alloc, run, i, out)?;
    Ok(first_turn(run, i, opening.mode, out)?)
}

// The request begins, and its value goes into the room that was made for it.
fn begin_in(
    alloc: Global,
    run: &mut StepRun,
    room: Box<Value>,
    session: u32,
    request: Request,
    mode: Mode,
) -> Result<Box<Value>, RunFault>
    requires sound { Sound 0 (seen_run run.old) }
    requires idle { has_open session (seen_run run.old).lives ≡ false }
    requires session { (1 ≤ session) × (session ≤ SESSION_LIMIT) }
    requires few { length request.latches ≤ 16 }
    requires room { room.value ≡ Value.Over }
    ensures lent { OnOk result (Sound session (seen_run run.new)) }
    ensures refused { OnErr result (Sound 0 (seen_run run.new)) }
    ensures stops { IfErr result (StopsBy (LacksRows mode request.latches)) }
    ensures lives { (run.new.lives ≡ run.old.lives) × (run.new.core ≡ run.old.core) × (run.new.lives.items ≡ run.old.lives.items) }
    ensures log { OnOk result (run.new.desk.log ≡ run.old.desk.log ++ next_entry run.old.desk.log session mode request ∷ []) }
    ensures value { IfOk result (λ b. b.value ≡ begun_value (id_of run.old.core) mode (begun_request run.old.desk.log session mode request)) }
{
    match begin(alloc, run, session, request, mode) {
        Ok(value) => Ok(fill(room, value)),
        Err(fault) => {
            leave(room);
            Err(fault)
        }
    }
}

// The request begins, on the pass of its session.
fn begin(
    alloc: Global,
    run: &mut StepRun,
    session: u32,
    request: Request,
    mode: Mode,
) -> Result<Value, RunFault>
    requires sound { Sound 0 (seen_run run.old) }
    requires idle { has_open session (seen_run run.old).lives ≡ false }
    requires session { (1 ≤ session) × (session ≤ SESSION_LIMIT) }
    requires few { length request.latches ≤ 16 }
    ensures lent { OnOk result (Sound session (seen_run run.new)) }
    ensures refused { OnErr result (Sound 0 (seen_run run.new)) }
    ensures stops { IfErr result (StopsBy (LacksRows mode request.latches)) }
    ensures lives { (run.new.lives ≡ run.old.lives) × (run.new.core ≡ run.old.core) × (run.new.lives.items ≡ run.old.lives.items) }
    ensures log { OnOk result (run.new.desk.log ≡ run.old.desk.log ++ next_entry run.old.desk.log session mode request ∷ []) }
    ensures value { IfOk result (λ value. value ≡ begun_value (id_of run.old.core) mode (begun_request run.old.desk.log session mode request)) }
{
    let place = session as usize - 1;
    match run
        .desk
        .begin(alloc, &run.core, &mut run.passes[place], request, mode)
    {
        Ok(opened) => Ok(match mode {
            Mode::Optimistic => Value::Optimist(opened.optimist()),
            Mode::Acquire | Mode::Look => Value::Waiting(opened.waiting()),
        }),
        Err(refusal) => Err(run_fault(refusal)),
    }
}

// The request gets a live name, for which there is room.
fn push<'s>(run: &mut StepRun<'s>, opening: Opening<'s>, value: Box<Value>)
    requires { deque_len run.old.lives < deque_capacity run.old.lives }
    ensures lives { (seen_run run.new).lives ≡ (seen_run run.old).lives ++ opening_of opening.entry value.value ∷ [] }
    ensures others { (run.new.core ≡ run.old.core) × (run.new.desk ≡ run.old.desk) × (run.new.passes.items ≡ run.old.passes.items)
        × (run.new.some_cause ≡ run.old.some_cause) }
    ensures len { length run.new.lives.items ≡ length run.old.lives.items + 1 }
{
    let live = Live {
        name: opening.name,
        session: opening.session,
        mode: opening.mode,
        turns: opening.turns,
        value,
    };
    match run.lives.push_back(live) {
        Ok(()) => {}
        Err(_refused) => unreachable!(),
    }
}

// The line of a request that has begun just now.
fn write_opening(
    alloc: Global,
    run: &mut StepRun,
    i: usize,
    out: &mut Vec<u8>,
) -> Result<(), Memory>
    requires sound { Sound 0 (seen_run run.old) }
    requires begun { (l : LiveSays) × (slice_get (seen_run run.old).lives i ≡ Some l) × IsBegun l.value }
    ensures run { seen_run run.new ≡ seen_run run.old }
    ensures line { (l : LiveSays) → slice_get (seen_run run.old).lives i ≡ Some l → OnOk result (out.new.items ≡ out.old.items
        ++ named_line l.name (opening_text l.value)) }
{
    let live = &mut run.lives[i];
    begun_line(alloc, &run.core, live.name, &mut *live.value, out)
}

// The same of its value.
fn begun_line(
    alloc: Global,
    core: &Core,
    name: &Name,
    value: &mut Value,
    out: &mut Vec<u8>,
) -> Result<(), Memory>
    requires begun { IsBegun value.old }
    requires core { (who : ℕ) × IsOf (id_of core.now) who value.old }
    ensures value { value.new ≡ value.old }
    ensures line { OnOk result (out.new.items ≡ out.old.items ++ named_line name.now (opening_text value.old)) }
{
    match value {
        Value::Optimist(optimist) => {
            let before = optimist.prerequisites(alloc, core)?;
            opening_line(name, optimist.id(), before.as_slice(), out)
        }
        Value::Waiting(waiting) => {
            let before = waiting.prerequisites(alloc, core)?;
            opening_line(name, waiting.id(), before.as_slice(), out)
        }
        Value::Granted(_) | Value::Over => unreachable!(),
    }
}

// The first turn of a request, unless it is optimistic.
fn first_turn(run: &mut StepRun, i: usize, mode: Mode, out: &mut Vec<u8>) -> Result<(), Memory>
    requires sound { Sound 0 (seen_run run.old) }
    requires inside { i < length run.old.lives.items }
    ensures sound { Sound 0 (seen_run run.new) }
    ensures turn { (s : State) (n : Named) → Stands s (seen_run run.old) → slice_get s.names i ≡ Some n → n.phase ≡ first_phase mode →
        OnOk result (Makes (first_step mode n s) (seen_run run.new) out.old.items out.new.items) }
{
    match mode {
        Mode::Acquire | Mode::Look => wait_at(run, i, out),
        Mode::Optimistic => Ok(()),
    }
}
