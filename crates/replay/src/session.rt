// The commands of a session, one after another.
ghost use Rattle.std.specs.Prelude.{◌≡◌, ◌≢◌, ℕ, ◌+◌, ◌<◌, ◌≤◌, ◌^◌, [], ◌∷◌, ◌++◌, true, List, Option, Some, length, slice_get, IfErr, IfOk, IfSome, OnOk, OnErr};
ghost use Rattle.latch_model.specs.declared.latch.TheConstants.Latches.{LIMIT};
ghost use Rattle.script.specs.Follows.{Block, Follows, blocks_of, is_of};
ghost use Rattle.replay.specs.Blocks.{new_block};
ghost use Rattle.script.specs.Scripts.{IsScript};
ghost use Rattle.sequence_core.specs.Says.{LacksRows};
ghost use Rattle.signal_board.specs.Rule.{open_count, own};
ghost use Rattle.signal_board.specs.Says.{PassSays};
ghost use Rattle.replay.specs.Running.{Fresh, IsAt, IsFit, IsNext, Keeps, NextHand, Ran, SomeTurns, live_behind};
ghost use Rattle.replay.specs.Running.{turns_at, turns_of};
ghost use Rattle.step_run.specs.Faults.{OpeningLacks, ScriptLacks, StopsBy};
ghost use Rattle.step_run.specs.Runs.{HasProgramRoom};
ghost use Rattle.script.specs.Sessions.{AreSessions};
ghost use Rattle.script.specs.declared.command.Command.{Command as AnyCommand};
ghost use Rattle.replay.specs.Sessions.{HandGiven, Standing};
ghost use Rattle.replay.specs.declared.hand.Hand.{Hand as IsHand};
ghost use Rattle.replay.specs.declared.hand.Hand.TheVariants.{Idle};

use crate::hand::{Hand, acquire, check, look, optimistic, poison, release, wait};
use latch_manager::gate::Gate;
use latch_manager::manager::{Making, Manager};
use latch_model::latch::{Latches, Mode, Policy};
use latch_model::request::Request;
use script::command::Command;
use signal_board::board::Pass;
use span_key::Memory;
use std::alloc::Global;
use std::sync::Wait;
use step_run::RunFault;

// One command of the session. Where rows or memory are refused, what was open has been ended.
pub(crate) fn run_command<N: Making, R: Wait>(
    rt: &R,
    alloc: Global,
    manager: &Manager<N>,
    pass: &mut Pass,
    hand: Hand,
    turns: Option<u32>,
    command: &Command,
    line: u32,
) -> Result<Hand, RunFault>
    requires sizes { HasProgramRoom N.made.sizes }
    requires table { pass.old.table ≡ N.made.core.signals }
    requires given { HandGiven N.made.core pass.old.p hand }
    requires turns { SomeTurns turns }
    requires command { IsFit command.now }
    ensures keeps { Keeps pass.old pass.new }
    ensures given { IfOk result (HandGiven N.made.core pass.new.p) }
    ensures ran { IfOk result (λ next. Ran N.made.core line turns command.now pass.old hand pass.new next) }
    ensures tied { IfOk result (NextHand command.now hand) }
    ensures ended { OnErr result (open_count pass.new.p.mine ≡ 0) }
    ensures stops { IfErr result (StopsBy (OpeningLacks command.now)) }
{
    match command {
        Command::Begin {
            session: _,
            name: _,
            mode,
            policy,
            turns: own,
            latches,
        } => open(
            rt, alloc, manager, pass, hand, *mode, *policy, *own, latches, line,
        ),
        Command::Wait { name: _ } => Ok(wait(rt, manager, pass, hand, turns)),
        Command::Check { name: _, latches } => {
            Ok(check(rt, alloc, manager, pass, hand, latches)?)
        }
        Command::Poison { name: _ } => Ok(poison(rt, manager, hand)),
        Command::Release { name: _ } => {
            release(rt, manager, pass, hand);
            Ok(Hand::Idle)
        }
        Command::Metrics => Ok(hand),
    }
}

// An opening. A script has one only where nothing is in hand.
fn open<N: Making, R: Wait>(
    rt: &R,
    alloc: Global,
    manager: &Manager<N>,
    pass: &mut Pass,
    hand: Hand,
    mode: Mode,
    policy: Policy,
    turns: Option<u32>,
    latches: &Latches,
    line: u32,
) -> Result<Hand, RunFault>
    requires sizes { HasProgramRoom N.made.sizes }
    requires table { pass.old.table ≡ N.made.core.signals }
    requires given { HandGiven N.made.core pass.old.p hand }
    requires turns { SomeTurns turns }
    requires few { length latches.now ≤ LIMIT }
    ensures keeps { Keeps pass.old pass.new }
    ensures given { IfOk result (HandGiven N.made.core pass.new.p) }
    ensures stands { IfOk result (λ next. (bs : List Block) → hand ≡ Idle → Standing N.made.core pass.old.p bs Idle →
        Standing N.made.core pass.new.p (bs ++ new_block line mode policy turns latches.now ∷ []) next) }
    ensures some { IfOk result (λ next. next ≢ Idle) }
    ensures ended { OnErr result (open_count pass.new.p.mine ≡ 0) }
    ensures stops { IfErr result (StopsBy (LacksRows mode latches.now)) }
{
    match hand {
        Hand::Idle => begin(rt, alloc, manager, pass, mode, policy, turns, latches, line),
        Hand::Checking(optimist) => Ok(Hand::Checking(optimist)),
        Hand::Holding(granted) => Ok(Hand::Holding(granted)),
        Hand::Over => Ok(Hand::Over),
    }
}

// The request of an opening.
fn begin<N: Making, R: Wait>(
    rt: &R,
    alloc: Global,
    manager: &Manager<N>,
    pass: &mut Pass,
    mode: Mode,
    policy: Policy,
    turns: Option<u32>,
    latches: &Latches,
    line: u32,
) -> Result<Hand, RunFault>
    requires sizes { HasProgramRoom N.made.sizes }
    requires table { pass.old.table ≡ N.made.core.signals }
    requires idle { open_count pass.old.p.mine ≡ 0 }
    requires turns { SomeTurns turns }
    requires few { length latches.now ≤ LIMIT }
    ensures keeps { Keeps pass.old pass.new }
    ensures given { IfOk result (HandGiven N.made.core pass.new.p) }
    ensures stands { IfOk result (λ next. (bs : List Block) → Standing N.made.core pass.old.p bs Idle →
        Standing N.made.core pass.new.p (bs ++ new_block line mode policy turns latches.now ∷ []) next) }
    ensures some { IfOk result (λ next. next ≢ Idle) }
    ensures ended { OnErr result (open_count pass.new.p.mine ≡ 0) }
    ensures stops { IfErr result (StopsBy (LacksRows mode latches.now)) }
{
    let request = declared(alloc, line, policy, latches)?;
    match mode {
        Mode::Acquire => acquire(rt, alloc, manager, pass, request, turns),
        Mode::Optimistic => optimistic(rt, alloc, manager, pass, request),
        Mode::Look => look(rt, alloc, manager, pass, request, turns),
    }
}

// What an opening declares.
fn declared(alloc: Global, line: u32, policy: Policy, latches: &Latches) -> Result<Request, Memory>
    ensures { IfOk result (λ r. r ≡ record { tag = line; policy = policy; latches = latches.now }) }
{
    let copy = latches.copy(alloc)?;
    match Request::new(alloc, line, policy, copy) {
        Ok(request) => Ok(request),
        Err(_refused) => Err(Memory),
    }
}

/// Runs the commands of the session of this pass, which the list of sessions tells. Where rows or memory are refused the session ends what it has open and
/// stops. Its entries are then its own in what its pass has been shown.
pub(crate) fn run_session<N: Making, G: Gate, R: Wait>(
    rt: &R,
    alloc: Global,
    commands: &[Command],
    sessions: &[u32],
    manager: &Manager<N>,
    pass: &mut Pass,
    gate: &G,
) -> Result<(), RunFault>
    requires script { IsScript commands.now }
    requires few { length commands.now < 2 ^ 31 }
    requires sessions { AreSessions commands.now sessions.now }
    requires sizes { HasProgramRoom N.made.sizes }
    requires fresh { Fresh N.made.core.signals pass.old }
    ensures keeps { Keeps pass.old pass.new }
    ensures idle { open_count pass.new.p.mine ≡ 0 }
    ensures own { pass.new.p.mine ≡ own pass.new.p.who pass.new.p.shown }
    ensures follows { OnOk result (Follows pass.new.p.shown pass.new.p.who commands.now) }
    ensures stops { IfErr result (StopsBy (ScriptLacks commands.now)) }
{
    let ran = run_commands(rt, alloc, commands, sessions, manager, pass, gate);
    look_back(manager, pass);
    ran
}

// The pass's entries are its own in what it has been shown.
fn look_back<N: Making>(manager: &Manager<N>, pass: &mut Pass)
    requires table { pass.old.table ≡ N.made.core.signals }
    ensures pass { (seen : ℕ) × (pass.new ≡ record pass.old { p = record pass.old.p { seen = seen } }) }
    ensures own { pass.old.p.mine ≡ own pass.old.p.who pass.old.p.shown }
{
    let _seen = manager.core().board.front(pass);
}

// The commands of the session in their order. Those of other sessions are passed over by the list of sessions alone.
fn run_commands<N: Making, G: Gate, R: Wait>(
    rt: &R,
    alloc: Global,
    commands: &[Command],
    sessions: &[u32],
    manager: &Manager<N>,
    pass: &mut Pass,
    gate: &G,
) -> Result<(), RunFault>
    requires script { IsScript commands.now }
    requires few { length commands.now < 2 ^ 31 }
    requires sessions { AreSessions commands.now sessions.now }
    requires sizes { HasProgramRoom N.made.sizes }
    requires fresh { Fresh N.made.core.signals pass.old }
    ensures keeps { Keeps pass.old pass.new }
    ensures idle { open_count pass.new.p.mine ≡ 0 }
    ensures stands { OnOk result (Standing N.made.core pass.new.p (blocks_of commands.now pass.old.p.who) Idle) }
    ensures stops { IfErr result (StopsBy (ScriptLacks commands.now)) }
{
    let who = pass.who();
    let mut hand = Hand::Idle;
    let mut live = None;
    let mut from = 0;
    while let Some(own) = next_of(sessions, from, who) {
        match run_own(
            rt, alloc, commands, manager, pass, gate, who, hand, live, own,
        ) {
            Ok((next, now)) => {
                hand = next;
                live = now;
            }
            Err(fault) => return Err(fault),
        }
        from = own + 1;
    }
    release(rt, manager, pass, hand);
    Ok(())
}

// Command number i, which is one of the session. What is in hand then, and the place of the opening of the live name.
fn run_own<N: Making, G: Gate, R: Wait>(
    rt: &R,
    alloc: Global,
    commands: &[Command],
    manager: &Manager<N>,
    pass: &mut Pass,
    gate: &G,
    who: u32,
    hand: Hand,
    live: Option<usize>,
    i: usize,
) -> Result<(Hand, Option<usize>), RunFault>
    requires script { IsScript commands.now }
    requires few { length commands.now < 2 ^ 31 }
    requires inside { i < length commands.now }
    requires sizes { HasProgramRoom N.made.sizes }
    requires at { IsAt commands.now N.made.core who i pass.old live hand }
    requires own { (d : AnyCommand) → slice_get commands.now i ≡ Some d → is_of commands.now who d ≡ true }
    ensures keeps { Keeps pass.old pass.new }
    ensures at { IfOk result (λ next. IsAt commands.now N.made.core who (i + 1) pass.new next.1 next.0) }
    ensures ended { OnErr result (open_count pass.new.p.mine ≡ 0) }
    ensures stops { IfErr result (StopsBy (ScriptLacks commands.now)) }
{
    let command = &commands[i];
    let line = i as u32 + 2;
    let turns = turns_of(commands, live);
    gate.before(rt, line);
    let ran = run_command(rt, alloc, manager, pass, hand, turns, command, line);
    gate.after(rt, line);
    match ran {
        Ok(next) => Ok((next, live_behind(live, i, command))),
        Err(fault) => Err(fault),
    }
}

// The place of the session's next command, from this place on.
fn next_of(sessions: &[u32], from: usize, who: u32) -> Option<usize>
    ensures next { IsNext sessions.now who from result }
    ensures inside { IfSome result (λ k. k < length sessions.now) }
{
    for place in from..sessions.len() {
        if sessions[place] == who {
            return Some(place);
        }
    }
    None
}

// The turns of the block that the command at this place began.
fn turns_of(commands: &[Command], live: Option<usize>) -> Option<u32>
    ensures { result ≡ turns_at commands.now live }
{
    match live {
        None => None,
        Some(place) => match commands.get(place) {
            Some(opening) => turns_in(opening),
            None => None,
        },
    }
}

// The turns of an opening.
fn turns_in(opening: &Command) -> Option<u32>
    ensures { result ≡ turns_of (Some opening.now) }
{
    match opening {
        Command::Begin { turns, .. } => *turns,
        Command::Wait { .. } => None,
        Command::Check { .. } => None,
        Command::Poison { .. } => None,
        Command::Release { .. } => None,
        Command::Metrics => None,
    }
}

// The place of the opening of the live name behind a command of the session.
fn live_behind(live: Option<usize>, i: usize, command: &Command) -> Option<usize>
    ensures { result ≡ live_behind live i command.now }
{
    match command {
        Command::Begin { .. } => Some(i),
        Command::Wait { .. } => live,
        Command::Check { .. } => live,
        Command::Poison { .. } => live,
        Command::Release { .. } => None,
        Command::Metrics => live,
    }
}
