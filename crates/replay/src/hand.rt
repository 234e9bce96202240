// What a session has in hand, and what its commands make of it.
ghost use Rattle.std.specs.Prelude.{◌≡◌, ◌≢◌, ℕ, ◌≤◌, ◌++◌, ◌∷◌, [], true, false, IfErr, IfOk, OnErr, List, Option, Some, None, length};
ghost use Rattle.latch_model.specs.declared.latch.Mode.TheVariants.{Acquire, Look, Optimistic};
ghost use Rattle.latch_model.specs.declared.latch.Policy.{Policy as IsPolicy};
ghost use Rattle.latch_model.specs.declared.latch.Latch.{Latch};
ghost use Rattle.latch_model.specs.declared.latch.TheConstants.Latches.{LIMIT};
ghost use Rattle.script.specs.Follows.{Block, declaration_of, is_poison, is_wait};
ghost use Rattle.script.specs.declared.command.Command.{Command as IsCommand};
ghost use Rattle.script.specs.declared.command.Command.TheVariants.{Check as is_check_of, Poison as is_poison_of, Release as is_release_of};
ghost use Rattle.sequence_core.specs.Says.{LacksRows};
ghost use Rattle.step_run.specs.Faults.{StopsBy};
ghost use Rattle.step_run.specs.Runs.{HasProgramRoom};
ghost use Rattle.signal_board.specs.Rule.{open_count};
ghost use Rattle.signal_board.specs.Views.{PassView};
ghost use Rattle.replay.specs.Blocks.{GrowsBy, new_block};
ghost use Rattle.replay.specs.Running.{Keeps, SomeTurns};
ghost use Rattle.replay.specs.Sessions.{HandAt, HandGiven, PatienceOf, Standing, TurnsOf};
ghost use Rattle.replay.specs.declared.hand.Hand.TheVariants.{Idle, Checking as is_checking, Holding as is_holding, Over as is_over};

use latch_manager::manager::{AcquireFault, Making, Manager};
use latch_manager::patience::{Endless, Patience, Turns};
use latch_model::latch::Latches;
use latch_model::request::Request;
use signal_board::board::Pass;
use span_key::Memory;
use std::alloc::Global;
use std::sync::Wait;
use step_run::{RunFault, run_fault};
use waiter::{Granted, Optimist};

/// The request of the live name of a session: there is none; it is optimistic and hasn't waited; it is granted by waiting; or it has ended.
pub(crate) enum Hand {
    Idle,
    Checking(Optimist),
    Holding(Granted),
    Over,
}

/// A request is begun and waits until it is granted, with as many turns as its block has, or without an end.
pub(crate) fn acquire<N: Making, R: Wait>(
    rt: &R,
    alloc: Global,
    manager: &Manager<N>,
    pass: &mut Pass,
    request: Request,
    turns: Option<u32>,
) -> Result<Hand, RunFault>
    requires sizes { HasProgramRoom N.made.sizes }
    requires few { length request.latches ≤ LIMIT }
    requires table { pass.old.table ≡ N.made.core.signals }
    requires idle { open_count pass.old.p.mine ≡ 0 }
    requires turns { SomeTurns turns }
    ensures keeps { Keeps pass.old pass.new }
    ensures stands { IfOk result (λ hand. (bs : List Block) (line : ℕ) (policy : IsPolicy) (latches : List Latch) →
        request ≡ declaration_of (new_block line Acquire policy turns latches) → Standing N.made.core pass.old.p bs Idle →
        Standing N.made.core pass.new.p (bs ++ new_block line Acquire policy turns latches ∷ []) hand) }
    ensures given { IfOk result (HandGiven N.made.core pass.new.p) }
    ensures some { IfOk result (λ hand. hand ≢ Idle) }
    ensures ended { OnErr result (open_count pass.new.p.mine ≡ 0) }
    ensures stops { IfErr result (StopsBy (LacksRows Acquire request.latches)) }
{
    match turns {
        None => acquire_with(rt, alloc, manager, pass, request, &mut Endless),
        Some(most) => acquire_with(rt, alloc, manager, pass, request, &mut Turns::new(most)),
    }
}

fn acquire_with<N: Making, R: Wait, P: Patience>(
    rt: &R,
    alloc: Global,
    manager: &Manager<N>,
    pass: &mut Pass,
    request: Request,
    patience: &mut P,
) -> Result<Hand, RunFault>
    requires sizes { HasProgramRoom N.made.sizes }
    requires few { length request.latches ≤ LIMIT }
    requires table { pass.old.table ≡ N.made.core.signals }
    requires idle { open_count pass.old.p.mine ≡ 0 }
    ensures keeps { Keeps pass.old pass.new }
    ensures stands { IfOk result (λ hand. (bs : List Block) (line : ℕ) (policy : IsPolicy) (turns : Option ℕ) (latches : List Latch) →
        PatienceOf turns (P.refusals patience.old) (P.refusals patience.new) (P.limit patience.old) →
        request ≡ declaration_of (new_block line Acquire policy turns latches) → Standing N.made.core pass.old.p bs Idle →
        Standing N.made.core pass.new.p (bs ++ new_block line Acquire policy turns latches ∷ []) hand) }
    ensures given { IfOk result (HandGiven N.made.core pass.new.p) }
    ensures some { IfOk result (λ hand. hand ≢ Idle) }
    ensures ended { OnErr result (open_count pass.new.p.mine ≡ 0) }
    ensures stops { IfErr result (StopsBy (LacksRows Acquire request.latches)) }
{
    match manager.acquire(rt, alloc, pass, request, patience) {
        Ok(granted) => Ok(Hand::Holding(granted)),
        Err(AcquireFault::Seq(refusal)) => Err(run_fault(refusal)),
        Err(AcquireFault::Poisoned(_)) => Ok(Hand::Over),
        Err(AcquireFault::Cancelled { turns: _ }) => Ok(Hand::Over),
    }
}

/// A look is begun, waits until it would be granted, and ends.
pub(crate) fn look<N: Making, R: Wait>(
    rt: &R,
    alloc: Global,
    manager: &Manager<N>,
    pass: &mut Pass,
    request: Request,
    turns: Option<u32>,
) -> Result<Hand, RunFault>
    requires sizes { HasProgramRoom N.made.sizes }
    requires few { length request.latches ≤ LIMIT }
    requires table { pass.old.table ≡ N.made.core.signals }
    requires idle { open_count pass.old.p.mine ≡ 0 }
    requires turns { SomeTurns turns }
    ensures keeps { Keeps pass.old pass.new }
    ensures stands { IfOk result (λ hand. (bs : List Block) (line : ℕ) (policy : IsPolicy) (latches : List Latch) →
        request ≡ declaration_of (new_block line Look policy turns latches) → Standing N.made.core pass.old.p bs Idle →
        Standing N.made.core pass.new.p (bs ++ new_block line Look policy turns latches ∷ []) hand) }
    ensures given { IfOk result (HandGiven N.made.core pass.new.p) }
    ensures some { IfOk result (λ hand. hand ≢ Idle) }
    ensures ended { OnErr result (open_count pass.new.p.mine ≡ 0) }
    ensures stops { IfErr result (StopsBy (LacksRows Look request.latches)) }
{
    match turns {
        None => look_with(rt, alloc, manager, pass, request, &mut Endless),
        Some(most) => look_with(rt, alloc, manager, pass, request, &mut Turns::new(most)),
    }
}

fn look_with<N: Making, R: Wait, P: Patience>(
    rt: &R,
    alloc: Global,
    manager: &Manager<N>,
    pass: &mut Pass,
    request: Request,
    patience: &mut P,
) -> Result<Hand, RunFault>
    requires sizes { HasProgramRoom N.made.sizes }
    requires few { length request.latches ≤ LIMIT }
    requires table { pass.old.table ≡ N.made.core.signals }
    requires idle { open_count pass.old.p.mine ≡ 0 }
    ensures keeps { Keeps pass.old pass.new }
    ensures stands { IfOk result (λ hand. (bs : List Block) (line : ℕ) (policy : IsPolicy) (turns : Option ℕ) (latches : List Latch) →
        PatienceOf turns (P.refusals patience.old) (P.refusals patience.new) (P.limit patience.old) →
        request ≡ declaration_of (new_block line Look policy turns latches) → Standing N.made.core pass.old.p bs Idle →
        Standing N.made.core pass.new.p (bs ++ new_block line Look policy turns latches ∷ []) hand) }
    ensures given { IfOk result (HandGiven N.made.core pass.new.p) }
    ensures some { IfOk result (λ hand. hand ≢ Idle) }
    ensures ended { OnErr result (open_count pass.new.p.mine ≡ 0) }
    ensures stops { IfErr result (StopsBy (LacksRows Look request.latches)) }
{
    match manager.wait_for(rt, alloc, pass, request, patience) {
        Ok(_id) => Ok(Hand::Over),
        Err(AcquireFault::Seq(refusal)) => Err(run_fault(refusal)),
        Err(AcquireFault::Poisoned(_)) => Ok(Hand::Over),
        Err(AcquireFault::Cancelled { turns: _ }) => Ok(Hand::Over),
    }
}

/// An optimistic request is begun.
pub(crate) fn optimistic<N: Making, R: Wait>(
    rt: &R,
    alloc: Global,
    manager: &Manager<N>,
    pass: &mut Pass,
    request: Request,
) -> Result<Hand, RunFault>
    requires sizes { HasProgramRoom N.made.sizes }
    requires few { length request.latches ≤ LIMIT }
    requires table { pass.old.table ≡ N.made.core.signals }
    requires idle { open_count pass.old.p.mine ≡ 0 }
    ensures keeps { Keeps pass.old pass.new }
    ensures stands { IfOk result (λ hand. (bs : List Block) (line : ℕ) (policy : IsPolicy) (turns : Option ℕ) (latches : List Latch) →
        request ≡ declaration_of (new_block line Optimistic policy turns latches) → Standing N.made.core pass.old.p bs Idle →
        Standing N.made.core pass.new.p (bs ++ new_block line Optimistic policy turns latches ∷ []) hand) }
    ensures given { IfOk result (HandGiven N.made.core pass.new.p) }
    ensures some { IfOk result (λ hand. hand ≢ Idle) }
    ensures ended { OnErr result (open_count pass.new.p.mine ≡ 0) }
    ensures stops { IfErr result (StopsBy (LacksRows Optimistic request.latches)) }
{
    match manager.optimistic(rt, alloc, pass, request) {
        Ok(optimist) => Ok(Hand::Checking(optimist)),
        Err(refusal) => Err(run_fault(refusal)),
    }
}

fn wait_with<N: Making, R: Wait, P: Patience>(
    rt: &R,
    manager: &Manager<N>,
    pass: &mut Pass,
    optimist: Optimist,
    patience: &mut P,
) -> Hand
    requires table { pass.old.table ≡ N.made.core.signals }
    requires given { HandGiven N.made.core pass.old.p (is_checking optimist) }
    ensures keeps { Keeps pass.old pass.new }
    ensures stands { (bs ds : List Block) (c : IsCommand) (turns : Option ℕ) →
        PatienceOf turns (P.refusals patience.old) (P.refusals patience.new) (P.limit patience.old) →
        GrowsBy c bs ds → is_wait c ≡ true → is_poison c ≡ false → TurnsOf bs turns →
        Standing N.made.core pass.old.p bs (is_checking optimist) → Standing N.made.core pass.new.p ds result }
    ensures given { HandGiven N.made.core pass.new.p result }
    ensures some { result ≢ Idle }
{
    match manager.wait(rt, pass, optimist.into_waiting(), patience) {
        Ok(granted) => Hand::Holding(granted),
        Err(_fault) => Hand::Over,
    }
}

/// An optimistic request turns to waiting. What is granted or over has nothing to wait for.
pub(crate) fn wait<N: Making, R: Wait>(
    rt: &R,
    manager: &Manager<N>,
    pass: &mut Pass,
    hand: Hand,
    turns: Option<u32>,
) -> Hand
    requires table { pass.old.table ≡ N.made.core.signals }
    requires given { HandGiven N.made.core pass.old.p hand }
    requires turns { SomeTurns turns }
    ensures keeps { Keeps pass.old pass.new }
    ensures stands { (bs ds : List Block) (c : IsCommand) → hand ≢ Idle → GrowsBy c bs ds → is_wait c ≡ true → is_poison c ≡ false → TurnsOf bs turns →
        Standing N.made.core pass.old.p bs hand → Standing N.made.core pass.new.p ds result }
    ensures given { HandGiven N.made.core pass.new.p result }
    ensures some { hand ≢ Idle → result ≢ Idle }
{
    match hand {
        Hand::Checking(optimist) => match turns {
            None => wait_with(rt, manager, pass, optimist, &mut Endless),
            Some(most) => wait_with(rt, manager, pass, optimist, &mut Turns::new(most)),
        },
        Hand::Idle => Hand::Idle,
        Hand::Holding(granted) => Hand::Holding(granted),
        Hand::Over => Hand::Over,
    }
}

/// A check of these latches by an optimistic request that hasn't waited.
pub(crate) fn check<N: Making, R: Wait>(
    rt: &R,
    alloc: Global,
    manager: &Manager<N>,
    pass: &mut Pass,
    hand: Hand,
    latches: &Latches,
) -> Result<Hand, Memory>
    requires table { pass.old.table ≡ N.made.core.signals }
    requires given { HandGiven N.made.core pass.old.p hand }
    ensures keeps { Keeps pass.old pass.new }
    ensures stands { IfOk result (λ next. (bs ds : List Block) (name : List ℕ) → hand ≢ Idle → GrowsBy (is_check_of name latches.now) bs ds →
        Standing N.made.core pass.old.p bs hand → Standing N.made.core pass.new.p ds next) }
    ensures given { IfOk result (HandGiven N.made.core pass.new.p) }
    ensures some { IfOk result (λ next. hand ≢ Idle → next ≢ Idle) }
    ensures ended { OnErr result (open_count pass.new.p.mine ≡ 0) }
{
    match latches.copy(alloc) {
        Err(refused) => {
            release(rt, manager, pass, hand);
            Err(refused)
        }
        Ok(asked) => Ok(check_these(manager, hand, asked)),
    }
}

fn check_these<N: Making>(manager: &Manager<N>, hand: Hand, asked: Latches) -> Hand
    requires core { HandAt N.made.core hand }
    ensures stands { (p : PassView) (bs ds : List Block) (name : List ℕ) → hand ≢ Idle → GrowsBy (is_check_of name asked) bs ds →
        Standing N.made.core p bs hand →
        Standing N.made.core p ds result }
    ensures given { (p : PassView) → HandGiven N.made.core p hand → HandGiven N.made.core p result }
    ensures some { hand ≢ Idle → result ≢ Idle }
{
    match hand {
        Hand::Checking(mut optimist) => {
            let _answer = optimist.check(manager.core(), asked);
            Hand::Checking(optimist)
        }
        Hand::Idle => Hand::Idle,
        Hand::Holding(granted) => Hand::Holding(granted),
        Hand::Over => Hand::Over,
    }
}

/// The request in hand is poisoned, and who waits for it is woken. One that is over stays as it is.
pub(crate) fn poison<N: Making, R: Wait>(rt: &R, manager: &Manager<N>, hand: Hand) -> Hand
    requires core { HandAt N.made.core hand }
    ensures stands { (p : PassView) (bs ds : List Block) (name : List ℕ) → hand ≢ Idle → GrowsBy (is_poison_of name) bs ds → Standing N.made.core p bs hand →
        Standing N.made.core p ds result }
    ensures given { (p : PassView) → HandGiven N.made.core p hand → HandGiven N.made.core p result }
    ensures some { hand ≢ Idle → result ≢ Idle }
{
    match hand {
        Hand::Checking(mut optimist) => {
            optimist.poison(manager.core());
            manager.nudge(rt);
            Hand::Checking(optimist)
        }
        Hand::Holding(mut granted) => {
            granted.poison(manager.core());
            manager.nudge(rt);
            Hand::Holding(granted)
        }
        Hand::Idle => Hand::Idle,
        Hand::Over => Hand::Over,
    }
}

/// The request in hand ends: a granted one as it was granted, an optimistic one by the check that passed, if one stands.
pub(crate) fn release<N: Making, R: Wait>(rt: &R, manager: &Manager<N>, pass: &mut Pass, hand: Hand)
    requires table { pass.old.table ≡ N.made.core.signals }
    requires given { HandGiven N.made.core pass.old.p hand }
    ensures keeps { Keeps pass.old pass.new }
    ensures stands { (bs ds : List Block) (name : List ℕ) → hand ≢ Idle → GrowsBy (is_release_of name) bs ds → Standing N.made.core pass.old.p bs hand →
        Standing N.made.core pass.new.p ds Idle }
    ensures same { hand ≡ Idle → pass.new ≡ pass.old }
    ensures idle { open_count pass.new.p.mine ≡ 0 }
{
    match hand {
        Hand::Checking(optimist) => {
            if optimist.passed() {
                manager.release(rt, pass, optimist.confirm(manager.core()));
            } else {
                manager.give_up(rt, pass, optimist.abandon(manager.core()));
            }
        }
        Hand::Holding(granted) => manager.release(rt, pass, granted),
        Hand::Idle => {}
        Hand::Over => {}
    }
}
