// The command of a line.
ghost use Rattle.std.specs.Prelude.{◌≡◌, ◌==◌, [], ◌∷◌, length, MatchOption};
ghost use Rattle.script.specs.Lines.{check_at, command_at, few_at, latches_at, metrics_at, named_at, opening_at, rest_at};
ghost use Rattle.script.specs.Lines as spec;
ghost use Rattle.script.specs.Outcomes.{Gives};

use crate::command::{Command, Name};
use crate::fault::{FaultCause, FieldFault};
use crate::field::{cut, is_word, latch, name, number, policy};
use crate::limits::{SESSION_LIMIT, TURN_LIMIT};
use latch_model::latch::{Latch, Latches, Mode};
use std::alloc::Global;
use std::marker::Model;

// The fields of a line that haven't been taken yet, from the left: what stands between its single spaces.
#[derive(Drop)]
struct Fields<'a> {
    rest: Option<&'a [u8]>,
}

impl<'a> Model for Fields<'a> {
    ghost use Rattle.std.specs.Prelude.{ℕ, List};
    ghost use Rattle.script.specs.Views.{fields_left};

    ghost Value = { List (List ℕ) };

    ghost view = { λ f. fields_left f.rest };
}

impl<'a> Fields<'a> {
    fn of(line: &'a [u8]) -> Fields<'a>
        ensures { result ≡ spec.fields line.now }
    {
        Fields { rest: Some(line) }
    }

    // The first field, and those behind it.
    fn split_first(&self) -> Option<(&'a [u8], Fields<'a>)>
        ensures { MatchOption result (self.now ≡ []) (λ x. self.now ≡ x.0.now ∷ x.1) }
    {
        match self.rest {
            None => None,
            Some(text) => match cut(text, b' ') {
                None => Some((text, Fields { rest: None })),
                Some((field, rest)) => Some((field, Fields { rest: Some(rest) })),
            },
        }
    }
}

// The latches of the fields.
fn latches(alloc: Global, mut fields: Fields<'_>) -> Result<Vec<Latch>, FieldFault>
    ensures { Gives (λ v. v.items) result (latches_at fields.entry) }
{
    let mut list = Vec::new(alloc);
    while let Some((field, after)) = fields.split_first() {
        list.push(latch(alloc, field)?)?;
        fields = after;
    }
    list.shrink_to_fit();
    Ok(list)
}

// The latches of the last fields of a line, of which there are at most 16.
#[tactic(auto, unfolding(crate::specs::Lines::few_at))]
fn few(alloc: Global, fields: Fields<'_>) -> Result<Latches, FieldFault>
    ensures { Gives (λ l. l) result (few_at fields.entry) }
{
    match Latches::new(latches(alloc, fields)?) {
        Ok(latches) => Ok(latches.shared(alloc)),
        Err(_) => Err(FaultCause::ManyLatches.fault()),
    }
}

// The turns, where the first field gives them, and the latches of the other fields.
#[tactic(auto, using(crate::proofs::Loop::few_none), unfolding(crate::specs::Lines::rest_at))]
fn rest(alloc: Global, fields: Fields<'_>) -> Result<(Option<u32>, Latches), FieldFault>
    ensures { Gives (λ x. (x.0, x.1)) result (rest_at fields.entry) }
{
    let Some((field, after)) = fields.split_first() else {
        return Ok((None, few(alloc, fields)?));
    };
    match field.strip_prefix(b"turns=") {
        None => Ok((None, few(alloc, fields)?)),
        Some(text) => match number(1, u64::from(TURN_LIMIT), text) {
            None => Err(FaultCause::NoTurns.fault()),
            Some(turns) => Ok((Some(turns as u32), few(alloc, after)?)),
        },
    }
}

// An opening of this mode, of the fields behind its word.
#[tactic(auto, unfolding(crate::specs::Lines::opening_at))]
fn opening(alloc: Global, mode: Mode, fields: Fields<'_>) -> Result<Command, FieldFault>
    ensures { Gives (λ c. c) result (opening_at mode fields.entry) }
{
    let Some((who, fields)) = fields.split_first() else {
        return Err(FaultCause::NoCommand.fault());
    };
    let Some((name_text, fields)) = fields.split_first() else {
        return Err(FaultCause::NoCommand.fault());
    };
    let Some((policy_text, fields)) = fields.split_first() else {
        return Err(FaultCause::NoCommand.fault());
    };
    let Some(session) = number(1, u64::from(SESSION_LIMIT), who) else {
        return Err(FaultCause::NoSession.fault());
    };
    let name = name(name_text)?;
    let Some(policy) = policy(policy_text) else {
        return Err(FaultCause::NoPolicy.fault());
    };
    let (turns, latches) = rest(alloc, fields)?;
    Ok(Command::Begin {
        session: session as u32,
        name,
        mode,
        policy,
        turns,
        latches,
    })
}

// The name that is the one field.
#[tactic(auto, unfolding(crate::specs::Lines::named_at))]
fn named(fields: Fields<'_>) -> Result<Name, FieldFault>
    ensures { Gives (λ n. n) result (named_at fields.entry) }
{
    let Some((text, fields)) = fields.split_first() else {
        return Err(FaultCause::NoCommand.fault());
    };
    match fields.split_first() {
        None => name(text),
        Some(_) => Err(FaultCause::NoCommand.fault()),
    }
}

#[tactic(auto, unfolding(crate::specs::Lines::check_at))]
fn check(alloc: Global, fields: Fields<'_>) -> Result<Command, FieldFault>
    ensures { Gives (λ c. c) result (check_at fields.entry) }
{
    let Some((text, fields)) = fields.split_first() else {
        return Err(FaultCause::NoCommand.fault());
    };
    Ok(Command::Check {
        name: name(text)?,
        latches: few(alloc, fields)?,
    })
}

#[tactic(auto, unfolding(crate::specs::Lines::metrics_at))]
fn metrics(fields: Fields<'_>) -> Result<Command, FieldFault>
    ensures { Gives (λ c. c) result (metrics_at fields.entry) }
{
    match fields.split_first() {
        None => Ok(Command::Metrics),
        Some(_) => Err(FaultCause::NoCommand.fault()),
    }
}

/// The command of a line, or the first of its causes among 3 to 11.
#[tactic(auto, unfolding(crate::specs::Lines::command_at))]
pub(crate) fn command(alloc: Global, line: &[u8]) -> Result<Command, FieldFault>
    ensures { Gives (λ c. c) result (command_at (spec.fields line.now)) }
{
    let Some((word, fields)) = Fields::of(line).split_first() else {
        return Err(FaultCause::NoCommand.fault());
    };
    if is_word(word, b"acquire") {
        opening(alloc, Mode::Acquire, fields)
    } else if is_word(word, b"optimistic") {
        opening(alloc, Mode::Optimistic, fields)
    } else if is_word(word, b"look") {
        opening(alloc, Mode::Look, fields)
    } else if is_word(word, b"wait") {
        Ok(Command::Wait {
            name: named(fields)?,
        })
    } else if is_word(word, b"check") {
        check(alloc, fields)
    } else if is_word(word, b"poison") {
        Ok(Command::Poison {
            name: named(fields)?,
        })
    } else if is_word(word, b"release") {
        Ok(Command::Release {
            name: named(fields)?,
        })
    } else if is_word(word, b"metrics") {
        metrics(fields)
    } else {
        Err(FaultCause::NoCommand.fault())
    }
}
