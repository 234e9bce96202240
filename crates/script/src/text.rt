// How scripts are spelled.
ghost use Rattle.std.specs.Prelude.{◌≡◌, ◌∷◌, ◌++◌, [], IfOk, OnOk, codes, decimal, map};
ghost use Rattle.script.specs.Commands.{fields_of, line_of, mode_text, policy_text, turns_fields};
ghost use Rattle.script.specs.Scripts.{Spells, text_of};
ghost use Rattle.script.specs.Spaced.{spaced};
ghost use Rattle.script.specs.Texts.{latch_text};

use crate::command::{Command, Name, Script};
use crate::latch_text::{push_after, push_latch, push_number};
use latch_model::latch::{Latch, Latches, Mode, Policy};
use span_key::Memory;
use std::alloc::Global;

impl Script {
    /// The one spelling of the script: reading it gives the script again.
    pub fn text(&self, alloc: Global) -> Result<Vec<u8>, Memory>
        ensures text { IfOk result (λ v. v.items ≡ text_of self.now) }
        ensures spelled { IfOk result (λ v. Spells v.items self.now) }
    {
        spell(alloc, self.commands())
    }
}

fn spell(alloc: Global, commands: &[Command]) -> Result<Vec<u8>, Memory>
    ensures { IfOk result (λ v. v.items ≡ text_of commands.now) }
{
    let mut out = Vec::from_slice(alloc, b"latch script 1\n")?;
    for command in commands {
        put_command(&mut out, command)?;
    }
    out.extend_from_slice(b"end\n")?;
    Ok(out)
}

// The line of a command.
fn put_command(out: &mut Vec<u8>, command: &Command) -> Result<(), Memory>
    ensures { OnOk result (out.new.items ≡ out.old.items ++ line_of (fields_of command.now)) }
{
    match command {
        Command::Begin {
            session,
            name,
            mode,
            policy,
            turns,
            latches,
        } => {
            put_opening(out, *mode, *session, name, *policy)?;
            put_turns(out, *turns)?;
            put_end(out, latches)
        }
        Command::Wait { name } => put_named(out, b"wait", name),
        Command::Check { name, latches } => {
            out.extend_from_slice(b"check")?;
            put_field(out, name.bytes())?;
            put_end(out, latches)
        }
        Command::Poison { name } => put_named(out, b"poison", name),
        Command::Release { name } => put_named(out, b"release", name),
        Command::Metrics => out.extend_from_slice(b"metrics\n"),
    }
}

// The line of a word and a name.
fn put_named(out: &mut Vec<u8>, word: &[u8], name: &Name) -> Result<(), Memory>
    ensures { OnOk result (out.new.items ≡ out.old.items ++ line_of (word.now ∷ name.now ∷ [])) }
{
    out.extend_from_slice(word)?;
    put_field(out, name.bytes())?;
    out.push(b'\n')?;
    Ok(())
}

// The first four fields of an opening.
fn put_opening(
    out: &mut Vec<u8>,
    mode: Mode,
    session: u32,
    name: &Name,
    policy: Policy,
) -> Result<(), Memory>
    ensures { OnOk result (out.new.items ≡ out.old.items ++ (mode_text mode ++ spaced (decimal session ∷ name.now ∷ policy_text policy ∷ []))) }
{
    out.extend_from_slice(mode_word(mode))?;
    push_after(b' ', u64::from(session), out)?;
    put_field(out, name.bytes())?;
    put_field(out, policy_word(policy))
}

// The latches at the end of a line, and its line feed.
fn put_end(out: &mut Vec<u8>, latches: &Latches) -> Result<(), Memory>
    ensures { OnOk result (out.new.items ≡ out.old.items ++ (spaced (map latch_text latches.now) ++ 10 ∷ [])) }
{
    put_latches(out, latches.list())?;
    out.push(b'\n')?;
    Ok(())
}

/// The word of a mode: the command that opens a request in it.
pub fn mode_word(mode: Mode) -> &'static [u8]
    ensures { result.now ≡ mode_text mode }
{
    match mode {
        Mode::Acquire => b"acquire",
        Mode::Optimistic => b"optimistic",
        Mode::Look => b"look",
    }
}

/// The word of a policy.
pub fn policy_word(policy: Policy) -> &'static [u8]
    ensures { result.now ≡ policy_text policy }
{
    match policy {
        Policy::Wait => b"wait",
        Policy::Error => b"error",
    }
}

// A space and a field.
fn put_field(out: &mut Vec<u8>, field: &[u8]) -> Result<(), Memory>
    ensures { OnOk result (out.new.items ≡ out.old.items ++ (32 ∷ field.now)) }
{
    out.push(b' ')?;
    out.extend_from_slice(field)
}

fn put_turns(out: &mut Vec<u8>, turns: Option<u32>) -> Result<(), Memory>
    ensures { OnOk result (out.new.items ≡ out.old.items ++ spaced (turns_fields turns)) }
{
    match turns {
        None => Ok(()),
        Some(n) => {
            put_field(out, b"turns=")?;
            push_number(u64::from(n), out)
        }
    }
}

// The latches, each with a space in front.
fn put_latches(out: &mut Vec<u8>, latches: &[Latch]) -> Result<(), Memory>
    ensures { OnOk result (out.new.items ≡ out.old.items ++ spaced (map latch_text latches.now)) }
{
    for latch in latches {
        out.push(b' ')?;
        push_latch(latch, out)?;
    }
    Ok(())
}
