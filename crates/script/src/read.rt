// Reading a script: line by line, each against the commands before it.
ghost use Rattle.std.specs.Prelude.{◌≡◌, ◌+◌, ◌<◌, ◌≤◌, ◌^◌, [], ◌∷◌, ◌++◌, length, Err, IfOk, IfSome, List, MatchOption, Ok, OnOk, Some};
ghost use Rattle.script.specs.Causes.{number_of};
ghost use Rattle.script.specs.Names.{Keeps};
ghost use Rattle.script.specs.Outcomes.{Gives, IsAtLine, Reads};
ghost use Rattle.script.specs.Reading.{commands_at, end_at, fault, lines, script_at};
ghost use Rattle.script.specs.Views.{more_at};
ghost use Rattle.script.specs.Scripts.{Spells};
ghost use Rattle.script.specs.declared.command.Command.{Command as AnyCommand};
ghost use Rattle.script.specs.declared.fault.ScriptFault.{ScriptFault as AnyFault};
ghost use Rattle.script.specs.declared.fault.ReadScript.TheVariants.{Bad};

use crate::command::{Command, Script};
use crate::draft::Draft;
use crate::fault::{FaultCause, FieldFault, ReadScript, ScriptFault};
use crate::field::{cut, is_word};
use crate::limits::TEXT_LIMIT;
use crate::line::command;
use std::alloc::Global;

/// The script that these bytes spell. Faults have the causes 1 to 18; a longer input than `TEXT_LIMIT` is refused by 18.
pub fn read_script(alloc: Global, bytes: &[u8]) -> Result<Script, ReadScript>
    // What is read is a script, and the bytes are its spelling.
    ensures found { IfOk result (λ s. Spells bytes.now s) }
    // A script that is spelled so is read, unless memory is refused.
    ensures only { (cs : List AnyCommand) → Spells bytes.now cs → Reads (λ s. s) result (Ok cs) }
    // A fault is the first one.
    ensures bad { (f : AnyFault) → result ≡ Err (Bad f) → fault bytes.now ≡ Some (f.line, f.cause) }
    ensures exact { Reads (λ s. s) result (script_at bytes.now) }
{
    Ok(Script::of(all(alloc, bytes)?))
}

// A line that ends with a line feed, and the bytes behind that.
fn next_line(bytes: &[u8]) -> Option<(&[u8], &[u8])>
    ensures line { MatchOption result (lines bytes.now ≡ bytes.now ∷ []) (λ x. lines bytes.now ≡ x.0.now ∷ lines x.1.now) }
    ensures shorter { IfSome result (λ x. length x.1.now < length bytes.now) }
{
    cut(bytes, b'\n')
}

// Adds the command of one more line, or answers its first cause.
fn next(alloc: Global, draft: &mut Draft, line: &[u8]) -> Result<(), FieldFault>
    requires { Keeps draft.old }
    ensures commands { Gives (λ _. draft.new.commands.items) result (more_at draft.old.commands.items line.now) }
    ensures kept { OnOk result (Keeps draft.new) }
{
    draft.add(command(alloc, line)?)
}

fn bad(line: u32, cause: FaultCause) -> ReadScript
    ensures { result ≡ Bad (record { line = line; cause = number_of cause }) }
{
    ReadScript::Bad(ScriptFault {
        line,
        cause: cause.number(),
    })
}

// A fault of this line.
fn at_line(line: u32, fault: FieldFault) -> ReadScript
    ensures { IsAtLine line fault result }
{
    match fault {
        FieldFault::Bad { cause } => ReadScript::Bad(ScriptFault { line, cause }),
        FieldFault::Memory => ReadScript::Memory,
    }
}

// The commands of a script whose end line has this number, with what follows it.
#[tactic(auto, unfolding(crate::specs::Reading::end_at))]
fn end(draft: Draft, line: u32, after: &[u8]) -> Result<Vec<Command>, ReadScript>
    requires kept { Keeps draft }
    requires few { line < 2 ^ 31 }
    ensures { Reads (λ v. v.items) result (end_at draft.commands.items line (lines after.now)) }
{
    if draft.has_live() {
        return Err(bad(line, FaultCause::OpenAtEnd));
    }
    if !after.is_empty() {
        return Err(bad(line + 1, FaultCause::BytesBehindEnd));
    }
    Ok(draft.into_commands())
}

// The commands of the lines behind the first one.
fn commands(alloc: Global, bytes: &[u8]) -> Result<Vec<Command>, ReadScript>
    requires { length bytes.now ≤ TEXT_LIMIT }
    ensures { Reads (λ v. v.items) result (commands_at [] 2 (lines bytes.now)) }
{
    let mut draft = Draft::new(alloc);
    let mut rest = bytes;
    let mut line = 2;
    while let Some((text, after)) = next_line(rest) {
        if is_word(text, b"end") {
            return end(draft, line, after);
        }
        if let Err(fault) = next(alloc, &mut draft, text) {
            return Err(at_line(line, fault));
        }
        rest = after;
        line += 1;
    }
    Err(bad(line, FaultCause::NoEnd))
}

#[tactic(auto, unfolding(crate::specs::Reading::script_at))]
fn all(alloc: Global, bytes: &[u8]) -> Result<Vec<Command>, ReadScript>
    ensures { Reads (λ v. v.items) result (script_at bytes.now) }
{
    if bytes.len() > TEXT_LIMIT {
        return Err(bad(0, FaultCause::TooLong));
    }
    let Some((first, after)) = next_line(bytes) else {
        return Err(bad(1, FaultCause::NoEnd));
    };
    if !is_word(first, b"latch script 1") {
        return Err(bad(1, FaultCause::OtherFirstLine));
    }
    commands(alloc, after)
}
