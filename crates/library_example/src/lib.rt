//! A store's use of the crates as a library: it makes latches, asks whether one must wait for others, reads a script, and
//! decides whether a recorded history kept the rules. docs/LIBRARY.md goes through it.
#![tactic(auto)]

ghost use Rattle.std.specs.Prelude.{◌≡◌, ◌≢◌, ◌↔◌, ◌⊎◌, ◌<◌, false, [], length, IsTrue, IfOk, List, Some};
ghost use Rattle.std.specs.List.{All, Any};
ghost use Rattle.span_key.specs.Spans.{KeyLess, key_limit};
ghost use Rattle.latch_model.specs.Latches.{Conflict};
ghost use Rattle.latch_model.specs.Legal.{Excludes, IsLegal};
ghost use Rattle.script.specs.Reading.{fault};
ghost use Rattle.script.specs.Scripts.{Spells};
ghost use Rattle.script.specs.declared.command.Command.{Command as AnyCommand};

use hlc_stamp::Stamp;
use latch_model::{Access, Entry, Latch, Sizes, conflicts, laws, legal_so_far};
use script::{ReadScript, ScriptFault, read_script};
use span_key::{Key, KeyFault, Memory, Span};
use std::alloc::Global;

/// Why bytes make no latch.
#[derive(Clone, Copy, Debug, PartialEq, Eq)]
pub enum NoLatch {
    /// The key or the end has more bytes than `Key::LIMIT`.
    TooLong,
    /// The end is not greater than the key.
    NoKeys,
    Memory,
}

/// A latch on the keys from `key` up to `end`, which is excluded, or on `key` alone where `end` is empty.
pub fn latch(
    alloc: Global,
    access: Access,
    key: &[u8],
    end: &[u8],
    stamp: Stamp,
) -> Result<Latch, NoLatch>
    ensures made { IfOk result (λ l. l ≡ record { access = access; span = (key.now, end.now); stamp = stamp }) }
    ensures too_long { result ≡ Err NoLatch.TooLong → (key_limit < length key.now) ⊎ (key_limit < length end.now) }
    ensures no_keys { result ≡ Err NoLatch.NoKeys → (end.now ≢ []) × ¬ KeyLess key.now end.now }
{
    let span = span(alloc, key, end)?;
    Ok(Latch {
        access,
        span,
        stamp,
    })
}

// The span of these bytes.
fn span(alloc: Global, key: &[u8], end: &[u8]) -> Result<Span, NoLatch>
    ensures made { IfOk result (λ s. s ≡ (key.now, end.now)) }
    ensures too_long { result ≡ Err NoLatch.TooLong → (key_limit < length key.now) ⊎ (key_limit < length end.now) }
    ensures no_keys { result ≡ Err NoLatch.NoKeys → (end.now ≢ []) × ¬ KeyLess key.now end.now }
{
    let first = match Key::new(alloc, key) {
        Ok(key) => key,
        Err(KeyFault::TooLong { len: _ }) => return Err(NoLatch::TooLong),
        Err(KeyFault::Memory) => return Err(NoLatch::Memory),
    };
    if end.is_empty() {
        return Ok(Span::point(first));
    }
    let end = match Key::new(alloc, end) {
        Ok(key) => key,
        Err(KeyFault::TooLong { len: _ }) => return Err(NoLatch::TooLong),
        Err(KeyFault::Memory) => return Err(NoLatch::Memory),
    };
    match Span::range(first, end) {
        Ok(span) => Ok(span),
        Err(_) => Err(NoLatch::NoKeys),
    }
}

/// Whether a request that asks for this latch must wait for one that holds these.
pub fn must_wait(asked: &Latch, held: &[Latch]) -> bool
    ensures some { IsTrue result → Any (Conflict asked.now) held.now }
    ensures none { result ≡ false → All (λ h. ¬ Conflict asked.now h) held.now }
{
    held.iter().any(|latch| conflicts(asked, latch))
}

/// The first line of a script that breaks a rule, with the rule's cause, or none where the bytes are a script.
pub fn first_fault(alloc: Global, bytes: &[u8]) -> Result<Option<ScriptFault>, Memory>
    ensures script { result ≡ Ok None → (cs : List AnyCommand) × Spells bytes.now cs }
    ensures broken { (f : ScriptFault) → result ≡ Ok (Some f) → fault bytes.now ≡ Some (f.line, f.cause) }
{
    match read_script(alloc, bytes) {
        Ok(_) => Ok(None),
        Err(ReadScript::Bad(fault)) => Ok(Some(fault)),
        Err(ReadScript::Memory) => Err(Memory),
    }
}

/// Whether a recorded history kept the rules. Where it did, no two of its requests held conflicting latches at one moment.
pub fn kept_the_rules(entries: &[Entry], sizes: &Sizes) -> bool
    ensures legal { IsTrue result ↔ IsLegal entries.now sizes.now }
    ensures exclusive { IsTrue result → Excludes entries.now sizes.now }
{
    laws::exclusion();
    legal_so_far(entries, sizes)
}

#[cfg(test)]
mod tests;
