// What one field of a line spells: a number, a name, a policy or a latch.
ghost use Rattle.std.specs.Prelude.{◌≡◌, ◌+◌, ◌*◌, ◌≤◌, ◌^◌, ◌⊎◌, ◌&&◌, true, false, drop, length, take, Option, Some, None, Ok, IfSome, IfOk, MatchOption};
ghost use Rattle.std.specs.Char.{is_ascii_digit};
ghost use Rattle.std.specs.Str.{bytes_eq};
ghost use Rattle.std.specs.Str.Parse.{digits_value};
ghost use Rattle.std.specs.List.{before_first, after_first, list_all, position};
ghost use Rattle.script.specs.Fields.{access_at, bounded_at, bytes_at, has_byte, is_byte, latch_at, name_at, number_at, or_cause, timed_at, policy_at};
ghost use Rattle.script.specs.Fields.{span_at, stamp_at};
ghost use Rattle.script.specs.Fields as spec;
ghost use Rattle.script.specs.Scripts as scripts;
ghost use Rattle.script.specs.Scripts.{IsScriptLatch};
ghost use Rattle.script.specs.Texts.{latch_text};
ghost use Rattle.latch_model.specs.declared.latch.Latch.{Latch as AnyLatch};
ghost use Rattle.script.specs.Causes.{number_of};
ghost use Rattle.script.specs.Outcomes.{Gives};

use crate::command::Name;
use crate::fault::{FaultCause, FieldFault};
use crate::limits::KEY_LIMIT;
use hex::FromHexError;
use hlc_stamp::Stamp;
use latch_model::latch::{Access, Latch, Policy};
use latch_model::same_bytes;
use span_key::{Key, Memory, Span};
use std::alloc::Global;

// How many bytes of a text are searched at once.
const BLOCK: usize = 16;

/// Whether a text is this word.
pub(crate) fn is_word(text: &[u8], word: &[u8]) -> bool
    ensures { result ≡ bytes_eq text.now word.now }
{
    same_bytes(text, word)
}

/// What stands before the first byte `c` of a text, and what stands behind it.
#[inline(always)]
pub(crate) fn cut(text: &[u8], c: u8) -> Option<(&[u8], &[u8])>
    ensures { MatchOption result (has_byte c text.now ≡ false)
        (λ x. (has_byte c text.now ≡ true) × (x.0.now ≡ before_first (is_byte c) text.now) × (x.1.now ≡ after_first (is_byte c) text.now)) }
{
    match index_of(text, c) {
        None => None,
        Some(at) => Some((&text[..at], &text[at + 1..])),
    }
}

// The place of a byte in a text. Blocks are tested whole, and only from the first that has the byte on the text is searched byte by byte.
fn index_of(text: &[u8], c: u8) -> Option<usize>
    ensures { result ≡ position (is_byte c) text.now }
{
    let passed = blocks_without(text, c);
    match place_of(&text[passed..], c) {
        None => None,
        Some(at) => Some(passed + at),
    }
}

// The same byte by byte.
fn place_of(text: &[u8], c: u8) -> Option<usize>
    ensures { result ≡ position (is_byte c) text.now }
{
    text.iter().position(|b| *b == c)
}

// How many bytes there are in the blocks at the front of a text that don't have the byte.
fn blocks_without(text: &[u8], c: u8) -> usize
    ensures inside { result ≤ length text.now }
    ensures without { has_byte c (take result text.now) ≡ false }
{
    let mut passed = 0;
    while text.len() - passed >= BLOCK && !text[passed..passed + BLOCK].contains(&c) {
        passed += BLOCK;
    }
    passed
}

// The number that a text of digits writes, where it fits 64 bits. Each byte is looked at once.
fn digits(text: &[u8]) -> Option<u64>
    ensures { MatchOption result ((list_all is_ascii_digit text.now ≡ false) ⊎ (2 ^ 64 ≤ digits_value 10 text.now))
        (λ n. (list_all is_ascii_digit text.now ≡ true) × (n ≡ digits_value 10 text.now)) }
{
    let mut n = 0u64;
    for byte in text {
        let c = *byte;
        if !c.is_ascii_digit() {
            return None;
        }
        let Some(more) = with_digit(n, c - b'0') else {
            return None;
        };
        n = more;
    }
    Some(n)
}

// A number with one more digit behind it, where that fits 64 bits.
fn with_digit(n: u64, digit: u8) -> Option<u64>
    ensures { MatchOption result (2 ^ 64 ≤ n * 10 + digit) (λ m. m ≡ n * 10 + digit) }
{
    let Some(tenfold) = n.checked_mul(10) else {
        return None;
    };
    tenfold.checked_add(u64::from(digit))
}

// Whether a text begins as a decimal number does: it is not empty, and begins with 0 only where that is all.
fn begins_decimal(text: &[u8]) -> bool
    ensures { spec.is_decimal text.now ≡ (result && list_all is_ascii_digit text.now) }
{
    match text {
        [] => false,
        [_] => true,
        [first, _, ..] => *first != b'0',
    }
}

/// The decimal number from `low` to `high` that a text spells. It has no sign, and a leading zero only where it is zero.
#[tactic(auto, unfolding(crate::specs::Fields::number_at))]
pub fn number(low: u64, high: u64, text: &[u8]) -> Option<u64>
    ensures value { result ≡ number_at low high text.now }
    ensures range { IfSome result (λ n. (low ≤ n) × (n ≤ high)) }
{
    if !begins_decimal(text) {
        return None;
    }
    let n = digits(text)?;
    if low <= n && n <= high { Some(n) } else { None }
}

fn is_name(text: &[u8]) -> bool
    ensures { result ≡ scripts.is_name text.now }
{
    match text {
        [] => false,
        [first, rest @ ..] => {
            first.is_ascii_lowercase() && all_name_bytes(rest) && rest.len() <= 15
        }
    }
}

fn all_name_bytes(text: &[u8]) -> bool
    ensures { result ≡ list_all scripts.is_name_byte text.now }
{
    text.iter().all(|b| matches!(*b, b'a'..=b'z' | b'0'..=b'9'))
}

/// The name that a field spells.
#[tactic(auto, unfolding(crate::specs::Fields::name_at))]
pub(crate) fn name(text: &[u8]) -> Result<Name, FieldFault>
    ensures { Gives (λ n. n) result (or_cause (number_of FaultCause.NoName) (name_at text.now)) }
{
    if !is_name(text) {
        return Err(FaultCause::NoName.fault());
    }
    Ok(Name::new(text))
}

/// The policy that a field spells.
#[tactic(auto, unfolding(crate::specs::Fields::policy_at))]
pub(crate) fn policy(text: &[u8]) -> Option<Policy>
    ensures { result ≡ policy_at text.now }
{
    if is_word(text, b"wait") {
        Some(Policy::Wait)
    } else if is_word(text, b"error") {
        Some(Policy::Error)
    } else {
        None
    }
}

// Whether a byte is a hexadecimal digit in lower case.
fn is_hex_digit(byte: u8) -> bool
    ensures { result ≡ spec.is_hex byte }
{
    matches!(byte, b'0'..=b'9' | b'a'..=b'f')
}

// Whether all bytes of a text are such digits. It goes through the whole text, so that many bytes are tested at once.
fn is_hex(text: &[u8]) -> bool
    ensures { result ≡ list_all spec.is_hex text.now }
{
    let mut all = true;
    for byte in text {
        all = all & is_hex_digit(*byte);
    }
    all
}

// The bytes, one or more, that a text spells in hexadecimal.
#[tactic(auto, unfolding(crate::specs::Fields::bytes_at))]
fn bytes_of(alloc: Global, text: &[u8]) -> Result<Vec<u8>, FieldFault>
    ensures { Gives (λ v. v.items) result (or_cause (number_of FaultCause.NoLatch) (bytes_at text.now)) }
{
    if text.is_empty() || !is_hex(text) {
        return Err(FaultCause::NoLatch.fault());
    }
    match hex::decode(alloc, text) {
        Ok(bytes) => Ok(bytes),
        Err(FromHexError::OutOfMemory) => Err(FieldFault::Memory),
        Err(_) => Err(FaultCause::NoLatch.fault()),
    }
}

// The bytes of a key, and those of its end, which are none at a single key.
#[derive(Drop)]
struct Bounds {
    key: Vec<u8>,
    end: Vec<u8>,
}

// A key, or a key and its end.
#[tactic(auto, unfolding(crate::specs::Fields::span_at))]
fn bounds_of(alloc: Global, text: &[u8]) -> Result<Bounds, FieldFault>
    ensures { Gives (λ p. (p.key.items, p.end.items)) result (or_cause (number_of FaultCause.NoLatch) (span_at text.now)) }
{
    match cut(text, b'-') {
        None => Ok(Bounds {
            key: bytes_of(alloc, text)?,
            end: Vec::new(alloc),
        }),
        Some((key, end)) => Ok(Bounds {
            key: bytes_of(alloc, key)?,
            end: bytes_of(alloc, end)?,
        }),
    }
}

// What stands behind the `@` of a stamp.
#[tactic(auto, unfolding(crate::specs::Fields::stamp_at))]
fn stamp_of(text: &[u8]) -> Option<Stamp>
    ensures { result ≡ stamp_at text.now }
{
    match cut(text, b'.') {
        None => Some(Stamp {
            wall: number(1, u64::MAX, text)?,
            logical: 0,
        }),
        Some((wall, logical)) => Some(Stamp {
            wall: number(0, u64::MAX, wall)?,
            logical: number(1, u64::from(u32::MAX), logical)? as u32,
        }),
    }
}

// A span and a stamp: a span of bytes whose lengths and order aren't tested yet, and a stamp.
#[tactic(auto, unfolding(crate::specs::Fields::timed_at))]
fn timed_span(alloc: Global, text: &[u8]) -> Result<(Bounds, Stamp), FieldFault>
    ensures { Gives (λ x. ((x.0.key.items, x.0.end.items), x.1)) result (or_cause (number_of FaultCause.NoLatch) (timed_at text.now)) }
{
    match cut(text, b'@') {
        None => Ok((
            bounds_of(alloc, text)?,
            Stamp {
                wall: 0,
                logical: 0,
            },
        )),
        Some((text, time)) => {
            let bounds = bounds_of(alloc, text)?;
            match stamp_of(time) {
                None => Err(FaultCause::NoLatch.fault()),
                Some(stamp) => Ok((bounds, stamp)),
            }
        }
    }
}

// The access of a latch, and what stands behind it.
#[tactic(auto, unfolding(crate::specs::Fields::access_at))]
fn access_of(text: &[u8]) -> Option<(Access, &[u8])>
    ensures { MatchOption result (access_at text.now ≡ None) (λ x. (access_at text.now ≡ Some x.0) × (x.1.now ≡ drop 2 text.now)) }
{
    if let Some(rest) = text.strip_prefix(b"r:") {
        return Some((Access::Read, rest));
    }
    match text.strip_prefix(b"w:") {
        Some(rest) => Some((Access::Write, rest)),
        None => None,
    }
}

// A span of a key and an end whose lengths aren't tested yet.
#[tactic(auto, unfolding(crate::specs::Fields::bounded_at))]
fn bounded(bounds: Bounds) -> Result<Span, FieldFault>
    ensures { Gives (λ s. s) result (bounded_at (bounds.key.items, bounds.end.items)) }
{
    let Bounds { key, end } = bounds;
    if key.len() > KEY_LIMIT || end.len() > KEY_LIMIT {
        return Err(FaultCause::LongKey.fault());
    }
    let (Ok(key), Ok(end)) = (Key::from_vec(key), Key::from_vec(end)) else {
        unreachable!()
    };
    if end.bytes().is_empty() {
        return Ok(Span::point(key));
    }
    match Span::range(key, end) {
        Ok(span) => Ok(span),
        Err(_) => Err(FaultCause::Reversed.fault()),
    }
}

// A key of these bytes.
pub(crate) fn key_of(alloc: Global, bytes: &[u8]) -> Result<Key, Memory>
    requires { length bytes.now ≤ KEY_LIMIT }
    ensures { IfOk result (λ k. k ≡ bytes.now) }
{
    match Key::new(alloc, bytes) {
        Ok(key) => Ok(key),
        Err(_) => Err(Memory),
    }
}

/// The latch that a field spells. Faults: 8, the field is spelled as no latch; 9, a key or an end is too long; 10, the end is not
/// greater than the key.
pub fn read_latch(alloc: Global, field: &[u8]) -> Result<Latch, FieldFault>
    // What is read is a latch of scripts, and the field is its spelling.
    ensures found { IfOk result (λ l. (field.now ≡ latch_text l) × IsScriptLatch l) }
    // A latch that is spelled so is read, unless memory is refused.
    ensures only { (l : AnyLatch) → field.now ≡ latch_text l → IsScriptLatch l → Gives (λ l. l) result (Ok l) }
    // A cause is the first one.
    ensures exact { Gives (λ l. l) result (latch_at field.now) }
{
    latch(alloc, field)
}

#[tactic(auto, unfolding(crate::specs::Fields::latch_at))]
pub(crate) fn latch(alloc: Global, field: &[u8]) -> Result<Latch, FieldFault>
    ensures { Gives (λ l. l) result (latch_at field.now) }
{
    let Some((access, rest)) = access_of(field) else {
        return Err(FaultCause::NoLatch.fault());
    };
    let (bounds, stamp) = timed_span(alloc, rest)?;
    Ok(Latch {
        access,
        span: bounded(bounds)?,
        stamp,
    })
}
