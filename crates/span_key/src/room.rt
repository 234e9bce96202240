// A span that can be filled again and again without memory.
ghost use Rattle.std.specs.Prelude.{◌≡◌, ◌≢◌, ◌≤◌, ◌+◌, ◌++◌, [], length, MatchOption, OnOk, IfOk, vec_capacity};

use crate::keys::{Key, Memory};
use std::alloc::Global;
use std::marker::Model;

/// A span with room for the bytes of any span.
#[derive(Debug, Drop)]
pub struct SpanRoom {
    // The bytes of the first key, and behind them those of the end. A single key has no end.
    bytes: Vec<u8>,
    // How many of them are the key's.
    key: usize,
}

impl Model for SpanRoom {
    ghost use Rattle.std.specs.Prelude.{◌≤◌, ◌+◌, length, vec_capacity};
    ghost use Rattle.std.proofs.Math.ListN.{take, drop};
    ghost use Rattle.span_key.specs.Spans.{Pair, IsSpan, key_limit};

    ghost Value = { Pair };

    ghost view = { λ r. (take r.key r.bytes.items, drop r.key r.bytes.items) };

    ghost invariant = { λ r. IsSpan (take r.key r.bytes.items, drop r.key r.bytes.items) × (r.key ≤ length r.bytes.items)
        × (key_limit + key_limit ≤ vec_capacity r.bytes) };
}

impl SpanRoom {
    ghost use Rattle.span_key.specs.Spans.{IsSpan, KeyLess, key_limit};

    /// The single empty key.
    pub fn roomy(alloc: Global) -> Result<SpanRoom, Memory>
        ensures empty { IfOk result (λ r. r ≡ ([], [])) }
    {
        Ok(SpanRoom {
            bytes: Vec::with_capacity(alloc, 2 * Key::LIMIT)?,
            key: 0,
        })
    }

    /// The span from `key` up to `end`, which is excluded, or `key` alone where `end` is empty.
    pub fn refill(&mut self, key: &[u8], end: &[u8])
        requires key_fits { length key.now ≤ key_limit }
        requires end_fits { length end.now ≤ key_limit }
        requires ordered { end.now ≢ [] → KeyLess key.now end.now }
        ensures pair { self.new ≡ (key.now, end.now) }
    {
        self.bytes.clear();
        append(&mut self.bytes, key);
        append(&mut self.bytes, end);
        self.key = key.len();
    }

    /// The bytes of the first key.
    pub fn key(&self) -> &[u8]
        ensures key { result.now ≡ self.now.0 }
        ensures valid { IsSpan self.now }
    {
        &self.bytes[..self.key]
    }

    /// The bytes of the end, which is excluded.
    pub fn end(&self) -> Option<&[u8]>
        ensures end { MatchOption result (self.now.1 ≡ []) (λ end. (end.now ≡ self.now.1) × (self.now.1 ≢ [])) }
        ensures valid { IsSpan self.now }
    {
        if self.key == self.bytes.len() {
            None
        } else {
            Some(&self.bytes[self.key..])
        }
    }
}

// Puts bytes behind those of a vector that has room for them.
fn append(room: &mut Vec<u8>, bytes: &[u8])
    requires { length room.old.items + length bytes.now ≤ vec_capacity room.old }
    ensures items { room.new.items ≡ room.old.items ++ bytes.now }
    ensures capacity { vec_capacity room.old ≤ vec_capacity room.new }
{
    let Ok(()) = room.extend_from_slice(bytes) else {
        unreachable!()
    };
}
