// Keys: byte strings of a limited length.
ghost use Rattle.std.specs.Prelude.{◌≡◌, ℕ, ◌≤◌, ◌<◌, length, IfErr, IfOk, OnOk};

use std::alloc::Global;
use std::marker::Model;

/// Memory was refused. It is std's own type under the name that each crate here uses, so `?` hands on every refusal of std's.
pub use std::alloc::AllocError as Memory;

/// Why a key wasn't made.
#[derive(Debug, Drop)]
pub enum KeyFault {
    /// The bytes are `len`, which is more than a key may have.
    TooLong { len: usize },
    Memory,
}

impl From<Memory> for KeyFault {
    ghost use Rattle.span_key.specs.declared.keys.KeyFault.TheVariants.{Memory as NoMemory};

    ghost from_gives = { λ _ e. e ≡ NoMemory };

    fn from(_: Memory) -> KeyFault {
        KeyFault::Memory
    }
}

/// A byte string of at most `Key::LIMIT` bytes. It may be empty.
#[derive(Debug, Drop)]
pub struct Key {
    bytes: Vec<u8>,
}

impl Model for Key {
    ghost use Rattle.std.specs.Prelude.{ℕ, List};
    ghost use Rattle.span_key.specs.Spans.{IsKey};

    ghost Value = { List ℕ };

    ghost view = { λ k. k.bytes.items };

    ghost invariant = { λ k. IsKey k.bytes.items };
}

impl Key {
    ghost use Rattle.span_key.specs.Spans.{IsKey, key_limit};

    /// The most bytes that a key may have.
    pub const LIMIT: usize = 256;

    /// A key with these bytes.
    pub fn new(alloc: Global, bytes: &[u8]) -> Result<Key, KeyFault>
        ensures key { IfOk result (λ k. k ≡ bytes.now) }
        ensures valid { IfOk result IsKey }
        ensures too_long { (len : ℕ) → result ≡ Err (KeyFault.TooLong len) → (len ≡ length bytes.now) × (key_limit < length bytes.now) }
        ensures long { key_limit < length bytes.now → result ≡ Err (KeyFault.TooLong (length bytes.now)) }
    {
        if bytes.len() > Key::LIMIT {
            return Err(KeyFault::TooLong { len: bytes.len() });
        }
        Ok(Key {
            bytes: Vec::from_slice(alloc, bytes)?,
        })
    }

    /// A key of these bytes, which are not copied. More than `LIMIT` come back.
    pub fn from_vec(bytes: Vec<u8>) -> Result<Key, Vec<u8>>
        ensures key { IfOk result (λ k. (k ≡ bytes.items) × IsKey k) }
        ensures long { IfErr result (λ back. (back.items ≡ bytes.items) × (key_limit < length bytes.items)) }
    {
        if bytes.len() <= Key::LIMIT {
            Ok(Key { bytes })
        } else {
            Err(bytes)
        }
    }

    /// The bytes of the key.
    pub fn bytes(&self) -> &[u8]
        ensures bytes { result.now ≡ self.now }
        ensures valid { IsKey self.now }
    {
        self.bytes.as_slice()
    }

    /// An equal key.
    pub(crate) fn copy(&self, alloc: Global) -> Result<Key, Memory>
        ensures same { IfOk result (λ k. k ≡ self.now) }
    {
        Ok(Key {
            bytes: Vec::from_slice(alloc, self.bytes.as_slice())?,
        })
    }
}
