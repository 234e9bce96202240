// The bytes of a key as words.
ghost use Rattle.std.specs.Prelude.{◌≡◌, ℕ, ◌+◌, ◌*◌, ◌<◌, ◌≤◌, length};
ghost use Rattle.latch_item.specs.Bytes.{byte, number, skip, key_word as key_word_of};

use span_key::{Key, Span};

/// The first eight bytes of a key as a number, with zeros after the key's end. Where those of two keys differ, the keys are in their order.
pub fn first_word(key: &Key) -> u64
    ensures { result ≡ key_word_of key.now 0 }
{
    key_word(key.bytes(), 0)
}

/// The eight bytes behind these. Where the first words of two keys are equal and these differ, the keys are in their order.
pub fn second_word(key: &Key) -> u64
    ensures { result ≡ key_word_of key.now 1 }
{
    key_word(key.bytes(), 1)
}

/// Eight bytes of a key, from the byte 8 i on, with zeros after the key's end.
pub(crate) fn key_word(bytes: &[u8], i: u32) -> u64
    requires { i < 32 }
    ensures { result ≡ key_word_of bytes.now i }
{
    let at = i as usize * 8;
    if at + 8 <= bytes.len() {
        whole_word(bytes, at)
    } else if at < bytes.len() {
        last_word(bytes, at)
    } else {
        0
    }
}

// Eight bytes that are all there.
fn whole_word(bytes: &[u8], at: usize) -> u64
    requires { at + 8 ≤ length bytes.now }
    ensures { result ≡ number 8 (skip at bytes.now) }
{
    u64::from_be_bytes([
        bytes[at],
        bytes[at + 1],
        bytes[at + 2],
        bytes[at + 3],
        bytes[at + 4],
        bytes[at + 5],
        bytes[at + 6],
        bytes[at + 7],
    ])
}

// Eight bytes, of which the last ones are past the end.
fn last_word(bytes: &[u8], at: usize) -> u64
    requires { (at < length bytes.now) × (length bytes.now ≤ at + 8) × (at < 256) }
    ensures { result ≡ number 8 (skip at bytes.now) }
{
    let len = bytes.len();
    if len < 8 {
        short_word(bytes, at)
    } else {
        // The last eight bytes of all, of which those in front of the place are shifted out.
        whole_word(bytes, len - 8) << (8 * (at + 8 - len))
    }
}

// The same where there are fewer than eight bytes in all.
fn short_word(bytes: &[u8], at: usize) -> u64
    requires { at < 256 }
    ensures { result ≡ number 8 (skip at bytes.now) }
{
    let mut word: u64 = 0;
    for k in 0..8 {
        word = word * 256 + byte_at(bytes, at + k);
    }
    word
}

// The byte at a place, and 0 after the end.
fn byte_at(bytes: &[u8], at: usize) -> u64
    ensures byte { result ≡ byte (skip at bytes.now) }
    ensures low { result < 256 }
{
    match bytes.get(at) {
        Some(byte) => *byte as u64,
        None => 0,
    }
}

/// The bytes of the end, none for a single key.
pub(crate) fn end_bytes(span: &Span) -> &[u8]
    ensures { result.now ≡ span.now.1 }
{
    match span.end() {
        Some(end) => end.bytes(),
        None => &[],
    }
}

/// How many words a number of bytes takes.
pub(crate) fn words_to(len: u32) -> u32
    requires { len ≤ 256 }
    ensures low { result ≤ 32 }
    ensures enough { len ≤ result * 8 }
{
    (len + 7) / 8
}
