// How latches and numbers are spelled. Each function appends to `out`. Where memory is refused, `out` still begins with what it held.
ghost use Rattle.std.specs.Prelude.{◌≡◌, ◌≤◌, ◌*◌, ◌∷◌, ◌++◌, length, take, decimal, OnOk, OnErr};
ghost use Rattle.hex.specs.Hex.{encode_lower};
ghost use Rattle.span_key.specs.Spans.{key_limit};
ghost use Rattle.script.specs.Texts.{access_text, latch_text, span_text, stamp_text, whole_stamp_text};

use hlc_stamp::Stamp;
use itoa::Buffer;
use latch_model::latch::{Access, Latch};
use span_key::{Key, Memory, Span};

// The digits of a short key, and of the longest.
const FEW_DIGITS: usize = 64;

const MOST_DIGITS: usize = 2 * Key::LIMIT;

/// Appends the one spelling of a latch: its access, its span and its declared stamp.
pub fn push_latch(latch: &Latch, out: &mut Vec<u8>) -> Result<(), Memory>
    ensures ok { OnOk result (out.new.items ≡ out.old.items ++ latch_text latch.now) }
    ensures err { OnErr result (take (length out.old.items) out.new.items ≡ out.old.items) }
{
    push_access(latch.access, out)?;
    push_span(&latch.span, out)?;
    push_stamp(latch.stamp, out)
}

/// Appends a span: a single key, or a range.
pub fn push_span(span: &Span, out: &mut Vec<u8>) -> Result<(), Memory>
    ensures ok { OnOk result (out.new.items ≡ out.old.items ++ span_text span.now) }
    ensures err { OnErr result (take (length out.old.items) out.new.items ≡ out.old.items) }
{
    match span.end() {
        None => push_bounds(span.key().bytes(), b"", out),
        Some(end) => push_bounds(span.key().bytes(), end.bytes(), out),
    }
}

/// Appends the span of a key and an end, which is empty at a single key.
pub fn push_bounds(key: &[u8], end: &[u8], out: &mut Vec<u8>) -> Result<(), Memory>
    requires key { length key.now ≤ key_limit }
    requires end { length end.now ≤ key_limit }
    ensures ok { OnOk result (out.new.items ≡ out.old.items ++ span_text (key.now, end.now)) }
    ensures err { OnErr result (take (length out.old.items) out.new.items ≡ out.old.items) }
{
    push_hex(key, out)?;
    if end.is_empty() {
        return Ok(());
    }
    out.push(b'-')?;
    push_hex(end, out)
}

/// Appends both parts of a stamp.
pub fn push_whole_stamp(stamp: Stamp, out: &mut Vec<u8>) -> Result<(), Memory>
    ensures ok { OnOk result (out.new.items ≡ out.old.items ++ whole_stamp_text stamp) }
    ensures err { OnErr result (take (length out.old.items) out.new.items ≡ out.old.items) }
{
    push_after(b'@', stamp.wall, out)?;
    push_after(b'.', u64::from(stamp.logical), out)
}

/// Appends a byte and a number in decimal.
pub fn push_after(byte: u8, n: u64, out: &mut Vec<u8>) -> Result<(), Memory>
    ensures ok { OnOk result (out.new.items ≡ out.old.items ++ (byte ∷ decimal n)) }
    ensures err { OnErr result (take (length out.old.items) out.new.items ≡ out.old.items) }
{
    out.push(byte)?;
    push_number(n, out)
}

/// Appends a number in decimal. Where memory is refused, `out` is as before.
pub fn push_number(n: u64, out: &mut Vec<u8>) -> Result<(), Memory>
    ensures ok { OnOk result (out.new.items ≡ out.old.items ++ decimal n) }
    ensures err { OnErr result (out.new.items ≡ out.old.items) }
{
    let mut digits = Buffer::new();
    out.extend_from_slice(digits.format(n).as_bytes())
}

fn push_access(access: Access, out: &mut Vec<u8>) -> Result<(), Memory>
    ensures ok { OnOk result (out.new.items ≡ out.old.items ++ access_text access) }
    ensures err { OnErr result (take (length out.old.items) out.new.items ≡ out.old.items) }
{
    match access {
        Access::Read => out.extend_from_slice(b"r:"),
        Access::Write => out.extend_from_slice(b"w:"),
    }
}

// The declared stamp, of which the empty one and a logical part 0 aren't written.
fn push_stamp(stamp: Stamp, out: &mut Vec<u8>) -> Result<(), Memory>
    ensures ok { OnOk result (out.new.items ≡ out.old.items ++ stamp_text stamp) }
    ensures err { OnErr result (take (length out.old.items) out.new.items ≡ out.old.items) }
{
    if stamp.logical != 0 {
        return push_whole_stamp(stamp, out);
    }
    if stamp.wall != 0 {
        return push_after(b'@', stamp.wall, out);
    }
    Ok(())
}

// A key in hexadecimal digits.
fn push_hex(bytes: &[u8], out: &mut Vec<u8>) -> Result<(), Memory>
    requires { length bytes.now ≤ key_limit }
    ensures ok { OnOk result (out.new.items ≡ out.old.items ++ encode_lower bytes.now) }
    ensures err { OnErr result (out.new.items ≡ out.old.items) }
{
    // Most keys are short, and room costs time by its size.
    if 2 * bytes.len() <= FEW_DIGITS {
        push_digits(bytes, &mut [0u8; FEW_DIGITS], out)
    } else {
        push_digits(bytes, &mut [0u8; MOST_DIGITS], out)
    }
}

// A key in hexadecimal digits, for which there is room.
fn push_digits(bytes: &[u8], room: &mut [u8], out: &mut Vec<u8>) -> Result<(), Memory>
    requires { 2 * length bytes.now ≤ length room.old }
    ensures ok { OnOk result (out.new.items ≡ out.old.items ++ encode_lower bytes.now) }
    ensures err { OnErr result (out.new.items ≡ out.old.items) }
{
    let digits = &mut room[..2 * bytes.len()];
    let Ok(()) = hex::encode_to_slice(bytes, digits) else {
        unreachable!()
    };
    out.extend_from_slice(digits)
}
