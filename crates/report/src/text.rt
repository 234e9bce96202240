// How latches, held latches and numbers are spelled. Each public function appends to `out`, and takes back what it appended where
// memory is refused. The private ones leave that to it: their `out` still begins with what it held.
ghost use Rattle.std.specs.Prelude.{◌≡◌, ◌≤◌, ◌∷◌, ◌++◌, length, take, decimal, OnOk, OnErr};
ghost use Rattle.std.specs.List.{flat_map};
ghost use Rattle.script.specs.Texts.{latch_text};
ghost use Rattle.span_key.specs.Spans.{key_limit};
ghost use Rattle.report.specs.Words.{mark_text, marked, numbers_text};

use hlc_stamp::Stamp;
use latch_model::latch::Latch;
use script::{push_after, push_bounds, push_latch, push_number, push_span, push_whole_stamp};
use span_key::Memory;
use std::alloc::Global;
use waiter::Mark;

/// Appends a latch as scripts write it: its access, its span and its declared stamp.
pub fn latch_text(_alloc: Global, latch: &Latch, out: &mut Vec<u8>) -> Result<(), Memory>
    ensures ok { OnOk result (out.new.items ≡ out.old.items ++ latch_text latch.now) }
    ensures err { OnErr result (out.new.items ≡ out.old.items) }
{
    let before = out.len();
    let pushed = push_latch(latch, out);
    whole_or_none(pushed, before, out)
}

/// Appends a held latch that was met: its span and both parts of its normal stamp, which are 0 at a local latch.
pub fn held_latch_text(latch: &Latch, out: &mut Vec<u8>) -> Result<(), Memory>
    ensures ok { OnOk result (out.new.items ≡ out.old.items ++ mark_text latch.now) }
    ensures err { OnErr result (out.new.items ≡ out.old.items) }
{
    let before = out.len();
    let pushed = push_mark(latch, out);
    whole_or_none(pushed, before, out)
}

/// Appends a mark: its span, and both parts of its stamp.
pub fn mark_text(_alloc: Global, mark: &Mark, out: &mut Vec<u8>) -> Result<(), Memory>
    ensures ok { OnOk result (out.new.items ≡ out.old.items ++ marked mark.now.span mark.now.stamp) }
    ensures err { OnErr result (out.new.items ≡ out.old.items) }
{
    let before = out.len();
    let end = mark.span.end().unwrap_or(b"");
    let pushed = push_marked(mark.span.key(), end, mark.stamp, out);
    whole_or_none(pushed, before, out)
}

/// Appends a number in decimal.
pub fn number_text(n: u64, out: &mut Vec<u8>) -> Result<(), Memory>
    ensures ok { OnOk result (out.new.items ≡ out.old.items ++ decimal n) }
    ensures err { OnErr result (out.new.items ≡ out.old.items) }
{
    push_number(n, out)
}

/// Appends numbers with commas between them, or a hyphen where there are none.
pub fn numbers_text(numbers: &[u64], out: &mut Vec<u8>) -> Result<(), Memory>
    ensures ok { OnOk result (out.new.items ≡ out.old.items ++ numbers_text numbers.now) }
    ensures err { OnErr result (out.new.items ≡ out.old.items) }
{
    let before = out.len();
    let pushed = push_numbers(numbers, out);
    whole_or_none(pushed, before, out)
}

// What was pushed, or nothing of it where memory was refused: then `out` holds its first `before` bytes.
pub(crate) fn whole_or_none(
    pushed: Result<(), Memory>,
    before: usize,
    out: &mut Vec<u8>,
) -> Result<(), Memory>
    ensures same { result ≡ pushed }
    ensures ok { OnOk result (out.new.items ≡ out.old.items) }
    ensures err { OnErr result (out.new.items ≡ take before out.old.items) }
{
    if pushed.is_err() {
        out.truncate(before);
    }
    pushed
}

fn push_mark(latch: &Latch, out: &mut Vec<u8>) -> Result<(), Memory>
    ensures ok { OnOk result (out.new.items ≡ out.old.items ++ mark_text latch.now) }
    ensures err { OnErr result (take (length out.old.items) out.new.items ≡ out.old.items) }
{
    push_span(&latch.span, out)?;
    push_whole_stamp(latch.normal(), out)
}

fn push_marked(key: &[u8], end: &[u8], stamp: Stamp, out: &mut Vec<u8>) -> Result<(), Memory>
    requires key { length key.now ≤ key_limit }
    requires end { length end.now ≤ key_limit }
    ensures ok { OnOk result (out.new.items ≡ out.old.items ++ marked (key.now, end.now) stamp) }
    ensures err { OnErr result (take (length out.old.items) out.new.items ≡ out.old.items) }
{
    push_bounds(key, end, out)?;
    push_whole_stamp(stamp, out)
}

pub(crate) fn push_numbers(numbers: &[u64], out: &mut Vec<u8>) -> Result<(), Memory>
    ensures ok { OnOk result (out.new.items ≡ out.old.items ++ numbers_text numbers.now) }
    ensures err { OnErr result (take (length out.old.items) out.new.items ≡ out.old.items) }
{
    match numbers.split_first() {
        None => out.extend_from_slice(b"-"),
        Some((first, others)) => {
            push_number(*first, out)?;
            push_others(others, out)
        }
    }
}

// Numbers that follow another one.
fn push_others(numbers: &[u64], out: &mut Vec<u8>) -> Result<(), Memory>
    ensures ok { OnOk result (out.new.items ≡ out.old.items ++ flat_map (λ n. 44 ∷ decimal n) numbers.now) }
    ensures err { OnErr result (take (length out.old.items) out.new.items ≡ out.old.items) }
{
    for n in numbers {
        push_after(b',', *n, out)?;
    }
    Ok(())
}
