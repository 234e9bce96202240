// The lines that commands write. Each is added to `out`, which holds anything after want of memory.
ghost use Rattle.std.specs.Prelude.{◌≡◌, ◌∷◌, ◌++◌, codes, decimal, Some, OnOk};
ghost use Rattle.latch_model.specs.Histories.{HeldLatch};
ghost use Rattle.report.specs.Words.{marked, numbers_text};
ghost use Rattle.step_run.specs.Texts.{counts_line, met_text, named_line};
ghost use Rattle.waiter.specs.Says.{Blocked, Poisoned};

use report::{mark_text, number_text, numbers_text};
use script::command::Name;
use sequence_core::metrics::{Counts, Metrics};
use span_key::Memory;
use waiter::{Mark, Optimist, Waiting};

/// A name and words.
pub(crate) fn words_line(name: &Name, words: &[u8], out: &mut Vec<u8>) -> Result<(), Memory>
    ensures { OnOk result (out.new.items ≡ out.old.items ++ named_line name.now words.now) }
{
    begin_line(name, words, out)?;
    put(b"\n", out)
}

/// A name, words and a number.
pub(crate) fn number_line(
    name: &Name,
    words: &[u8],
    n: u64,
    out: &mut Vec<u8>,
) -> Result<(), Memory>
    ensures { OnOk result (out.new.items ≡ out.old.items ++ named_line name.now (words.now ++ decimal n)) }
{
    begin_line(name, words, out)?;
    number_text(n, out)?;
    put(b"\n", out)
}

/// A name, the number of its request, and those of its prerequisites.
pub(crate) fn opening_line(
    name: &Name,
    id: u64,
    before: &[u64],
    out: &mut Vec<u8>,
) -> Result<(), Memory>
    ensures { OnOk result (out.new.items ≡ out.old.items ++ named_line name.now (decimal id ++ codes " before " ++ numbers_text before.now)) }
{
    begin_line(name, b"", out)?;
    number_text(id, out)?;
    put(b" before ", out)?;
    numbers_text(before, out)?;
    put(b"\n", out)
}

/// A name, words, and the held latch that the last poll met, with the number of its request.
pub(crate) fn polled_line(
    name: &Name,
    words: &[u8],
    waiting: &Waiting,
    out: &mut Vec<u8>,
) -> Result<(), Memory>
    ensures blocked { (x : HeldLatch) → waiting.now.last ≡ Blocked x →
        OnOk result (out.new.items ≡ out.old.items ++ named_line name.now (met_text words.now x)) }
    ensures poisoned { (x : HeldLatch) → waiting.now.last ≡ Poisoned x →
        OnOk result (out.new.items ≡ out.old.items ++ named_line name.now (met_text words.now x)) }
{
    match waiting.mark() {
        Some(mark) => mark_line(name, words, mark, out),
        None => Ok(()),
    }
}

/// The same of the one that the last check met.
pub(crate) fn checked_line(
    name: &Name,
    words: &[u8],
    optimist: &Optimist,
    out: &mut Vec<u8>,
) -> Result<(), Memory>
    ensures { (x : HeldLatch) → optimist.now.met ≡ Some x → OnOk result (out.new.items ≡ out.old.items ++ named_line name.now (met_text words.now x)) }
{
    match optimist.mark() {
        Some(mark) => mark_line(name, words, mark, out),
        None => Ok(()),
    }
}

/// The counts of metrics.
pub(crate) fn metrics_line(metrics: &Metrics, out: &mut Vec<u8>) -> Result<(), Memory>
    ensures { OnOk result (out.new.items ≡ out.old.items ++ (codes "metrics global" ++ counts_line metrics.now.global ++ codes " local"
        ++ counts_line metrics.now.local ++ codes "\n")) }
{
    put(b"metrics global", out)?;
    counts_text(&metrics.global, out)?;
    put(b" local", out)?;
    counts_text(&metrics.local, out)?;
    put(b"\n", out)
}

fn counts_text(counts: &Counts, out: &mut Vec<u8>) -> Result<(), Memory>
    ensures { OnOk result (out.new.items ≡ out.old.items ++ counts_line counts.now) }
{
    count_text(b" read ", counts.read, out)?;
    count_text(b" pending ", counts.pending, out)?;
    count_text(b" write ", counts.write, out)
}

// Words and a number.
fn count_text(words: &[u8], n: u32, out: &mut Vec<u8>) -> Result<(), Memory>
    ensures { OnOk result (out.new.items ≡ out.old.items ++ (words.now ++ decimal n)) }
{
    put(words, out)?;
    number_text(u64::from(n), out)
}

// A name, words, and a held latch with the number of its request.
fn mark_line(name: &Name, words: &[u8], mark: &Mark, out: &mut Vec<u8>) -> Result<(), Memory>
    ensures { OnOk result (out.new.items
        ≡ out.old.items ++ named_line name.now (words.now ++ decimal mark.now.by ++ 32 ∷ marked mark.now.span mark.now.stamp)) }
{
    begin_line(name, words, out)?;
    number_text(mark.by, out)?;
    put(b" ", out)?;
    let alloc = *out.allocator();
    mark_text(alloc, mark, out)?;
    put(b"\n", out)
}

// Bytes as they are.
fn put(bytes: &[u8], out: &mut Vec<u8>) -> Result<(), Memory>
    ensures { OnOk result (out.new.items ≡ out.old.items ++ bytes.now) }
{
    out.extend_from_slice(bytes)
}

// A name, a space and words.
fn begin_line(name: &Name, words: &[u8], out: &mut Vec<u8>) -> Result<(), Memory>
    ensures { OnOk result (out.new.items ≡ out.old.items ++ (name.now ++ 32 ∷ words.now)) }
{
    put(name.bytes(), out)?;
    put(b" ", out)?;
    put(words, out)
}
