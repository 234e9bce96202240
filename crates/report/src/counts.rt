// How many requests began, and how many ended in each way.
ghost use Rattle.std.specs.Prelude.{◌≡◌, ◌<◌, ◌^◌, ◌++◌, length, take, decimal, is_some, OnOk, OnErr};
ghost use Rattle.latch_model.specs.Histories.{begin_of};
ghost use Rattle.report.specs.Words as spec;

use crate::text::whole_or_none;
use latch_model::{Entry, Fault, Grant};
use script::push_number;
use span_key::Memory;

/// How many requests of a history began, and how many of them ended in each way.
#[derive(Clone, Copy, Debug, PartialEq, Eq)]
pub struct Summary {
    /// Began.
    pub begun: u64,
    /// Waited for their latches and were granted them.
    pub granted: u64,
    /// Held what they had checked.
    pub checked: u64,
    /// Failed, since a request that they waited for was poisoned.
    pub poisoned: u64,
    /// Were cancelled while they waited.
    pub cancelled: u64,
    /// Were never granted, and ended without a fault.
    pub never: u64,
}

impl Summary {
    ghost use Rattle.report.specs.Words.{summary_of, summary_text};

    /// The counts of a history.
    pub fn of(entries: &[Entry]) -> Summary
        ensures { result ≡ summary_of entries.now }
    {
        Summary {
            begun: begun(entries),
            granted: granted(entries),
            checked: checked(entries),
            poisoned: poisoned(entries),
            cancelled: cancelled(entries),
            never: never(entries),
        }
    }

    /// Appends the last line of a report, with its line feed.
    pub fn summary_text(&self, out: &mut Vec<u8>) -> Result<(), Memory>
        ensures ok { OnOk result (out.new.items ≡ out.old.items ++ summary_text self.now) }
        ensures err { OnErr result (out.new.items ≡ out.old.items) }
    {
        let before = out.len();
        let pushed = self.push(out);
        whole_or_none(pushed, before, out)
    }

    fn push(&self, out: &mut Vec<u8>) -> Result<(), Memory>
        ensures ok { OnOk result (out.new.items ≡ out.old.items ++ summary_text self.now) }
        ensures err { OnErr result (take (length out.old.items) out.new.items ≡ out.old.items) }
    {
        push_count(b"requests ", self.begun, out)?;
        push_count(b" granted ", self.granted, out)?;
        push_count(b" checked ", self.checked, out)?;
        push_count(b" poisoned ", self.poisoned, out)?;
        push_count(b" cancelled ", self.cancelled, out)?;
        push_count(b" never ", self.never, out)?;
        out.extend_from_slice(b"\n")?;
        Ok(())
    }
}

/// A word and a number.
pub(crate) fn push_count(word: &[u8], n: u64, out: &mut Vec<u8>) -> Result<(), Memory>
    ensures ok { OnOk result (out.new.items ≡ out.old.items ++ (word.now ++ decimal n)) }
    ensures err { OnErr result (take (length out.old.items) out.new.items ≡ out.old.items) }
    ensures fits { n < 2 ^ 64 }
{
    out.extend_from_slice(word)?;
    push_number(n, out)
}

fn begun(entries: &[Entry]) -> u64
    ensures { result ≡ spec.count_begun entries.now }
{
    entries.iter().filter(|entry| is_begun(entry)).count() as u64
}

fn granted(entries: &[Entry]) -> u64
    ensures { result ≡ spec.count_ended spec.is_granted entries.now }
{
    entries.iter().filter(|entry| is_granted(entry)).count() as u64
}

fn checked(entries: &[Entry]) -> u64
    ensures { result ≡ spec.count_ended spec.is_checked entries.now }
{
    entries.iter().filter(|entry| is_checked(entry)).count() as u64
}

fn poisoned(entries: &[Entry]) -> u64
    ensures { result ≡ spec.count_ended spec.is_poisoned entries.now }
{
    entries.iter().filter(|entry| is_poisoned(entry)).count() as u64
}

fn cancelled(entries: &[Entry]) -> u64
    ensures { result ≡ spec.count_ended spec.is_cancelled entries.now }
{
    entries.iter().filter(|entry| is_cancelled(entry)).count() as u64
}

fn never(entries: &[Entry]) -> u64
    ensures { result ≡ spec.count_ended spec.is_never entries.now }
{
    entries.iter().filter(|entry| is_never(entry)).count() as u64
}

fn is_begun(entry: &Entry) -> bool
    ensures { result ≡ is_some (begin_of entry.now) }
{
    matches!(entry, Entry::Begun { .. })
}

fn is_granted(entry: &Entry) -> bool
    ensures { result ≡ spec.ended_by spec.is_granted entry.now }
{
    matches!(
        entry,
        Entry::Ended {
            grant: Grant::Waited(_),
            ..
        }
    )
}

fn is_checked(entry: &Entry) -> bool
    ensures { result ≡ spec.ended_by spec.is_checked entry.now }
{
    matches!(
        entry,
        Entry::Ended {
            grant: Grant::Checked(_),
            ..
        }
    )
}

fn is_poisoned(entry: &Entry) -> bool
    ensures { result ≡ spec.ended_by spec.is_poisoned entry.now }
{
    matches!(
        entry,
        Entry::Ended {
            fault: Fault::Poisoned(_),
            ..
        }
    )
}

fn is_cancelled(entry: &Entry) -> bool
    ensures { result ≡ spec.ended_by spec.is_cancelled entry.now }
{
    matches!(
        entry,
        Entry::Ended {
            fault: Fault::Cancelled(_),
            ..
        }
    )
}

fn is_never(entry: &Entry) -> bool
    ensures { result ≡ spec.ended_by spec.is_never entry.now }
{
    matches!(
        entry,
        Entry::Ended {
            grant: Grant::Never,
            fault: Fault::None,
            ..
        }
    )
}
