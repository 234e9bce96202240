// The counts of the last line, by the entries of a history.
ghost use Rattle.std.specs.Prelude.{◌≡◌, ◌-◌, ◌^◌};
ghost use Rattle.report.specs.Words.{is_never, summary_of};
ghost use Rattle.step_run.specs.Counting.{AreAtMost, with_end, with_entry};

use latch_model::history::{Entry, Fault, Grant};
use report::Summary;

/// How many requests began, and how many ended in each way.
pub(crate) fn summary(entries: &[Entry]) -> Summary
    ensures { result ≡ summary_of entries.now }
{
    let mut summary = Summary {
        begun: 0,
        granted: 0,
        checked: 0,
        poisoned: 0,
        cancelled: 0,
        never: 0,
    };
    for entry in entries {
        add(&mut summary, entry);
    }
    summary
}

fn add(summary: &mut Summary, entry: &Entry)
    requires { AreAtMost (2 ^ 64 - 1) summary.old }
    ensures { summary.new ≡ with_entry entry.now summary.old }
{
    match entry {
        Entry::Begun { .. } => summary.begun += 1,
        Entry::Ended { grant, fault, .. } => add_end(summary, grant, *fault),
    }
}

fn add_end(summary: &mut Summary, grant: &Grant, fault: Fault)
    requires { AreAtMost (2 ^ 64 - 1) summary.old }
    ensures { summary.new ≡ with_end grant.now fault summary.old }
{
    match grant {
        Grant::Waited(_) => summary.granted += 1,
        Grant::Checked(_) => summary.checked += 1,
        Grant::Never => {}
    }
    match fault {
        Fault::Poisoned(_) => summary.poisoned += 1,
        Fault::Cancelled(_) => summary.cancelled += 1,
        Fault::None => {}
    }
    if is_never(grant, fault) {
        summary.never += 1;
    }
}

// Whether a request was never granted, and ended without a fault.
fn is_never(grant: &Grant, fault: Fault) -> bool
    ensures { result ≡ is_never grant.now fault }
{
    match grant {
        Grant::Waited(_) | Grant::Checked(_) => false,
        Grant::Never => match fault {
            Fault::Poisoned(_) | Fault::Cancelled(_) => false,
            Fault::None => true,
        },
    }
}
