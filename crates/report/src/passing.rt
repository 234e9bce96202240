// A pass over a history beside the prerequisites of its requests.
ghost use Rattle.std.specs.Prelude.{◌≡◌, ◌∷◌, List, map};
ghost use Rattle.latch_model.specs.Histories.{before, begins};
ghost use Rattle.latch_model.specs.declared.history.Entry.{Entry as AnyEntry};
ghost use Rattle.report.specs.Passing.{ArePrerequisites};
ghost use Rattle.report.specs.Reports.{checked_latches};

use latch_model::{Entry, Grant, Latch};

/// The prerequisites of the request that an entry begins, none at an end, and the lists of the entries behind it. `lists` has those of the
/// requests that begin from this entry on.
pub(crate) fn next_list<'a>(lists: &'a [Vec<u64>], entry: &Entry) -> (&'a [u64], &'a [Vec<u64>])
    ensures own { (h es : List AnyEntry) → map (λ v. v.items) lists.now ≡ map (λ b. before h b.id) (begins (entry.now ∷ es)) →
        ArePrerequisites h result.0.now entry.now }
    ensures others { (h es : List AnyEntry) → map (λ v. v.items) lists.now ≡ map (λ b. before h b.id) (begins (entry.now ∷ es)) →
        map (λ v. v.items) result.1.now ≡ map (λ b. before h b.id) (begins es) }
{
    match entry {
        Entry::Begun { .. } => match lists.split_first() {
            Some((ids, others)) => (ids.as_slice(), others),
            None => (&[], lists),
        },
        Entry::Ended { .. } => (&[], lists),
    }
}

/// The latches that a grant checked.
pub(crate) fn checked_list(grant: &Grant) -> &[Latch]
    ensures { result.now ≡ checked_latches grant.now }
{
    match grant {
        Grant::Never | Grant::Waited(_) => &[],
        Grant::Checked(asked) => asked.list(),
    }
}
