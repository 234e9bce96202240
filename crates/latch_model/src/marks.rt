// Marks: 64 bits for each begin that tell at once, of most pairs of requests, that no latch of the one is in conflict with one of the other.
// Where a request begins and many are open, all that is read of most of them is their marks, which stand side by side.
ghost use Rattle.std.specs.Prelude.{◌≡◌, ◌<◌, ◌++◌, List, [], ◌∷◌, not, OnOk};
ghost use Rattle.std.specs.List.{All, filter};
ghost use Rattle.latch_model.specs.Carrying.{carried};
ghost use Rattle.latch_model.specs.Histories.{begins, is_begin};
ghost use Rattle.latch_model.specs.Marks.{IsMarked, entry_mark, latches_mark, place_from, seen, span_mark};

use crate::history::Entry;
use crate::latch::Latch;
use crate::prerequisites::is_begin;
use span_key::{Memory, Span};

/// An entry and its mark.
#[derive(Clone, Copy)]
pub(crate) struct Marked<'a> {
    pub(crate) entry: &'a Entry,
    pub(crate) mark: u64,
}

/// This entry with its mark.
pub(crate) fn with_mark(entry: &Entry) -> Marked<'_>
    ensures entry { result.entry.now ≡ entry.now }
    ensures marked { IsMarked result }
{
    Marked {
        entry,
        mark: entry_mark(entry),
    }
}

/// One entry further: a begin is carried with its mark, and an end takes the begins of its request away.
pub(crate) fn carry_marked<'a>(open: &mut Vec<Marked<'a>>, next: &Marked<'a>) -> Result<(), Memory>
    ensures carried_on { OnOk result (begins (seen «open».new.items) ≡ carried (begins (seen «open».old.items)) next.now.entry.now) }
    ensures marked { OnOk result (IsMarked next.now → All IsMarked «open».old.items → All IsMarked «open».new.items) }
{
    match next.entry {
        Entry::Begun { .. } => keep(open, next),
        Entry::Ended { id, .. } => {
            let_go(open, *id);
            Ok(())
        }
    }
}

fn keep<'a>(open: &mut Vec<Marked<'a>>, next: &Marked<'a>) -> Result<(), Memory>
    ensures { OnOk result («open».new.items ≡ «open».old.items ++ next.now ∷ []) }
{
    open.push(*next)?;
    Ok(())
}

// Without the begins of this request.
fn let_go(open: &mut Vec<Marked>, id: u64)
    ensures { «open».new.items ≡ filter (λ m. not (is_begin id m.entry.now)) «open».old.items }
{
    open.retain(|marked| !is_begin(marked.entry, id));
}

fn entry_mark(entry: &Entry) -> u64
    ensures { result ≡ entry_mark entry.now }
{
    match entry {
        Entry::Begun { request, .. } => latches_mark(request.latches().list()),
        Entry::Ended { .. } => 0,
    }
}

fn latches_mark(latches: &[Latch]) -> u64
    ensures { result ≡ latches_mark latches.now }
{
    match latches {
        [] => 0,
        [first, rest @ ..] => latches_mark(rest) | span_mark(&first.span),
    }
}

// One bit of a single key, and all bits of a range.
fn span_mark(span: &Span) -> u64
    ensures { result ≡ span_mark span.now }
{
    match span.end() {
        None => 1 << place_from(0, span.key().bytes()),
        Some(_) => u64::MAX,
    }
}

// The place of the bit that these bytes lead to from another place.
#[tactic(auto, unfolding(crate::specs::Marks::place_from))]
fn place_from(place: u64, bytes: &[u8]) -> u64
    requires { place < 64 }
    ensures value { result ≡ place_from place bytes.now }
    ensures within { result < 64 }
{
    match bytes {
        [] => place,
        [first, rest @ ..] => place_from((place * 5 + u64::from(*first)) % 64, rest),
    }
}
