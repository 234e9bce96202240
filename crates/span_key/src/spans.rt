// Spans: a range of keys or a single key.
ghost use Rattle.std.specs.Prelude.{◌≡◌, ◌≢◌, ◌↔◌, [], IsTrue, IsSome, IsNone, IfSome, IfOk, IfErr, OnErr, MatchOption, MatchResult};
ghost use Rattle.span_key.specs.Spans.{next_key};

use crate::keys::{Key, Memory};
use crate::scopes::Scope;
use std::alloc::Global;
use std::cmp::Ordering;
use std::marker::Model;

/// An end that isn't greater than the key. Both come back.
#[derive(Debug, Drop)]
pub struct Reversed {
    pub key: Key,
    pub end: Key,
}

/// The keys from `key` up to an end that is excluded, or `key` alone.
#[derive(Debug, Drop)]
pub struct Span {
    key: Key,
    end: Option<Key>,
}

impl Model for Span {
    ghost use Rattle.std.specs.Prelude.{◌≢◌, []};
    ghost use Rattle.std.specs.Option.{ForSome};
    ghost use Rattle.span_key.specs.Spans.{Pair, IsSpan, end_of};

    ghost Value = { Pair };

    ghost view = { λ s. (s.key, end_of s.end) };

    ghost invariant = { λ s. IsSpan (s.key, end_of s.end) × ForSome s.end (λ e. e ≢ []) };
}

impl Span {
    ghost use Rattle.span_key.specs.Spans.{IsSpan, KeyLess, KeyUpTo, LiesIn, Overlap, bound_cmp, bound_of, key_le, key_lt, lies_in, overlap, past};
    ghost use Rattle.span_key.specs.Scopes.{scope_of};

    /// The span of one key.
    pub fn point(key: Key) -> Span
        ensures pair { result ≡ (key, []) }
        ensures valid { IsSpan result }
    {
        let _bytes = key.bytes();
        Span { key, end: None }
    }

    /// The keys from `key` up to `end`, which is excluded.
    pub fn range(key: Key, end: Key) -> Result<Span, Reversed>
        ensures pair { IfOk result (λ s. s ≡ (key, end)) }
        ensures valid { IfOk result IsSpan }
        ensures back { IfErr result (λ e. (e.key ≡ key) × (e.end ≡ end)) }
        ensures reversed { OnErr result (¬ KeyLess key end) }
        ensures ordered { IfOk result (λ _. KeyLess key end) }
    {
        if key.bytes().cmp(end.bytes()).is_lt() {
            Ok(Span {
                key,
                end: Some(end),
            })
        } else {
            Err(Reversed { key, end })
        }
    }

    /// The first key.
    pub fn key(&self) -> &Key
        ensures key { result.now ≡ self.now.0 }
        ensures valid { IsSpan self.now }
    {
        &self.key
    }

    /// The end, which is excluded.
    pub fn end(&self) -> Option<&Key>
        ensures end { MatchOption result (self.now.1 ≡ []) (λ end. (end.now ≡ self.now.1) × (self.now.1 ≢ [])) }
        ensures valid { IsSpan self.now }
    {
        self.end.as_ref()
    }

    /// Whether some key is in both spans.
    pub fn overlaps(&self, other: &Span) -> bool
        ensures test { result ≡ overlap self.now other.now }
        ensures points { IsTrue result ↔ Overlap self.now other.now }
    {
        other.is_before_end(&self.key) && self.is_before_end(&other.key)
    }

    /// Whether each key of `other` is in this span. A range that has just one key lies in that single key.
    pub fn contains(&self, other: &Span) -> bool
        ensures test { result ≡ lies_in other.now self.now }
        ensures points { IsTrue result ↔ LiesIn other.now self.now }
    {
        self.key.bytes().cmp(other.key.bytes()).is_le() && self.ends_no_earlier(other)
    }

    /// The order of the upper bounds: of the ends, which are excluded, and of single keys, which are included.
    /// At equal bytes an included bound is the greater.
    pub fn bound_cmp(&self, other: &Span) -> Ordering
        ensures { result ≡ bound_cmp self.now other.now }
    {
        let by_bytes = self.bound().cmp(other.bound());
        by_bytes.then(self.end.is_none().cmp(&other.end.is_none()))
    }

    /// The scope of the first key.
    pub fn scope(&self) -> Scope
        ensures { result ≡ scope_of self.now }
    {
        if self.key.bytes().first() == Some(&1) {
            Scope::Local
        } else {
            Scope::Global
        }
    }

    /// An equal span.
    pub fn copy(&self, alloc: Global) -> Result<Span, Memory>
        ensures same { IfOk result (λ s. s ≡ self.now) }
    {
        let key = self.key.copy(alloc)?;
        let end = match &self.end {
            None => None,
            Some(end) => Some(end.copy(alloc)?),
        };
        Ok(Span { key, end })
    }

    // Whether the key is less than each key past the span.
    fn is_before_end(&self, key: &Key) -> bool
        ensures { result ≡ key_lt key.now (past self.now) }
    {
        match &self.end {
            None => key.bytes().cmp(self.key.bytes()).is_le(),
            Some(end) => key.bytes().cmp(end.bytes()).is_lt(),
        }
    }

    // Whether no key of the other span is past this one, which begins no later.
    fn ends_no_earlier(&self, other: &Span) -> bool
        requires { KeyUpTo self.now.0 other.now.0 }
        ensures { result ≡ key_le (past other.now) (past self.now) }
    {
        let Some(other_end) = other.end() else {
            return self.is_before_end(other.key());
        };
        match self.end() {
            Some(end) => other_end.bytes().cmp(end.bytes()).is_le(),
            // A range lies in a single key only where its end is the next key.
            None => is_next(other_end.bytes(), self.key().bytes()),
        }
    }

    // The bytes of the upper bound.
    fn bound(&self) -> &[u8]
        ensures { result.now ≡ bound_of self.now }
    {
        match &self.end {
            None => self.key.bytes(),
            Some(end) => end.bytes(),
        }
    }
}

// Whether `end` is the key that comes next after `key`.
fn is_next(end: &[u8], key: &[u8]) -> bool
    ensures { IsTrue result ↔ (end.now ≡ next_key key.now) }
{
    match end.split_last() {
        Some((last, front)) => *last == 0 && front == key,
        None => false,
    }
}
