use super::*;
use std::alloc::Global;
use std::cmp::Ordering;
use std::process::Abort;
use std::test::Fail;

// The range from `key` to `end`, or the single key where `end` is empty.
fn span(alloc: Global, key: &[u8], end: &[u8]) -> Result<Span, Fail> {
    let key = Key::new(alloc, key)?;
    if end.is_empty() {
        return Ok(Span::point(key));
    }
    let end = Key::new(alloc, end)?;
    Ok(Span::range(key, end)?)
}

// The bytes of a span.
fn parts<'s>(span: &'s Span) -> (&'s [u8], Option<&'s [u8]>) {
    (span.key().bytes(), span.end().map(|end| end.bytes()))
}

// What the keys of one span are to another's.
#[derive(Clone, Copy, Debug, PartialEq, Eq)]
enum Keys {
    Apart,
    SomeShared,
    // The first span has all keys of the second, and more.
    More,
    Fewer,
    Same,
}

fn compare(one: &Span, other: &Span) -> Option<Keys> {
    match (
        one.overlaps(other),
        one.contains(other),
        other.contains(one),
    ) {
        (false, false, false) => Some(Keys::Apart),
        (true, false, false) => Some(Keys::SomeShared),
        (true, true, false) => Some(Keys::More),
        (true, false, true) => Some(Keys::Fewer),
        (true, true, true) => Some(Keys::Same),
        _ => None,
    }
}

// Compares the spans (key, end) of row `row`.
fn check(
    rt: &impl Abort,
    alloc: Global,
    row: u8,
    one: (&[u8], &[u8]),
    other: (&[u8], &[u8]),
    keys: Keys,
    bounds: Ordering,
) -> Result<(), Fail> {
    let one = span(alloc, one.0, one.1)?;
    let other = span(alloc, other.0, other.1)?;
    assert_eq!(rt; compare(&one, &other), Some(keys), "row {row}");
    assert_eq!(rt; one.bound_cmp(&other), bounds, "row {row}");
    assert_eq!(rt; other.bound_cmp(&one), bounds.reverse(), "row {row}");
    Ok(())
}

#[test]
fn spans_are_compared_by_their_keys(rt: HostRuntime) -> Result<(), Fail> {
    use Keys::{Apart, Fewer, More, Same, SomeShared};
    use Ordering::{Equal, Greater, Less};
    let a = rt.alloc();
    // An end is excluded.
    check(&rt, a, 1, (b"a", b"c"), (b"c", b""), Apart, Less)?;
    check(&rt, a, 2, (b"c", b""), (b"a", b"c"), Apart, Greater)?;
    check(&rt, a, 3, (b"a", b"c"), (b"c", b"e"), Apart, Less)?;
    check(&rt, a, 4, (b"a", b"c"), (b"b", b"e"), SomeShared, Less)?;
    check(&rt, a, 5, (b"a", b"c"), (b"a", b"b"), More, Greater)?;
    // A longer key is another key, and comes after the shorter one.
    check(&rt, a, 6, (b"a", b""), (b"a\x00", b""), Apart, Less)?;
    check(&rt, a, 7, (b"a", b"a\x01"), (b"a\x00", b""), More, Greater)?;
    // Bytes count before lengths.
    check(&rt, a, 8, (b"b", b""), (b"aaa", b"ab"), Apart, Greater)?;
    // A range of one key is that key, though its bound is another.
    check(&rt, a, 9, (b"a", b""), (b"a", b"a\x00"), Same, Less)?;
    check(&rt, a, 10, (b"a", b""), (b"a", b"a\x01"), Fewer, Less)?;
    check(&rt, a, 11, (b"a", b""), (b"a", b""), Same, Equal)?;
    Ok(())
}

#[test]
fn keys_have_at_most_256_bytes(rt: HostRuntime) -> Result<(), Fail> {
    let longest = Key::new(rt.alloc(), &[7; 256])?;
    assert_eq!(rt; longest.bytes(), [7; 256].as_slice());
    match Key::new(rt.alloc(), &[7; 257]) {
        Err(KeyFault::TooLong { len }) => assert_eq!(rt; len, 257),
        Err(KeyFault::Memory) => assert!(rt; false, "memory"),
        Ok(_) => assert!(rt; false, "a key of 257 bytes"),
    }
    Ok(())
}

#[test]
fn a_key_takes_over_at_most_256_bytes(rt: HostRuntime) -> Result<(), Fail> {
    let Ok(longest) = Key::from_vec(Vec::from_slice(rt.alloc(), &[7; 256])?) else {
        return Err(Fail::from("256 bytes came back"));
    };
    assert_eq!(rt; longest.bytes(), [7; 256].as_slice());
    let Err(back) = Key::from_vec(Vec::from_slice(rt.alloc(), &[7; 257])?) else {
        return Err(Fail::from("a key of 257 bytes"));
    };
    assert_eq!(rt; back.as_slice(), [7; 257].as_slice());
    Ok(())
}

#[test]
fn an_end_that_is_not_past_the_key_comes_back(rt: HostRuntime) -> Result<(), Fail> {
    let key = Key::new(rt.alloc(), b"a")?;
    let end = Key::new(rt.alloc(), b"a")?;
    let Err(reversed) = Span::range(key, end) else {
        return Err(Fail::from("a range without a key"));
    };
    assert_eq!(rt; reversed.key.bytes(), b"a".as_slice());
    assert_eq!(rt; reversed.end.bytes(), b"a".as_slice());
    Ok(())
}

#[test]
fn a_copy_has_the_same_keys(rt: HostRuntime) -> Result<(), Fail> {
    let range = span(rt.alloc(), b"a", b"c")?.copy(rt.alloc())?;
    assert_eq!(rt; parts(&range), (b"a".as_slice(), Some(b"c".as_slice())));
    let point = span(rt.alloc(), b"a", b"")?.copy(rt.alloc())?;
    assert_eq!(rt; parts(&point), (b"a".as_slice(), None));
    Ok(())
}

#[test]
fn spans_are_local_by_their_first_byte(rt: HostRuntime) -> Result<(), Fail> {
    for (key, end, scope) in [
        (b"\x01\xff".as_slice(), b"".as_slice(), Scope::Local),
        (b"\x01", b"z", Scope::Local),
        (b"\x00", b"\x02", Scope::Global),
        (b"", b"", Scope::Global),
        (b"a\x01", b"", Scope::Global),
    ] {
        assert_eq!(rt; span(rt.alloc(), key, end)?.scope(), scope, "{key:?}");
    }
    Ok(())
}

#[test]
fn room_holds_what_was_filled_in_last(rt: HostRuntime) -> Result<(), Fail> {
    let mut room = SpanRoom::roomy(rt.alloc())?;
    assert!(rt; room.key().is_empty() && room.end().is_none());
    room.refill(b"a", b"c");
    assert_eq!(rt; room.key(), b"a".as_slice());
    assert_eq!(rt; room.end(), Some(b"c".as_slice()));
    room.refill(&[7; 256], b"");
    assert_eq!(rt; room.key(), [7; 256].as_slice());
    assert!(rt; room.end().is_none());
    Ok(())
}
