// How items lie to spans and to one another.
ghost use Rattle.std.specs.Prelude.{◌≡◌, ◌↔◌, ℕ, ◌*◌, ◌≤◌, IsTrue};
ghost use Rattle.std.specs.Ordering.{nat_cmp, ordering_then};
ghost use Rattle.span_key.specs.Spans.{IsKey, Overlap, key_cmp, key_lt, past, overlap, bound_cmp as span_bound_cmp, is_point as is_single};
ghost use Rattle.latch_item.specs.Bytes.{Agree, key_word as key_word_of};
ghost use Rattle.latch_item.specs.Items.{Item, HasItem, part, item_cmp as item_order};
ghost use Rattle.latch_item.specs.Sides.{side_between};

use crate::read::{read_len, read_part, read_word};
use crate::words::{key_word, words_to};
use row_pool::{RowSeat, Rows};
use span_key::Span;
use std::cmp::Ordering;

/// How an item lies to a span.
#[derive(Clone, Copy, Debug)]
pub enum Side {
    /// It ends before the span.
    Before,
    /// Some key is in both.
    Overlaps,
    /// It begins past the span.
    Past,
}

/// The order of items: by key, end, request and place in the request. An empty end comes first.
pub fn item_cmp(rows: &Rows, seat: &mut RowSeat, a: u32, b: u32) -> Ordering
    requires table { seat.old.table ≡ rows.now }
    requires one { (x : Item) × HasItem seat.old.view a x }
    requires other { (y : Item) × HasItem seat.old.view b y }
    ensures same { seat.new ≡ seat.old }
    ensures order { (x y : Item) → HasItem seat.old.view a x → HasItem seat.old.view b y → result ≡ item_order x y }
{
    let by_key = parts_cmp(rows, seat, a, false, b, false);
    if by_key.is_ne() {
        return by_key;
    }
    let by_end = parts_cmp(rows, seat, a, true, b, true);
    if by_end.is_ne() {
        return by_end;
    }
    ids_cmp(rows, seat, a, b)
}

/// The order of the upper bounds of two items.
pub fn bound_cmp(rows: &Rows, seat: &mut RowSeat, a: u32, b: u32) -> Ordering
    requires table { seat.old.table ≡ rows.now }
    requires one { (x : Item) × HasItem seat.old.view a x }
    requires other { (y : Item) × HasItem seat.old.view b y }
    ensures same { seat.new ≡ seat.old }
    ensures order { (x y : Item) → HasItem seat.old.view a x → HasItem seat.old.view b y → result ≡ span_bound_cmp x.span y.span }
{
    let a_point = is_point(rows, seat, a);
    let b_point = is_point(rows, seat, b);
    let by_bytes = parts_cmp(rows, seat, a, !a_point, b, !b_point);
    by_bytes.then(a_point.cmp(&b_point))
}

/// Whether some key is in the item's span and in the other.
pub fn item_overlaps(rows: &Rows, seat: &mut RowSeat, a: u32, span: &Span) -> bool
    requires table { seat.old.table ≡ rows.now }
    requires item { (x : Item) × HasItem seat.old.view a x }
    ensures same { seat.new ≡ seat.old }
    ensures test { (x : Item) → HasItem seat.old.view a x → result ≡ overlap x.span span.now }
    ensures points { (x : Item) → HasItem seat.old.view a x → IsTrue result ↔ Overlap x.span span.now }
{
    // That the pair is a span is learnt by reading it.
    let _key = span.key();
    begins_before(rows, seat, a, span) && reaches(rows, seat, a, span)
}

/// How the item lies to a span, of whose key the first two words are given. For two single keys one comparison is enough.
pub fn side_of(
    rows: &Rows,
    seat: &mut RowSeat,
    a: u32,
    span: &Span,
    first: u64,
    second: u64,
) -> Side
    requires table { seat.old.table ≡ rows.now }
    requires item { (x : Item) × HasItem seat.old.view a x }
    requires first { first ≡ key_word_of span.now.0 0 }
    requires second { second ≡ key_word_of span.now.0 1 }
    ensures same { seat.new ≡ seat.old }
    ensures side { (x : Item) → HasItem seat.old.view a x → result ≡ side_between (key_lt span.now.0 (past x.span)) (key_lt x.span.0 (past span.now)) }
{
    let key = span.key().bytes();
    match part_cmp_by(rows, seat, a, false, key, first, second) {
        // It begins before the span's end, so its own end decides.
        Ordering::Less => {
            if is_point(rows, seat, a) {
                Side::Before
            } else if part_cmp_by(rows, seat, a, true, key, first, second).is_gt() {
                Side::Overlaps
            } else {
                Side::Before
            }
        }
        Ordering::Equal => Side::Overlaps,
        // It reaches the span, so the span's end decides.
        Ordering::Greater => match span.end() {
            Some(end) => {
                if part_cmp(rows, seat, a, false, end.bytes()).is_lt() {
                    Side::Overlaps
                } else {
                    Side::Past
                }
            }
            None => Side::Past,
        },
    }
}

/// Whether the item's key is before the upper bound of a span.
pub fn begins_before(rows: &Rows, seat: &mut RowSeat, a: u32, span: &Span) -> bool
    requires table { seat.old.table ≡ rows.now }
    requires item { (x : Item) × HasItem seat.old.view a x }
    ensures same { seat.new ≡ seat.old }
    ensures test { (x : Item) → HasItem seat.old.view a x → result ≡ key_lt x.span.0 (past span.now) }
{
    match span.end() {
        Some(end) => part_cmp(rows, seat, a, false, end.bytes()).is_lt(),
        None => part_cmp(rows, seat, a, false, span.key().bytes()).is_le(),
    }
}

/// Whether the item's upper bound is not before the key of a span.
pub fn reaches(rows: &Rows, seat: &mut RowSeat, a: u32, span: &Span) -> bool
    requires table { seat.old.table ≡ rows.now }
    requires item { (x : Item) × HasItem seat.old.view a x }
    ensures same { seat.new ≡ seat.old }
    ensures test { (x : Item) → HasItem seat.old.view a x → result ≡ key_lt span.now.0 (past x.span) }
{
    let key = span.key().bytes();
    if is_point(rows, seat, a) {
        part_cmp(rows, seat, a, false, key).is_ge()
    } else {
        part_cmp(rows, seat, a, true, key).is_gt()
    }
}

/// Whether the span of an item is a single key.
pub fn is_point(rows: &Rows, seat: &mut RowSeat, a: u32) -> bool
    requires table { seat.old.table ≡ rows.now }
    requires item { (x : Item) × HasItem seat.old.view a x }
    ensures same { seat.new ≡ seat.old }
    ensures point { (x : Item) → HasItem seat.old.view a x → result ≡ is_single x.span }
{
    read_word(rows, seat, a, 8) == 0
}

// The key, or the end, of an item against a key.
fn part_cmp(rows: &Rows, seat: &mut RowSeat, a: u32, end: bool, bytes: &[u8]) -> Ordering
    requires key { IsKey bytes.now }
    requires table { seat.old.table ≡ rows.now }
    requires item { (x : Item) × HasItem seat.old.view a x }
    ensures same { seat.new ≡ seat.old }
    ensures order { (x : Item) → HasItem seat.old.view a x → result ≡ key_cmp (part end x.span) bytes.now }
{
    let first = key_word(bytes, 0);
    let second = key_word(bytes, 1);
    part_cmp_by(rows, seat, a, end, bytes, first, second)
}

// The same where the key's first two words are given. Words are compared up to the first that differs.
fn part_cmp_by(
    rows: &Rows,
    seat: &mut RowSeat,
    a: u32,
    end: bool,
    bytes: &[u8],
    first: u64,
    second: u64,
) -> Ordering
    requires key { IsKey bytes.now }
    requires table { seat.old.table ≡ rows.now }
    requires item { (x : Item) × HasItem seat.old.view a x }
    requires first { first ≡ key_word_of bytes.now 0 }
    requires second { second ≡ key_word_of bytes.now 1 }
    ensures same { seat.new ≡ seat.old }
    ensures order { (x : Item) → HasItem seat.old.view a x → result ≡ key_cmp (part end x.span) bytes.now }
{
    let word = read_part(rows, seat, a, end, 0);
    if word != first {
        word.cmp(&first)
    } else {
        second_part_cmp(rows, seat, a, end, bytes, second)
    }
}

// The same where the first words are equal. Behind its end a key has zeros, so the second words need no length.
fn second_part_cmp(
    rows: &Rows,
    seat: &mut RowSeat,
    a: u32,
    end: bool,
    bytes: &[u8],
    second: u64,
) -> Ordering
    requires key { IsKey bytes.now }
    requires table { seat.old.table ≡ rows.now }
    requires item { (x : Item) × HasItem seat.old.view a x }
    requires second { second ≡ key_word_of bytes.now 1 }
    requires first { (x : Item) → HasItem seat.old.view a x → Agree (part end x.span) bytes.now 1 }
    ensures same { seat.new ≡ seat.old }
    ensures order { (x : Item) → HasItem seat.old.view a x → result ≡ key_cmp (part end x.span) bytes.now }
{
    let word = read_part(rows, seat, a, end, 1);
    if word != second {
        word.cmp(&second)
    } else {
        later_part_cmp(rows, seat, a, end, bytes)
    }
}

// The same where the first two words are equal. No word past the shorter of the two is compared.
fn later_part_cmp(rows: &Rows, seat: &mut RowSeat, a: u32, end: bool, bytes: &[u8]) -> Ordering
    requires key { IsKey bytes.now }
    requires table { seat.old.table ≡ rows.now }
    requires item { (x : Item) × HasItem seat.old.view a x }
    requires two { (x : Item) → HasItem seat.old.view a x → Agree (part end x.span) bytes.now 2 }
    ensures same { seat.new ≡ seat.old }
    ensures order { (x : Item) → HasItem seat.old.view a x → result ≡ key_cmp (part end x.span) bytes.now }
{
    let len = read_len(rows, seat, a, end);
    let other_len = bytes.len() as u32;
    for i in 2..words_to(len.min(other_len)) {
        let word = read_part(rows, seat, a, end, i);
        let other = key_word(bytes, i);
        if word != other {
            return word.cmp(&other);
        }
    }
    len.cmp(&other_len)
}

// The key, or the end, of an item against that of another, in the same way.
#[inline(always)]
fn parts_cmp(rows: &Rows, seat: &mut RowSeat, a: u32, a_end: bool, b: u32, b_end: bool) -> Ordering
    requires table { seat.old.table ≡ rows.now }
    requires one { (x : Item) × HasItem seat.old.view a x }
    requires other { (y : Item) × HasItem seat.old.view b y }
    ensures same { seat.new ≡ seat.old }
    ensures order { (x y : Item) → HasItem seat.old.view a x → HasItem seat.old.view b y → result ≡ key_cmp (part a_end x.span) (part b_end y.span) }
{
    let word = read_part(rows, seat, a, a_end, 0);
    let other = read_part(rows, seat, b, b_end, 0);
    if word != other {
        word.cmp(&other)
    } else {
        second_parts_cmp(rows, seat, a, a_end, b, b_end)
    }
}

// The same where the first words are equal.
#[inline(always)]
fn second_parts_cmp(
    rows: &Rows,
    seat: &mut RowSeat,
    a: u32,
    a_end: bool,
    b: u32,
    b_end: bool,
) -> Ordering
    requires table { seat.old.table ≡ rows.now }
    requires one { (x : Item) × HasItem seat.old.view a x }
    requires other { (y : Item) × HasItem seat.old.view b y }
    requires first { (x y : Item) → HasItem seat.old.view a x → HasItem seat.old.view b y → Agree (part a_end x.span) (part b_end y.span) 1 }
    ensures same { seat.new ≡ seat.old }
    ensures order { (x y : Item) → HasItem seat.old.view a x → HasItem seat.old.view b y → result ≡ key_cmp (part a_end x.span) (part b_end y.span) }
{
    let word = read_part(rows, seat, a, a_end, 1);
    let other = read_part(rows, seat, b, b_end, 1);
    if word != other {
        word.cmp(&other)
    } else {
        later_parts_cmp(rows, seat, a, a_end, b, b_end)
    }
}

// The same where the first two words are equal.
fn later_parts_cmp(
    rows: &Rows,
    seat: &mut RowSeat,
    a: u32,
    a_end: bool,
    b: u32,
    b_end: bool,
) -> Ordering
    requires table { seat.old.table ≡ rows.now }
    requires one { (x : Item) × HasItem seat.old.view a x }
    requires other { (y : Item) × HasItem seat.old.view b y }
    requires two { (x y : Item) → HasItem seat.old.view a x → HasItem seat.old.view b y → Agree (part a_end x.span) (part b_end y.span) 2 }
    ensures same { seat.new ≡ seat.old }
    ensures order { (x y : Item) → HasItem seat.old.view a x → HasItem seat.old.view b y → result ≡ key_cmp (part a_end x.span) (part b_end y.span) }
{
    let len = read_len(rows, seat, a, a_end);
    let other_len = read_len(rows, seat, b, b_end);
    for i in 2..words_to(len.min(other_len)) {
        let word = read_part(rows, seat, a, a_end, i);
        let other = read_part(rows, seat, b, b_end, i);
        if word != other {
            return word.cmp(&other);
        }
    }
    len.cmp(&other_len)
}

// The order of (request, place).
fn ids_cmp(rows: &Rows, seat: &mut RowSeat, a: u32, b: u32) -> Ordering
    requires table { seat.old.table ≡ rows.now }
    requires one { (x : Item) × HasItem seat.old.view a x }
    requires other { (y : Item) × HasItem seat.old.view b y }
    ensures same { seat.new ≡ seat.old }
    ensures order { (x y : Item) → HasItem seat.old.view a x → HasItem seat.old.view b y
        → result ≡ ordering_then (nat_cmp x.id y.id) (nat_cmp x.place y.place) }
{
    let id = read_word(rows, seat, a, 2);
    let other_id = read_word(rows, seat, b, 2);
    if id != other_id {
        return id.cmp(&other_id);
    }
    let place = read_word(rows, seat, a, 3);
    let other_place = read_word(rows, seat, b, 3);
    place.cmp(&other_place)
}
