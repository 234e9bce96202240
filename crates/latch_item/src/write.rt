// A free row becomes an item.
ghost use Rattle.std.specs.Prelude.{◌≡◌, ◌≢◌, ℕ, ◌+◌, ◌-◌, ◌≤◌, slice_index};
ghost use mathlib.Core.Option.{some};
ghost use Rattle.row_pool.specs.Trees.{Entry};
ghost use Rattle.row_pool.specs.SeatState.{OnlyEntryChanges, OnlyViewChanges};
ghost use Rattle.row_pool.specs.Lists.{find};
ghost use Rattle.row_pool.specs.Layout.{IsContent};
ghost use Rattle.span_key.specs.Spans.{IsKey};
ghost use Rattle.latch_item.specs.Bytes.{key_word as key_word_of};
ghost use Rattle.latch_item.specs.Items.{IsItemPlace, OwnsItem};
ghost use Rattle.latch_item.specs.Puts.{Puts};

use crate::words::{end_bytes, key_word, words_to};
use hlc_stamp::Stamp;
use row_pool::{RowSeat, Rows};
use span_key::Span;

/// An owned free row becomes the item of a latch. `stamp` is the normal stamp. Only words that hold something else are stored.
pub fn write_item(
    rows: &Rows,
    seat: &mut RowSeat,
    row: u32,
    id: u64,
    place: u32,
    lane: u32,
    span: &Span,
    stamp: Stamp,
)
    requires table { seat.old.table ≡ rows.now }
    requires free { (e : Entry) × (find row seat.old.view.owned ≡ some e) × (e.kind ≡ 0) }
    ensures same { OnlyViewChanges seat.old seat.new }
    ensures item { OwnsItem seat.new.view row (record { id = id; place = place; lane = lane; span = span.now; stamp = stamp }) }
    ensures only { OnlyEntryChanges row seat.old.view seat.new.view }
    ensures counts { (e : Entry) → find row seat.old.view.owned ≡ some e
        → (d : Entry) × (find row seat.new.view.owned ≡ some d) × (d.own ≡ e.own) × (d.linked ≡ e.linked) }
{
    let key = span.key().bytes();
    let end = end_bytes(span);
    let head = [
        id,
        place as u64,
        lane as u64,
        stamp.wall,
        stamp.logical as u64,
        key.len() as u64,
        end.len() as u64,
    ];
    put_head(rows, seat, row, &head);
    put_bytes(rows, seat, row, 11, key);
    put_bytes(rows, seat, row, 43, end);
    rows.write(seat, row, 1, 1);
}

// The words 2 to 8.
fn put_head(rows: &Rows, seat: &mut RowSeat, row: u32, head: &[u64; 7])
    requires table { seat.old.table ≡ rows.now }
    requires free { (e : Entry) × (find row seat.old.view.owned ≡ some e) × (e.kind ≡ 0) }
    ensures same { OnlyViewChanges seat.old seat.new }
    ensures put { Puts seat.old.view seat.new.view row 2 7 (slice_index head.now) }
{
    for i in 0..7 {
        put_word(rows, seat, row, 2 + i, head[i as usize]);
    }
}

// The 32 words from `from` on get the bytes of the key, or of the end, and zeros after the last.
fn put_bytes(rows: &Rows, seat: &mut RowSeat, row: u32, from: u32, bytes: &[u8])
    requires key { IsKey bytes.now }
    requires place { (11 ≤ from) × (from ≤ 43) }
    requires table { seat.old.table ≡ rows.now }
    requires free { (e : Entry) × (find row seat.old.view.owned ≡ some e) × (e.kind ≡ 0) }
    ensures same { OnlyViewChanges seat.old seat.new }
    ensures put { Puts seat.old.view seat.new.view row from 32 (key_word_of bytes.now) }
{
    let words = words_to(bytes.len() as u32);
    for i in 0..words {
        let value = key_word(bytes, i);
        put_word(rows, seat, row, from + i, value);
    }
    put_zeros(rows, seat, row, from + words, from + 32);
}

// The words from `from` to `to`, which is excluded, get 0.
fn put_zeros(rows: &Rows, seat: &mut RowSeat, row: u32, from: u32, to: u32)
    requires place { (11 ≤ from) × (from ≤ to) × (to ≤ 75) }
    requires table { seat.old.table ≡ rows.now }
    requires free { (e : Entry) × (find row seat.old.view.owned ≡ some e) × (e.kind ≡ 0) }
    ensures same { OnlyViewChanges seat.old seat.new }
    ensures put { Puts seat.old.view seat.new.view row from (to - from) (λ i. 0) }
{
    for word in from..to {
        put_word(rows, seat, row, word, 0);
    }
}

// A word of an owned free row is stored, unless it holds the value already: a store costs much more than a load.
fn put_word(rows: &Rows, seat: &mut RowSeat, row: u32, word: u32, value: u64)
    requires place { IsItemPlace word }
    requires table { seat.old.table ≡ rows.now }
    requires free { (e : Entry) × (find row seat.old.view.owned ≡ some e) × (e.kind ≡ 0) }
    ensures same { OnlyViewChanges seat.old seat.new }
    ensures put { Puts seat.old.view seat.new.view row word 1 (λ i. value) }
{
    if rows.note(seat, row, word) != value {
        rows.write(seat, row, word, value);
    }
}
