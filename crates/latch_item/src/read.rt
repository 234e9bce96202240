// What an item's words say.
ghost use Rattle.std.specs.Prelude.{◌≡◌, ℕ, ◌+◌, ◌<◌, ◌≤◌, ◌++◌, length, take, if◌then◌else◌};
ghost use Rattle.latch_item.specs.Bytes.{key_word, spelled};
ghost use Rattle.latch_item.specs.Items.{Item, IsItemPlace, HasItem, part, item_word};

use hlc_stamp::Stamp;
use row_pool::{RowSeat, Rows};
use span_key::SpanRoom;

/// Whose latch an item is, and when it was asked for.
#[derive(Clone, Copy, Debug, PartialEq, Eq)]
pub struct Facts {
    /// The request.
    pub id: u64,
    /// The place of the latch in the request.
    pub place: u32,
    /// The lane of the request.
    pub lane: u32,
    /// The normal stamp.
    pub stamp: Stamp,
}

/// The request of an item, its place there, its lane and its normal stamp.
pub fn item_facts(rows: &Rows, seat: &mut RowSeat, a: u32) -> Facts
    requires table { seat.old.table ≡ rows.now }
    requires item { (x : Item) × HasItem seat.old.view a x }
    ensures same { seat.new ≡ seat.old }
    ensures facts { (x : Item) → HasItem seat.old.view a x
        → (result.id ≡ x.id) × (result.place ≡ x.place) × (result.lane ≡ x.lane) × (result.stamp ≡ x.stamp) }
{
    let id = read_word(rows, seat, a, 2);
    let place = read_word(rows, seat, a, 3) as u32;
    let lane = read_word(rows, seat, a, 4) as u32;
    let wall = read_word(rows, seat, a, 5);
    let logical = read_word(rows, seat, a, 6) as u32;
    Facts {
        id,
        place,
        lane,
        stamp: Stamp { wall, logical },
    }
}

/// The span of an item goes into the room.
pub fn item_span(rows: &Rows, seat: &mut RowSeat, a: u32, span: &mut SpanRoom)
    requires table { seat.old.table ≡ rows.now }
    requires item { (x : Item) × HasItem seat.old.view a x }
    ensures same { seat.new ≡ seat.old }
    ensures span { (x : Item) → HasItem seat.old.view a x → span.new ≡ x.span }
{
    let mut key = [0; 256];
    let mut end = [0; 256];
    let key_len = read_bytes(rows, seat, a, false, &mut key);
    let end_len = read_bytes(rows, seat, a, true, &mut end);
    span.refill(&key[..key_len], &end[..end_len]);
}

/// A word of an item.
pub(crate) fn read_word(rows: &Rows, seat: &mut RowSeat, a: u32, word: u32) -> u64
    requires place { IsItemPlace word }
    requires table { seat.old.table ≡ rows.now }
    requires item { (x : Item) × HasItem seat.old.view a x }
    ensures same { seat.new ≡ seat.old }
    ensures word { (x : Item) → HasItem seat.old.view a x → result ≡ item_word x word }
{
    rows.read(seat, a, word)
}

/// The word number i of the key, or of the end, of an item.
pub(crate) fn read_part(rows: &Rows, seat: &mut RowSeat, a: u32, end: bool, i: u32) -> u64
    requires low { i < 32 }
    requires table { seat.old.table ≡ rows.now }
    requires item { (x : Item) × HasItem seat.old.view a x }
    ensures same { seat.new ≡ seat.old }
    ensures word { (x : Item) → HasItem seat.old.view a x → result ≡ key_word (part end x.span) i }
{
    read_word(rows, seat, a, first_place(end) + i)
}

// The first word of the key, or of the end.
fn first_place(end: bool) -> u32
    ensures { result ≡ (if end then 43 else 11) }
{
    if end { 43 } else { 11 }
}

/// How many bytes the key, or the end, of an item has.
pub(crate) fn read_len(rows: &Rows, seat: &mut RowSeat, a: u32, end: bool) -> u32
    requires table { seat.old.table ≡ rows.now }
    requires item { (x : Item) × HasItem seat.old.view a x }
    ensures same { seat.new ≡ seat.old }
    ensures len { (x : Item) → HasItem seat.old.view a x → result ≡ length (part end x.span) }
    ensures low { result ≤ 256 }
{
    read_word(rows, seat, a, length_place(end)) as u32
}

// The word with the length of the key, or of the end.
fn length_place(end: bool) -> u32
    ensures { result ≡ (if end then 8 else 7) }
{
    if end { 8 } else { 7 }
}

// The bytes of the key, or of the end, of an item come into a buffer. The answer is how many they are.
fn read_bytes(rows: &Rows, seat: &mut RowSeat, a: u32, end: bool, bytes: &mut [u8]) -> usize
    requires table { seat.old.table ≡ rows.now }
    requires item { (x : Item) × HasItem seat.old.view a x }
    requires room { length bytes.old ≡ 256 }
    ensures same { seat.new ≡ seat.old }
    ensures bytes { (x : Item) → HasItem seat.old.view a x → (result ≡ length (part end x.span)) × (take result bytes.new ≡ part end x.span) }
    ensures low { result ≤ 256 }
    ensures room { length bytes.new ≡ 256 }
{
    let len = read_len(rows, seat, a, end);
    for i in 0..(len + 7) / 8 {
        let word = read_part(rows, seat, a, end, i);
        copy_word(bytes, i as usize * 8, word);
    }
    len as usize
}

// The eight bytes of a word go into a buffer.
fn copy_word(bytes: &mut [u8], at: usize, word: u64)
    requires { at + 8 ≤ length bytes.old }
    ensures put { take (at + 8) bytes.new ≡ take at bytes.old ++ spelled 8 word }
    ensures len { length bytes.new ≡ length bytes.old }
{
    bytes[at..at + 8].copy_from_slice(&word.to_be_bytes());
}
