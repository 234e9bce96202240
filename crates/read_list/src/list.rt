// The list of owned items, and the two words of each row that it runs through.
ghost use Rattle.std.specs.Prelude.{◌≡◌, ◌⊎◌, ℕ, suc, List, [], ◌∷◌, ◌++◌, length, MatchOption, true, false};
ghost use mathlib.Core.Option.{some};
ghost use Rattle.row_pool.specs.Lists.{find, mem};
ghost use Rattle.row_pool.specs.Trees.{Entry};
ghost use Rattle.row_pool.specs.SeatView.{SeatView};
ghost use Rattle.row_pool.specs.SeatState.{OnlyViewChanges};
ghost use Rattle.latch_item.specs.Items.{Item, OwnsItem};
ghost use Rattle.read_list.specs.Lists.{IsReadList, IsCell, IsItemRow, OnlyLinksChange, NamesItemRow, Relinks};

use row_pool::{RowSeat, Rows};

/// The word of an item row that links to the row in front of it in a list. A link is a row number and 1, or 0.
const BEFORE: u32 = 9;

/// The word that links to the row behind it.
const AFTER: u32 = 10;

/// Items that a seat owns, in order. A list and its rows belong together: each call names the seat that owns the rows, and its contract says of which rows
/// the two words of the list change, and that nothing else does.
#[derive(Drop)]
pub struct ReadList {
    // links to the first row and to the last
    first: u64,
    last: u64,
    len: u32,
}

impl ReadList {
    /// A list without items.
    pub fn new() -> ReadList
        ensures { (v : SeatView) → IsReadList v result [] }
    {
        ReadList {
            first: 0,
            last: 0,
            len: 0,
        }
    }

    /// How many items the list has.
    pub fn len(&self) -> u32
        ensures { (v : SeatView) (rs : List ℕ) → IsReadList v self.now rs → result ≡ length rs }
    {
        self.len
    }

    /// The item, which isn't in the list, comes last.
    pub fn push_back(&mut self, rows: &Rows, seat: &mut RowSeat, item: u32)
        requires table { seat.old.table ≡ rows.now }
        requires list { (rs : List ℕ) × IsReadList seat.old.view self.old rs × (mem item rs ≡ false) }
        requires item { IsItemRow seat.old.view item }
        ensures same { OnlyViewChanges seat.old seat.new }
        ensures list { (rs : List ℕ) → IsReadList seat.old.view self.old rs → mem item rs ≡ false
            → IsReadList seat.new.view self.new (rs ++ item ∷ []) × OnlyLinksChange (item ∷ rs) seat.old.view seat.new.view }
        ensures items { (row : ℕ) (x : Item) → OwnsItem seat.old.view row x → OwnsItem seat.new.view row x }
    {
        // That the pool has so few rows bounds the list.
        seat.known();
        let link = item as u64 + 1;
        set_links(rows, seat, item, self.last, 0);
        set_link(rows, seat, &mut self.first, self.last, AFTER, link);
        self.last = link;
        self.len += 1;
    }

    /// The item leaves the list. All others keep their order.
    pub fn unlink(&mut self, rows: &Rows, seat: &mut RowSeat, item: u32)
        requires table { seat.old.table ≡ rows.now }
        requires list { (ps qs : List ℕ) × IsReadList seat.old.view self.old (ps ++ item ∷ qs) }
        ensures same { OnlyViewChanges seat.old seat.new }
        ensures list { (ps qs : List ℕ) → IsReadList seat.old.view self.old (ps ++ item ∷ qs)
            → IsReadList seat.new.view self.new (ps ++ qs) × OnlyLinksChange (ps ++ qs) seat.old.view seat.new.view × (mem item (ps ++ qs) ≡ false) }
        ensures items { (row : ℕ) (x : Item) → OwnsItem seat.old.view row x → OwnsItem seat.new.view row x }
    {
        let before = rows.read(seat, item, BEFORE);
        let after = rows.read(seat, item, AFTER);
        set_link(rows, seat, &mut self.first, before, AFTER, after);
        set_link(rows, seat, &mut self.last, after, BEFORE, before);
        self.len -= 1;
    }

    /// The first item leaves the list and is the answer, `None` exactly where the list is empty.
    pub fn pop_front(&mut self, rows: &Rows, seat: &mut RowSeat) -> Option<u32>
        requires table { seat.old.table ≡ rows.now }
        requires list { (rs : List ℕ) × IsReadList seat.old.view self.old rs }
        ensures same { OnlyViewChanges seat.old seat.new }
        ensures list { (rs : List ℕ) → IsReadList seat.old.view self.old rs
            → MatchOption result ((rs ≡ []) × (self.new ≡ self.old) × (seat.new ≡ seat.old))
            (λ item. (qs : List ℕ) × (rs ≡ item ∷ qs) × IsReadList seat.new.view self.new qs × OnlyLinksChange qs seat.old.view seat.new.view
            × (mem item qs ≡ false)) }
        ensures items { (row : ℕ) (x : Item) → OwnsItem seat.old.view row x → OwnsItem seat.new.view row x }
    {
        if self.first == 0 {
            return None;
        }
        seat.known();
        let item = (self.first - 1) as u32;
        self.unlink(rows, seat, item);
        Some(item)
    }
}

// Both words of an item row.
fn set_links(rows: &Rows, seat: &mut RowSeat, item: u32, before: u64, after: u64)
    requires table { seat.old.table ≡ rows.now }
    requires item { IsItemRow seat.old.view item }
    ensures same { OnlyViewChanges seat.old seat.new }
    ensures cell { IsCell seat.new.view item before after }
    ensures only { OnlyLinksChange (item ∷ []) seat.old.view seat.new.view }
{
    rows.write(seat, item, BEFORE, before);
    rows.write(seat, item, AFTER, after);
}

// One word of the item row that a link names. Where the link is 0 the end of the list is set in its place.
fn set_link(rows: &Rows, seat: &mut RowSeat, end: &mut u64, neighbour: u64, word: u32, link: u64)
    requires table { seat.old.table ≡ rows.now }
    requires word { (word ≡ 9) ⊎ (word ≡ 10) }
    requires neighbour { NamesItemRow seat.old.view neighbour }
    ensures same { OnlyViewChanges seat.old seat.new }
    ensures relinks { Relinks word link neighbour end.old end.new seat.old.view seat.new.view }
{
    seat.known();
    if neighbour == 0 {
        *end = link;
    } else {
        rows.write(seat, (neighbour - 1) as u32, word, link);
    }
}
