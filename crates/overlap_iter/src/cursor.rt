// A walk through a tree that stops at the items which overlap a span.
ghost use Rattle.std.specs.Prelude.{◌≡◌, ℕ, suc, ◌+◌, ◌*◌, ◌^◌, ◌<◌, ◌≤◌, List, [], ◌∷◌, length, slice_index, MatchOption, IfSome};
ghost use mathlib.Core.Option.{some};
ghost use lib.ListN.{get_elem?};
ghost use Rattle.row_pool.specs.Trees.{Tree, tree_word, children};
ghost use Rattle.row_pool.specs.Views.{Reaches};
ghost use Rattle.row_pool.specs.SeatState.{kind_of};
ghost use Rattle.span_key.specs.Spans.{Pair};
ghost use Rattle.latch_item.specs.Bytes.{key_word};
ghost use Rattle.latch_item.specs.Shape.{Refers};
ghost use Rattle.overlap_iter.specs.Overlaps.{found};
ghost use Rattle.overlap_iter.specs.Walks.{root_of, HasRoot, IsNodeKind, Opens, Framed, Walks, WalksWithin, Came, at_place, steps_left, entries_left};

use latch_item::{Shot, Side, first_word, reaches, second_word, side_of};
use row_pool::{RowSeat, Rows};
use span_key::Span;

/// The word of a node with the number of its items, and the first words of its links: to an item of the greatest upper bound, to the items, to the children.
const COUNT: u32 = 2;

const TOP: u32 = 3;

const FIRST_ITEM: u32 = 4;

const FIRST_CHILD: u32 = 35;

/// Where a walk is. It knows rows of the tree alone, so it stays right whatever else its seat does, as long as the seat refers to the tree.
#[derive(Debug, Drop)]
pub struct Cursor {
    // for each level from the leaves up, the row of the node in progress, and how many of its items are passed
    rows: [u32; 3],
    places: [u32; 3],
    // the lowest level with a node in progress, and the number of levels
    low: u32,
    height: u32,
    // a node of the level below, whose items come first
    next: Option<u32>,
}

impl Cursor {
    /// In front of the first item that overlaps the span.
    pub fn first(rows: &Rows, seat: &mut RowSeat, shot: &Shot, span: &Span) -> Cursor
        requires table { seat.old.table ≡ rows.now }
        requires shot { (xs : List Tree) × Refers seat.old.view shot.now xs }
        ensures same { seat.new ≡ seat.old }
        ensures walk { (xs : List Tree) → Refers seat.old.view shot.now xs
            → WalksWithin span.now (root_of seat.old.view shot.now.root) result (found span.now xs) seat.old.follows seat.new.follows
            (96 * shot.now.height * suc (length (found span.now xs))) }
    {
        let height = match shot.root {
            Some(_) => shot.height,
            None => 0,
        };
        Cursor {
            rows: [0; 3],
            places: [0; 3],
            low: height,
            height,
            next: shot.root,
        }
    }

    /// The next item that overlaps the span, None after the last one. The span is the one that the walk began with.
    pub fn next(&mut self, rows: &Rows, seat: &mut RowSeat, span: &Span) -> Option<u32>
        requires table { seat.old.table ≡ rows.now }
        requires walk { (root : Tree) × (todo : List Tree) × (work : ℕ) × HasRoot seat.old.view root × Walks span.now root self.old todo work }
        ensures same { (seat.new.table ≡ seat.old.table) × (seat.new.view ≡ seat.old.view) }
        ensures next { (root : Tree) (todo : List Tree) (work : ℕ) → HasRoot seat.old.view root → Walks span.now root self.old todo work
            → MatchOption result ((todo ≡ []) × WalksWithin span.now root self.new [] seat.old.follows seat.new.follows work)
            (λ i. Came span.now root self.new todo i seat.old.follows seat.new.follows work) }
        ensures ends { IfSome result (λ _. steps_left self.new < steps_left self.old) }
    {
        let first = first_word(span.key());
        let second = second_word(span.key());
        while self.low < self.height || self.next.is_some() {
            if let Some(item) = self.step(rows, seat, span, first, second) {
                return Some(item);
            }
        }
        None
    }

    // A node is entered or left, or an item is passed. The answer is the item, where it overlaps the span.
    fn step(
        &mut self,
        rows: &Rows,
        seat: &mut RowSeat,
        span: &Span,
        first: u64,
        second: u64,
    ) -> Option<u32>
        requires table { seat.old.table ≡ rows.now }
        requires first { first ≡ key_word span.now.0 0 }
        requires second { second ≡ key_word span.now.0 1 }
        requires walk { (root : Tree) × (todo : List Tree) × (work : ℕ) × HasRoot seat.old.view root × Walks span.now root self.old todo work }
        requires more { self.old.next ≡ None → self.old.low < self.old.height }
        ensures same { (seat.new.table ≡ seat.old.table) × (seat.new.view ≡ seat.old.view) }
        ensures step { (root : Tree) (todo : List Tree) (work : ℕ) → HasRoot seat.old.view root → Walks span.now root self.old todo work
            → MatchOption result (WalksWithin span.now root self.new todo seat.old.follows seat.new.follows work)
            (λ i. Came span.now root self.new todo i seat.old.follows seat.new.follows work) }
        ensures ends { steps_left self.new < steps_left self.old }
    {
        match self.next {
            Some(row) => {
                self.enter(rows, seat, span, row);
                None
            }
            None => self.look(rows, seat, span, first, second),
        }
    }

    // The items below a node come next, unless all of them end before the span.
    fn enter(&mut self, rows: &Rows, seat: &mut RowSeat, span: &Span, row: u32)
        requires table { seat.old.table ≡ rows.now }
        requires walk { (root : Tree) × (todo : List Tree) × (work : ℕ) × HasRoot seat.old.view root × Walks span.now root self.old todo work }
        requires node { self.old.next ≡ Some row }
        ensures same { (seat.new.table ≡ seat.old.table) × (seat.new.view ≡ seat.old.view) }
        ensures walk { (root : Tree) (todo : List Tree) (work : ℕ) → HasRoot seat.old.view root → Walks span.now root self.old todo work
            → WalksWithin span.now root self.new todo seat.old.follows seat.new.follows work }
        ensures ends { steps_left self.new < steps_left self.old }
    {
        self.next = None;
        let top = follow(rows, seat, row, TOP);
        if reaches(rows, seat, top, span) {
            self.low -= 1;
            self.rows[self.low as usize] = row;
            self.open(rows, seat, 0);
        }
    }

    // The lowest node is left, or its next item is passed. The answer is the item, where it overlaps the span.
    fn look(
        &mut self,
        rows: &Rows,
        seat: &mut RowSeat,
        span: &Span,
        first: u64,
        second: u64,
    ) -> Option<u32>
        requires table { seat.old.table ≡ rows.now }
        requires first { first ≡ key_word span.now.0 0 }
        requires second { second ≡ key_word span.now.0 1 }
        requires walk { (root : Tree) × (todo : List Tree) × (work : ℕ) × HasRoot seat.old.view root × Walks span.now root self.old todo work }
        requires more { (self.old.next ≡ None) × (self.old.low < self.old.height) }
        ensures same { (seat.new.table ≡ seat.old.table) × (seat.new.view ≡ seat.old.view) }
        ensures step { (root : Tree) (todo : List Tree) (work : ℕ) → HasRoot seat.old.view root → Walks span.now root self.old todo work
            → MatchOption result (WalksWithin span.now root self.new todo seat.old.follows seat.new.follows work)
            (λ i. Came span.now root self.new todo i seat.old.follows seat.new.follows work) }
        ensures ends { steps_left self.new < steps_left self.old }
    {
        let row = self.rows[self.low as usize];
        let place = self.places[self.low as usize];
        if rows.read(seat, row, COUNT) == place as u64 {
            self.low += 1;
            return None;
        }
        let item = follow(rows, seat, row, FIRST_ITEM + place);
        match side_of(rows, seat, item, span, first, second) {
            Side::Before => {
                self.open(rows, seat, place + 1);
                None
            }
            Side::Overlaps => {
                self.open(rows, seat, place + 1);
                Some(item)
            }
            Side::Past => {
                // So are all items from here on.
                self.low = self.height;
                None
            }
        }
    }

    // So many items of the lowest node are passed, and the child behind them comes next. A leaf has none.
    fn open(&mut self, rows: &Rows, seat: &mut RowSeat, place: u32)
        requires table { seat.old.table ≡ rows.now }
        requires opens { (span : Pair) × (root : Tree) × (bs : List Tree) × (work : ℕ) × HasRoot seat.old.view root
            × Opens span root (at_place self.old place) bs work }
        requires none { self.old.next ≡ None }
        ensures same { (seat.new.table ≡ seat.old.table) × (seat.new.view ≡ seat.old.view) }
        ensures framed { (span : Pair) (root : Tree) (bs : List Tree) (work : ℕ) → HasRoot seat.old.view root
            → Opens span root (at_place self.old place) bs work
            → (left : ℕ) × Framed span root self.new bs left × (seat.new.follows + left ≤ seat.old.follows + work) }
        ensures ends { steps_left self.new ≤ steps_left (at_place self.old place) + entries_left self.old.low (Some 0) }
    {
        self.places[self.low as usize] = place;
        if self.low > 0 {
            let row = self.rows[self.low as usize];
            self.next = Some(follow(rows, seat, row, FIRST_CHILD + place));
        }
    }
}

// The row that a link of a live node names. The seat's count of links rises by one.
fn follow(rows: &Rows, seat: &mut RowSeat, row: u32, word: u32) -> u32
    requires table { seat.old.table ≡ rows.now }
    requires link { (t u : Tree) × (k : ℕ) × Reaches seat.old.view t × (tree_word t ≡ suc row) × IsNodeKind (kind_of t) × (word ≡ 3 + k) × (k < 64)
        × (get_elem? (children t) k ≡ some u) × (0 < tree_word u) }
    ensures same { (seat.new.table ≡ seat.old.table) × (seat.new.view ≡ seat.old.view) }
    ensures count { seat.new.follows ≤ seat.old.follows + 1 }
    ensures link { (t u : Tree) (k : ℕ) → Reaches seat.old.view t → tree_word t ≡ suc row → IsNodeKind (kind_of t) → word ≡ 3 + k
        → get_elem? (children t) k ≡ some u → tree_word u ≡ suc result }
{
    let Some(next) = rows.follow(seat, row, word) else {
        unreachable!()
    };
    next
}
