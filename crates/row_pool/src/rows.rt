// The pool of rows, the seats that threads use it by, and the calls on rows: one load, store, add or sub each, or a few of them. The table of costs stands in
// lib.rt.
ghost use Rattle.std.specs.Prelude.{◌≡◌, ◌≢◌, ◌⊎◌, ℕ, suc, ◌+◌, ◌-◌, ◌*◌, ◌<◌, ◌≤◌, ◌^◌, List, [], ◌∷◌, ◌++◌, map, length, min, true, slice_index, IsTrue};
ghost use Rattle.std.specs.Prelude.{IsFalse, IfOk};
ghost use mathlib.Core.Option.{none, some};
ghost use lib.ListN.{get_elem?};
ghost use Rattle.atomic_table.specs.Seated.{TableId, table_id_coded};
ghost use Rattle.row_pool.specs.Lists.{mem, find};
ghost use Rattle.row_pool.specs.Trees.{Tree, nil, Entry, Link, to, link_word, tree_word, words_of, children, depth};
ghost use Rattle.row_pool.specs.Layout.{IsLink, first_link, link_count, IsContent, word_at};
ghost use Rattle.row_pool.specs.Changes.{with_ref, without_ref, with_entry, own_row, own_linked_row, relinked, freed, tree_of};
ghost use Rattle.row_pool.specs.Changes.{target_of, without_tree, fresh, written, turned_into, published, published_by_link, Becomes};
ghost use Rattle.row_pool.specs.Changes.{HasRefs, remaining, split_off, joined};
ghost use Rattle.row_pool.specs.Views.{Reaches, ViewInvariant, Alone, Empty};
ghost use Rattle.row_pool.specs.SeatState.{SeatState, state_coded, OwnsOrReaches, OwnsOrReachesAs, LinkAt, LinksToLive, LinksToOwned, IsNewNode};
ghost use Rattle.row_pool.specs.SeatState.{OnlyViewChanges};
ghost use Rattle.row_pool.specs.SeatState.{kind_of, row_of, link_to, SeatInvariant, OnlyEntryChanges};
ghost use Rattle.row_pool.specs.Chains.{IsChain, HasMark, ChainGrows};
ghost use Rattle.row_pool.specs.Loops.{HasZeros};

use crate::chain::Chain;
use crate::steps::{
    DropRef, Free, Hold, JoinViews, MovedRows, Note, OwnIfSingle, Publish, PublishCounted, Read,
    SetKind, SetLink, SplitRefs, Write,
};
use crate::view::{CountRule, View};
use atomic_table::{Seat, Table};
use std::alloc::Global;
use std::marker::{Brand, Model};

/// Memory was refused. It is std's own type, so `?` hands on every refusal of std's.
pub use std::alloc::AllocError as Memory;

/// A pool of equal rows of 80 words, shared by reference. Contracts see which pool it is.
pub struct Rows {
    table: Table<u8, View, u32, CountRule, Global>,
}

impl Model for Rows {
    ghost Value = { TableId };

    ghost coded = { table_id_coded };

    ghost view = { λ r. r.table.shared.table_id };

    ghost invariant = { λ r. (0 < r.table.shared.table_id.words) × (r.table.shared.table_id.words ≡ r.table.shared.key * 80) };
}

/// What one thread knows of the pool: the trees that it has references to, and the rows that it owns. Each call names the seat that it is made by, and its
/// contract says how that seat's view changes; the views of all others stay as they are. A seat is no `Drop`: the first one ends in `close`, each other in
/// `join`.
pub struct RowSeat {
    seat: Seat<u8, View>,
    follows: u64,
}

impl Model for RowSeat {
    ghost Value = { SeatState };

    ghost coded = { state_coded };

    ghost view = { λ s. record { table = s.seat.table_id; view = s.seat.me.0; follows = s.follows } };

    ghost invariant = { λ s. SeatInvariant s.seat.table_id s.seat.me };
}

impl RowSeat {
    /// What holds of each seat between any two steps of anyone. It costs no step.
    pub fn known(&self)
        ensures { ViewInvariant self.now.view }
    {
        let _ = &self.follows;
    }

    /// How many links this seat followed, up to the last value of a u64.
    pub fn follows(&self) -> u64
        ensures { result ≡ self.now.follows }
    {
        self.follows
    }
}

/// The first link word of a node, and the number of its links.
const NODE_LINK: u32 = 3;

const NODE_LINKS: u32 = 64;

// How many counted links a row of this kind has.
fn link_count_of(kind: u64) -> u32
    ensures { result ≡ link_count kind }
{
    match kind {
        2 | 3 => NODE_LINKS,
        _ => 0,
    }
}

// The word of its first counted link.
fn first_link_of(kind: u64) -> u32
    ensures { result ≡ first_link kind }
{
    if kind == 1 { 75 } else { NODE_LINK }
}

// The mark of a row that goes free: 0 where the words that are links in a node were links of the row, which hold 0 then.
fn mark_for(links: u32) -> u64
    ensures clean { result ≡ 0 → links ≡ link_count 2 }
    ensures spared { links ≡ link_count 2 → result ≡ 0 }
{
    if links == NODE_LINKS { 0 } else { 1 }
}

fn row_named(link: u64) -> Option<u32>
    requires { link ≤ 4194304 }
    ensures { result ≡ row_of link }
{
    if link == 0 {
        None
    } else {
        Some((link - 1) as u32)
    }
}

fn word_for(row: Option<u32>) -> u64
    ensures { result ≡ link_to row }
{
    match row {
        Some(row) => row as u64 + 1,
        None => 0,
    }
}

fn word_of(n: u32, k: usize) -> u64
    requires { k < n * 80 }
    ensures { result ≡ word_at n k }
{
    let row = k / 80;
    if k % 80 == 1 && row + 1 < n as usize {
        row as u64 + 2
    } else {
        0
    }
}

fn first_words(alloc: Global, n: u32) -> Result<Vec<u64>, Memory>
    requires { n ≤ 4194304 }
    ensures { IfOk result (λ v. (length v.items ≡ n * 80) × ((k : ℕ) → k < n * 80 → slice_index v.items k ≡ word_at n k)) }
{
    let mut words = Vec::with_capacity(alloc, n as usize * 80)?;
    for k in 0..n as usize * 80 {
        words.push(word_of(n, k))?;
    }
    Ok(words)
}

impl Rows {
    /// A pool of n rows, from 1 to 4,194,304, all in the chain, and its first seat. The only call that takes memory, for a moment twice the pool's: the base
    /// copies the words that it begins with. `Memory` where that was refused.
    pub fn new(alloc: Global, n: u32) -> Result<(Rows, RowSeat, Chain), Memory>
        requires { (1 ≤ n) × (n ≤ 4194304) }
        ensures pool { IfOk result (λ r. (r.1.table ≡ r.0) × (r.1.view ≡ fresh n) × (r.1.follows ≡ 0)) }
        ensures chain { IfOk result (λ r. (rs : List ℕ) × IsChain (fresh n) r.2 rs × (length rs ≡ n) × ((q : ℕ) → q < n → mem q rs ≡ true)) }
    {
        let words = first_words(alloc, n)?;
        let (table, mut seat) = Table::of_words(alloc, words.as_slice(), &n)?;
        table.shared.load::<Read>(&mut seat, 0);
        let rows = Rows { table };
        let seat = RowSeat { seat, follows: 0 };
        Ok((
            rows,
            seat,
            Chain {
                head: 1,
                last: n - 1,
                len: n,
            },
        ))
    }

    /// A word of a row that the seat owns or reaches, from 1 to 79, and that is no counted link. One load.
    pub fn read(&self, seat: &mut RowSeat, row: u32, word: u32) -> u64
        requires table { seat.old.table ≡ self.now }
        requires reachable { OwnsOrReachesAs (λ kind. IsContent kind word) seat.old.view row }
        ensures same { seat.new ≡ seat.old }
        ensures tree { (t : Tree) → Reaches seat.old.view t → tree_word t ≡ suc row → result ≡ slice_index (words_of t) word }
        ensures known { (e : Entry) (n : ℕ) → find row seat.old.view.owned ≡ some e → find word e.known ≡ some n → result ≡ n }
    {
        self.table
            .shared
            .load::<Read>(&mut seat.seat, row as usize * 80 + word as usize)
    }

    /// A word of an owned row that is no counted link, and not the kind. The view knows it from then on, so a caller can store only what differs. One load.
    pub fn note(&self, seat: &mut RowSeat, row: u32, word: u32) -> u64
        requires table { seat.old.table ≡ self.now }
        requires owned { (e : Entry) × (find row seat.old.view.owned ≡ some e) × IsContent e.kind word × (0 < e.kind → word ≢ 1) }
        ensures same { OnlyViewChanges seat.old seat.new }
        ensures view { (e : Entry) → find row seat.old.view.owned ≡ some e → seat.new.view ≡ with_entry row (written word result e) seat.old.view }
        ensures known { (e : Entry) (n : ℕ) → find row seat.old.view.owned ≡ some e → find word e.known ≡ some n → result ≡ n }
    {
        self.table
            .shared
            .load::<Note>(&mut seat.seat, row as usize * 80 + word as usize)
    }

    /// The row that a counted link of an owned or reached row names, None exactly for no link. One load, and `follows` rises by one.
    pub fn follow(&self, seat: &mut RowSeat, row: u32, word: u32) -> Option<u32>
        requires table { seat.old.table ≡ self.now }
        requires reachable { OwnsOrReachesAs (λ kind. IsLink kind word) seat.old.view row }
        ensures same { (seat.new.table ≡ seat.old.table) × (seat.new.view ≡ seat.old.view) }
        ensures follows { seat.new.follows ≡ min (seat.old.follows + 1) (2 ^ 64 - 1) }
        ensures tree { (t u : Tree) (k : ℕ) → Reaches seat.old.view t → tree_word t ≡ suc row → word ≡ first_link (kind_of t) + k
            → get_elem? (children t) k ≡ some u
            → result ≡ row_of (tree_word u) }
        ensures owned { (e : Entry) (l : Link) (k : ℕ) → LinkAt seat.old.view row word e k l → result ≡ row_of (link_word l) }
    {
        let link = self
            .table
            .shared
            .load::<Read>(&mut seat.seat, row as usize * 80 + word as usize);
        seat.follows = seat.follows.saturating_add(1);
        row_named(link)
    }

    /// One reference more to a live row that the seat reaches. One add.
    pub fn hold(&self, seat: &mut RowSeat, row: u32)
        requires table { seat.old.table ≡ self.now }
        requires reach { (t : Tree) × Reaches seat.old.view t × (tree_word t ≡ suc row) }
        requires room { length seat.old.view.refs < 2 ^ 32 }
        ensures same { OnlyViewChanges seat.old seat.new }
        ensures view { (t : Tree) → tree_word t ≡ suc row → Reaches seat.old.view t → seat.new.view ≡ with_ref t seat.old.view }
    {
        self.table
            .shared
            .fetch_add::<Hold>(&mut seat.seat, row as usize * 80, 1);
    }

    // A reference less. Where the answer is 1 it was the last, and the row is owned.
    fn lower(&self, seat: &mut RowSeat, row: u32) -> u64
        requires table { seat.old.table ≡ self.now }
        requires reference { tree_word (tree_of row seat.old.view.refs) ≡ suc row }
        ensures same { OnlyViewChanges seat.old seat.new }
        ensures last { result ≡ 1 → seat.new.view ≡ own_row (tree_of row seat.old.view.refs) row 0 seat.old.view }
        ensures less { result ≢ 1 → seat.new.view ≡ without_ref row seat.old.view }
    {
        self.table
            .shared
            .fetch_sub::<DropRef>(&mut seat.seat, row as usize * 80, 1)
    }

    /// True exactly where the count was loaded as 1: the row is then owned, in place of the seat's reference or under the link of the owned row that leads to
    /// it. On the first seat, while no seat is split off, it is true of each row that is the seat's alone. One load.
    pub fn own_if_single(&self, seat: &mut RowSeat, row: u32) -> bool
        requires table { seat.old.table ≡ self.now }
        requires reference { (tree_word (tree_of row seat.old.view.refs) ≡ suc row)
            ⊎ ((q : ℕ) × (k : ℕ) × (d : Entry) × (t : Tree) × LinksToLive seat.old.view row q k d t) }
        ensures same { OnlyViewChanges seat.old seat.new }
        ensures owned { IsTrue result → tree_word (tree_of row seat.old.view.refs) ≡ suc row
            → seat.new.view ≡ own_row (tree_of row seat.old.view.refs) row 1 seat.old.view }
        ensures through_link { IsTrue result → (q k : ℕ) (d : Entry) (t : Tree) → LinksToLive seat.old.view row q k d t
            → seat.new.view ≡ own_linked_row t row q k d seat.old.view }
        ensures shared { IsFalse result → seat.new.view ≡ seat.old.view }
        ensures alone { seat.old.view.number ≡ 1 → seat.old.view.out ≡ [] → Alone row seat.old.view → IsTrue result }
    {
        self.table
            .shared
            .load::<OwnIfSingle>(&mut seat.seat, row as usize * 80)
            == 1
    }

    // What a counted link of an owned row holds.
    fn link_at(&self, seat: &mut RowSeat, row: u32, word: u32) -> u64
        requires table { seat.old.table ≡ self.now }
        requires link { (e : Entry) × (u : Tree) × (k : ℕ) × LinkAt seat.old.view row word e k (to u) }
        ensures same { seat.new ≡ seat.old }
        ensures value { (e : Entry) (u : Tree) (k : ℕ) → LinkAt seat.old.view row word e k (to u) → result ≡ tree_word u }
        ensures low { result ≤ 4194304 }
    {
        self.table
            .shared
            .load::<Read>(&mut seat.seat, row as usize * 80 + word as usize)
    }

    // A counted link of an owned row gives its tree back and takes one of the seat's references.
    fn relink(&self, seat: &mut RowSeat, row: u32, word: u32, target: u64)
        requires table { seat.old.table ≡ self.now }
        requires link { (e : Entry) × (u : Tree) × (k : ℕ) × LinkAt seat.old.view row word e k (to u) }
        requires target { tree_word (target_of target seat.old.view.refs) ≡ target }
        requires room { target ≡ 0 → length seat.old.view.refs < 2 ^ 32 }
        ensures same { OnlyViewChanges seat.old seat.new }
        ensures view { (e : Entry) (u : Tree) (k : ℕ) → LinkAt seat.old.view row word e k (to u)
            → seat.new.view ≡ relinked row e k u (target_of target seat.old.view.refs) seat.old.view }
    {
        self.table
            .shared
            .store::<SetLink>(&mut seat.seat, row as usize * 80 + word as usize, target);
    }

    /// The reference that the link word `goal` names moves into a counted link of an owned row; what the link named becomes the newest reference of the seat,
    /// and is answered as a link word.
    pub fn swap_link(&self, seat: &mut RowSeat, row: u32, word: u32, target: u64) -> u64
        requires table { seat.old.table ≡ self.now }
        requires link { (e : Entry) × (u : Tree) × (k : ℕ) × LinkAt seat.old.view row word e k (to u) }
        requires target { tree_word (target_of target seat.old.view.refs) ≡ target }
        requires room { target ≡ 0 → length seat.old.view.refs < 2 ^ 32 }
        ensures same { OnlyViewChanges seat.old seat.new }
        ensures view { (e : Entry) (u : Tree) (k : ℕ) → LinkAt seat.old.view row word e k (to u)
            → (result ≡ tree_word u) × (seat.new.view ≡ relinked row e k u (target_of target seat.old.view.refs) seat.old.view) }
        ensures low { result ≤ 4194304 }
    {
        let old = self.link_at(seat, row, word);
        self.relink(seat, row, word, target);
        old
    }

    /// The reference to `to` moves into a counted link of an owned row; what the link named becomes the newest reference of the seat. One load, one store.
    pub fn link(&self, seat: &mut RowSeat, row: u32, word: u32, to: Option<u32>)
        requires table { seat.old.table ≡ self.now }
        requires link { (e : Entry) × (u : Tree) × (k : ℕ) × LinkAt seat.old.view row word e k (Link.to u) }
        requires target { tree_word (target_of (link_to to) seat.old.view.refs) ≡ link_to to }
        requires room { link_to to ≡ 0 → length seat.old.view.refs < 2 ^ 32 }
        ensures same { OnlyViewChanges seat.old seat.new }
        ensures view { (e : Entry) (u : Tree) (k : ℕ) → LinkAt seat.old.view row word e k (Link.to u)
            → seat.new.view ≡ relinked row e k u (target_of (link_to to) seat.old.view.refs) seat.old.view }
    {
        self.swap_link(seat, row, word, word_for(to));
    }

    // An owned row without links goes free, with a link to the next of a chain.
    fn free(&self, seat: &mut RowSeat, row: u32, next: u64)
        requires table { seat.old.table ≡ self.now }
        requires empty { (e : Entry) × (find row seat.old.view.owned ≡ some e) × Empty e.links }
        ensures same { OnlyViewChanges seat.old seat.new }
        ensures view { (e : Entry) → find row seat.old.view.owned ≡ some e → seat.new.view ≡ with_entry row (freed next e) seat.old.view }
    {
        self.table
            .shared
            .store::<Free>(&mut seat.seat, row as usize * 80 + 1, next);
    }

    /// Gives a reference up. Each row whose count falls to 0 goes into the chain, in front: its links are given up first, so it goes at most 4 rows deep.
    /// One load and one sub; of a row whose count falls to 0 also a load of each link, a store for each that isn't 0, and two stores.
    pub fn drop_ref(&self, seat: &mut RowSeat, row: u32, chain: &mut Chain)
        requires table { seat.old.table ≡ self.now }
        requires reference { tree_word (tree_of row seat.old.view.refs) ≡ suc row }
        requires chain { (rs : List ℕ) × IsChain seat.old.view chain.old rs }
        ensures same { OnlyViewChanges seat.old seat.new }
        ensures refs { seat.new.view.refs ≡ without_tree row seat.old.view.refs }
        ensures chain { ChainGrows seat.old.view seat.new.view chain.old chain.new }
    {
        seat.known();
        let kind = self.read(seat, row, 1);
        if self.lower(seat, row) == 1 {
            let first = first_link_of(kind);
            let links = link_count_of(kind);
            for k in 0..links {
                let target = self.link_at(seat, row, first + k);
                if target != 0 {
                    self.relink(seat, row, first + k, 0);
                    self.drop_ref(seat, (target - 1) as u32, chain);
                }
            }
            self.free(seat, row, chain.head);
            self.put(seat, row, 2, mark_for(links));
            chain.push(seat, row);
        }
    }

    fn split_by<J: MovedRows>(&self, seat: &mut RowSeat, refs: &[u32]) -> RowSeat
        requires rows { J.rows ≡ refs.now }
        requires table { seat.old.table ≡ self.now }
        requires first { (seat.old.view.number ≡ 1) × (length seat.old.view.out < 65536) }
        requires references { HasRefs refs.now seat.old.view.refs }
        ensures seat { (seat.new.table ≡ seat.old.table) × (seat.new.follows ≡ seat.old.follows) × (seat.new.view ≡ remaining refs.now seat.old.view) }
        ensures new { (result.table ≡ seat.old.table) × (result.follows ≡ 0) × (result.view ≡ split_off refs.now seat.old.view) }
    {
        let _ = refs;
        let mut other = self.table.shared.split_seat::<SplitRefs<J>>(&mut seat.seat);
        // What holds of both views is learnt by a load.
        self.table.shared.load::<Read>(&mut seat.seat, 0);
        self.table.shared.load::<Read>(&mut other, 0);
        RowSeat {
            seat: other,
            follows: 0,
        }
    }

    /// These references of the first seat move to a new seat. Its cap, the most rows that it may own or reach, is the number of rows in their trees. Three
    /// loads of word 0: what holds of a view is learnt by a step of its own.
    pub fn split(&self, seat: &mut RowSeat, refs: &[u32]) -> RowSeat
        requires table { seat.old.table ≡ self.now }
        requires first { (seat.old.view.number ≡ 1) × (length seat.old.view.out < 65536) }
        requires references { HasRefs refs.now seat.old.view.refs }
        ensures seat { (seat.new.table ≡ seat.old.table) × (seat.new.follows ≡ seat.old.follows) × (seat.new.view ≡ remaining refs.now seat.old.view) }
        ensures new { (result.table ≡ seat.old.table) × (result.follows ≡ 0) × (result.view ≡ split_off refs.now seat.old.view) }
    {
        self.split_by::<Brand>(seat, refs)
    }

    /// All references and owned rows of `other` move to the first seat, whose list loses the number of `other`. Two loads of word 0.
    pub fn join(&self, seat: &mut RowSeat, other: RowSeat)
        requires table { (seat.old.table ≡ self.now) × (other.table ≡ self.now) }
        requires first { (seat.old.view.number ≡ 1) × (2 ≤ other.view.number) }
        requires room { length (seat.old.view.refs ++ other.view.refs) ≤ 2 ^ 32 }
        ensures same { OnlyViewChanges seat.old seat.new }
        ensures view { seat.new.view ≡ joined seat.old.view other.view }
        ensures listed { (cap : ℕ) × (find other.view.number seat.old.view.out ≡ some cap) }
        ensures apart { (r : ℕ) (e : Entry) → find r other.view.owned ≡ some e
            → (find r seat.old.view.owned ≡ none) × (find r seat.new.view.owned ≡ some e) }
    {
        let RowSeat {
            seat: taken,
            follows: _,
        } = other;
        self.table
            .shared
            .join_seat::<JoinViews>(&mut seat.seat, taken);
        self.table.shared.load::<Read>(&mut seat.seat, 0);
    }

    // A word of an owned row that is no counted link, and not the kind.
    pub(crate) fn put(&self, seat: &mut RowSeat, row: u32, word: u32, value: u64)
        requires table { seat.old.table ≡ self.now }
        requires plain { (e : Entry) × (find row seat.old.view.owned ≡ some e) × IsContent e.kind word × (0 < e.kind → word ≢ 1) }
        ensures same { OnlyViewChanges seat.old seat.new }
        ensures view { (e : Entry) → find row seat.old.view.owned ≡ some e → seat.new.view ≡ with_entry row (written word value e) seat.old.view }
    {
        self.table
            .shared
            .store::<Write>(&mut seat.seat, row as usize * 80 + word as usize, value);
    }

    // A free row becomes an item (1) or a node (2 or 3).
    fn turn(&self, seat: &mut RowSeat, row: u32, kind: u64)
        requires table { seat.old.table ≡ self.now }
        requires free { (e : Entry) × (find row seat.old.view.owned ≡ some e) × (e.kind ≡ 0)
            × ((u : ℕ) → first_link kind ≤ u → u < first_link kind + link_count kind → find u e.known ≡ some 0) }
        ensures same { OnlyViewChanges seat.old seat.new }
        ensures view { (e : Entry) → find row seat.old.view.owned ≡ some e → seat.new.view ≡ with_entry row (turned_into kind e) seat.old.view }
    {
        self.table
            .shared
            .store::<SetKind>(&mut seat.seat, row as usize * 80 + 1, kind);
    }

    /// Writes a word of an owned row that is no counted link, by one store. Word 1 is written to free rows alone: 1 makes the row an item, 2 or 3 a node,
    /// where the words
    /// that become links are known to hold 0.
    pub fn write(&self, seat: &mut RowSeat, row: u32, word: u32, value: u64)
        requires table { seat.old.table ≡ self.now }
        requires owned { (e : Entry) × (find row seat.old.view.owned ≡ some e) × IsContent e.kind word
            × (word ≡ 1 → (e.kind ≡ 0) × (1 ≤ value) × (value ≤ 3) × ((u : ℕ) → first_link value ≤ u → u < first_link value + link_count value
            → find u e.known ≡ some 0)) }
        ensures same { OnlyViewChanges seat.old seat.new }
        ensures content { word ≢ 1 → (e : Entry) → find row seat.old.view.owned ≡ some e
            → seat.new.view ≡ with_entry row (written word value e) seat.old.view }
        ensures kind { word ≡ 1 → (e : Entry) → find row seat.old.view.owned ≡ some e → seat.new.view ≡ with_entry row (turned_into value e) seat.old.view }
    {
        if word == 1 {
            self.turn(seat, row, value);
        } else {
            self.put(seat, row, word, value);
        }
    }

    // A word of an owned row that is no counted link, and not the kind, holds 0. Most of those that are to be links hold it already, and a load costs less than
    // a store.
    fn zero(&self, seat: &mut RowSeat, row: u32, word: u32)
        requires table { seat.old.table ≡ self.now }
        requires plain { (e : Entry) × (find row seat.old.view.owned ≡ some e) × IsContent e.kind word × (0 < e.kind → word ≢ 1) }
        ensures same { OnlyViewChanges seat.old seat.new }
        ensures view { (e : Entry) → find row seat.old.view.owned ≡ some e → seat.new.view ≡ with_entry row (written word 0 e) seat.old.view }
    {
        if self.note(seat, row, word) != 0 {
            self.put(seat, row, word, 0);
        }
    }

    // The words that are to be links hold 0.
    fn clear(&self, seat: &mut RowSeat, row: u32)
        requires table { seat.old.table ≡ self.now }
        requires free { (e : Entry) × (find row seat.old.view.owned ≡ some e) × (e.kind ≡ 0) }
        ensures same { OnlyViewChanges seat.old seat.new }
        ensures only { OnlyEntryChanges row seat.old.view seat.new.view }
        ensures cleared { (e : Entry) → find row seat.old.view.owned ≡ some e → (d : Entry) × (find row seat.new.view.owned ≡ some d)
            × HasZeros (link_count 2) e d }
    {
        for k in 0..NODE_LINKS {
            self.zero(seat, row, NODE_LINK + k);
        }
    }

    // The same, where the mark says that they may hold something else.
    fn blank(&self, seat: &mut RowSeat, row: u32)
        requires table { seat.old.table ≡ self.now }
        requires free { (e : Entry) × (find row seat.old.view.owned ≡ some e) × (e.kind ≡ 0) × HasMark e }
        ensures same { OnlyViewChanges seat.old seat.new }
        ensures only { OnlyEntryChanges row seat.old.view seat.new.view }
        ensures cleared { (e : Entry) → find row seat.old.view.owned ≡ some e → (d : Entry) × (find row seat.new.view.owned ≡ some d)
            × HasZeros (link_count 2) e d }
    {
        if self.read(seat, row, 2) != 0 {
            self.clear(seat, row);
        }
    }

    /// A free row that comes from a chain becomes a leaf (2) or an inner node (3) whose links are empty. One load and one store, where the row was a node
    /// before or was never used; where it was an item, 64 loads more, and a store for each word of them that isn't 0.
    pub fn start_node(&self, seat: &mut RowSeat, row: u32, kind: u64)
        requires table { seat.old.table ≡ self.now }
        requires kind { (2 ≤ kind) × (kind ≤ 3) }
        requires free { (e : Entry) × (find row seat.old.view.owned ≡ some e) × (e.kind ≡ 0) × HasMark e }
        ensures same { OnlyViewChanges seat.old seat.new }
        ensures only { OnlyEntryChanges row seat.old.view seat.new.view }
        ensures node { (e : Entry) → find row seat.old.view.owned ≡ some e → (d : Entry) × (find row seat.new.view.owned ≡ some d) × IsNewNode kind e d }
    {
        self.blank(seat, row);
        self.turn(seat, row, kind);
    }

    /// An owned item or node goes live: nobody writes it from then on, and others may come to reach it. Its links stand for live rows, at most 3 levels of
    /// them.
    /// The one reference to it is the seat's, or stays the link of the seat's row that leads to it. One load where its count is 1 already, as that of a row
    /// that was owned in place of its one reference; else a store more.
    pub fn publish(&self, seat: &mut RowSeat, row: u32)
        requires table { seat.old.table ≡ self.now }
        requires whole { (e : Entry) × (us : List Tree) × (find row seat.old.view.owned ≡ some e) × (0 < e.kind) × (e.links ≡ map to us)
            × ((k : ℕ) (u : Tree) → get_elem? us k ≡ some u → depth u ≤ 3)
            × ((e.linked ≡ 0) ⊎ ((e.linked ≡ 1) × ((q : ℕ) × (k : ℕ) × (d : Entry) × LinksToOwned seat.old.view row q k d))) }
        requires room { (e : Entry) → find row seat.old.view.owned ≡ some e → e.linked ≡ 0 → length seat.old.view.refs < 2 ^ 32 }
        ensures same { OnlyViewChanges seat.old seat.new }
        ensures view { (e : Entry) (us : List Tree) → find row seat.old.view.owned ≡ some e → e.linked ≡ 0 → e.links ≡ map to us
            → (t : Tree) × Becomes row e us t × (seat.new.view ≡ published row t seat.old.view) }
        ensures through_link { (e d : Entry) (us : List Tree) (q k : ℕ) → find row seat.old.view.owned ≡ some e → e.linked ≡ 1 → e.links ≡ map to us
            → LinksToOwned seat.old.view row q k d
            → (t : Tree) × Becomes row e us t × (seat.new.view ≡ published_by_link row t q k d seat.old.view) }
    {
        let count = row as usize * 80;
        let found = self
            .table
            .shared
            .load::<PublishCounted>(&mut seat.seat, count);
        if found != 1 {
            self.table.shared.store::<Publish>(&mut seat.seat, count, 1);
        }
    }

    /// Ends the pool. Nothing is split off any more, and the chain has all rows. No step.
    pub fn close(self, seat: RowSeat, chain: Chain)
        requires table { seat.table ≡ self }
        requires first { (seat.view.number ≡ 1) × (seat.view.out ≡ []) }
        requires all { (rs : List ℕ) × IsChain seat.view chain rs × (length rs ≡ seat.view.size) }
    {
        let Rows { table } = self;
        let RowSeat { seat, follows: _ } = seat;
        let Chain {
            head: _,
            last: _,
            len: _,
        } = chain;
        drop(seat);
        drop(table);
    }
}
