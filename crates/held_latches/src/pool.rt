// A pool's first seat with its chain of free rows: items come, go into trees and out of them, and give their rows back.
ghost use Rattle.std.specs.Prelude.{◌≡◌, ℕ, suc, ◌+◌, ◌<◌, ◌≤◌, List, [], ◌∷◌, ◌++◌, length};
ghost use Rattle.row_pool.specs.Trees.{Tree as Row};
ghost use Rattle.latch_item.specs.Items.{Item};
ghost use Rattle.latch_shots.specs.Roots.{AreRoots, Root};
ghost use Rattle.latch_shots.specs.Shots.{OwnsJust};
ghost use Rattle.interval_tree.specs.Trees.{height_of, root_of};
ghost use Rattle.held_latches.specs.Stock.{Placed, root_rows, tree_root};
ghost use Rattle.held_latches.specs.Steps.{CanGrow, CanShow, CanShrink, Grown, PoolHas, SamePool, SameRows, Shrunk, Stay, free_rows};

use hlc_stamp::Stamp;
use interval_tree::Tree;
use latch_item::{Shot, write_item};
use row_pool::{Chain, RowSeat, Rows};
use span_key::Span;
use tree_shrink::remove;

/// The first seat of a pool, and the rows that are free.
pub(crate) struct Pool {
    pub(crate) seat: RowSeat,
    pub(crate) chain: Chain,
}

impl Pool {
    /// A loose item goes into a tree.
    pub(crate) fn grow(&mut self, rows: &Rows, tree: &mut Tree, item: u32)
        requires table { self.old.seat.table ≡ rows.now }
        requires grows { (front back : List Root) × (items : List Row) × (x : Item) × (loose : List Placed)
            × CanGrow self.old tree.old item front back items x loose }
        requires room { 7 ≤ free_rows self.old }
        ensures same { SamePool self.old self.new }
        ensures grown { (front back : List Root) (items : List Row) (x : Item) (loose : List Placed)
            → CanGrow self.old tree.old item front back items x loose → Grown self.old self.new tree.new item front back items x loose }
    {
        self.seat.known();
        tree.insert(rows, &mut self.seat, item, &mut self.chain);
        self.seat.known();
    }

    /// An item goes out of a tree. Its row is free then, unless a shot has it.
    pub(crate) fn shrink(&mut self, rows: &Rows, tree: &mut Tree, item: u32)
        requires table { self.old.seat.table ≡ rows.now }
        requires shrinks { (front back : List Root) × (items : List Row) × (it : Row) × (loose : List Placed)
            × CanShrink self.old tree.old item front back items it loose }
        requires room { 5 ≤ free_rows self.old }
        ensures same { SamePool self.old self.new }
        ensures shrunk { (front back : List Root) (items : List Row) (it : Row) (loose : List Placed)
            → CanShrink self.old tree.old item front back items it loose → Shrunk self.old self.new tree.new front back items it loose }
    {
        self.seat.known();
        remove(tree, rows, &mut self.seat, item, &mut self.chain);
        self.seat.known();
    }

    /// A shot of a tree as it is now.
    pub(crate) fn shot(&mut self, rows: &Rows, tree: &Tree) -> Shot
        requires table { self.old.seat.table ≡ rows.now }
        requires shows { (front back : List Root) × (items : List Row) × (loose : List Placed) × CanShow self.old tree.now front back items loose }
        ensures same { SamePool self.old self.new × SameRows self.old self.new }
        ensures root { (result.root ≡ root_of tree.now) × (result.height ≡ height_of tree.now) }
        ensures shown { (front back : List Root) (items : List Row) (loose : List Placed) → CanShow self.old tree.now front back items loose
            → PoolHas self.new (tree_root tree.now items ∷ (front ++ tree_root tree.now items ∷ back)) loose }
    {
        self.seat.known();
        let shot = tree.snapshot(rows, &mut self.seat);
        self.seat.known();
        shot
    }

    /// A free row becomes the loose item of a latch.
    pub(crate) fn new_item(
        &mut self,
        rows: &Rows,
        id: u64,
        place: u32,
        lane: u32,
        span: &Span,
        stamp: Stamp,
    ) -> u32
        requires table { self.old.seat.table ≡ rows.now }
        requires stock { (roots : List Root) × (loose : List Placed) × PoolHas self.old roots loose }
        requires room { 1 ≤ free_rows self.old }
        ensures same { SamePool self.old self.new }
        ensures stock { (roots : List Root) (loose : List Placed) → PoolHas self.old roots loose
            → PoolHas self.new roots (record { row = result; item = record { id = id; place = place; lane = lane; span = span.now; stamp = stamp } } ∷ loose)
            × Stay loose self.old self.new }
        ensures spent { free_rows self.old ≡ free_rows self.new + 1 }
    {
        let row = self.chain.pop(rows, &mut self.seat);
        write_item(rows, &mut self.seat, row, id, place, lane, span, stamp);
        row
    }

    /// A loose item gives its row back.
    pub(crate) fn free_item(&mut self, rows: &Rows, item: u32)
        requires table { self.old.seat.table ≡ rows.now }
        requires stock { (roots : List Root) × (x : Item) × (loose : List Placed) × PoolHas self.old roots (record { row = item; item = x } ∷ loose)
            × (length roots ≤ 16) }
        ensures same { SamePool self.old self.new }
        ensures stock { (roots : List Root) (x : Item) (loose : List Placed) → PoolHas self.old roots (record { row = item; item = x } ∷ loose)
            → PoolHas self.new roots loose × Stay loose self.old self.new }
        ensures spent { free_rows self.old ≤ free_rows self.new }
    {
        self.seat.known();
        rows.publish(&mut self.seat, item);
        rows.drop_ref(&mut self.seat, item, &mut self.chain);
    }

    /// The references of the first roots go to a seat of their own.
    pub(crate) fn split(&mut self, rows: &Rows, roots: &[u32]) -> RowSeat
        requires table { self.old.seat.table ≡ rows.now }
        requires few { length self.old.seat.view.out < 65536 }
        requires stock { (shots trees : List Root) × (loose : List Placed) × PoolHas self.old (shots ++ trees) loose × (root_rows shots ≡ roots.now) }
        ensures table { (self.new.seat.table ≡ self.old.seat.table) × (result.table ≡ self.old.seat.table) }
        ensures same { SameRows self.old self.new × (self.new.seat.view.size ≡ self.old.seat.view.size) }
        ensures out { length self.new.seat.view.out ≡ suc (length self.old.seat.view.out) }
        ensures stock { (shots trees : List Root) (loose : List Placed) → PoolHas self.old (shots ++ trees) loose → root_rows shots ≡ roots.now
            → PoolHas self.new trees loose × AreRoots shots result.view.refs }
        ensures seat { (2 ≤ result.view.number) × (result.view.owned ≡ []) }
    {
        rows.split(&mut self.seat, roots)
    }

    /// A seat that was split off comes back with its chain. It has no reference any more, and all its rows are in the chain.
    pub(crate) fn take_back(&mut self, rows: &Rows, seat: RowSeat, chain: Chain)
        requires table { (self.old.seat.table ≡ rows.now) × (seat.table ≡ rows.now) }
        requires other { OwnsJust seat.view chain × (2 ≤ seat.view.number) × (seat.view.refs ≡ []) }
        requires stock { (trees : List Root) × (loose : List Placed) × PoolHas self.old trees loose × (length trees ≤ 16) }
        ensures same { (self.new.seat.table ≡ self.old.seat.table) × (self.new.seat.view.size ≡ self.old.seat.view.size) }
        ensures out { suc (length self.new.seat.view.out) ≡ length self.old.seat.view.out }
        ensures stock { (trees : List Root) (loose : List Placed) → PoolHas self.old trees loose
            → PoolHas self.new trees loose × Stay loose self.old self.new }
        ensures spent { free_rows self.old ≤ free_rows self.new }
    {
        rows.join(&mut self.seat, seat);
        self.chain.give(rows, &mut self.seat, chain);
    }
}
