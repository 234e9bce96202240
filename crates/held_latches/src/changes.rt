// One latch comes into a scope's trees or its list, or goes out of them.
ghost use Rattle.std.specs.Prelude.{◌≡◌, ℕ, suc, ◌<◌, ◌≤◌, length};
ghost use Rattle.row_pool.specs.Trees.{Tree as Row, tree_word};
ghost use Rattle.latch_item.specs.Items.{Item};
ghost use Rattle.latch_item.specs.Shape.{Among};
ghost use Rattle.latch_model.specs.Latches.{normal};
ghost use Rattle.held_latches.specs.Content.{AllApart, Apart, Content, EachOf, IsIn, items_in, read_items};
ghost use Rattle.held_latches.specs.Scopes.{AddedRead, AddedWrite, Around, ScopeHas, TookPending, TookRead, TookWrite};
ghost use Rattle.held_latches.specs.Steps.{SamePool, free_rows};
ghost use Rattle.held_latches.specs.Stock.{Placed};

use crate::pool::Pool;
use crate::scopes::ScopeTrees;
use latch_model::Latch;
use row_pool::Rows;

impl ScopeTrees {
    /// A latch is held for writing from now on. The answer is its item's row.
    pub(crate) fn add_write(
        &mut self,
        pool: &mut Pool,
        rows: &Rows,
        id: u64,
        place: u32,
        lane: u32,
        latch: &Latch,
    ) -> u32
        requires table { pool.old.seat.table ≡ rows.now }
        requires adds { let x : Item = record { id = id; place = place; lane = lane; span = latch.now.span; stamp = normal latch.now } in
            (c : Content) × (a : Around) × ScopeHas pool.old self.old c a × EachOf (λ (y : Item). Apart y x) (items_in c.writes) × (length c.writes < 8190) }
        requires room { 8 ≤ free_rows pool.old }
        ensures same { SamePool pool.old pool.new }
        ensures added { let x : Item = record { id = id; place = place; lane = lane; span = latch.now.span; stamp = normal latch.now } in
            (c : Content) (a : Around) → ScopeHas pool.old self.old c a → EachOf (λ (y : Item). Apart y x) (items_in c.writes) → AllApart (items_in c.writes)
            → length c.writes < 8190 → (d : Content) × AddedWrite pool.old pool.new self.old self.new c d a result x }
        ensures writer { self.new.writer ≡ self.old.writer }
    {
        let row = pool.new_item(rows, id, place, lane, &latch.span, latch.normal());
        pool.grow(rows, &mut self.writes, row);
        row
    }

    /// A latch is held for reading from now on. Its item comes last in the list, and the answer is the item's row.
    pub(crate) fn add_read(
        &mut self,
        pool: &mut Pool,
        rows: &Rows,
        id: u64,
        place: u32,
        lane: u32,
        latch: &Latch,
    ) -> u32
        requires table { pool.old.seat.table ≡ rows.now }
        requires adds { (c : Content) × (a : Around) × ScopeHas pool.old self.old c a }
        requires room { 1 ≤ free_rows pool.old }
        ensures same { SamePool pool.old pool.new }
        ensures added { let x : Item = record { id = id; place = place; lane = lane; span = latch.now.span; stamp = normal latch.now } in
            (c : Content) (a : Around) → ScopeHas pool.old self.old c a → EachOf (λ (y : Item). Apart y x) (read_items c) → AllApart (read_items c)
            → (d : Content) × AddedRead pool.old pool.new self.old self.new c d a result x }
        ensures writer { self.new.writer ≡ self.old.writer }
    {
        let row = pool.new_item(rows, id, place, lane, &latch.span, latch.normal());
        self.pending.push_back(rows, &mut pool.seat, row);
        row
    }

    /// A latch that is held for writing goes, by its item's row.
    pub(crate) fn take_write(&mut self, pool: &mut Pool, rows: &Rows, row: u32)
        requires table { pool.old.seat.table ≡ rows.now }
        requires takes { (c : Content) × (a : Around) × (it : Row) × ScopeHas pool.old self.old c a × Among it c.writes × (tree_word it ≡ suc row) }
        requires room { 5 ≤ free_rows pool.old }
        ensures same { SamePool pool.old pool.new }
        ensures taken { (c : Content) (a : Around) (it : Row) → ScopeHas pool.old self.old c a → AllApart (items_in c.writes) → Among it c.writes
            → tree_word it ≡ suc row → (d : Content) × TookWrite pool.old pool.new self.old self.new c d a it }
        ensures writer { self.new.writer ≡ self.old.writer }
    {
        pool.shrink(rows, &mut self.writes, row);
    }

    /// A latch that is held for reading goes out of the tree, by its item's row.
    pub(crate) fn take_read(&mut self, pool: &mut Pool, rows: &Rows, row: u32)
        requires table { pool.old.seat.table ≡ rows.now }
        requires takes { (c : Content) × (a : Around) × (it : Row) × ScopeHas pool.old self.old c a × Among it c.reads × (tree_word it ≡ suc row) }
        requires room { 5 ≤ free_rows pool.old }
        ensures same { SamePool pool.old pool.new }
        ensures taken { (c : Content) (a : Around) (it : Row) → ScopeHas pool.old self.old c a → AllApart (read_items c) → Among it c.reads
            → tree_word it ≡ suc row → (d : Content) × TookRead pool.old pool.new self.old self.new c d a it }
        ensures writer { self.new.writer ≡ self.old.writer }
    {
        pool.shrink(rows, &mut self.reads, row);
    }

    /// A latch that is held for reading goes out of the list, by its item's row.
    pub(crate) fn take_pending(&mut self, pool: &mut Pool, rows: &Rows, row: u32)
        requires table { pool.old.seat.table ≡ rows.now }
        requires takes { (c : Content) × (a : Around) × (p : Placed) × ScopeHas pool.old self.old c a × IsIn p c.pending × (p.row ≡ row) }
        ensures same { SamePool pool.old pool.new }
        ensures taken { (c : Content) (a : Around) (p : Placed) → ScopeHas pool.old self.old c a → AllApart (read_items c) → IsIn p c.pending → p.row ≡ row
            → (d : Content) × TookPending pool.old pool.new self.old self.new c d a p }
        ensures writer { self.new.writer ≡ self.old.writer }
    {
        self.pending.unlink(rows, &mut pool.seat, row);
        pool.free_item(rows, row);
    }
}
