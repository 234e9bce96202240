// The latches of a request that ends go.
ghost use Rattle.std.specs.Prelude.{◌≡◌, ℕ, ◌≤◌, length};
ghost use Rattle.latch_model.specs.Histories.{Snapshot, list_of};
ghost use Rattle.latch_item.specs.Items.{Item};
ghost use Rattle.span_key.specs.Scopes.{scope_of};
ghost use Rattle.span_key.specs.declared.scopes.Scope.TheVariants.{Global, Local};
ghost use Rattle.latch_model.specs.declared.latch.Access.TheVariants.{Read};
ghost use Rattle.held_latches.specs.Content.{AllApart, Content, IsIn, items_in, read_items};
ghost use Rattle.held_latches.specs.Scopes.{Around, ScopeHas};
ghost use Rattle.held_latches.specs.Steps.{SamePool, free_rows};
ghost use Rattle.held_latches.specs.Holding.{HasSpare, Holds, HoldsOwn, SameSizes, SameWriters, own_latch, table_of};
ghost use Rattle.held_latches.specs.Lists.{without_by};
ghost use Rattle.held_latches.specs.Taking.{OnlyOwn, StandsIn, Taken, without_place};

use crate::held::{HeldLatches, slot_of};
use crate::pool::Pool;
use crate::scopes::ScopeTrees;
use latch_model::latch::{Access, Latch};
use row_pool::Rows;
use span_key::Scope;

impl ScopeTrees {
    // A latch of the request of this number goes, by its item's row.
    fn take(&mut self, pool: &mut Pool, rows: &Rows, id: u64, row: u32, access: Access)
        requires table { pool.old.seat.table ≡ rows.now }
        requires takes { (c : Content) × (a : Around) × (x : Item) × ScopeHas pool.old self.old c a × StandsIn self.old c access row x × (x.id ≡ id) }
        requires room { 5 ≤ free_rows pool.old }
        ensures same { SamePool pool.old pool.new }
        ensures taken { (c : Content) (a : Around) (x : Item) → ScopeHas pool.old self.old c a → StandsIn self.old c access row x → x.id ≡ id
            → AllApart (items_in c.writes) → AllApart (read_items c) → (d : Content) × Taken pool.old pool.new self.old self.new c d a x access }
        ensures writer { self.new.writer ≡ self.old.writer }
    {
        match access {
            Access::Write => self.take_write(pool, rows, row),
            Access::Read => self.take_any_read(pool, rows, id, row),
        }
    }

    // The same of a read, which is in the tree where its request is one before the last writer.
    fn take_any_read(&mut self, pool: &mut Pool, rows: &Rows, id: u64, row: u32)
        requires table { pool.old.seat.table ≡ rows.now }
        requires takes { (c : Content) × (a : Around) × (x : Item) × ScopeHas pool.old self.old c a × StandsIn self.old c Read row x × (x.id ≡ id) }
        requires room { 5 ≤ free_rows pool.old }
        ensures same { SamePool pool.old pool.new }
        ensures taken { (c : Content) (a : Around) (x : Item) → ScopeHas pool.old self.old c a → StandsIn self.old c Read row x → x.id ≡ id
            → AllApart (items_in c.writes) → AllApart (read_items c) → (d : Content) × Taken pool.old pool.new self.old self.new c d a x Read }
        ensures writer { self.new.writer ≡ self.old.writer }
    {
        if id < self.writer {
            self.take_read(pool, rows, row)
        } else {
            self.take_pending(pool, rows, row)
        }
    }
}

impl HeldLatches {
    // The latch of one place, which is global, goes.
    fn remove_global(&mut self, rows: &Rows, id: u64, lane: u32, place: u32, latch: &Latch)
        requires table { table_of self.old ≡ rows.now }
        requires held { (s : Snapshot) × (n : ℕ) × Holds self.old s n × IsIn (own_latch id lane place latch.now) (list_of s Global latch.now.access) }
        ensures table { SameSizes self.old self.new }
        ensures writers { SameWriters self.old self.new }
        ensures held { (s : Snapshot) (n k : ℕ) → HasSpare self.old s n k → IsIn (own_latch id lane place latch.now) (list_of s Global latch.now.access)
            → HasSpare self.new (without_place id place Global latch.now.access s) n k }
    {
        let row = self.rows[slot_of(lane, place)];
        self.global
            .take(&mut self.pool, rows, id, row, latch.access);
    }

    // The latch of one place, which is local, goes.
    fn remove_local(&mut self, rows: &Rows, id: u64, lane: u32, place: u32, latch: &Latch)
        requires table { table_of self.old ≡ rows.now }
        requires held { (s : Snapshot) × (n : ℕ) × Holds self.old s n × IsIn (own_latch id lane place latch.now) (list_of s Local latch.now.access) }
        ensures table { SameSizes self.old self.new }
        ensures writers { SameWriters self.old self.new }
        ensures held { (s : Snapshot) (n k : ℕ) → HasSpare self.old s n k → IsIn (own_latch id lane place latch.now) (list_of s Local latch.now.access)
            → HasSpare self.new (without_place id place Local latch.now.access s) n k }
    {
        let row = self.rows[slot_of(lane, place)];
        self.local.take(&mut self.pool, rows, id, row, latch.access);
    }

    // The latch of one place goes.
    fn remove_one(&mut self, rows: &Rows, id: u64, lane: u32, place: u32, latch: &Latch)
        requires table { table_of self.old ≡ rows.now }
        requires held { (s : Snapshot) × (n : ℕ) × Holds self.old s n
            × IsIn (own_latch id lane place latch.now) (list_of s (scope_of latch.now.span) latch.now.access) }
        ensures table { SameSizes self.old self.new }
        ensures writers { SameWriters self.old self.new }
        ensures held { (s : Snapshot) (n k : ℕ) → HasSpare self.old s n k
            → IsIn (own_latch id lane place latch.now) (list_of s (scope_of latch.now.span) latch.now.access)
            → HasSpare self.new (without_place id place (scope_of latch.now.span) latch.now.access s) n k }
    {
        match latch.span.scope() {
            Scope::Global => self.remove_global(rows, id, lane, place, latch),
            Scope::Local => self.remove_local(rows, id, lane, place, latch),
        }
    }

    /// The latches of a request are held no longer. Their rows are free then, but for what shots still have.
    pub fn remove(&mut self, rows: &Rows, id: u64, lane: u32, latches: &[Latch])
        requires table { table_of self.old ≡ rows.now }
        requires held { (s : Snapshot) × (n : ℕ) × Holds self.old s n × HoldsOwn s id lane latches.now 0 × OnlyOwn s id latches.now }
        requires few { length latches.now ≤ 16 }
        ensures table { SameSizes self.old self.new }
        ensures writers { SameWriters self.old self.new }
        ensures held { (s : Snapshot) (n k : ℕ) → HasSpare self.old s n k → HoldsOwn s id lane latches.now 0 → OnlyOwn s id latches.now
            → HasSpare self.new (without_by id s) n k }
    {
        for place in 0..latches.len() {
            self.remove_one(rows, id, lane, place as u32, &latches[place]);
        }
    }
}
