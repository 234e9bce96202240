// The latches of a request that begins come to the others.
ghost use Rattle.std.specs.Prelude.{◌≡◌, ℕ, suc, ◌+◌, ◌*◌, ◌<◌, ◌≤◌, List, length};
ghost use Rattle.latch_model.specs.Histories.{Snapshot};
ghost use Rattle.span_key.specs.Scopes.{scope_of};
ghost use Rattle.span_key.specs.declared.scopes.Scope.TheVariants.{Global, Local};
ghost use Rattle.latch_model.specs.Latches.{normal};
ghost use Rattle.latch_item.specs.Items.{Item};
ghost use Rattle.held_latches.specs.Content.{AllApart, Apart, Content, EachOf, items_in, read_items};
ghost use Rattle.held_latches.specs.Scopes.{Added, Around, ScopeHas};
ghost use Rattle.held_latches.specs.Steps.{SamePool, free_rows};
ghost use Rattle.held_latches.specs.Holding.{HasSpare, MayInsert, SameSizes, SameWriters, own_latch, table_of};
ghost use Rattle.held_latches.specs.Lists.{inserted, own_from, with_held};

use crate::held::{HeldLatches, slot_of};
use crate::pool::Pool;
use crate::scopes::ScopeTrees;
use latch_model::latch::{Access, Latch};
use row_pool::Rows;
use span_key::Scope;

impl ScopeTrees {
    // A latch comes to its scope's. The answer is its item's row.
    fn add(
        &mut self,
        pool: &mut Pool,
        rows: &Rows,
        id: u64,
        place: u32,
        lane: u32,
        latch: &Latch,
    ) -> u32
        requires table { pool.old.seat.table ≡ rows.now }
        requires adds { let x : Item = record { id = id; place = place; lane = lane; span = latch.now.span; stamp = normal latch.now } in
            (c : Content) × (a : Around) × ScopeHas pool.old self.old c a × EachOf (λ (y : Item). Apart y x) (items_in c.writes)
            × EachOf (λ (y : Item). Apart y x) (read_items c) × AllApart (items_in c.writes) × AllApart (read_items c) × (length c.writes < 8190) }
        requires room { 13 ≤ free_rows pool.old }
        ensures same { SamePool pool.old pool.new }
        ensures added { let x : Item = record { id = id; place = place; lane = lane; span = latch.now.span; stamp = normal latch.now } in
            (c : Content) (a : Around) → ScopeHas pool.old self.old c a → EachOf (λ (y : Item). Apart y x) (items_in c.writes)
            → EachOf (λ (y : Item). Apart y x) (read_items c) → AllApart (items_in c.writes) → AllApart (read_items c) → length c.writes < 8190
            → (d : Content) × Added pool.old pool.new self.old self.new c d a result x latch.now.access }
        ensures writer { self.new.writer ≡ self.old.writer }
    {
        match latch.access {
            Access::Write => self.add_write(pool, rows, id, place, lane, latch),
            Access::Read => self.add_read(pool, rows, id, place, lane, latch),
        }
    }
}

impl HeldLatches {
    // The latch of one place, which is global.
    fn insert_global(&mut self, rows: &Rows, id: u64, lane: u32, place: u32, latch: &Latch)
        requires table { table_of self.old ≡ rows.now }
        requires may { (s : Snapshot) × (n more : ℕ) × MayInsert self.old s n more id lane (suc place) }
        requires scope { scope_of latch.now.span ≡ Global }
        ensures table { SameSizes self.old self.new }
        ensures writers { SameWriters self.old self.new }
        ensures held { (s : Snapshot) (n more : ℕ) → MayInsert self.old s n more id lane (suc place)
            → MayInsert self.new (with_held (own_latch id lane place latch.now) s) n more id lane place }
    {
        let row = self
            .global
            .add(&mut self.pool, rows, id, place, lane, latch);
        self.rows[slot_of(lane, place)] = row;
    }

    // The latch of one place, which is local.
    fn insert_local(&mut self, rows: &Rows, id: u64, lane: u32, place: u32, latch: &Latch)
        requires table { table_of self.old ≡ rows.now }
        requires may { (s : Snapshot) × (n more : ℕ) × MayInsert self.old s n more id lane (suc place) }
        requires scope { scope_of latch.now.span ≡ Local }
        ensures table { SameSizes self.old self.new }
        ensures writers { SameWriters self.old self.new }
        ensures held { (s : Snapshot) (n more : ℕ) → MayInsert self.old s n more id lane (suc place)
            → MayInsert self.new (with_held (own_latch id lane place latch.now) s) n more id lane place }
    {
        let row = self.local.add(&mut self.pool, rows, id, place, lane, latch);
        self.rows[slot_of(lane, place)] = row;
    }

    // The latch of one place.
    fn insert_one(&mut self, rows: &Rows, id: u64, lane: u32, place: u32, latch: &Latch)
        requires table { table_of self.old ≡ rows.now }
        requires may { (s : Snapshot) × (n more : ℕ) × MayInsert self.old s n more id lane (suc place) }
        ensures table { SameSizes self.old self.new }
        ensures writers { SameWriters self.old self.new }
        ensures held { (s : Snapshot) (n more : ℕ) → MayInsert self.old s n more id lane (suc place)
            → MayInsert self.new (with_held (own_latch id lane place latch.now) s) n more id lane place }
    {
        match latch.span.scope() {
            Scope::Global => self.insert_global(rows, id, lane, place, latch),
            Scope::Local => self.insert_local(rows, id, lane, place, latch),
        }
    }

    // The latches of a request are held from now on, under the request's number and in its lane. 13 rows a latch are free for them, and no others are used.
    pub(crate) fn insert(&mut self, rows: &Rows, id: u64, lane: u32, latches: &[Latch])
        requires table { table_of self.old ≡ rows.now }
        requires may { (s : Snapshot) × (n more : ℕ) × MayInsert self.old s n more id lane (length latches.now) }
        ensures table { SameSizes self.old self.new }
        ensures writers { SameWriters self.old self.new }
        ensures held { (s : Snapshot) (n more : ℕ) → MayInsert self.old s n more id lane (length latches.now)
            → HasSpare self.new (inserted (own_from id lane 0 latches.now) s) n more }
    {
        for passed in 0..latches.len() {
            let place = latches.len() - 1 - passed;
            self.insert_one(rows, id, lane, place as u32, &latches[place]);
        }
    }
}
