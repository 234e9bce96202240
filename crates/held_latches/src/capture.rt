// What a request captures.
ghost use Rattle.std.specs.Prelude.{◌≡◌, ℕ, suc, ◌+◌, ◌<◌, ◌≤◌, ◌&&◌, if◌then◌else◌, List, [], ◌∷◌, ◌++◌, length, take, Bool, true, false};
ghost use Rattle.std.specs.List.{list_any};
ghost use Rattle.latch_model.specs.Histories.{Snapshot, captures, list_of};
ghost use Rattle.latch_model.specs.declared.latch.Access.TheVariants.{Read, Write};
ghost use Rattle.span_key.specs.declared.scopes.Scope.TheVariants.{Global, Local};
ghost use Rattle.latch_model.specs.Latches.{in_scope, writes};
ghost use Rattle.row_pool.specs.Trees.{Tree as Row};
ghost use Rattle.latch_shots.specs.Roots.{Root};
ghost use Rattle.latch_shots.specs.Shots.{AreShots, table_of};
ghost use Rattle.latch_shots.specs.Shown.{root_of as shot_root};
ghost use Rattle.held_latches.specs.Holding.{EachHeld, HasSpare, Holds, InScopes, MayInsert, SameSizes, SameWriters};
ghost use Rattle.held_latches.specs.Holding.{WritesIn, table_of as held_table, writer_of};
ghost use Rattle.held_latches.specs.Lists.{capture, inserted, own_from, shown_if, taken_if, without_by};
ghost use Rattle.held_latches.specs.Steps.{CanShow, PoolHas, SamePool, SameRows};
ghost use Rattle.held_latches.specs.Stock.{Placed, tree_root, with_row};

use crate::held::HeldLatches;
use crate::pool::Pool;
use interval_tree::Tree;
use latch_item::Shot;
use latch_model::latch::{Access, Latch};
use latch_shots::Shots;
use row_pool::Rows;
use span_key::Scope;

/// Whether some latch is of this scope.
fn has_any(latches: &[Latch], scope: Scope) -> bool
    ensures { result ≡ list_any (in_scope scope) latches.now }
{
    latches.iter().any(|latch| is_in(latch, scope))
}

/// Whether some latch of this scope writes.
fn has_write(latches: &[Latch], scope: Scope) -> bool
    ensures { result ≡ list_any (λ l. in_scope scope l && writes l.access) latches.now }
{
    latches.iter().any(|latch| is_write_in(latch, scope))
}

fn is_in(latch: &Latch, scope: Scope) -> bool
    ensures { result ≡ in_scope scope latch.now }
{
    latch.span.scope() == scope
}

fn is_write_in(latch: &Latch, scope: Scope) -> bool
    ensures { result ≡ (in_scope scope latch.now && writes latch.now.access) }
{
    is_in(latch, scope) && latch.access == Access::Write
}

/// A shot of a tree, where it is wanted; else one without a root.
fn shot_if(pool: &mut Pool, rows: &Rows, tree: &Tree, wanted: bool) -> Shot
    requires table { pool.old.seat.table ≡ rows.now }
    requires shows { (front back : List Root) × (items : List Row) × (loose : List Placed) × CanShow pool.old tree.now front back items loose }
    ensures same { SamePool pool.old pool.new × SameRows pool.old pool.new }
    ensures shown { (front back : List Root) (items : List Row) (loose : List Placed) → CanShow pool.old tree.now front back items loose
        → PoolHas pool.new (shot_root result (if wanted then items else []) ∷ (front ++ tree_root tree.now items ∷ back)) loose }
{
    if wanted {
        pool.shot(rows, tree)
    } else {
        Shot {
            root: None,
            height: 0,
        }
    }
}

/// The row of a shot's root, where it has one, comes behind the first n rows. The answer is how many rows there are then.
fn add_root(roots: &mut [u32; 4], n: usize, shot: &Shot) -> usize
    requires { n < 4 }
    ensures rows { take result roots.new ≡ take n roots.old ++ with_row shot.now.root [] }
    ensures more { result ≤ n + 1 }
{
    match shot.root {
        None => n,
        Some(root) => {
            roots[n] = root;
            n + 1
        }
    }
}

impl HeldLatches {
    // Whether a request of these latches gets a shot of the writes of this scope. Of a tree without items it gets none: nothing is captured of it, and once the
    // request's own latches have come the shot would show just these.
    fn shows_writes(&self, latches: &[Latch], scope: Scope) -> bool
        requires { (s : Snapshot) × (n : ℕ) × Holds self.now s n }
        ensures { (s : Snapshot) (n : ℕ) → Holds self.now s n
            → taken_if result (list_of s scope Write) ≡ taken_if (captures latches.now scope Write) (list_of s scope Write) }
    {
        let there_are = self.counts(scope).write > 0;
        has_any(latches, scope) && there_are
    }

    // Where it is wanted, the pending reads of the global scope go into its tree, since the request of this number captures them.
    fn flush_global(&mut self, rows: &Rows, id: u64, wanted: bool)
        requires table { held_table self.old ≡ rows.now }
        requires holds { (s : Snapshot) × (n : ℕ) × Holds self.old s n × EachHeld (λ x. x.by < id) s }
        ensures table { SameSizes self.old self.new }
        ensures holds { (s : Snapshot) (n k : ℕ) → HasSpare self.old s n k → EachHeld (λ x. x.by < id) s → HasSpare self.new s n k }
        ensures writers { (writer_of self.new Global ≡ (if wanted then id else writer_of self.old Global))
            × (writer_of self.new Local ≡ writer_of self.old Local) }
    {
        if wanted {
            self.global.flush(&mut self.pool, rows, id);
        }
    }

    // The same of the local scope.
    fn flush_local(&mut self, rows: &Rows, id: u64, wanted: bool)
        requires table { held_table self.old ≡ rows.now }
        requires holds { (s : Snapshot) × (n : ℕ) × Holds self.old s n × EachHeld (λ x. x.by < id) s }
        ensures table { SameSizes self.old self.new }
        ensures holds { (s : Snapshot) (n k : ℕ) → HasSpare self.old s n k → EachHeld (λ x. x.by < id) s → HasSpare self.new s n k }
        ensures writers { (writer_of self.new Global ≡ writer_of self.old Global)
            × (writer_of self.new Local ≡ (if wanted then id else writer_of self.old Local)) }
    {
        if wanted {
            self.local.flush(&mut self.pool, rows, id);
        }
    }

    // The same of both.
    fn flush(&mut self, rows: &Rows, id: u64, global: bool, local: bool)
        requires table { held_table self.old ≡ rows.now }
        requires holds { (s : Snapshot) × (n : ℕ) × Holds self.old s n × EachHeld (λ x. x.by < id) s }
        ensures table { SameSizes self.old self.new }
        ensures holds { (s : Snapshot) (n k : ℕ) → HasSpare self.old s n k → EachHeld (λ x. x.by < id) s → HasSpare self.new s n k }
        ensures writers { (writer_of self.new Global ≡ (if global then id else writer_of self.old Global))
            × (writer_of self.new Local ≡ (if local then id else writer_of self.old Local)) }
    {
        self.flush_global(rows, id, global);
        self.flush_local(rows, id, local);
    }

    // Shots of the trees that are wanted, with a seat of their own, for the request of this number: it began last, and its own latches don't count.
    fn take_shots(
        &mut self,
        rows: &Rows,
        id: u64,
        global: bool,
        global_write: bool,
        local: bool,
        local_write: bool,
    ) -> Shots
        requires table { held_table self.old ≡ rows.now }
        requires holds { (held : Snapshot) × (n : ℕ) × (k : ℕ) × HasSpare self.old held n k × (n < 65536) }
        ensures table { SameSizes self.old self.new }
        ensures shots_table { table_of result ≡ held_table self.old }
        ensures holds { (held : Snapshot) (n k : ℕ) → HasSpare self.old held n k → n < 65536 → HasSpare self.new held (suc n) k }
        ensures writers { SameWriters self.old self.new }
        ensures shots { (held s : Snapshot) (n k : ℕ) → HasSpare self.old held n k → n < 65536 → EachHeld (λ x. x.by ≤ id) held
            → WritesIn self.old id global_write local_write → without_by id held ≡ s → InScopes s
            → AreShots result (shown_if global global_write local local_write s) }
    {
        self.pool.seat.known();
        let local_writes = shot_if(&mut self.pool, rows, &self.local.writes, local);
        let local_reads = shot_if(&mut self.pool, rows, &self.local.reads, local_write);
        let global_writes = shot_if(&mut self.pool, rows, &self.global.writes, global);
        let global_reads = shot_if(&mut self.pool, rows, &self.global.reads, global_write);
        let mut roots = [0; 4];
        let one = add_root(&mut roots, 0, &global_reads);
        let two = add_root(&mut roots, one, &global_writes);
        let three = add_root(&mut roots, two, &local_reads);
        let all = add_root(&mut roots, three, &local_writes);
        let seat = self.pool.split(rows, &roots[..all]);
        Shots::new(
            seat,
            id,
            global_reads,
            global_writes,
            local_reads,
            local_writes,
        )
    }

    /// A request of this number begins, in this lane. It captures what is held, in shots, and holds its own latches from now on; these are all of `latches`, or
    /// none. 13 rows for each of its own are free, and no others are used.
    ///
    /// The pending reads of each scope where it writes go into the tree first, then its own latches come, and the shots are taken last, so that no shot of its
    /// own has it copy a node. What it captured is what its shots show but for its own latches. Of a tree that had no items it takes no shot.
    pub fn begin(
        &mut self,
        rows: &Rows,
        id: u64,
        lane: u32,
        latches: &[Latch],
        own: &[Latch],
    ) -> Shots
        requires table { held_table self.old ≡ rows.now }
        requires may { (s : Snapshot) × (n more : ℕ) × MayInsert self.old s n more id lane (length own.now) × EachHeld (λ x. x.by < id) s × (n < 65536) }
        ensures table { SameSizes self.old self.new }
        ensures shots_table { table_of result ≡ held_table self.old }
        ensures holds { (s : Snapshot) (n more : ℕ) → MayInsert self.old s n more id lane (length own.now) → EachHeld (λ x. x.by < id) s → n < 65536
            → HasSpare self.new (inserted (own_from id lane 0 own.now) s) (suc n) more }
        ensures writers { (writer_of self.new Global ≡ (if captures latches.now Global Read then id else writer_of self.old Global))
            × (writer_of self.new Local ≡ (if captures latches.now Local Read then id else writer_of self.old Local)) }
        ensures shots { (s : Snapshot) (n more : ℕ) → MayInsert self.old s n more id lane (length own.now) → EachHeld (λ x. x.by < id) s → n < 65536
            → InScopes s → AreShots result (capture latches.now s) }
    {
        let global = self.shows_writes(latches, Scope::Global);
        let global_write = has_write(latches, Scope::Global);
        let local = self.shows_writes(latches, Scope::Local);
        let local_write = has_write(latches, Scope::Local);
        self.flush(rows, id, global_write, local_write);
        self.insert(rows, id, lane, own);
        self.take_shots(rows, id, global, global_write, local, local_write)
    }
}
