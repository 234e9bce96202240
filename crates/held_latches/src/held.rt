// The held latches of both scopes.
ghost use Rattle.std.specs.Prelude.{◌≡◌, ℕ, suc, ◌+◌, ◌*◌, ◌<◌, ◌≤◌, length, IfOk};
ghost use Rattle.latch_model.specs.Histories.{Snapshot};
ghost use Rattle.latch_shots.specs.Shots.{IsReturned};
ghost use Rattle.held_latches.specs.Holding.{HasSpare, Holds, SameSizes, SameWriters, free_of, slots_of, size_of, table_of, writer_of};
ghost use Rattle.held_latches.specs.Lists.{no_lists, total};
ghost use Rattle.span_key.specs.declared.scopes.Scope.TheVariants as scopes;

use crate::pool::Pool;
use crate::scopes::ScopeTrees;
use interval_tree::Tree;
use latch_shots::Returned;
use read_list::ReadList;
use row_pool::{Memory, Rows};
use std::alloc::Global;

/// The most latches of a request.
const MOST_PLACES: usize = 16;

/// The latches that are held, in rows of a pool: for each scope a tree of writes, a tree of reads, and a list of the reads that no request has captured yet.
/// It must be spent.
pub struct HeldLatches {
    pub(crate) pool: Pool,
    pub(crate) global: ScopeTrees,
    pub(crate) local: ScopeTrees,
    // the row of each held latch, by the lane of its request and its place in it
    pub(crate) rows: Vec<u32>,
}

impl HeldLatches {
    /// No latches, and a pool of so many rows, all free, for requests in so many lanes.
    pub fn new(alloc: Global, count: u32, lanes: u32) -> Result<(Rows, HeldLatches), Memory>
        requires { (1 ≤ count) × (count ≤ 4194304) × (lanes ≤ 256) }
        ensures held { IfOk result (λ made. (table_of made.1 ≡ made.0) × Holds made.1 no_lists 0) }
        ensures writers { IfOk result (λ made. (writer_of made.1 scopes.Global ≡ 0) × (writer_of made.1 scopes.Local ≡ 0)) }
        ensures sizes { IfOk result (λ made. (size_of made.1 ≡ count) × (slots_of made.1 ≡ lanes * 16)) }
    {
        let table = vec![in alloc; 0u32; lanes as usize * MOST_PLACES]?;
        let (rows, seat, chain) = Rows::new(alloc, count)?;
        let held = HeldLatches {
            pool: Pool { seat, chain },
            global: ScopeTrees::new(),
            local: ScopeTrees::new(),
            rows: table,
        };
        Ok((rows, held))
    }

    /// How many latches are held.
    pub fn total(&self) -> u32
        requires { (s : Snapshot) × (n : ℕ) × Holds self.now s n }
        ensures { (s : Snapshot) (n : ℕ) → Holds self.now s n → result ≡ total s }
    {
        self.global.total() + self.local.total()
    }

    /// How many rows are free and not set aside for the latches that are held. Where none is held and no request is open, these are all rows.
    pub fn free(&self) -> u32
        requires { (s : Snapshot) × (n : ℕ) × Holds self.now s n }
        ensures free { result ≡ free_of self.now }
        ensures spare { (s : Snapshot) (n : ℕ) → Holds self.now s n → HasSpare self.now s n result }
        ensures most { (s : Snapshot) (n k : ℕ) → HasSpare self.now s n k → k ≤ result }
        ensures all { Holds self.now no_lists 0 → result ≡ size_of self.now }
    {
        self.pool.seat.known();
        self.pool.chain.len() - self.global.aside() - self.local.aside()
    }

    /// What a request captured comes back, closed.
    pub fn take_back(&mut self, rows: &Rows, returned: Returned)
        requires table { table_of self.old ≡ rows.now }
        requires returned { (number : ℕ) × IsReturned rows.now number returned }
        requires holds { (s : Snapshot) × (n : ℕ) × Holds self.old s n }
        ensures table { SameSizes self.old self.new }
        ensures writers { SameWriters self.old self.new }
        ensures holds { (s : Snapshot) (n k : ℕ) → HasSpare self.old s n k → (m : ℕ) × (n ≡ suc m) × HasSpare self.new s m k }
    {
        let Returned { seat, rows: chain } = returned;
        self.pool.take_back(rows, seat, chain);
    }

    /// Ends the held latches, of which there are none any more, with their pool.
    pub fn close(self, rows: Rows)
        requires table { table_of self ≡ rows }
        requires holds { Holds self no_lists 0 }
    {
        let HeldLatches {
            pool,
            global: _global,
            local: _local,
            rows: _table,
        } = self;
        let Pool { seat, chain } = pool;
        chain.whole(&seat);
        rows.close(seat, chain);
    }
}

/// The place of a latch in the table of rows.
pub(crate) fn slot_of(lane: u32, place: u32) -> usize
    ensures { result ≡ lane * 16 + place }
{
    lane as usize * MOST_PLACES + place as usize
}
