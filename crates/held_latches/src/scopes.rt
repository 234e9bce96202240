// The trees and the list of one scope.
ghost use Rattle.std.specs.Prelude.{◌≡◌, ℕ, suc, ◌+◌, ◌*◌, ◌≤◌, List, [], length, IsTrue, true, false};
ghost use Rattle.held_latches.specs.Content.{AllApart, Content, read_items};
ghost use Rattle.held_latches.specs.Scopes.{Around, Flushing, HasContent, IsEmpty, ScopeHas, aside_in, aside_of, many_of};
ghost use Rattle.held_latches.specs.Steps.{SamePool, free_rows};

use crate::pool::Pool;
use interval_tree::Tree;
use read_list::ReadList;
use row_pool::Rows;

/// The latches of one scope: the writes in a tree, and the reads in a tree and in a list of those that no request has captured yet. `writer` is the number of
/// the last request that declared a write in the scope: it captured the reads in front of it, so those that are pending are of no earlier request.
#[derive(Drop)]
pub(crate) struct ScopeTrees {
    pub(crate) writes: Tree,
    pub(crate) reads: Tree,
    pub(crate) pending: ReadList,
    pub(crate) writer: u64,
}

/// The rows that are set aside for a latch in a tree, and for one in a list, which is still to go into the tree.
const IN_A_TREE: u32 = 5;

const IN_A_LIST: u32 = 12;

impl ScopeTrees {
    /// No latches.
    pub(crate) fn new() -> ScopeTrees
        ensures empty { IsEmpty result }
        ensures writer { result.writer ≡ 0 }
    {
        ScopeTrees {
            writes: Tree::new(),
            reads: Tree::new(),
            pending: ReadList::new(),
            writer: 0,
        }
    }

    /// How many latches there are.
    pub(crate) fn total(&self) -> u32
        requires { (c : Content) × HasContent self.now c }
        ensures { (c : Content) → HasContent self.now c → result ≡ many_of c }
    {
        self.writes.len() + self.reads.len() + self.pending.len()
    }

    /// How many rows are set aside for them.
    pub(crate) fn aside(&self) -> u32
        requires { (c : Content) × HasContent self.now c }
        ensures { (c : Content) → HasContent self.now c → (result ≡ aside_of c) × (result ≡ aside_in self.now) }
    {
        IN_A_TREE * (self.writes.len() + self.reads.len()) + IN_A_LIST * self.pending.len()
    }

    /// The first pending read goes into the tree. The answer is whether there was one.
    pub(crate) fn flush_one(&mut self, pool: &mut Pool, rows: &Rows) -> bool
        requires table { pool.old.seat.table ≡ rows.now }
        requires has { (c : Content) × (a : Around) × ScopeHas pool.old self.old c a × AllApart (read_items c)
            × (length c.reads + length c.pending ≤ 8190) × (7 * length c.pending ≤ free_rows pool.old) }
        ensures same { SamePool pool.old pool.new }
        ensures flushed { (c : Content) (a : Around) → ScopeHas pool.old self.old c a → AllApart (read_items c) → length c.reads + length c.pending ≤ 8190
            → (d : Content) × Flushing pool.old pool.new self.old self.new c d a }
        ensures writer { self.new.writer ≡ self.old.writer }
        ensures some { result ≡ true → self.new.pending.len + 1 ≡ self.old.pending.len }
        ensures none { result ≡ false → (self.new ≡ self.old) × (self.new.pending.len ≡ 0) }
    {
        match self.pending.pop_front(rows, &mut pool.seat) {
            None => false,
            Some(item) => {
                pool.grow(rows, &mut self.reads, item);
                true
            }
        }
    }

    /// All pending reads go into the tree, since the request of this number captures them.
    pub(crate) fn flush(&mut self, pool: &mut Pool, rows: &Rows, id: u64)
        requires table { pool.old.seat.table ≡ rows.now }
        requires has { (c : Content) × (a : Around) × ScopeHas pool.old self.old c a × AllApart (read_items c)
            × (length c.reads + length c.pending ≤ 8190) × (7 * length c.pending ≤ free_rows pool.old) }
        ensures same { SamePool pool.old pool.new }
        ensures flushed { (c : Content) (a : Around) → ScopeHas pool.old self.old c a → AllApart (read_items c) → length c.reads + length c.pending ≤ 8190
            → 7 * length c.pending ≤ free_rows pool.old → (d : Content) × Flushing pool.old pool.new self.old self.new c d a × (d.pending ≡ []) }
        ensures writer { self.new.writer ≡ id }
    {
        while self.flush_one(pool, rows) {}
        self.writer = id;
    }
}
