// The shots of a request, from the capture to their return.
ghost use Rattle.std.specs.Prelude.{◌≡◌, ℕ, List, [], ◌∷◌, Option, MatchOption};
ghost use Rattle.span_key.specs.Scopes.{scope_of};
ghost use Rattle.latch_model.specs.Histories.{HeldLatch, Snapshot, met_by};
ghost use Rattle.latch_shots.specs.Met.{IsMet};
ghost use Rattle.latch_shots.specs.Roots.{Root, AreRoots};
ghost use Rattle.latch_shots.specs.Shown.{Show};
ghost use Rattle.latch_shots.specs.Shots.{AreShots, IsReturned, OwnsJust, content_of, number_of, shot_of, table_of, view_of};

use crate::met::MetLatch;
use crate::walk::Walk;
use latch_item::Shot;
use latch_model::latch::{Access, Latch};
use row_pool::{Chain, RowSeat, Rows};
use span_key::{Scope, Span};

/// What a request captured: for each scope the latches held for reading and those held for writing, as shots, and the seat that refers to them. It must be
/// spent.
pub struct Shots {
    pub(crate) seat: RowSeat,
    // the number of the request, whose own latches its shots may show beside those that it captured
    pub(crate) own: u64,
    global_reads: Shot,
    global_writes: Shot,
    local_reads: Shot,
    local_writes: Shot,
}

/// What is left of the shots once they are closed: the seat, which refers to nothing any more, and the rows that nothing else referred to. It must be spent.
pub struct Returned {
    pub seat: RowSeat,
    pub rows: Chain,
}

impl Shots {
    /// The shots to which a seat that was split off refers, of the request with this number. Its own latches among the items don't count.
    pub fn new(
        seat: RowSeat,
        own: u64,
        global_reads: Shot,
        global_writes: Shot,
        local_reads: Shot,
        local_writes: Shot,
    ) -> Shots
        ensures shown { (s : Snapshot) → Show seat.view own global_reads global_writes local_reads local_writes s → AreShots result s }
        ensures table { table_of result ≡ seat.table }
        ensures number { number_of result ≡ seat.view.number }
    {
        Shots {
            seat,
            own,
            global_reads,
            global_writes,
            local_reads,
            local_writes,
        }
    }

    // The shot of the latches with an access in the scope of a span.
    pub(crate) fn list(&self, span: &Span, access: Access) -> Shot
        ensures { result ≡ shot_of (content_of self.now) (scope_of span.now) access }
    {
        match (span.scope(), access) {
            (Scope::Global, Access::Read) => self.global_reads,
            (Scope::Global, Access::Write) => self.global_writes,
            (Scope::Local, Access::Read) => self.local_reads,
            (Scope::Local, Access::Write) => self.local_writes,
        }
    }

    /// The first of the held latches that a latch meets.
    pub fn first_met(&mut self, rows: &Rows, asked: &Latch) -> Option<MetLatch>
        requires table { table_of self.old ≡ rows.now }
        requires shown { (s : Snapshot) × AreShots self.old s }
        ensures same { content_of self.new ≡ content_of self.old }
        ensures first { (s : Snapshot) → AreShots self.old s → MatchOption result (met_by s asked.now ≡ [])
            (λ m. (x : HeldLatch) × (rest : List HeldLatch) × (met_by s asked.now ≡ x ∷ rest) × IsMet (view_of self.new) m x) }
    {
        let mut walk = Walk::first(rows, self, asked);
        walk.next(rows, self, asked)
    }

    /// Gives up what was captured. The rows that nothing else referred to come back with the seat.
    pub fn close(self, rows: &Rows) -> Returned
        requires table { table_of self ≡ rows.now }
        requires shown { (s : Snapshot) × AreShots self s }
        ensures { IsReturned rows.now (number_of self) result }
    {
        let Shots {
            mut seat,
            own: _,
            global_reads,
            global_writes,
            local_reads,
            local_writes,
        } = self;
        let mut chain = Chain::empty();
        give_up(rows, &mut seat, &mut chain, global_reads.root);
        give_up(rows, &mut seat, &mut chain, global_writes.root);
        give_up(rows, &mut seat, &mut chain, local_reads.root);
        give_up(rows, &mut seat, &mut chain, local_writes.root);
        Returned { seat, rows: chain }
    }
}

// The reference to a root is given up, where there is a root. The rows that nothing else referred to go into the chain.
fn give_up(rows: &Rows, seat: &mut RowSeat, chain: &mut Chain, root: Option<u32>)
    requires table { seat.old.table ≡ rows.now }
    requires roots { (r : Root) × (rs : List Root) × (r.row ≡ root) × AreRoots (r ∷ rs) seat.old.view.refs }
    requires owns { OwnsJust seat.old.view chain.old }
    ensures same { (seat.new.table ≡ seat.old.table) × (seat.new.view.number ≡ seat.old.view.number) }
    ensures roots { (r : Root) (rs : List Root) → r.row ≡ root → AreRoots (r ∷ rs) seat.old.view.refs → AreRoots rs seat.new.view.refs }
    ensures owns { OwnsJust seat.new.view chain.new }
{
    let Some(row) = root else {
        return;
    };
    rows.drop_ref(seat, row, chain);
}
