// The walk over what one latch meets.
ghost use Rattle.std.specs.Prelude.{◌≡◌, ℕ, ◌<◌, List, [], ◌∷◌, MatchOption, IfSome};
ghost use Rattle.row_pool.specs.Trees.{Tree};
ghost use Rattle.latch_model.specs.Histories.{HeldLatch, Snapshot, met_by};
ghost use Rattle.latch_model.specs.declared.latch.Access.TheVariants.{Read};
ghost use Rattle.overlap_iter.specs.Walks.{steps_left};
ghost use Rattle.latch_shots.specs.Met.{IsMet};
ghost use Rattle.latch_shots.specs.Shots.{AreShots, content_of, table_of, view_of};
ghost use Rattle.latch_shots.specs.Walks.{Among, Meets, MeetsReads, meeting, walk_steps_left};

use crate::met::{MetLatch, met_at};
use crate::shots::Shots;
use latch_model::latch::{Access, Latch};
use overlap_iter::Cursor;
use row_pool::{RowSeat, Rows};

/// Where the walk over what a latch meets stands. It goes over the writes in the latch's scope and then, where the latch writes, over the reads.
#[derive(Debug, Drop)]
pub struct Walk {
    cursor: Cursor,
    // the access of those over which it goes now
    access: Access,
}

impl Walk {
    /// In front of the first held latch that the latch meets.
    pub fn first(rows: &Rows, shots: &mut Shots, asked: &Latch) -> Walk
        requires table { table_of shots.old ≡ rows.now }
        requires shown { (s : Snapshot) × AreShots shots.old s }
        ensures same { shots.new ≡ shots.old }
        ensures walk { (s : Snapshot) → AreShots shots.old s → Meets shots.new result asked.now (met_by s asked.now) }
    {
        shots.seat.known();
        let shot = shots.list(&asked.span, Access::Write);
        let cursor = Cursor::first(rows, &mut shots.seat, &shot, &asked.span);
        Walk {
            cursor,
            access: Access::Write,
        }
    }

    /// The next held latch that the latch meets, None after the last one. The latch is the one that the walk began with.
    pub fn next(&mut self, rows: &Rows, shots: &mut Shots, asked: &Latch) -> Option<MetLatch>
        requires table { table_of shots.old ≡ rows.now }
        requires walk { (todo : List HeldLatch) × Meets shots.old self.old asked.now todo }
        ensures same { content_of shots.new ≡ content_of shots.old }
        ensures next { (todo : List HeldLatch) → Meets shots.old self.old asked.now todo
            → MatchOption result ((todo ≡ []) × Meets shots.new self.new asked.now [])
            (λ m. (x : HeldLatch) × (rest : List HeldLatch) × (todo ≡ x ∷ rest) × IsMet (view_of shots.new) m x
            × Meets shots.new self.new asked.now rest) }
        ensures ends { IfSome result (λ _. walk_steps_left self.new < walk_steps_left self.old) }
    {
        if let Some(met) = self.next_among(rows, &mut shots.seat, shots.own, asked) {
            return Some(met);
        }
        match self.access {
            Access::Read => None,
            Access::Write => match asked.access {
                Access::Read => None,
                Access::Write => self.next_read(rows, shots, asked),
            },
        }
    }

    // The first of the reads, where the writes are passed.
    fn next_read(&mut self, rows: &Rows, shots: &mut Shots, asked: &Latch) -> Option<MetLatch>
        requires table { table_of shots.old ≡ rows.now }
        requires reads { (todo : List HeldLatch) × MeetsReads (content_of shots.old) asked.now todo }
        ensures same { content_of shots.new ≡ content_of shots.old }
        ensures access { self.new.access ≡ Read }
        ensures next { (todo : List HeldLatch) → MeetsReads (content_of shots.old) asked.now todo
            → MatchOption result ((todo ≡ []) × Meets shots.new self.new asked.now [])
            (λ m. (x : HeldLatch) × (rest : List HeldLatch) × (todo ≡ x ∷ rest) × IsMet (view_of shots.new) m x
            × Meets shots.new self.new asked.now rest) }
    {
        let shot = shots.list(&asked.span, Access::Read);
        self.cursor = Cursor::first(rows, &mut shots.seat, &shot, &asked.span);
        self.access = Access::Read;
        self.next_among(rows, &mut shots.seat, shots.own, asked)
    }

    // The next of those over which the walk goes now.
    fn next_among(
        &mut self,
        rows: &Rows,
        seat: &mut RowSeat,
        own: u64,
        asked: &Latch,
    ) -> Option<MetLatch>
        requires table { seat.old.table ≡ rows.now }
        requires walk { (xs : List Tree) × Among seat.old.view self.old.cursor asked.now.span xs }
        ensures same { (seat.new.table ≡ seat.old.table) × (seat.new.view ≡ seat.old.view) }
        ensures access { self.new.access ≡ self.old.access }
        ensures next { (xs : List Tree) → Among seat.old.view self.old.cursor asked.now.span xs
            → MatchOption result ((meeting own asked.now self.old.access xs ≡ []) × Among seat.new.view self.new.cursor asked.now.span [])
            (λ m. (x : HeldLatch) × (rest : List Tree) × (meeting own asked.now self.old.access xs ≡ x ∷ meeting own asked.now self.old.access rest)
            × IsMet seat.new.view m x × Among seat.new.view self.new.cursor asked.now.span rest) }
        ensures ends { IfSome result (λ _. steps_left self.new.cursor < steps_left self.old.cursor) }
    {
        while let Some(row) = self.cursor.next(rows, seat, &asked.span) {
            if let Some(met) = met_at(rows, seat, own, asked, self.access, row) {
                return Some(met);
            }
        }
        None
    }
}
