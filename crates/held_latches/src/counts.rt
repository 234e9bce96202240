// How many latches are held in a scope.
ghost use Rattle.std.specs.Prelude.{◌≡◌, ℕ, ◌+◌, length, nat_le};
ghost use Rattle.std.specs.List.{count_by};
ghost use Rattle.latch_model.specs.Histories.{Snapshot, list_of};
ghost use Rattle.latch_model.specs.declared.latch.Access.TheVariants.{Read, Write};
ghost use Rattle.held_latches.specs.Content.{Content};
ghost use Rattle.held_latches.specs.Holding.{Holds, writer_of};
ghost use Rattle.held_latches.specs.Scopes.{HasContent};

use crate::held::HeldLatches;
use crate::scopes::ScopeTrees;
use span_key::Scope;

/// Of one scope: how many reads are held, how many of these are pending, and how many writes are held. A read is pending where its request began no earlier
/// than the last that declared a write in the scope.
#[derive(Clone, Copy, Debug, PartialEq, Eq)]
pub struct Counted {
    pub read: u32,
    pub pending: u32,
    pub write: u32,
}

impl ScopeTrees {
    /// How many latches of each sort there are. No walk.
    pub(crate) fn counts(&self) -> Counted
        requires { (c : Content) × HasContent self.now c }
        ensures read { (c : Content) → HasContent self.now c → result.read ≡ length c.reads + length c.pending }
        ensures pending { (c : Content) → HasContent self.now c → result.pending ≡ length c.pending }
        ensures write { (c : Content) → HasContent self.now c → result.write ≡ length c.writes }
    {
        Counted {
            read: self.reads.len() + self.pending.len(),
            pending: self.pending.len(),
            write: self.writes.len(),
        }
    }
}

impl HeldLatches {
    /// How many latches of a scope are held. No walk.
    pub fn counts(&self, scope: Scope) -> Counted
        requires { (s : Snapshot) × (n : ℕ) × Holds self.now s n }
        ensures read { (s : Snapshot) (n : ℕ) → Holds self.now s n → result.read ≡ length (list_of s scope Read) }
        ensures pending { (s : Snapshot) (n : ℕ) → Holds self.now s n
            → result.pending ≡ count_by (λ x. nat_le (writer_of self.now scope) x.by) (list_of s scope Read) }
        ensures write { (s : Snapshot) (n : ℕ) → Holds self.now s n → result.write ≡ length (list_of s scope Write) }
    {
        match scope {
            Scope::Global => self.global.counts(),
            Scope::Local => self.local.counts(),
        }
    }
}
