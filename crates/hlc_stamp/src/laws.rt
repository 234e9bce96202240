// The order of stamps. A law takes no time: it is called where a proof needs what it says.
ghost use Rattle.std.specs.Prelude.{◌≡◌, ◌↔◌, IsTrue};
ghost use Rattle.std.specs.Ordering.{partial_le, partial_lt};
ghost use Rattle.hlc_stamp.specs.Stamps.{stamp_cmp, StampBefore, StampUpTo};

use crate::Stamp;

/// What `cmp`, `<` and `<=` answer: stamps are in the order of their wall times, and where these are equal in the
/// order of their logical counts.
pub fn order(a: Stamp, b: Stamp)
    ensures cmp { ⟦<Stamp as Ord>⟧.cmp a b ≡ stamp_cmp a b }
    ensures before { IsTrue (partial_lt ⟦<Stamp as PartialOrd>⟧.partial_cmp a b) ↔ StampBefore a b }
    ensures up_to { IsTrue (partial_le ⟦<Stamp as PartialOrd>⟧.partial_cmp a b) ↔ StampUpTo a b }
{}
