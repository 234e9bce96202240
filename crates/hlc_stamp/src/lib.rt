//! Timestamps of a hybrid logical clock: a wall time, and a logical count that orders events of one wall time.
#![tactic(auto)]

ghost use Rattle.std.specs.Prelude.{◌≡◌, ◌↔◌, IsTrue};

pub mod laws;

/// A timestamp. Stamps are ordered by wall time and then by the logical count, which is what `<`,
/// `<=` and `cmp` answer (`laws::order`).
#[derive(Clone, Copy, Debug, PartialEq, Eq, PartialOrd, Ord)]
pub struct Stamp {
    /// The wall time, in nanoseconds.
    pub wall: u64,
    pub logical: u32,
}

impl Stamp {
    ghost use Rattle.hlc_stamp.specs.Stamps.{is_empty_stamp, IsEmptyStamp};

    /// The stamp that stands for no time.
    pub const EMPTY: Stamp = Stamp {
        wall: 0,
        logical: 0,
    };

    /// Whether this is the empty stamp.
    pub fn is_empty(self) -> bool
        ensures test { result ≡ is_empty_stamp self }
        ensures empty { IsTrue result ↔ IsEmptyStamp self }
    {
        self == Stamp::EMPTY
    }
}

#[cfg(test)]
mod tests;
