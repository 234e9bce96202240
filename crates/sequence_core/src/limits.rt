// The bounds of a desk's sizes.
ghost use Rattle.std.specs.Prelude.{◌≡◌};
ghost use Rattle.sequence_core.specs.Bounds.{bad_size};

use crate::fault::Which;
use latch_model::history::Sizes;

/// The most latches that may be held at a time.
pub const MOST_LATCHES: u32 = 8_190;

/// The most requests that may be open at a time.
pub const MOST_LANES: u32 = 256;

/// The fewest rows.
pub const FEWEST_ROWS: u32 = 208;

/// The most rows.
pub const MOST_ROWS: u32 = 4_194_304;

/// The rows that are set aside for a latch: one for itself, seven for its insertion into a tree and five for its removal.
pub const LATCH_ROWS: u32 = 13;

/// The first of the sizes that is out of its bounds.
pub fn bad_size(sizes: &Sizes) -> Option<Which>
    ensures { result ≡ bad_size sizes.now }
{
    if sizes.latches < 1 || sizes.latches > MOST_LATCHES {
        return Some(Which::Latches);
    }
    if sizes.lanes < 1 || sizes.lanes > MOST_LANES {
        return Some(Which::Lanes);
    }
    if sizes.rows < FEWEST_ROWS || sizes.rows > MOST_ROWS {
        return Some(Which::Rows);
    }
    None
}
