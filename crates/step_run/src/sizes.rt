// The sizes at which a script is run.
use latch_model::history::Sizes;

/// The sizes at which the program runs a script: 1,024 latches, 64 lanes and 98,304 rows.
pub const PROGRAM_SIZES: Sizes = Sizes {
    latches: 1_024,
    lanes: 64,
    rows: 98_304,
};

/// The sizes at which it runs a script first: the same but for fewer rows. To make a pool costs its size twice, and nearly every script needs far fewer rows
/// than the program has: 13 for each latch that is held at one time, and some for snapshots.
pub const FIRST_SIZES: Sizes = Sizes {
    latches: 1_024,
    lanes: 64,
    rows: 4_096,
};
