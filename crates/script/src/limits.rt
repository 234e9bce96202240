// The limits of scripts. Each stands here alone, and the definitions cite it by its name.

/// The most bytes of a script.
pub const TEXT_LIMIT: usize = 4_194_304;

/// The most commands of a script: a command's line has at least 7 bytes, and the first and the last line together have 19.
pub const COMMAND_LIMIT: usize = 599_183;

/// The highest number of a session. The lowest is 1.
pub const SESSION_LIMIT: u32 = 64;

/// The most turns that `turns=` may give. The fewest are 1.
pub const TURN_LIMIT: u32 = 1_000_000;

/// The most bytes of a key, or of an end, in a script.
pub const KEY_LIMIT: usize = 256;

/// The most requests of a generated script.
pub const MAKE_LIMIT: u32 = 20_000;
