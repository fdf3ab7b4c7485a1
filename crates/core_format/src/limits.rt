//! Bounds of a core beside those of its parts, which are this project's own.

/// The most records of chunks' last transactions.
pub const MOST_AUDITS: u32 = 524_288;

/// The bits of all flags.
pub const ALL_FLAGS: u32 = 7;

/// What stands in the field of a cache's constructor where it has none.
pub const NO_CTOR: u32 = 256;

/// The zeros that stand behind a cache's name, as many as its field has bytes.
pub const NAME_PADDING: [u8; 32] = [0; 32];

/// The most full magazines of a depot.
pub const MOST_FULL: u32 = 8;
