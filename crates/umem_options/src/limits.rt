//! The numbers that the options and the logs of umem_debug(3MALLOC) go by, as this project narrows them.

/// The frames of a transaction where the text does not say how many.
pub const DEFAULT_FRAMES: u32 = 15;

/// The most frames of a transaction.
pub const MOST_FRAMES: u32 = 32;

/// The bytes that are kept of a freed buffer where the text does not say how many.
pub const DEFAULT_CONTENTS: u32 = 256;

/// The most bytes that are kept of a freed buffer.
pub const MOST_CONTENTS: u32 = 4_096;

/// The bytes of a log that the text names alone.
pub const DEFAULT_LOG_BYTES: u64 = 65_536;

/// The most bytes of a log.
pub const MOST_LOG_BYTES: u64 = 67_108_864;

/// What a transaction takes of its log, without its frames.
pub const TRANSACTION_BYTES: u64 = 64;

/// What each frame of a transaction takes besides.
pub const FRAME_BYTES: u64 = 8;

/// What a failed allocation takes of its log.
pub const FAIL_BYTES: u64 = 24;

/// What a freed buffer takes of the contents log, without its bytes.
pub const SAVED_BYTES: u64 = 24;

/// The most transactions of a log.
pub const MOST_TRANSACTIONS: u32 = (MOST_LOG_BYTES / TRANSACTION_BYTES) as u32;

/// The most failed allocations of a log.
pub const MOST_FAILS: u32 = (MOST_LOG_BYTES / FAIL_BYTES) as u32;

/// The most freed buffers of a contents log.
pub const MOST_SAVED: u32 = (MOST_LOG_BYTES / SAVED_BYTES) as u32;
