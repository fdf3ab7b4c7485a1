//! What a user switches on: the texts of UMEM_DEBUG and UMEM_LOGGING, and the records that the logs hold.
#![tactic(auto)]

mod capacity;
mod debug;
mod flags;
mod item;
pub mod laws;
mod limits;
mod logging;
mod options;

pub use capacity::{contents_count, contents_records, fail_records, transaction_records};
pub use debug::read_debug;
pub use flags::DebugFlags;
pub use limits::{
    DEFAULT_CONTENTS, DEFAULT_FRAMES, DEFAULT_LOG_BYTES, FAIL_BYTES, FRAME_BYTES, MOST_CONTENTS,
    MOST_FAILS, MOST_FRAMES, MOST_LOG_BYTES, MOST_SAVED, MOST_TRANSACTIONS, SAVED_BYTES,
    TRANSACTION_BYTES,
};
pub use logging::read_logging;
pub use options::{Logging, Options};

#[cfg(test)]
mod tests;
