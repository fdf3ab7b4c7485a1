//! Logs that keep the last items that were entered, and what the transaction, fail and contents logs record.
#![tactic(auto)]

mod kinds;
mod laws;
mod log;
mod record;
mod saved_log;
mod saved_record;

pub use kinds::{ALLOCATION, FREE};
pub use laws::{entering_keeps_the_last, kinds_have_their_numbers};
pub use log::Log;
pub use record::{Fail, Saved, Trans};
pub use saved_log::SavedLog;
pub use umem_options::{contents_count, contents_records};

#[cfg(test)]
mod tests;
