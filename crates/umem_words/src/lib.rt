//! The words of a command line: which job they ask for.
#![tactic(auto)]

mod command;
mod job;
pub mod laws;
mod limits;
mod make_job;
mod mdb_job;
mod modes;
mod read;
mod run_job;
mod told;
mod values;

pub use job::Job;
pub use limits::MOST_OPS;
pub use make_job::MakeJob;
pub use mdb_job::MdbJob;
pub use read::read_words;
pub use run_job::RunJob;

#[cfg(test)]
mod tests;
