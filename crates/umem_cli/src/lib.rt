//! The command line: reads its words, runs a script or answers commands over a core, and ends with a status.
#![tactic(auto)]

mod arguments;
mod given;
mod job;
pub mod laws;
mod limits;
mod make;
mod mem_words;
mod message;
mod printed;
mod refusal;
mod report;
mod run;
mod script_run;
mod session;
mod status;
mod system_words;
mod top;
mod words;

pub use arguments::command_words;
pub use given::{Words, given_words};
pub use job::Job;
pub use limits::MOST_COMMAND_BYTES;
pub use mem_words::MemWords;
pub use script_run::run_script;
pub use session::diagnose;
pub use status::Status;
pub use system_words::SystemWords;
pub use top::umem;

#[cfg(test)]
mod tests;
