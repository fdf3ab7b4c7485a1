//! What the commands of mdb(1) answer over a core.
#![tactic(auto)]

mod answers;
mod cache_lines;
mod column;
mod commands;
mod contents;
mod dcmd;
mod fault;
mod finding_lines;
pub mod laws;
mod leaks;
mod lines;
mod name;
mod names;
mod transactions;
mod users;
mod walks;

pub use answers::answer;
pub use commands::read_dcmd;
pub use dcmd::Dcmd;
pub use fault::DcmdFault;

#[cfg(test)]
mod tests;
