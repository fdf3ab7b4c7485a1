//! The books of a run: its accounts, and what its audits and logs are made of.
#![tactic(auto)]

mod books;
mod chunk_commits;
mod draw;
mod entering;
mod fit;
mod free_commits;
mod free_lists;
mod journal;
mod large_commits;
pub mod laws;
mod logs;
mod numbers;
mod picture;
mod plain_commits;
mod start;

pub use books::Books;
