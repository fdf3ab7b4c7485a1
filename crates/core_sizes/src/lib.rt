//! How many bytes a core of a run has at most, so that a program that reads cores reads each that it wrote.
#![tactic(auto)]

pub mod laws;
mod limits;

pub use limits::MOST_CORE_BYTES;
