//! The depot of a cache: its full and empty magazines, and their trades with the CPUs.
#![tactic(auto)]

mod depot;
pub mod laws;

pub use depot::{Depot, MAGAZINES};

#[cfg(test)]
mod tests;
