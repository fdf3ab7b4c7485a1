//! The slabs of a cache, and the rounds that stand in their lists.
#![tactic(auto)]

mod bufctl;
mod empty_slab;
pub mod laws;
mod round;
mod search;
mod slab;
mod slabs;

pub use bufctl::Bufctl;
pub use empty_slab::EmptySlab;
pub use round::{Round, Rounds, rounds_from};
pub use slabs::Slabs;

#[cfg(test)]
mod tests;
