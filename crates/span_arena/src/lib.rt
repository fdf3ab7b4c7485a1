//! Page runs of an arena: the lowest free run is taken, and a taken run is given back whole.
#![tactic(auto)]

mod arena;
mod gap;
pub mod laws;
mod not_a_span;

pub use arena::Arena;
pub use not_a_span::NotASpan;

#[cfg(test)]
mod tests;
