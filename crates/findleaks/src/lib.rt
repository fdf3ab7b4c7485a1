//! Which allocated buffers of a core its roots still reach, and which of them leaked.
#![tactic(auto)]

mod follow;
mod found;
pub mod laws;
mod leaks;
mod part;

pub use leaks::classes;
pub use part::Classes;
