//! What is damaged in a heap: the chunks of a core whose bytes break a rule of their state.
#![tactic(auto)]

mod check;
mod collect;
pub mod laws;
mod line;

pub use collect::findings;
pub use line::Line;
