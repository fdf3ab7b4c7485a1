//! What a run was given and what it has made so far: the plan of its script, the options and the sizes of the logs, and
//! the entries of its history. The order of the calls is kept here.
#![tactic(auto)]

pub mod laws;
mod ledger;
mod phase_calls;
mod queue;
mod ready;
mod schedule;
mod slab_at;

pub use ledger::{Ledger, calls_of};
pub use ready::Ready;
pub use slab_at::SlabAt;

#[cfg(test)]
mod tests;
