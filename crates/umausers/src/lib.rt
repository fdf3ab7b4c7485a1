//! Who holds the memory of a heap: the allocated chunks of a core by their size and the stack of the call that gave
//! them.
#![tactic(auto)]

mod audits;
mod collect;
mod group;
pub mod laws;
mod order;
mod sum;
mod tally;
mod usage;

pub use collect::groups;
pub use group::Group;
pub use usage::Usage;
