//! What a run did, in five numbers and one line.
#![tactic(auto)]

mod change;
mod count;
mod put;
mod summary;
mod tally;

pub use count::summary_of;
pub use put::put_summary;
pub use summary::Summary;

#[cfg(test)]
mod tests;
