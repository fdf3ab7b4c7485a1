//! The tables of one history, and the commits that make it longer; and where the free chunks of a history stand by the
//! magazine rules.
#![tactic(auto)]

mod accounts;
mod asked;
mod asked_calls;
mod chunk_calls;
mod chunk_request;
mod due;
mod entering;
mod freed;
mod frees;
mod fresh;
mod grow_calls;
mod grown;
mod large_calls;
mod large_request;
mod last;
pub mod laws;
mod plain_calls;
mod reap_calls;
mod tables;
mod tried;
mod turn;

pub use accounts::Accounts;
pub use asked::Asked;
pub use due::Due;
pub use freed::Freed;
pub use fresh::Fresh;
pub use grown::Grown;
pub use last::Last;
pub use tried::Tried;
pub use turn::Turn;
