//! What the logs and the audits of a history are: each is a function of its entries and of the chunks that they acted
//! on, made when it is asked for.
#![tactic(auto)]

mod act;
mod chunk_range;
mod last_audits;
mod last_fails;
mod last_transactions;
pub mod laws;
mod piece;
mod push_some;

pub use act::Act;
pub use chunk_range::ChunkRange;
pub use last_audits::audits;
pub use last_fails::fails;
pub use last_transactions::transactions;
pub use piece::saved_piece;
