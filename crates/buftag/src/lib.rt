//! The tag round a buffer: the patterns that a free and an allocation leave, and the first rule that a
//! chunk's bytes break.
#![tactic(auto)]

mod check;
mod fact;
mod facts;
mod finding;
mod kind;
pub mod laws;
mod patterns;
mod shape;
mod size_code;
mod state;
mod unconstructed;
mod write;

pub use check::first_broken;
pub use finding::Finding;
pub use patterns::{
    ALLOCATED_MARK, FREE_MARK, FREE_WORD, FRESH_WORD, GUARD_BYTE, REDZONE_HALF, REDZONE_WORD,
    SIZE_FACTOR,
};
pub use shape::Shape;
pub use size_code::{decode_size, encode_size};
pub use state::State;
pub use unconstructed::first_unconstructed;
pub use write::{write_alloc, write_free};

#[cfg(test)]
mod tests;
