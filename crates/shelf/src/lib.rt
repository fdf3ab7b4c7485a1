//! All magazines, the depot and the slabs of a cache: where its free chunks stand.
#![tactic(auto)]

pub mod laws;
mod shelf;
mod steps;

pub use shelf::Shelf;
