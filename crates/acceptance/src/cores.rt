//! Cores that are read and written, and what is told of them, on sample cores that are written as texts.

mod builder;
mod by_hand;
pub mod changes;
mod findings;
mod leaks;
pub mod pieces;
mod reading;
pub mod sample;
pub mod samples;
pub mod scene;
mod users;
mod views;
