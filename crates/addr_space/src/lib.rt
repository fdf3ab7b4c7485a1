//! Mapped bytes: pages of an address space that hold bytes, read and written by address.
#![tactic(auto)]

mod fault;
mod mapped_run;
mod place;
mod space;

pub use fault::{MapFault, Unmapped};
pub use space::Space;

#[cfg(test)]
mod tests;
