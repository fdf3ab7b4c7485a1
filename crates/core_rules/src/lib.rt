//! What a maker of a core needs: when a core that is made, and not read, may be written and is read again, said of
//! its fields alone, and the pieces that are the same whatever a heap did.
#![tactic(auto)]

mod caches;
pub mod laws;
mod places;

pub use caches::cache_items;
pub use places::{empty_depots, empty_places};

#[cfg(test)]
mod tests;
