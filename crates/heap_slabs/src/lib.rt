//! The table of the slabs of a replayed heap: which stand, how many each cache ever made, how many of their chunks
//! live, and which chunk begins at an address or has a number.
#![tactic(auto)]

mod as_slab_at;
mod cache_slabs;
mod caches;
mod counts;
mod free;
pub mod laws;
mod numbered;
mod place;
mod placed;
mod search;
mod standing;
mod standing_slabs;
mod table;
mod unused;

pub use cache_slabs::CacheSlabs;
pub use placed::Placed;
pub use standing::Standing;
pub use table::HeapSlabs;
