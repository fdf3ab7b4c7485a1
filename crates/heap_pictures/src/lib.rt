//! When a core pictures a run: what it tells of the run's entries, that such a core may be written, and how its items
//! are drawn from the accounts of the run.
#![tactic(auto)]

mod caches;
mod free_list;
mod free_places;
mod large;
pub mod laws;
mod roots;
mod slabs;

pub use caches::caches_of;
pub use free_list::FreeList;
pub use free_places::FreePlaces;
pub use large::large_items;
pub use roots::{own_items, shared_words};
pub use slabs::slab_items;
