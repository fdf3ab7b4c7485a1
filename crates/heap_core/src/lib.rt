//! The heap of one owner: books, and where each free chunk stands by the magazine rules.
#![tactic(auto)]

mod alone;
mod chunk_calls;
mod free_calls;
mod free_places;
mod heap;
mod plain_calls;
mod reap_calls;
mod shelves;

pub use alone::run_alone;
pub use heap::Heap;

#[cfg(test)]
mod trials;
