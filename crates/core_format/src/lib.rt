//! The core file of a heap, in both versions: what it holds, how it is spelled, and the first fault of any
//! bytes that are none.
#![tactic(auto)]

mod cache_numbers;
mod cache_shape;
mod core_fault;
mod fault;
mod header;
mod items;
mod large_table;
pub mod laws;
mod limits;
mod parts;
mod put_caches;
mod put_header;
mod put_items;
mod put_pages;
mod range;
mod ranges;
mod read;
mod read_caches;
mod read_header;
mod read_large;
mod read_logs;
mod read_magazines;
mod read_pages;
mod read_segments;
mod read_slabs;
mod read_words;
mod reader;
mod seen;
mod slab_table;
mod spell;
mod whole;
mod write;

pub use core_fault::CoreFault;
pub use fault::Fault;
pub use items::{AuditItem, CacheItem, CpuPlace, DepotItem, LargeItem, OwnRoot, SlabItem};
pub use read::read_core;
pub use whole::Core;
pub use write::write_core;
