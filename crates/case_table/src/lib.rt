//! Records of any number of fields, tables of rules, and the numbers of the heap: the size classes, the quantities
//! of a cache's slabs, names, addresses and limits.
#![tactic(auto)]

mod addresses;
mod cache_def;
mod cache_name;
mod cases;
pub mod laws;
mod layout;
mod limits;
mod macros;
mod rule;
mod size_classes;
mod slab_formulas;
mod slab_quantities;

pub use addresses::{
    BUFCTL_STEP, BUFCTLS_BASE, CACHE_STEP, CACHES_BASE, bufctl_address, bufctl_chunk,
    cache_address, cache_at,
};
pub use cache_def::{CacheDef, class_def};
pub use cache_name::{
    CLASS_PREFIX, MOST_NAME_BYTES, OVERSIZE_NAME, is_cache_name, is_reserved_name, put_class_name,
};
pub use cases::{Cases, fact_if};
pub use layout::{Layout, Short};
pub use limits::{
    CLASS_COUNT, MOST_CACHE_BYTES, MOST_CACHES, MOST_CPUS, MOST_DECLARED, MOST_THREADS,
};
pub use rule::Rule;
pub use size_classes::{CLASS_ALIGN, SIZE_TABLE, class_of, class_size};
pub use slab_formulas::{
    ALIGNS, LARGE_CHUNK_ROUNDS, MIDDLING_CHUNK, MIDDLING_CHUNK_ROUNDS, SMALL_CHUNK,
    SMALL_CHUNK_ROUNDS, TAG_BYTES, colour, geometry, is_cache_shape,
};
pub use slab_quantities::Geometry;

#[cfg(test)]
mod tests;
