use heap_memory::Chunk;

/// A chunk of a slab that stands, and the cache of that slab.
#[derive(Clone, Copy, Debug, PartialEq, Eq)]
pub struct Placed {
    pub chunk: Chunk,
    pub cache: u32,
}
