use heap_memory::ChunkKind;

/// What the slabs of a cache are made of: the kind of their chunks and what the addresses of these are multiples of;
/// and how many slabs the cache ever made.
#[derive(Clone, Copy, Debug, PartialEq, Eq)]
pub struct CacheSlabs {
    pub kind: ChunkKind,
    pub align: u32,
    pub made: u32,
}
