use case_table::CacheDef;
use umem_base::Sequence;

/// A cache, and how many slabs it ever made.
#[derive(Clone, Debug, Drop, PartialEq, Eq)]
pub struct CacheItem {
    pub def: CacheDef,
    pub grows: u32,
}

/// The own root segment of a thread: 512 words.
#[derive(Clone, Debug, Drop, PartialEq, Eq)]
pub struct OwnRoot {
    pub words: Sequence<u64>,
}

/// A slab.
#[derive(Clone, Debug, Drop, PartialEq, Eq)]
pub struct SlabItem {
    /// The address of its first page.
    pub base: u64,
    /// The index of its cache.
    pub cache: u32,
    /// Where its first chunk begins, in bytes from the base.
    pub colour: u32,
    /// The number of its first chunk; those of the others follow.
    pub first: u32,
    /// The numbers of the chunks that stand in its list, rising.
    pub free: Sequence<u32>,
    /// All bytes of its pages.
    pub bytes: Sequence<u8>,
}

/// A large buffer, which has whole pages of its own.
#[derive(Clone, Debug, Drop, PartialEq, Eq)]
pub struct LargeItem {
    pub base: u64,
    /// The bytes that were asked for.
    pub size: u64,
    /// All bytes of its pages.
    pub bytes: Sequence<u8>,
}

/// The two magazines that a CPU has for a cache, as the numbers of their chunks, the oldest first.
#[derive(Clone, Debug, Drop, PartialEq, Eq)]
pub struct CpuPlace {
    pub cpu: u32,
    pub cache: u32,
    pub loaded: Sequence<u32>,
    pub previous: Sequence<u32>,
}

/// The full magazines of a cache's depot, the oldest first.
#[derive(Clone, Debug, Drop, PartialEq, Eq)]
pub struct DepotItem {
    pub full: Sequence<Sequence<u32>>,
}

/// The last transaction of a chunk.
#[derive(Clone, Debug, Drop, PartialEq, Eq)]
pub struct AuditItem {
    pub chunk: u32,
    pub thread: u32,
    /// The number of the history's entry that made it.
    pub time: u64,
    /// The frames of the call, innermost first.
    pub stack: Sequence<u64>,
}
