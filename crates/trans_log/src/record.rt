use umem_base::{Sequence, Text};

/// What an allocation leaves that gave out a chunk, and a free that took one back, while audit is on. The
/// kinds are those that the transaction log of umem_debug(3MALLOC) tells apart.
#[derive(Clone, Debug, Drop, PartialEq, Eq)]
pub struct Trans {
    /// `ALLOCATION` or `FREE`.
    pub kind: u32,
    pub cpu: u32,
    pub thread: u32,
    /// The chunk's index among all chunks of the heap.
    pub chunk: u32,
    pub address: u64,
    /// The number of the entry of the history that made it.
    pub time: u64,
    /// The frames of the call, innermost first.
    pub stack: Sequence<u64>,
}

/// An allocation that found no space for a chunk, of a size class or of a declared cache. That a buffer of
/// whole pages leaves no such record is this project's own rule.
#[derive(Clone, Copy, Debug, PartialEq, Eq)]
pub struct Fail {
    pub thread: u32,
    /// The index of the cache.
    pub cache: u32,
    /// The bytes that were asked of a size class, or the size of a declared cache.
    pub size: u64,
    /// The number of the entry of the history that was answered so.
    pub time: u64,
}

/// What a contents log keeps of a buffer that was freed while audit is on.
#[derive(Clone, Debug, Drop, PartialEq, Eq)]
pub struct Saved {
    /// The number of the entry of the history that freed it.
    pub time: u64,
    /// The chunk's index among all chunks of the heap.
    pub chunk: u32,
    /// The first bytes that it had before.
    pub bytes: Text,
}
