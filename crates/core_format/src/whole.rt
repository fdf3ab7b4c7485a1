use crate::items::{AuditItem, CacheItem, CpuPlace, DepotItem, LargeItem, OwnRoot, SlabItem};
use trans_log::{Fail, Saved, Trans};
use umem_base::Sequence;
use umem_options::DebugFlags;

/// What a core tells of a heap.
#[derive(Clone, Debug, Drop, PartialEq, Eq)]
pub struct Core {
    /// 1 or 2. A core of version 1 has no own segment, nothing saved and no constructor.
    pub version: u32,
    pub flags: DebugFlags,
    /// How many frames of a call's stack its items keep at most.
    pub frames: u32,
    /// How many bytes of a freed buffer were kept where the option was set.
    pub contents: u32,
    pub cpus: u32,
    pub trans_capacity: u32,
    pub fail_capacity: u32,
    pub contents_capacity: u32,
    /// The number that the next chunk gets.
    pub next_chunk: u32,
    /// How many entries the history has.
    pub entries: u64,
    /// The words of the segment that the threads share.
    pub root: Sequence<u64>,
    pub own: Sequence<OwnRoot>,
    pub caches: Sequence<CacheItem>,
    /// By rising base.
    pub slabs: Sequence<SlabItem>,
    /// By rising base.
    pub large: Sequence<LargeItem>,
    /// One for each CPU and cache, the caches of a CPU together.
    pub cpu_places: Sequence<CpuPlace>,
    /// One for each cache.
    pub depots: Sequence<DepotItem>,
    /// By rising chunk number.
    pub audits: Sequence<AuditItem>,
    /// The transaction log, oldest first.
    pub trans: Sequence<Trans>,
    /// The fail log, oldest first.
    pub fails: Sequence<Fail>,
    /// The contents log, oldest first.
    pub saved: Sequence<Saved>,
}
