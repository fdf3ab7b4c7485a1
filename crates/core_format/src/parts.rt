use crate::header::{Header, SecondHeader};
use crate::items::{AuditItem, CacheItem, CpuPlace, DepotItem, LargeItem, OwnRoot};
use crate::slab_table::SlabTable;
use trans_log::{Fail, Saved, Trans};
use umem_base::Sequence;

/// The sections up to the caches.
#[derive(Drop)]
pub struct Front {
    pub header: Header,
    pub second: SecondHeader,
    pub root: Sequence<u64>,
    pub own: Sequence<OwnRoot>,
    pub caches: Sequence<CacheItem>,
}

/// The sections that say where chunks and large buffers stand, but for the bytes of their pages.
#[derive(Drop)]
pub struct Middle {
    pub table: SlabTable,
    pub large: Sequence<LargeItem>,
    pub cpu_places: Sequence<CpuPlace>,
    pub depots: Sequence<DepotItem>,
}

/// The audits and the logs.
#[derive(Drop)]
pub struct Records {
    pub audits: Sequence<AuditItem>,
    pub trans: Sequence<Trans>,
    pub fails: Sequence<Fail>,
    pub saved: Sequence<Saved>,
}
