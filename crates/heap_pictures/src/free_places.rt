use crate::free_list::FreeList;
use core_format::{CpuPlace, DepotItem};
use umem_base::Sequence;

/// Where the free chunks of a heap stand, as a core has it.
#[derive(Clone, Debug, Drop, PartialEq, Eq)]
pub struct FreePlaces {
    /// One for each CPU and cache, the caches of a CPU together.
    pub cpu_places: Sequence<CpuPlace>,
    /// One for each cache.
    pub depots: Sequence<DepotItem>,
    /// One for each slab that stands, by rising base.
    pub lists: Sequence<FreeList>,
}
