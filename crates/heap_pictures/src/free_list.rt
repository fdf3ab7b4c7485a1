use umem_base::Sequence;

/// The list of the slab at a base: the numbers of its free chunks that stand in no magazine, rising.
#[derive(Clone, Debug, Drop, PartialEq, Eq)]
pub struct FreeList {
    pub base: u64,
    pub chunks: Sequence<u32>,
}
