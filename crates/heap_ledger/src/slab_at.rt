/// A slab of a heap, by the number of its cache and the address of its first page. They are ordered by cache, and then
/// by base.
#[derive(Clone, Copy, Debug, PartialEq, Eq, PartialOrd, Ord)]
pub struct SlabAt {
    pub cache: u32,
    pub base: u64,
}
