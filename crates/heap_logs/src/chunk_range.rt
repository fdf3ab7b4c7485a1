/// The chunks of a slab: the number of its first, and how many it has.
#[derive(Clone, Copy, Debug, PartialEq, Eq)]
pub struct ChunkRange {
    pub first: u32,
    pub count: u32,
}
