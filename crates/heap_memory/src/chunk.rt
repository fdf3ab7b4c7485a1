/// A chunk of a slab: where it begins, and its number.
#[derive(Clone, Copy, Debug, PartialEq, Eq)]
pub struct Chunk {
    pub address: u64,
    pub number: u32,
}
