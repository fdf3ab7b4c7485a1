/// What an allocation asks of a cache: the slot that gets the address, the number of the cache, the bytes, and whether
/// they are to be zero.
#[derive(Clone, Copy, Debug, PartialEq, Eq)]
pub struct ChunkRequest {
    pub slot: u32,
    pub cache: u32,
    pub size: u32,
    pub zero: bool,
}
