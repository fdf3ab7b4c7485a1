/// A slab that stands: its cache, where its pages begin, the number of its first chunk and where that begins, the bytes
/// of a chunk, how many chunks it has, and how many of them live.
#[derive(Clone, Copy, Debug, PartialEq, Eq)]
pub struct Standing {
    pub cache: u32,
    pub base: u64,
    pub first: u32,
    pub start: u64,
    pub chunk: u32,
    pub rounds: u32,
    pub live: u32,
}
