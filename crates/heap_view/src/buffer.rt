/// What a program was given, or can be given: a chunk of a slab, or a large buffer, which has neither number.
#[derive(Clone, Copy, Debug, PartialEq, Eq)]
pub struct Buffer {
    pub address: u64,
    /// Its bytes: those of its cache's buffers, or those that were asked for.
    pub size: u64,
    /// The index of its cache.
    pub cache: Option<u32>,
    pub chunk: Option<u32>,
}
