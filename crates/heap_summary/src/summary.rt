/// What a run did, and what lives at its end.
#[derive(Clone, Copy, Debug, PartialEq, Eq)]
pub struct Summary {
    /// How many allocations were answered with an address.
    pub allocs: u64,
    /// How many frees were answered `ok`.
    pub frees: u64,
    /// How many buffers live.
    pub live: u64,
    /// How many bytes were requested for these, together.
    pub bytes: u64,
    /// How many slabs were made.
    pub grows: u64,
}
