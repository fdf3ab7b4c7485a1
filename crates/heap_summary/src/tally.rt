/// Sums over entries, none of which falls.
#[derive(Clone, Copy, Debug, PartialEq, Eq)]
pub struct Tally {
    /// How many buffers were handed out.
    pub allocs: u64,
    /// How many were given back.
    pub frees: u64,
    /// The requested bytes of those that were handed out.
    pub handed: u64,
    /// Those of the ones that were given back.
    pub back: u64,
    /// How many slabs were made.
    pub grows: u64,
}
