use umem_base::Sequence;

/// What the chunks of a group have in common.
#[derive(Debug, Drop, PartialEq, Eq, Hash)]
pub struct Usage {
    /// The bytes of a buffer of their cache.
    pub size: u64,
    /// The frames of the call that gave each, innermost first.
    pub stack: Sequence<u64>,
}
