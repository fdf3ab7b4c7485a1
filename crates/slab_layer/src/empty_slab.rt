use crate::round::Rounds;

/// A slab that was dropped: where it began, in bytes, and all of its rounds, by rising number.
#[derive(Debug, Drop)]
pub struct EmptySlab {
    pub base: u64,
    pub rounds: Rounds,
}
