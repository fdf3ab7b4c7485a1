use crate::patterns::{ALLOCATED_MARK, FREE_MARK};

/// Whether a chunk is allocated or free.
#[derive(Clone, Copy, Debug, PartialEq, Eq)]
pub enum State {
    Allocated,
    Free,
}

impl State {
    ghost use Rattle.std.specs.Prelude.{◌≡◌};
    ghost use Rattle.buftag.specs.Written.{mark_of};

    /// By what bxstat differs from the bufctl word.
    pub(crate) fn mark(self) -> u64
        ensures { result ≡ mark_of self }
    {
        match self {
            State::Allocated => ALLOCATED_MARK,
            State::Free => FREE_MARK,
        }
    }
}
