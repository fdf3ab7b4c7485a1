use slab_layer::Round;

/// What an allocation finds at its CPU: a round, or that a full magazine is wanted.
#[derive(Debug, PartialEq, Eq, Drop)]
pub enum Need {
    Got(Round),
    WantFull,
}
