use slab_layer::Round;

/// What a free finds at its CPU: room for its round, or that an empty magazine is wanted, with the round.
#[derive(Debug, PartialEq, Eq, Drop)]
pub enum Room {
    Kept,
    WantEmpty(Round),
}
