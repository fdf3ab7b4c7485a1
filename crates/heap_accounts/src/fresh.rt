use slab_layer::Rounds;

/// A slab that was made for a call: where its pages begin, and all of its rounds by rising number, the first included,
/// whose chunk the call was answered with.
#[derive(Debug, Drop)]
pub struct Fresh {
    pub base: u64,
    pub rounds: Rounds,
}
