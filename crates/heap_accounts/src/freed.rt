use plain_heap::Reply;
use slab_layer::Round;

/// What a commit of a free gives: the call was made and answered, and the round of the chunk comes back that was freed,
/// if one was; or the call is not the thread's next one, or of another kind.
#[derive(Debug, PartialEq, Eq, Drop)]
pub enum Freed {
    Made { reply: Reply, round: Option<Round> },
    Behind,
}
