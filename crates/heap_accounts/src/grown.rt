use crate::fresh::Fresh;
use plain_heap::Reply;

/// What a commit of an allocation from a cache by a new slab gives: the slab was made and the call was answered with
/// its first chunk; no run of its pages is free; or the call is not the thread's next one, or of another kind.
#[derive(Debug, Drop)]
pub enum Grown {
    Made { reply: Reply, fresh: Fresh },
    NoRun,
    Behind,
}
