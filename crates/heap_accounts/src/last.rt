use crate::fresh::Fresh;
use plain_heap::Reply;

/// What a commit of an allocation by whatever is left gives: the call was made and answered, with a slab that was made
/// for it, if one was; or the call is not the thread's next one, or of another kind.
#[derive(Debug, Drop)]
pub enum Last {
    Made { reply: Reply, fresh: Option<Fresh> },
    Behind,
}
