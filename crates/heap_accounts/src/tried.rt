use plain_heap::Reply;

/// What a commit of an allocation from a cache by a round gives: the call was made and answered with the round's chunk;
/// it is not the thread's next one, or of another kind; or the round's chunk is no free one of the cache.
#[derive(Clone, Copy, Debug, PartialEq, Eq)]
pub enum Tried {
    Made(Reply),
    Behind,
    Taken,
}
