use plain_heap::Reply;

/// What a commit gives: the call was made and answered, or it is not the thread's next one, or of another kind.
#[derive(Clone, Copy, Debug, PartialEq, Eq)]
pub enum Turn {
    Made(Reply),
    Behind,
}
