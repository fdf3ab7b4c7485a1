/// A live buffer: the size that was requested, and the number of its cache, if it is of one.
#[derive(Clone, Copy, Debug, PartialEq, Eq)]
pub struct Held {
    pub size: u32,
    pub cache: Option<u32>,
}
