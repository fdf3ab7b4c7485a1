/// What an entry changes in the number of buffers or of slabs.
#[derive(Clone, Copy, Debug, PartialEq, Eq)]
pub enum Change {
    /// A buffer of so many requested bytes was handed out.
    HandedOut(u32),
    /// A buffer of so many requested bytes was given back.
    GivenBack(u32),
    /// A slab was made.
    Grown,
    /// None of these.
    Nothing,
}
