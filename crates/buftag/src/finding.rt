/// The first rule that a chunk breaks, as umem_debug(3MALLOC) tells of them.
#[derive(Clone, Copy, Debug, PartialEq, Eq)]
pub enum Finding {
    /// A free chunk was written to: the offset in bytes of the first word that is not the pattern.
    Content(u32),
    /// The redzone word was written to.
    Redzone,
    /// The redzone word tells no size of the chunk's class.
    SizeCode,
    /// The byte behind the requested size was written to.
    GuardByte,
    /// The bufctl word or bxstat was written to, or is that of the other state.
    BadTag,
    /// A free object without a tag is not as its constructor left it: the offset in bytes of the first byte
    /// that differs. `first_unconstructed` tells it.
    Unconstructed(u32),
}
