/// What an allocation found in the bytes of the chunk that it hands out.
#[derive(Clone, Copy, Debug, PartialEq, Eq)]
pub enum Report {
    Clean,
    /// The free chunk was written to; the offset is that of the first wrong word.
    Modified(u32),
    /// The redzone or the tag of the free chunk was written to.
    Redzone,
}

/// What a call was answered with.
#[derive(Clone, Copy, Debug, PartialEq, Eq)]
pub enum Reply {
    Ok,
    /// The size is 0, or the slot's word is.
    Null,
    /// No chunk and no run of pages is free.
    NoSpace,
    /// The address of the new buffer.
    At { address: u64, report: Report },
    /// The buffer at that address was freed before.
    Dup,
    /// No buffer was ever handed out at that address.
    BadAddr,
    /// The buffer belongs to another cache.
    BadCache,
    /// The buffer was requested with another size.
    BadSize,
    /// The buffer's end was written to.
    Redzone,
    /// A byte of the range is not mapped.
    Fault,
    /// The word that was loaded.
    Word(u64),
}
