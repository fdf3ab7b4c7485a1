/// What stands at an address.
#[derive(Clone, Copy, Debug, PartialEq, Eq)]
pub enum Hit {
    /// A byte of a chunk's buffer, allocated or free, with its place in it.
    Chunk { chunk: u32, offset: u64 },
    /// A byte of a large buffer, with its place in it.
    Large { base: u64, offset: u64 },
    /// A byte of a large buffer's last page that was not asked for.
    Tail { base: u64 },
    /// A byte of a slab that is in no chunk's buffer.
    Slab { cache: u32 },
    /// A byte of a word that all threads share.
    Root { word: u32 },
    /// A byte of a thread's own word.
    OwnRoot { thread: u32, word: u32 },
}
