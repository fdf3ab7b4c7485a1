/// What a call asks for, by its operation alone, and so which commit makes it.
#[derive(Clone, Copy, Debug, PartialEq, Eq)]
pub enum Asked {
    /// Nothing is handed out or given back: `commit_plain`.
    Plain,
    /// Whole pages: `commit_large`.
    Large,
    /// A chunk of a cache: `commit_alloc`, `commit_grow` or `commit_last`.
    Chunk { cache: u32 },
    /// A buffer is given back: `commit_free`.
    Free,
    /// `commit_reap`.
    Reap,
}
