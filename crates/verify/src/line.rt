use buftag::{Finding, State};

/// What is wrong with a chunk, after the lines of `::umem_verify` in mdb(1). That each damaged chunk has a line,
/// and no line tells of a whole cache, is this project's own.
#[derive(Clone, Copy, Debug, PartialEq, Eq)]
pub struct Line {
    /// The address of the chunk's buffer.
    pub address: u64,
    pub state: State,
    /// The index of its cache.
    pub cache: u32,
    pub finding: Finding,
}
