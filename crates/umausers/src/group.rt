use umem_base::Sequence;

/// From so many bytes on, a group is listed also where not all groups are asked for. The threshold is this project's
/// own.
pub const LARGE_TOTAL: u64 = 8192;

/// From so many chunks on, it is listed too.
pub const LARGE_COUNT: u64 = 100;

/// The allocated chunks of one size that calls with one stack were given, as `::umausers` of mdb(1) tells them.
#[derive(Debug, Drop, PartialEq, Eq)]
pub struct Group {
    /// The bytes of all its buffers.
    pub total: u64,
    /// How many chunks it has.
    pub count: u64,
    /// The bytes of each buffer: those of its cache's.
    pub size: u64,
    /// The frames of the calls, innermost first.
    pub stack: Sequence<u64>,
}
