use crate::live_buffer::LiveBuffer;
use crate::slab::HeapSlab;
use crate::write::Write;
use script::MOST_CALLS_2;

/// The entries of the longest history that is measured: three for each call of the longest script.
pub const MOST_ENTRIES: usize = 3 * MOST_CALLS_2 as usize;

/// What some entries left, in lists of which each has the newest first: the live buffers, the addresses that were ever
/// handed out, the slabs that stand, the cache of each slab ever made, and what was written.
#[derive(Drop)]
pub struct Kept {
    pub live: Vec<LiveBuffer>,
    pub given: Vec<u64>,
    pub slabs: Vec<HeapSlab>,
    pub grown: Vec<u32>,
    pub writes: Vec<Write>,
}
