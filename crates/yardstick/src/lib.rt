//! A slow and plain measure of histories: the first entry that is not legal, the buffers that live, and the byte at
//! each address.
#![tactic(auto)]

mod ask;
mod bytes;
mod caches;
mod chunks;
mod frees;
mod kept;
mod legal;
mod live_buffer;
mod pages;
mod replies;
mod setting;
mod slab;
mod slabs;
mod steps;
mod write;

pub use ask::{byte_at, first_illegal, live_buffers};
pub use kept::MOST_ENTRIES;
pub use live_buffer::LiveBuffer;
