//! The memory of a replayed heap: its root pages, and the pages of its slabs and large buffers, which hold what the
//! history of the heap left there.
#![tactic(auto)]

mod chunk;
mod chunk_bytes;
mod chunk_kind;
pub mod laws;
mod memory;
mod new_slab;
mod pages;
mod slots;

pub use chunk::Chunk;
pub use chunk_kind::ChunkKind;
pub use memory::Memory;
pub use new_slab::NewSlab;
