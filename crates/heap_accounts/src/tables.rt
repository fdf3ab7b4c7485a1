use heap_memory::Memory;
use heap_slabs::HeapSlabs;
use plain_heap::Live;

/// The tables of a history: its bytes and pages, its live buffers, and its slabs.
#[derive(Drop)]
pub struct Tables {
    pub memory: Memory,
    pub live: Live,
    pub slabs: HeapSlabs,
}
