use core_format::read_core;
use heap_view::View;
use std::alloc::Global;

/// A view of the core that the bytes are.
pub fn view_of(alloc: Global, bytes: &[u8]) -> Option<View> {
    match read_core(alloc, bytes) {
        Ok(core) => View::new(alloc, core).ok(),
        Err(_) => None,
    }
}
