//! Views of samples, and what tables tell of them.

use crate::cores::changes::{sides, write_at};
use crate::cores::pieces::put_hex;
use crate::cores::sample::core_bytes;
use crate::fault::SampleFault;
use core_format::read_core;
use heap_view::View;
use std::alloc::Global;
use umem_base::{ARENA_BASE, NoMemory, PAGE_BYTES, SHARED_ROOT, Text, read_hex};

/// A core, the bytes before its root segments, and the pages that its last bytes are, from the arena's base on.
#[derive(Clone, Copy)]
pub struct Sample {
    pub text: &'static str,
    pub header: u64,
    pub pages: u64,
}

/// Writes bytes at an address of a root segment or of the pages.
pub fn store(
    bytes: &mut [u8],
    sample: &Sample,
    address: u64,
    new: &[u8],
) -> Result<(), SampleFault> {
    let at = if address < ARENA_BASE {
        sample
            .header
            .wrapping_add(address)
            .wrapping_sub(SHARED_ROOT)
    } else {
        let start = (bytes.len() as u64).wrapping_sub(sample.pages.wrapping_mul(PAGE_BYTES));
        start.wrapping_add(address).wrapping_sub(ARENA_BASE)
    };
    write_at(bytes, at, new)
}

/// Stores bytes, each piece of which is named by its address.
pub fn overwrite(bytes: &mut Vec<u8>, sample: &Sample, words: &str) -> Result<(), SampleFault> {
    for word in words.split_whitespace() {
        let (address, digits) = sides(word)?;
        let mut piece = Vec::new(*bytes.allocator());
        put_hex(&mut piece, digits)?;
        store(bytes, sample, read_hex(address.as_bytes())?, &piece)?;
    }
    Ok(())
}

/// The view of a core that is read from bytes.
pub fn view_of(alloc: Global, bytes: &[u8]) -> Option<View> {
    match read_core(alloc, bytes) {
        Ok(core) => View::new(alloc, core).ok(),
        Err(_) => None,
    }
}

/// The view of a core that is written as a text.
pub fn view_of_text(alloc: Global, text: &str) -> Option<View> {
    view_of(alloc, &core_bytes(alloc, text).ok()?)
}

/// Puts a space, and an address in hexadecimal.
pub fn put_address(out: &mut Text, address: u64) -> Result<(), NoMemory> {
    out.push_slice(b" ")?;
    umem_base::put_hex(out, address, 0)
}
