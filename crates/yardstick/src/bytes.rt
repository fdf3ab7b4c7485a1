//! The bytes that writes left.

ghost use Rattle.std.specs.Prelude.{◌≡◌, ◌+◌, ◌-◌, ◌<◌, ◌^◌, Some, None, IfOk, slice_index, if◌then◌else◌};
ghost use Rattle.plain_heap.specs.Bytes.{bytes_from, is_within, word_at};
ghost use Rattle.plain_heap.specs.State.{made_byte};
ghost use Rattle.yardstick.specs.Kept.{byte_of_write, bytes_written};

use crate::caches::geometry_of;
use crate::chunks::made_chunk_byte;
use crate::setting::Setting;
use crate::slab::HeapSlab;
use crate::slabs::{chunk_index, start_of};
use crate::write::Write;
use std::alloc::Global;
use umem_base::{NoMemory, PAGE_BYTES};

/// The place of an address among so many bytes from a base on, if it is one of them.
pub fn offset_in(base: u128, count: u64, address: u128) -> Option<u64>
    ensures { result ≡ (if is_within base count address then Some (address - base) else None) }
{
    let offset = address.checked_sub(base)?;
    if offset < u128::from(count) {
        Some(offset as u64)
    } else {
        None
    }
}

/// The byte at a place of a list, and 0 behind its end.
fn byte_in(bytes: &[u8], place: u64) -> u8
    ensures { result ≡ slice_index bytes.now place }
{
    bytes.get(place as usize).copied().unwrap_or(0)
}

/// The byte at an address of a slab that was just made.
fn byte_when_made(setting: &Setting, slab: &HeapSlab, at: u128) -> u8
    ensures { result ≡ made_byte setting.now slab.now at }
{
    match chunk_index(setting, slab, at) {
        Some(index) => {
            let place = (at - start_of(setting, slab, index)) as u64;
            made_chunk_byte(setting, slab.cache(), slab.first() + index, place)
        }
        None => 0,
    }
}

/// The byte that a write left at an address, if it wrote there.
fn byte_of_write(setting: &Setting, write: &Write, at: u128) -> Option<u8>
    ensures { result ≡ byte_of_write setting.now write.now at }
{
    match write {
        Write::Word { at: from, word } => {
            Some(byte_in(&word.to_le_bytes(), offset_in(*from, 8, at)?))
        }
        Write::Zeros { at: from, count } => {
            offset_in(*from, *count, at)?;
            Some(0)
        }
        Write::Stored { at: from, bytes } => {
            let bytes = bytes.as_slice();
            Some(byte_in(bytes, offset_in(*from, bytes.len() as u64, at)?))
        }
        Write::Made { slab } => {
            let pages = geometry_of(setting, slab.cache()).pages;
            offset_in(u128::from(slab.base()), PAGE_BYTES * u64::from(pages), at)?;
            Some(byte_when_made(setting, slab, at))
        }
    }
}

/// The byte at an address, by the newest write that wrote there.
pub fn byte_left(setting: &Setting, writes: &[Write], at: u128) -> u8
    ensures { result ≡ bytes_written setting.now writes.now at }
{
    for write in writes {
        if let Some(byte) = byte_of_write(setting, write, at) {
            return byte;
        }
    }
    0
}

/// So many bytes from an address on.
pub fn bytes_left(
    alloc: Global,
    setting: &Setting,
    writes: &[Write],
    at: u128,
    count: u32,
) -> Result<Vec<u8>, NoMemory>
    requires { at + count < 2 ^ 128 }
    ensures { IfOk result (λ bytes. bytes.items ≡ bytes_from (bytes_written setting.now writes.now) at count) }
{
    let mut bytes = Vec::new(alloc);
    for k in 0..count {
        bytes.push(byte_left(setting, writes, at + u128::from(k)))?;
    }
    Ok(bytes)
}

/// The word at an address.
pub fn word_left(setting: &Setting, writes: &[Write], at: u128) -> u64
    requires { at + 8 < 2 ^ 128 }
    ensures { result ≡ word_at (bytes_written setting.now writes.now) at }
{
    u64::from_le_bytes([
        byte_left(setting, writes, at),
        byte_left(setting, writes, at + 1),
        byte_left(setting, writes, at + 2),
        byte_left(setting, writes, at + 3),
        byte_left(setting, writes, at + 4),
        byte_left(setting, writes, at + 5),
        byte_left(setting, writes, at + 6),
        byte_left(setting, writes, at + 7),
    ])
}
