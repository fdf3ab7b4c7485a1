ghost use Rattle.std.specs.Prelude.{◌≡◌, ◌++◌, [], IfOk, OnOk, filter, if◌then◌else◌};
ghost use Rattle.std.specs.List.{flat_map};
ghost use Rattle.dcmd.specs.Walks.{address_line, cache_walk, is_of_cache, walk_text};

use crate::column::Column::Hex;
use crate::lines::put_line;
use crate::names::cache_with_address;
use heap_view::{Buffer, View};
use std::alloc::Global;
use umem_base::{NoMemory, Text, put_hex};

fn is_of_cache(cache: u32, buffer: &Buffer) -> bool
    ensures { result ≡ is_of_cache cache buffer.now }
{
    match buffer.cache {
        Some(own) => own == cache,
        None => false,
    }
}

/// Appends the line of a buffer.
#[inline(always)]
fn put_address(out: &mut Text, buffer: &Buffer) -> Result<(), NoMemory>
    ensures { OnOk result (out.new ≡ out.old ++ address_line buffer.now) }
{
    put_line(out, Hex(buffer.address), &[])
}

/// Appends the line of a buffer if it is a chunk of the cache.
fn put_chunk_of(out: &mut Text, cache: u32, buffer: &Buffer) -> Result<(), NoMemory>
    ensures { OnOk result
        (out.new ≡ out.old ++ (if is_of_cache cache buffer.now then address_line buffer.now else [])) }
{
    if is_of_cache(cache, buffer) {
        put_address(out, buffer)?;
    }
    Ok(())
}

/// Appends the line of each buffer.
fn put_all(out: &mut Text, buffers: &[Buffer]) -> Result<(), NoMemory>
    ensures { OnOk result (out.new ≡ out.old ++ flat_map address_line buffers.now) }
{
    for buffer in buffers {
        put_address(out, buffer)?;
    }
    Ok(())
}

/// Appends the line of each chunk of the cache.
fn put_chunks_of(out: &mut Text, cache: u32, buffers: &[Buffer]) -> Result<(), NoMemory>
    ensures { OnOk result
        (out.new ≡ out.old ++ flat_map address_line (filter (is_of_cache cache) buffers.now)) }
{
    for buffer in buffers {
        put_chunk_of(out, cache, buffer)?;
    }
    Ok(())
}

fn put_no_cache(out: &mut Text, address: u64) -> Result<(), NoMemory>
    ensures { OnOk result (out.new ≡ out.old ++ cache_walk address [] None) }
{
    put_hex(out, address, 0)?;
    out.push_slice(b": no such cache\n")
}

/// Appends the lines of the chunks of the cache that has the address.
fn put_cache_walk(
    out: &mut Text,
    address: u64,
    buffers: &[Buffer],
    cache: Option<u32>,
) -> Result<(), NoMemory>
    ensures { OnOk result (out.new ≡ out.old ++ cache_walk address buffers.now cache) }
{
    match cache {
        None => put_no_cache(out, address),
        Some(cache) => put_chunks_of(out, cache, buffers),
    }
}

/// What `::walk` answers over these buffers.
pub(crate) fn walk_text(
    alloc: Global,
    view: &View,
    buffers: &[Buffer],
    cache: Option<u64>,
) -> Result<Text, NoMemory>
    ensures { IfOk result (λ text. text ≡ walk_text view.now buffers.now cache) }
{
    let mut out = Text::new(alloc);
    match cache {
        None => put_all(&mut out, buffers)?,
        Some(address) => {
            let cache = cache_with_address(view.core(), address);
            put_cache_walk(&mut out, address, buffers, cache)?;
        }
    }
    Ok(out)
}
