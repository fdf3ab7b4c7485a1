ghost use Rattle.std.specs.Prelude.{◌≡◌, ℕ, [], ◌∷◌, ◌++◌, if◌then◌else◌, ◌<◌, ◌+◌, Bool, IfOk, OnOk, length, map, All, Contains, not};
ghost use Rattle.std.specs.List.Sorted.{IsNonDecreasing};
ghost use Rattle.core_format.specs.Chunks.{allocated_in, free_in, is_chunk_in, is_held};
ghost use Rattle.heap_view.specs.Buffers.{buffers_of, chunk_buffer, chunk_buffers, chunks_of, free_buffers_of, large_buffer, slab_buffers};
ghost use Rattle.heap_view.specs.Layout.{IsLaidOut, IsShapeIn, IsSoundSlab, core_geometry, geometries_of};
ghost use Rattle.heap_view.specs.View.{AreThose, is_in_state};

use crate::buffer::Buffer;
use crate::numbers::has_number;
use bitflags::Flags;
use case_table::{Geometry, geometry};
use core_format::{Core, LargeItem, SlabItem};
use std::alloc::Global;
use umem_base::NoMemory;
use umem_options::DebugFlags;

/// The quantities of the slabs of a cache, by its index.
pub fn geometry_in(core: &Core, cache: u32) -> Geometry
    requires laid_out { IsLaidOut core.now }
    requires within { cache < length core.now.caches }
    ensures value { result ≡ core_geometry core.now cache }
    ensures shape { IsShapeIn core.now cache result }
{
    let def = &core.caches.as_slice()[cache as usize].def;
    geometry(def.size, def.align, core.flags.contains(DebugFlags::GUARDS))
}

/// The quantities of the slabs of each cache, by their indices.
pub fn geometries_of(alloc: Global, core: &Core) -> Result<Vec<Geometry>, NoMemory>
    requires { IsLaidOut core.now }
    ensures { IfOk result (λ geometries. geometries.items ≡ geometries_of core.now) }
{
    let guards = core.flags.contains(DebugFlags::GUARDS);
    let mut geometries = Vec::new(alloc);
    for item in core.caches.as_slice() {
        geometries.push(geometry(item.def.size, item.def.align, guards))?;
    }
    Ok(geometries)
}

/// The buffer that a chunk of a slab is.
fn chunk_buffer(core: &Core, slab: &SlabItem, geometry: &Geometry, index: u32) -> Buffer
    requires laid_out { IsLaidOut core.now }
    requires slab { IsSoundSlab core.now slab.now }
    requires shape { IsShapeIn core.now slab.now.cache geometry.now }
    requires within { index < geometry.now.rounds }
    ensures { result ≡ chunk_buffer core.now slab.now (slab.now.first + index) }
{
    // The numbers of chunks are below it, so that each has 32 bits.
    let _next = core.next_chunk;
    let def = &core.caches.as_slice()[slab.cache as usize].def;
    let offset = slab.colour + index * geometry.chunk;
    Buffer {
        address: slab.base + u64::from(offset),
        size: u64::from(def.size),
        cache: Some(slab.cache),
        chunk: Some(slab.first + index),
    }
}

/// Tells whether a chunk is wanted, of which it is known whether it stands in a list or a magazine.
fn is_wanted(is_held: bool, is_free: bool) -> bool
    ensures { result ≡ (if is_free then is_held else not is_held) }
{
    if is_free { is_held } else { !is_held }
}

/// Appends a buffer if it is wanted.
fn put_if(out: &mut Vec<Buffer>, buffer: Buffer, is_wanted: bool) -> Result<(), NoMemory>
    ensures { OnOk result (out.new.items ≡ out.old.items ++ (if is_wanted then buffer ∷ [] else [])) }
{
    if is_wanted {
        out.push(buffer)?;
    }
    Ok(())
}

/// Appends the chunks of a slab that are free, or those that are allocated.
fn put_slab(
    out: &mut Vec<Buffer>,
    core: &Core,
    slab: &SlabItem,
    held: &[u32],
    is_free: bool,
) -> Result<(), NoMemory>
    requires laid_out { IsLaidOut core.now }
    requires slab { Contains core.now.slabs slab.now }
    requires held { AreThose (is_held core.now) held.now }
    ensures { OnOk result (out.new.items
        ≡ out.old.items ++ slab_buffers core.now (is_in_state core.now is_free) slab.now) }
{
    let _next = core.next_chunk;
    let geometry = geometry_in(core, slab.cache);
    for index in 0..geometry.rounds {
        let buffer = chunk_buffer(core, slab, &geometry, index);
        let is_held = has_number(held, slab.first + index);
        put_if(out, buffer, is_wanted(is_held, is_free))?;
    }
    Ok(())
}

/// The chunks that are free, or those that are allocated, slab by slab.
fn chunk_buffers(
    alloc: Global,
    core: &Core,
    held: &[u32],
    is_free: bool,
) -> Result<Vec<Buffer>, NoMemory>
    requires laid_out { IsLaidOut core.now }
    requires held { AreThose (is_held core.now) held.now }
    ensures { IfOk result (λ out. out.items ≡ chunk_buffers core.now (is_in_state core.now is_free)) }
{
    let mut out = Vec::new(alloc);
    for slab in core.slabs.as_slice() {
        put_slab(&mut out, core, slab, held, is_free)?;
    }
    Ok(out)
}

/// Appends the large buffers.
fn put_large(out: &mut Vec<Buffer>, large: &[LargeItem]) -> Result<(), NoMemory>
    ensures { OnOk result (out.new.items ≡ out.old.items ++ map large_buffer large.now) }
{
    for item in large {
        out.push(Buffer {
            address: item.base,
            size: item.size,
            cache: None,
            chunk: None,
        })?;
    }
    Ok(())
}

/// The allocated buffers by rising address.
pub fn allocated_by_address(
    alloc: Global,
    core: &Core,
    held: &[u32],
) -> Result<Vec<Buffer>, NoMemory>
    requires laid_out { IsLaidOut core.now }
    requires held { AreThose (is_held core.now) held.now }
    ensures { IfOk result (λ buffers. buffers.items ≡ buffers_of core.now) }
{
    let mut buffers = chunk_buffers(alloc, core, held, false)?;
    put_large(&mut buffers, core.large.as_slice())?;
    buffers.sort_by_key(|buffer| buffer.address)?;
    Ok(buffers)
}

/// The free chunks by rising address.
pub fn free_by_address(alloc: Global, core: &Core, held: &[u32]) -> Result<Vec<Buffer>, NoMemory>
    requires laid_out { IsLaidOut core.now }
    requires held { AreThose (is_held core.now) held.now }
    ensures { IfOk result (λ buffers. buffers.items ≡ free_buffers_of core.now) }
{
    let mut buffers = chunk_buffers(alloc, core, held, true)?;
    buffers.sort_by_key(|buffer| buffer.address)?;
    Ok(buffers)
}

/// Appends the numbers of the chunks of a slab.
fn put_chunks(out: &mut Vec<u32>, core: &Core, slab: &SlabItem) -> Result<(), NoMemory>
    requires laid_out { IsLaidOut core.now }
    requires slab { IsSoundSlab core.now slab.now }
    ensures { OnOk result (out.new.items ≡ out.old.items ++ chunks_of core.now slab.now) }
{
    let _next = core.next_chunk;
    let geometry = geometry_in(core, slab.cache);
    for index in 0..geometry.rounds {
        out.push(slab.first + index)?;
    }
    Ok(())
}

/// The numbers of all chunks.
pub fn all_chunks(alloc: Global, core: &Core) -> Result<Vec<u32>, NoMemory>
    requires { IsLaidOut core.now }
    ensures { IfOk result (λ chunks. AreThose (is_chunk_in core.now) chunks.items) }
{
    let mut chunks = Vec::new(alloc);
    for slab in core.slabs.as_slice() {
        put_chunks(&mut chunks, core, slab)?;
    }
    chunks.sort_unstable();
    Ok(chunks)
}
