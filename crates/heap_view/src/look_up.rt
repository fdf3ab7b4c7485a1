ghost use Rattle.std.specs.Prelude.{◌≡◌, ◌<◌, ◌*◌, ◌+◌, ◌^◌, ◌≤◌, IfSome, length, slice_get, option_and_then, drop};
ghost use Rattle.std.specs.List.Sorted.{IsNonDecreasingBy};
ghost use Rattle.std.specs.Option.{option_map};
ghost use Rattle.core_format.specs.declared.items.LargeItem.{LargeItem as SeenLarge};
ghost use Rattle.core_format.specs.declared.items.SlabItem.{SlabItem as SeenSlab};
ghost use Rattle.core_format.specs.Chunks.{core_shapes};
ghost use Rattle.core_format.specs.Slabs.{slab_end};
ghost use Rattle.heap_view.specs.Hits.{chunk_at_address, hit_in_arena, hit_in_large, hit_in_slab, hit_of, is_in_pages, word_in_page};
ghost use Rattle.heap_view.specs.Layout.{IsLaidOut, IsShapeIn, IsSoundLarge, IsSoundSlab, geometries_of};
ghost use Rattle.heap_view.specs.Memory.{core_bytes_from, large_at, large_bytes_from, slab_at};
ghost use Rattle.heap_view.specs.Search.{IsCut};

use crate::hit::Hit;
use case_table::Geometry;
use core_format::{Core, LargeItem, SlabItem};
use umem_base::{OWN_ROOTS, PAGE_BYTES, SHARED_ROOT, pages_for};

/// How many of the slabs begin at the address or below.
fn count_slabs(slabs: &[SlabItem], address: u64) -> usize
    requires { IsNonDecreasingBy (λ (slab : SeenSlab). slab.base) slabs.now }
    ensures { IsCut (λ (slab : SeenSlab). slab.base) slabs.now address result }
{
    slabs.partition_point(|slab| slab.base <= address)
}

/// How many of the large buffers do.
fn count_large(large: &[LargeItem], address: u64) -> usize
    requires { IsNonDecreasingBy (λ (item : SeenLarge). item.base) large.now }
    ensures { IsCut (λ (item : SeenLarge). item.base) large.now address result }
{
    large.partition_point(|item| item.base <= address)
}

/// The index of the slab that has the address. It looks among the slabs by halves.
pub fn slab_at(core: &Core, address: u64) -> Option<usize>
    requires { IsLaidOut core.now }
    ensures within { IfSome result (λ index. index < length core.now.slabs) }
    ensures slab { option_and_then (slice_get core.now.slabs) result ≡ slab_at core.now address }
{
    let slabs = core.slabs.as_slice();
    let index = count_slabs(slabs, address);
    if index == 0 {
        return None;
    }
    let slab = &slabs[index - 1];
    let bytes = slab.bytes.as_slice().len() as u64;
    (address - slab.base < bytes).then_some(index - 1)
}

/// The index of the large buffer whose pages have the address. It looks among them by halves.
pub fn large_at(core: &Core, address: u64) -> Option<usize>
    requires { IsLaidOut core.now }
    ensures within { IfSome result (λ index. index < length core.now.large) }
    ensures large { option_and_then (slice_get core.now.large) result ≡ large_at core.now address }
{
    let large = core.large.as_slice();
    let index = count_large(large, address);
    if index == 0 {
        return None;
    }
    let item = &large[index - 1];
    (address - item.base < PAGE_BYTES * pages_for(item.size)).then_some(index - 1)
}

/// What stands at an address of a slab.
fn hit_in_slab(core: &Core, slab: &SlabItem, geometry: &Geometry, address: u64) -> Hit
    requires slab { IsSoundSlab core.now slab.now }
    requires shape { IsShapeIn core.now slab.now.cache geometry.now }
    requires from { slab.now.base ≤ address }
    requires within { address < slab_end (core_shapes core.now) slab.now }
    ensures { result ≡ hit_in_slab core.now address slab.now }
{
    // The numbers of chunks are below it, so that each has 32 bits.
    let _next = core.next_chunk;
    let size = u64::from(core.caches.as_slice()[slab.cache as usize].def.size);
    let chunk_bytes = u64::from(geometry.chunk);
    let place = address - slab.base;
    let colour = u64::from(slab.colour);
    if place < colour {
        return Hit::Slab { cache: slab.cache };
    }
    let index = (place - colour) / chunk_bytes;
    let offset = (place - colour) % chunk_bytes;
    if index < u64::from(geometry.rounds) && offset < size {
        Hit::Chunk {
            chunk: slab.first + index as u32,
            offset,
        }
    } else {
        Hit::Slab { cache: slab.cache }
    }
}

/// What stands at an address of a large buffer's pages.
fn hit_in_large(item: &LargeItem, address: u64) -> Hit
    requires { item.now.base ≤ address }
    ensures { result ≡ hit_in_large address item.now }
{
    let offset = address - item.base;
    if offset < item.size {
        Hit::Large {
            base: item.base,
            offset,
        }
    } else {
        Hit::Tail { base: item.base }
    }
}

/// What stands at an address of no slab.
fn large_hit_at(core: &Core, address: u64) -> Option<Hit>
    requires { IsLaidOut core.now }
    ensures { result ≡ option_map (hit_in_large address) (large_at core.now address) }
{
    match large_at(core, address) {
        Some(index) => Some(hit_in_large(&core.large.as_slice()[index], address)),
        None => None,
    }
}

/// What stands at an address of the arena.
fn hit_in_arena(core: &Core, geometries: &[Geometry], address: u64) -> Option<Hit>
    requires laid_out { IsLaidOut core.now }
    requires geometries { geometries.now ≡ geometries_of core.now }
    ensures { result ≡ hit_in_arena core.now address }
{
    match slab_at(core, address) {
        Some(index) => {
            let slab = &core.slabs.as_slice()[index];
            let geometry = &geometries[slab.cache as usize];
            Some(hit_in_slab(core, slab, geometry, address))
        }
        None => large_hit_at(core, address),
    }
}

/// Tells whether one of so many pages from `base` on has the address.
fn is_in_pages(base: u64, pages: u64, address: u64) -> bool
    requires low { base < 2 ^ 32 }
    requires few { pages < 2 ^ 32 }
    ensures { result ≡ is_in_pages base pages address }
{
    base <= address && address < base + PAGE_BYTES * pages
}

/// The number of the word of a page that has the address.
fn word_in_page(address: u64) -> u32
    ensures { result ≡ word_in_page address }
{
    (address % PAGE_BYTES / 8) as u32
}

/// What stands at an address. It is given the quantities of the slabs of each cache.
pub fn hit_at(core: &Core, geometries: &[Geometry], address: u64) -> Option<Hit>
    requires laid_out { IsLaidOut core.now }
    requires geometries { geometries.now ≡ geometries_of core.now }
    ensures { result ≡ hit_of core.now address }
{
    if is_in_pages(SHARED_ROOT, 1, address) {
        return Some(Hit::Root {
            word: word_in_page(address),
        });
    }
    let own = core.own.as_slice().len() as u64;
    if is_in_pages(OWN_ROOTS, own, address) {
        return Some(Hit::OwnRoot {
            thread: ((address - OWN_ROOTS) / PAGE_BYTES) as u32,
            word: word_in_page(address),
        });
    }
    hit_in_arena(core, geometries, address)
}

fn bytes_behind(bytes: &[u8], offset: u64) -> &[u8]
    requires { offset ≤ length bytes.now }
    ensures { result.now ≡ drop offset bytes.now }
{
    &bytes[offset as usize..]
}

/// The bytes of a large buffer's pages from the address on, if one has it.
fn large_bytes_from(core: &Core, address: u64) -> &[u8]
    requires { IsLaidOut core.now }
    ensures { result.now ≡ large_bytes_from core.now address }
{
    match large_at(core, address) {
        Some(index) => {
            let item = &core.large.as_slice()[index];
            bytes_behind(item.bytes.as_slice(), address - item.base)
        }
        None => &[],
    }
}

/// The bytes from the address on, to the end of its slab or of its large buffer's pages.
pub fn bytes_from(core: &Core, address: u64) -> &[u8]
    requires { IsLaidOut core.now }
    ensures { result.now ≡ core_bytes_from core.now address }
{
    match slab_at(core, address) {
        Some(index) => {
            let slab = &core.slabs.as_slice()[index];
            bytes_behind(slab.bytes.as_slice(), address - slab.base)
        }
        None => large_bytes_from(core, address),
    }
}
