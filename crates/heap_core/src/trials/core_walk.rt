//! The core of a run, against the plain heap that made the same calls.

use crate::trials::fault::{TrialFault, holds};
use crate::trials::plain_places::{PlainCache, PlainCpu};
use crate::trials::plain_run::{PlainBuffer, PlainRun};
use core_format::{Core, CpuPlace, DepotItem, LargeItem, SlabItem};
use std::alloc::Global;
use umem_base::{NoMemory, Sequence};

/// A slab of a plain heap, and the number of its cache.
#[derive(Clone, Copy, PartialEq, Eq, PartialOrd, Ord)]
struct SlabName {
    base: u64,
    cache: u32,
    index: usize,
}

fn is_cpu(place: &CpuPlace, its: &PlainCpu) -> bool {
    place.loaded.as_slice() == its.loaded.as_slice()
        && place.previous.as_slice() == its.previous.as_slice()
}

/// Compares the magazines of a CPU for all caches, which stand behind those of the CPUs before it.
fn compare_cpu(core: &Core, run: &PlainRun, cpu: usize) -> Result<(), TrialFault> {
    let before = cpu.saturating_mul(run.caches.len());
    let places = core.cpu_places.as_slice();
    for (cache, its) in run.caches.iter().enumerate() {
        let place = places
            .get(before.saturating_add(cache))
            .ok_or(TrialFault::Differs("too few magazines", cache))?;
        let plain = its
            .cpus
            .get(cpu)
            .ok_or(TrialFault::Differs("too few CPUs", cpu))?;
        holds("the CPU of magazines", cpu, place.cpu as usize == cpu)?;
        holds(
            "the cache of magazines",
            cache,
            place.cache as usize == cache,
        )?;
        holds(
            "the magazines of a CPU for the cache",
            cache,
            is_cpu(place, plain),
        )?;
    }
    Ok(())
}

fn is_depot(item: &DepotItem, full: &[Vec<u32>]) -> bool {
    let told = item.full.as_slice();
    told.len() == full.len()
        && told
            .iter()
            .zip(full.iter())
            .all(|(told, plain)| told.as_slice() == plain.as_slice())
}

/// Compares the depots, and how many slabs each cache ever made.
fn compare_caches(core: &Core, run: &PlainRun) -> Result<(), TrialFault> {
    let depots = core.depots.as_slice();
    let caches = core.caches.as_slice();
    let count = run.caches.len();
    holds("the depots", depots.len(), depots.len() == count)?;
    holds("the caches", caches.len(), caches.len() == count)?;
    for (cache, its) in run.caches.iter().enumerate() {
        if let (Some(depot), Some(item)) = (depots.get(cache), caches.get(cache)) {
            holds("the depot of the cache", cache, is_depot(depot, &its.full))?;
            holds(
                "the slabs that the cache made",
                cache,
                item.grows == its.made,
            )?;
        }
    }
    Ok(())
}

/// Adds the slabs of a cache.
fn add_slabs(names: &mut Vec<SlabName>, cache: u32, its: &PlainCache) -> Result<(), NoMemory> {
    for (index, slab) in its.slabs.iter().enumerate() {
        names.push(SlabName {
            base: slab.base,
            cache,
            index,
        })?;
    }
    Ok(())
}

/// The slabs of a plain heap by rising base.
fn slabs_of(alloc: Global, run: &PlainRun) -> Result<Vec<SlabName>, NoMemory> {
    let mut names = Vec::new(alloc);
    let mut cache = 0_u32;
    for its in run.caches.iter() {
        add_slabs(&mut names, cache, its)?;
        cache = cache.saturating_add(1);
    }
    names.sort()?;
    Ok(names)
}

fn is_slab(item: &SlabItem, name: &SlabName, run: &PlainRun) -> bool {
    let Some(its) = run.caches.get(name.cache as usize) else {
        return false;
    };
    let Some(slab) = its.slabs.get(name.index) else {
        return false;
    };
    item.base == slab.base
        && item.cache == name.cache
        && item.colour == slab.colour
        && item.first == slab.first
        && item.free.as_slice() == slab.free.as_slice()
}

fn compare_slabs(alloc: Global, core: &Core, run: &PlainRun) -> Result<(), TrialFault> {
    let names = slabs_of(alloc, run)?;
    let items = core.slabs.as_slice();
    holds(
        "the slabs that stand",
        items.len(),
        items.len() == names.len(),
    )?;
    for (number, (item, name)) in items.iter().zip(names.iter()).enumerate() {
        holds("the slab", number, is_slab(item, name, run))?;
    }
    Ok(())
}

/// Tells whether a buffer of a plain heap is that large one.
fn is_large(buffer: &PlainBuffer, item: &LargeItem) -> bool {
    buffer.cache.is_none() && buffer.address == item.base && u64::from(buffer.size) == item.size
}

/// Compares the large buffers; that they are as many, the addresses of all buffers tell.
fn compare_large(core: &Core, run: &PlainRun) -> Result<(), TrialFault> {
    for (number, item) in core.large.as_slice().iter().enumerate() {
        let known = run.live.iter().any(|buffer| is_large(buffer, item));
        holds("the large buffer", number, known)?;
    }
    Ok(())
}

/// Compares the words of all root segments, the shared one and then each thread's own.
fn compare_roots(alloc: Global, core: &Core, run: &PlainRun) -> Result<(), TrialFault> {
    let mut words = Vec::new(alloc);
    words.extend_from_slice(core.root.as_slice())?;
    for own in core.own.as_slice() {
        words.extend_from_slice(own.words.as_slice())?;
    }
    let same = words.as_slice() == run.roots.words();
    holds("the words of the root segments", words.len(), same)
}

/// Compares the places of all chunks, and the words of the roots.
pub fn compare_core(alloc: Global, core: &Core, run: &PlainRun) -> Result<(), TrialFault> {
    for cpu in 0..core.cpus {
        compare_cpu(core, run, cpu as usize)?;
    }
    let all = (core.cpus as usize).saturating_mul(run.caches.len());
    holds(
        "the magazines",
        all,
        core.cpu_places.as_slice().len() == all,
    )?;
    compare_caches(core, run)?;
    compare_slabs(alloc, core, run)?;
    compare_large(core, run)?;
    holds(
        "the next chunk",
        core.next_chunk as usize,
        core.next_chunk == run.next_chunk,
    )?;
    compare_roots(alloc, core, run)
}

/// Marks chunks that stand at a place; no chunk stands at two.
fn mark(marks: &mut [bool], chunks: &Sequence<u32>) -> Result<(), TrialFault> {
    for chunk in chunks.as_slice() {
        let at = *chunk as usize;
        let place = marks
            .get_mut(at)
            .ok_or(TrialFault::Differs("a place of no chunk", at))?;
        holds("a chunk at two places", at, !*place)?;
        *place = true;
    }
    Ok(())
}

fn mark_all(marks: &mut [bool], lists: &[Sequence<u32>]) -> Result<(), TrialFault> {
    for chunks in lists {
        mark(marks, chunks)?;
    }
    Ok(())
}

/// For each chunk number, whether the chunk stands in a list, a magazine or a depot.
fn free_marks(alloc: Global, core: &Core) -> Result<Vec<bool>, TrialFault> {
    let mut marks = Vec::new(alloc);
    for _ in 0..core.next_chunk {
        marks.push(false)?;
    }
    for slab in core.slabs.as_slice() {
        mark(&mut marks, &slab.free)?;
    }
    for place in core.cpu_places.as_slice() {
        mark(&mut marks, &place.loaded)?;
        mark(&mut marks, &place.previous)?;
    }
    for depot in core.depots.as_slice() {
        mark_all(&mut marks, depot.full.as_slice())?;
    }
    Ok(marks)
}

/// Adds the addresses of a slab's chunks that stand nowhere.
fn add_allocated(
    addresses: &mut Vec<u64>,
    item: &SlabItem,
    its: &PlainCache,
    free: &[bool],
) -> Result<(), NoMemory> {
    let mut address = item.base.wrapping_add(u64::from(item.colour));
    for round in 0..its.shape.rounds {
        let chunk = item.first.wrapping_add(round);
        if free.get(chunk as usize) == Some(&false) {
            addresses.push(address)?;
        }
        address = address.wrapping_add(u64::from(its.shape.chunk));
    }
    Ok(())
}

/// The addresses of the allocated buffers of a core, rising.
pub fn allocated(alloc: Global, core: &Core, run: &PlainRun) -> Result<Vec<u64>, TrialFault> {
    let free = free_marks(alloc, core)?;
    let mut addresses = Vec::new(alloc);
    for item in core.slabs.as_slice() {
        let its = run.caches.get(item.cache as usize).ok_or(TrialFault::Differs(
            "a slab of no cache",
            item.cache as usize,
        ))?;
        add_allocated(&mut addresses, item, its, &free)?;
    }
    for item in core.large.as_slice() {
        addresses.push(item.base)?;
    }
    addresses.sort()?;
    Ok(addresses)
}

/// The byte that a core has at an address.
pub fn core_byte(core: &Core, address: u64) -> Option<u8> {
    for item in core.slabs.as_slice() {
        if let Some(byte) = byte_of(item.base, item.bytes.as_slice(), address) {
            return Some(byte);
        }
    }
    for item in core.large.as_slice() {
        if let Some(byte) = byte_of(item.base, item.bytes.as_slice(), address) {
            return Some(byte);
        }
    }
    None
}

/// The byte at an address among bytes that stand from a base on.
fn byte_of(base: u64, bytes: &[u8], address: u64) -> Option<u8> {
    let offset = address.checked_sub(base)?;
    bytes.get(offset as usize).copied()
}
