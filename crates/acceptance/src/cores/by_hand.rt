//! Cores that are made item by item, and the bytes that they are written as.

use crate::cores::sample::core_bytes;
use crate::cores::samples::{NEW_FIRST, NEW_SECOND, ONE_BUFFER};
use crate::fault::SampleFault;
use bitflags::Flags;
use case_table::{CLASS_COUNT, class_def};
use core_format::{CacheItem, Core, CpuPlace, DepotItem, OwnRoot, SlabItem, read_core, write_core};
use std::alloc::Global;
use std::test::Fail;
use umem_base::{NoMemory, Sequence};
use umem_options::DebugFlags;

// The page of the core of one buffer.
const PAGE: &str = "repeat 6 fecaddba
u32 0xfeedfabb 6025
u64 0x40000000 0xe110c8ed
free 1 85 24
zeros 16";

fn nothing<T>(alloc: Global) -> Sequence<T> {
    Sequence::new(Vec::new(alloc))
}

/// A segment whose second word is given and whose others are zero.
fn segment(alloc: Global, word: u64) -> Result<Sequence<u64>, NoMemory> {
    let mut words = Vec::new(alloc);
    for index in 0..512 {
        words.push(if index == 1 { word } else { 0 })?;
    }
    Ok(Sequence::new(words))
}

/// The size classes, of which the third one made so many slabs.
fn classes(alloc: Global, grows: u32) -> Result<Sequence<CacheItem>, NoMemory> {
    let mut caches = Vec::new(alloc);
    for class in 0..CLASS_COUNT {
        let grows = if class == 2 { grows } else { 0 };
        let def = class_def(alloc, class)?;
        caches.push(CacheItem { def, grows })?;
    }
    Ok(Sequence::new(caches))
}

/// The magazines of one CPU, which are empty.
fn places(alloc: Global) -> Result<Sequence<CpuPlace>, NoMemory> {
    let mut places = Vec::new(alloc);
    for cache in 0..CLASS_COUNT {
        places.push(CpuPlace {
            cpu: 0,
            cache,
            loaded: nothing(alloc),
            previous: nothing(alloc),
        })?;
    }
    Ok(Sequence::new(places))
}

fn depots(alloc: Global) -> Result<Sequence<DepotItem>, NoMemory> {
    let mut depots = Vec::new(alloc);
    for _ in 0..CLASS_COUNT {
        let full = nothing(alloc);
        depots.push(DepotItem { full })?;
    }
    Ok(Sequence::new(depots))
}

/// What takes memory of a core without large buffers and logs.
#[derive(Drop)]
struct Parts {
    root: Sequence<u64>,
    own: Sequence<OwnRoot>,
    caches: Sequence<CacheItem>,
    slabs: Sequence<SlabItem>,
    cpu_places: Sequence<CpuPlace>,
    depots: Sequence<DepotItem>,
}

/// The parts of a heap that has no slab, of which the third class made so many.
fn new_parts(alloc: Global, word: u64, grows: u32) -> Result<Parts, NoMemory> {
    Ok(Parts {
        root: segment(alloc, word)?,
        own: nothing(alloc),
        caches: classes(alloc, grows)?,
        slabs: nothing(alloc),
        cpu_places: places(alloc)?,
        depots: depots(alloc)?,
    })
}

/// A core of one CPU with these parts.
fn core_of(
    alloc: Global,
    version: u32,
    flags: u8,
    next_chunk: u32,
    entries: u64,
    parts: Parts,
) -> Core {
    Core {
        version,
        flags: DebugFlags::from_bits_retain(flags),
        frames: 15,
        contents: 256,
        cpus: 1,
        trans_capacity: 0,
        fail_capacity: 0,
        contents_capacity: 0,
        next_chunk,
        entries,
        root: parts.root,
        own: parts.own,
        caches: parts.caches,
        slabs: parts.slabs,
        large: nothing(alloc),
        cpu_places: parts.cpu_places,
        depots: parts.depots,
        audits: nothing(alloc),
        trans: nothing(alloc),
        fails: nothing(alloc),
        saved: nothing(alloc),
    }
}

/// A heap that has done nothing, in version 1.
fn new_core(alloc: Global) -> Result<Core, NoMemory> {
    Ok(core_of(alloc, 1, 0, 0, 0, new_parts(alloc, 0, 0)?))
}

/// The same in version 2, of one thread.
fn new_second_core(alloc: Global) -> Result<Core, NoMemory> {
    let mut parts = new_parts(alloc, 0, 0)?;
    let words = segment(alloc, 0)?;
    parts.own = Sequence::new(vec![in alloc; OwnRoot { words }]?);
    Ok(core_of(alloc, 2, 0, 0, 0, parts))
}

/// The slab of the core of one buffer.
fn slab(alloc: Global) -> Result<SlabItem, SampleFault> {
    let mut free = Vec::new(alloc);
    for chunk in 1..85 {
        free.push(chunk)?;
    }
    Ok(SlabItem {
        base: 0x10_0000,
        cache: 2,
        colour: 0,
        first: 0,
        free: Sequence::new(free),
        bytes: Sequence::new(core_bytes(alloc, PAGE)?),
    })
}

/// A heap with guards, of which a root word holds one buffer.
fn one_buffer(alloc: Global) -> Result<Core, SampleFault> {
    let mut parts = new_parts(alloc, 0x10_0000, 1)?;
    parts.slabs = Sequence::new(vec![in alloc; slab(alloc)?]?);
    Ok(core_of(alloc, 1, 4, 85, 2, parts))
}

/// Tells whether the core is written as the text gives it, and read from that again.
fn is_core_of(alloc: Global, core: &Core, text: &str) -> Result<bool, SampleFault> {
    let bytes = core_bytes(alloc, text)?;
    let written = write_core(alloc, core)?;
    match read_core(alloc, &bytes) {
        Ok(read) => Ok(written == bytes && read == *core),
        Err(_) => Ok(false),
    }
}

#[test]
fn writes_cores_that_are_made_by_hand(rt: HostRuntime) -> Result<(), Fail> {
    let alloc = rt.alloc();
    assert!(rt; is_core_of(alloc, &new_core(alloc)?, NEW_FIRST)?);
    assert!(rt; is_core_of(alloc, &new_second_core(alloc)?, NEW_SECOND)?);
    assert!(rt; is_core_of(alloc, &one_buffer(alloc)?, ONE_BUFFER)?);
    Ok(())
}
