//! Scripts whose answers are known, and where the chunks stand after them.

use crate::Heap;
use crate::trials::compare::{Compared, Told, run_and_compare};
use crate::trials::fault::TrialFault;
use core_format::{Core, CpuPlace};
use plain_heap::{Body, Reply, Report};
use std::alloc::Global;
use std::process::Abort;
use std::test::Fail;
use umem_base::{NoMemory, Text, put_decimal};

/// The class of 24 bytes and that of 4,096.
const SMALL: usize = 2;

const LARGEST: usize = 31;

/// Appends a call a slot, for the slots from 1 on: a word with the slot, and a word behind it.
fn put_calls(out: &mut Text, word: &[u8], count: u64, size: &[u8]) -> Result<(), NoMemory> {
    for slot in 1..=count {
        out.push_slice(word)?;
        put_decimal(out, slot, 0)?;
        out.push_slice(size)?;
    }
    Ok(())
}

/// So many allocations of a size, and then the frees of them in the same order.
fn all_freed(alloc: Global, count: u64, size: &[u8]) -> Result<Text, NoMemory> {
    let mut out = Text::from_slice(alloc, b"umem 1 cpus 1 threads 1\nphase\n")?;
    put_calls(&mut out, b"0 alloc $", count, size)?;
    put_calls(&mut out, b"0 free $", count, size)?;
    Ok(out)
}

/// The run of a script with guards.
fn guarded(alloc: Global, text: &Text) -> Result<Compared, TrialFault> {
    run_and_compare(
        alloc,
        Told {
            text: text.as_slice(),
            debug: b"guards",
            logging: b"",
        },
    )
}

/// The numbers from one up to another.
fn rising(alloc: Global, first: u32, past: u32) -> Result<Vec<u32>, NoMemory> {
    let mut numbers = Vec::new(alloc);
    for number in first..past {
        numbers.push(number)?;
    }
    Ok(numbers)
}

/// Tells whether these are the magazines of a cache for CPU 0.
fn has_magazines(place: &CpuPlace, loaded: &[u32], previous: &[u32]) -> bool {
    place.cpu == 0 && place.loaded.as_slice() == loaded && place.previous.as_slice() == previous
}

/// Compares a slab's list of a core.
fn has_list(rt: &impl Abort, core: &Core, slab: usize, chunks: &[u32]) -> Result<(), Fail> {
    let item = core.slabs.as_slice().get(slab).ok_or("a slab")?;
    assert_eq!(rt; item.free.as_slice(), chunks);
    Ok(())
}

#[test]
fn frees_fill_magazines_the_depot_and_lists(rt: HostRuntime) -> Result<(), Fail> {
    let alloc = rt.alloc();
    let text = all_freed(alloc, 32, b" 24\n")?;
    let core = guarded(alloc, &text)?.core;
    let depot = core.depots.as_slice().get(SMALL).ok_or("a depot")?;
    assert_eq!(rt; depot.full.as_slice().len(), 1);
    let full = depot.full.as_slice().first().ok_or("a magazine")?;
    assert_eq!(rt; full.as_slice(), rising(alloc, 0, 15)?.as_slice());
    let place = core.cpu_places.as_slice().get(SMALL).ok_or("magazines")?;
    let previous = rising(alloc, 15, 30)?;
    assert!(rt; has_magazines(place, &[30, 31], &previous));
    assert_eq!(rt; core.slabs.as_slice().len(), 1);
    has_list(&rt, &core, 0, &rising(alloc, 32, 85)?)
}

// A magazine has three rounds here, and a slab eight chunks.
#[test]
fn rounds_that_no_magazine_takes_are_listed(rt: HostRuntime) -> Result<(), Fail> {
    let alloc = rt.alloc();
    let text = all_freed(alloc, 40, b" 4096\n")?;
    let core = guarded(alloc, &text)?.core;
    let depot = core.depots.as_slice().get(LARGEST).ok_or("a depot")?;
    assert_eq!(rt; depot.full.as_slice().len(), 8);
    for (number, full) in depot.full.as_slice().iter().enumerate() {
        let first = u32::try_from(number).unwrap_or(0).saturating_mul(3);
        let rounds = rising(alloc, first, first.saturating_add(3))?;
        assert_eq!(rt; full.as_slice(), rounds.as_slice());
    }
    let place = core.cpu_places.as_slice().get(LARGEST).ok_or("magazines")?;
    assert!(rt; has_magazines(place, &[27, 28, 29], &[24, 25, 26]));
    assert_eq!(rt; core.slabs.as_slice().len(), 5);
    has_list(&rt, &core, 2, &[])?;
    has_list(&rt, &core, 3, &[30, 31])?;
    has_list(&rt, &core, 4, &rising(alloc, 32, 40)?)
}

/// The answers of the last allocations of a run, the last one first.
fn last_answers(alloc: Global, heap: &Heap, count: usize) -> Result<Vec<Reply>, NoMemory> {
    let mut replies = Vec::new(alloc);
    for entry in heap.history().as_slice().iter().rev().take(count) {
        if let Body::Call { reply, .. } = &entry.body {
            replies.push(*reply)?;
        }
    }
    Ok(replies)
}

// The large buffer takes all pages behind the slab, and the next call the round that the other CPU has.
#[test]
fn a_full_heap_looks_at_all_cpus(rt: HostRuntime) -> Result<(), Fail> {
    let alloc = rt.alloc();
    let mut text = Text::from_slice(alloc, b"umem 1 cpus 2 threads 2\nphase\n")?;
    put_calls(&mut text, b"1 alloc $", 8, b" 4096\n")?;
    text.push_slice(
        b"1 free $8 4096\nphase\n0 alloc $9 4157440\n0 alloc $10 4096\n0 alloc $11 4096\n",
    )?;
    let Compared { heap, core, .. } = guarded(alloc, &text)?;
    let at = |address: u64| Reply::At {
        address,
        report: Report::Clean,
    };
    let replies = last_answers(alloc, &heap, 3)?;
    assert_eq!(rt;
        replies.as_slice(),
        [Reply::NoSpace, at(0x10_70a8), at(0x10_9000)].as_slice()
    );
    for place in core.cpu_places.as_slice() {
        assert!(rt; place.loaded.as_slice().is_empty() && place.previous.as_slice().is_empty());
    }
    for depot in core.depots.as_slice() {
        assert!(rt; depot.full.as_slice().is_empty());
    }
    assert_eq!(rt; core.slabs.as_slice().len(), 1);
    has_list(&rt, &core, 0, &[])
}
