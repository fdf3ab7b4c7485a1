ghost use Rattle.std.specs.Prelude.{◌≡◌, ◌+◌, ◌^◌, ◌<◌, All, IfOk, OnOk, length, map};
ghost use Rattle.heap_core.specs.FreePlaces.{CanBeRead, free_list_in, magazines_in};
ghost use Rattle.heap_core.specs.Shelves.{stocks_of};
ghost use Rattle.heap_pictures.specs.Items.{depot_items, place_items};

use core_format::{CpuPlace, DepotItem};
use heap_ledger::SlabAt;
use heap_pictures::{FreeList, FreePlaces};
use shelf::Shelf;
use slab_layer::Round;
use std::alloc::Global;
use umem_base::{NoMemory, Sequence};

/// The numbers of the chunks of rounds.
fn chunks_of(alloc: Global, rounds: &[Round]) -> Result<Sequence<u32>, NoMemory>
    ensures { IfOk result (λ chunks. chunks ≡ rounds.now) }
{
    let mut chunks = Vec::with_capacity(alloc, rounds.len())?;
    for round in rounds {
        chunks.push(round.chunk())?;
    }
    Ok(Sequence::new(chunks))
}

/// The magazines of a CPU for a cache.
fn cpu_place(alloc: Global, cpu: u32, cache: u32, shelf: &Shelf) -> Result<CpuPlace, NoMemory>
    requires { cpu < length shelf.now.stock.cpus }
    ensures { IfOk result (λ place. place ≡ magazines_in cpu cache shelf.now.stock) }
{
    let its = &shelf.cpus()[cpu as usize];
    Ok(CpuPlace {
        cpu,
        cache,
        loaded: chunks_of(alloc, its.loaded().as_slice())?,
        previous: chunks_of(alloc, its.previous().as_slice())?,
    })
}

/// Adds the magazines of a CPU for all caches to those of the CPUs before it.
fn add_cpu(
    alloc: Global,
    cpu: u32,
    shelves: &[Shelf],
    places: &mut Vec<CpuPlace>,
) -> Result<(), NoMemory>
    requires few { length shelves.now < 2 ^ 32 }
    requires cpus { All (λ stock. cpu < length stock.cpus) (stocks_of shelves.now) }
    requires before { places.old.items ≡ place_items cpu (stocks_of shelves.now) }
    ensures { OnOk result (places.new.items ≡ place_items (cpu + 1) (stocks_of shelves.now)) }
{
    for (cache, shelf) in shelves.iter().enumerate() {
        places.push(cpu_place(alloc, cpu, cache as u32, shelf)?)?;
    }
    Ok(())
}

/// The magazines of all CPUs, those of a CPU together.
fn cpu_places(alloc: Global, cpus: u32, shelves: &[Shelf]) -> Result<Sequence<CpuPlace>, NoMemory>
    requires few { length shelves.now < 2 ^ 32 }
    requires cpus { All (λ stock. length stock.cpus ≡ cpus) (stocks_of shelves.now) }
    ensures { IfOk result (λ places. places ≡ place_items cpus (stocks_of shelves.now)) }
{
    let mut places = Vec::new(alloc);
    for cpu in 0..cpus {
        add_cpu(alloc, cpu, shelves, &mut places)?;
    }
    Ok(Sequence::new(places))
}

/// The full magazines of a depot.
fn depot_item(alloc: Global, shelf: &Shelf) -> Result<DepotItem, NoMemory>
    ensures { IfOk result (λ item. item ≡ record { full = shelf.now.stock.depot }) }
{
    let mut full = Vec::new(alloc);
    for magazine in shelf.full() {
        full.push(chunks_of(alloc, magazine.as_slice())?)?;
    }
    Ok(DepotItem {
        full: Sequence::new(full),
    })
}

/// The depots of all caches.
fn depots(alloc: Global, shelves: &[Shelf]) -> Result<Sequence<DepotItem>, NoMemory>
    ensures { IfOk result (λ items. items ≡ depot_items (stocks_of shelves.now)) }
{
    let mut items = Vec::with_capacity(alloc, shelves.len())?;
    for shelf in shelves {
        items.push(depot_item(alloc, shelf)?)?;
    }
    Ok(Sequence::new(items))
}

/// The list of a slab, which is on the shelf of its cache.
fn free_list(alloc: Global, shelves: &[Shelf], slab: &SlabAt) -> Result<FreeList, NoMemory>
    requires { slab.now.cache < length shelves.now }
    ensures { IfOk result (λ list. list ≡ free_list_in (stocks_of shelves.now) slab.now) }
{
    let shelf = &shelves[slab.cache as usize];
    // Says that no two slabs of a shelf have one base.
    let _ = shelf.cache();
    let chunks = match shelf.list(slab.base) {
        Some(rounds) => chunks_of(alloc, rounds)?,
        None => Sequence::new(Vec::new(alloc)),
    };
    Ok(FreeList {
        base: slab.base,
        chunks,
    })
}

/// The lists of these slabs.
fn free_lists(
    alloc: Global,
    shelves: &[Shelf],
    slabs: &[SlabAt],
) -> Result<Sequence<FreeList>, NoMemory>
    requires { All (λ slab. slab.cache < length shelves.now) slabs.now }
    ensures { IfOk result (λ lists. lists ≡ map (free_list_in (stocks_of shelves.now)) slabs.now) }
{
    let mut lists = Vec::with_capacity(alloc, slabs.len())?;
    for slab in slabs {
        lists.push(free_list(alloc, shelves, slab)?)?;
    }
    Ok(Sequence::new(lists))
}

/// Where the free chunks of a heap stand, read from its shelves: in the magazines of so many CPUs, in the depots, and
/// in the lists of these slabs, one for each of them in their order. It refuses for want of memory alone.
pub fn free_places(
    alloc: Global,
    cpus: u32,
    shelves: &[Shelf],
    slabs: &[SlabAt],
) -> Result<FreePlaces, NoMemory>
    requires { CanBeRead cpus (stocks_of shelves.now) slabs.now }
    ensures cpu_places { IfOk result (λ places. places.cpu_places ≡ place_items cpus (stocks_of shelves.now)) }
    ensures depots { IfOk result (λ places. places.depots ≡ depot_items (stocks_of shelves.now)) }
    ensures lists { IfOk result (λ places. places.lists ≡ map (free_list_in (stocks_of shelves.now)) slabs.now) }
{
    Ok(FreePlaces {
        cpu_places: cpu_places(alloc, cpus, shelves)?,
        depots: depots(alloc, shelves)?,
        lists: free_lists(alloc, shelves, slabs)?,
    })
}
