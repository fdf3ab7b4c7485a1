ghost use Rattle.std.specs.Prelude.{◌≡◌, ◌+◌, ◌%◌, ◌<◌, IfOk, length, map};
ghost use Rattle.case_table.specs.declared.limits.TheConstants.{CLASS_COUNT};
ghost use Rattle.case_table.specs.Geometry.{IsCacheShape, geometry_of};
ghost use Rattle.script.specs.Rules.{IsHeader};
ghost use Rattle.shelf.specs.Stock.{empty_stock};
ghost use Rattle.heap_accounts.specs.Places.{start_places};
ghost use Rattle.heap_core.specs.Shelves.{AreFirstShelves, CanPut, HasCpus, reaped_shelf, stocks_of, with_round_back};

use case_table::{CLASS_ALIGN, CLASS_COUNT, class_size, geometry};
use script::Header;
use shelf::Shelf;
use slab_layer::Round;
use std::alloc::Global;
use umem_base::NoMemory;

/// The CPU on which a thread runs, of those that a shelf has magazines for.
pub fn cpu_of(shelf: &Shelf, thread: u32) -> u32
    requires { HasCpus shelf.now.stock }
    ensures { result ≡ thread % length shelf.now.stock.cpus }
{
    thread % shelf.cpus().len() as u32
}

/// The shelf of a cache of which nothing was asked yet.
fn empty_shelf(
    alloc: Global,
    cpus: u32,
    size: u32,
    align: u32,
    guards: bool,
    cache: u32,
) -> Result<Shelf, NoMemory>
    requires { IsCacheShape size align }
    ensures { IfOk result (λ shelf. shelf.stock ≡ empty_stock (geometry_of size align guards).magazine cpus) }
{
    Shelf::new(alloc, cpus, geometry(size, align, guards).magazine, cache)
}

/// The shelves of the size classes, which hold nothing yet.
fn class_shelves(alloc: Global, header: &Header, guards: bool) -> Result<Vec<Shelf>, NoMemory>
    ensures count { IfOk result (λ shelves. length shelves.items ≡ CLASS_COUNT) }
    ensures those { IfOk result (λ shelves.
        AreFirstShelves (record { header = header.now; guards = guards }) shelves.items) }
{
    let mut shelves = Vec::new(alloc);
    for class in 0..CLASS_COUNT {
        let size = class_size(class);
        shelves.push(empty_shelf(alloc, header.cpus, size, CLASS_ALIGN, guards, class)?)?;
    }
    Ok(shelves)
}

/// The shelves of all caches, the classes and then the declared ones, which hold nothing yet.
fn first_shelves(alloc: Global, header: &Header, guards: bool) -> Result<Vec<Shelf>, NoMemory>
    requires { IsHeader header.now }
    ensures count { IfOk result (λ shelves. length shelves.items ≡ CLASS_COUNT + length header.now.caches) }
    ensures those { IfOk result (λ shelves.
        AreFirstShelves (record { header = header.now; guards = guards }) shelves.items) }
{
    let mut shelves = class_shelves(alloc, header, guards)?;
    for def in header.caches.as_slice() {
        let cache = shelves.len() as u32;
        shelves.push(empty_shelf(alloc, header.cpus, def.size, def.align, guards, cache)?)?;
    }
    Ok(shelves)
}

/// The shelves of a heap that was asked nothing yet.
pub fn start_shelves(alloc: Global, header: &Header, guards: bool) -> Result<Vec<Shelf>, NoMemory>
    requires { IsHeader header.now }
    ensures { IfOk result (λ shelves.
        stocks_of shelves.items ≡ start_places (record { header = header.now; guards = guards })) }
{
    let shelves = first_shelves(alloc, header, guards)?;
    Ok(shelves)
}

/// Puts the round of a chunk that a thread freed on the shelf of its cache. It takes no memory.
pub fn put_back(shelves: &mut [Shelf], cache: u32, thread: u32, round: Round)
    requires { CanPut shelves.old cache round }
    ensures { stocks_of shelves.new ≡ with_round_back (stocks_of shelves.old) cache thread round }
{
    let shelf = &mut shelves[cache as usize];
    let cpu = cpu_of(shelf, thread);
    shelf.put(cpu, round);
}

/// Empties the magazines of a shelf, and drops the slabs that are complete then. It takes no memory.
fn reap_shelf(shelf: &mut Shelf)
    ensures { shelf.new ≡ reaped_shelf shelf.old }
{
    shelf.drain();
    shelf.drop_complete();
}

/// The same of each shelf.
pub fn reap_shelves(shelves: &mut [Shelf])
    ensures { shelves.new ≡ map reaped_shelf shelves.old }
{
    for shelf in shelves {
        reap_shelf(shelf);
    }
}
