ghost use Rattle.std.specs.Prelude.{◌≡◌, ◌++◌, ◌<◌, All, IfOk, OnOk, map};
ghost use Rattle.heap_ledger.specs.Ledger.{run_setting, run_state};
ghost use Rattle.heap_slabs.specs.Standing.{IsStanding};
ghost use Rattle.heap_books.specs.InLists.{AreFreeLists, AreInLists, free_at, free_list_of};

use case_table::CLASS_COUNT;
use core_rules::{empty_depots, empty_places};
use heap_accounts::Accounts;
use heap_pictures::{FreeList, FreePlaces};
use heap_slabs::Standing;
use std::alloc::Global;
use umem_base::{NoMemory, Sequence};

/// Adds the number of the chunk of a slab that has that index, if the chunk does not live.
fn push_free(
    accounts: &Accounts,
    slab: &Standing,
    index: u32,
    chunks: &mut Vec<u32>,
) -> Result<(), NoMemory>
    requires slab { IsStanding slab.now }
    requires index { index < slab.now.rounds }
    ensures { OnOk result (chunks.new.items ≡ chunks.old.items ++ free_at (run_state accounts.now) slab.now index) }
{
    let address = slab.start + u64::from(index) * u64::from(slab.chunk);
    if accounts.held(address).is_some() {
        return Ok(());
    }
    chunks.push(slab.first + index)?;
    Ok(())
}

/// The list of a slab with all of its chunks that do not live, by rising number.
fn free_list(alloc: Global, accounts: &Accounts, slab: &Standing) -> Result<FreeList, NoMemory>
    requires { IsStanding slab.now }
    ensures { IfOk result (λ list. list ≡ free_list_of (run_state accounts.now) slab.now) }
{
    let mut chunks = Vec::new(alloc);
    for index in 0..slab.rounds {
        push_free(accounts, slab, index, &mut chunks)?;
    }
    Ok(FreeList {
        base: slab.base,
        chunks: Sequence::new(chunks),
    })
}

/// The lists of these slabs.
fn lists_of(
    alloc: Global,
    accounts: &Accounts,
    slabs: &[Standing],
) -> Result<Vec<FreeList>, NoMemory>
    requires { All IsStanding slabs.now }
    ensures { IfOk result (λ lists. lists.items ≡ map (free_list_of (run_state accounts.now)) slabs.now) }
{
    let mut lists = Vec::with_capacity(alloc, slabs.len())?;
    for slab in slabs {
        lists.push(free_list(alloc, accounts, slab)?)?;
    }
    Ok(lists)
}

/// The lists of the slabs that stand, by rising base, with all chunks that do not live.
fn free_lists(alloc: Global, accounts: &Accounts) -> Result<Vec<FreeList>, NoMemory>
    ensures { IfOk result (λ lists.
        AreFreeLists (run_setting accounts.now) (run_state accounts.now) lists.items) }
{
    lists_of(alloc, accounts, accounts.standing())
}

/// The places with each chunk that does not live in its slab's list, and with empty magazines.
pub fn places_in_lists(alloc: Global, accounts: &Accounts) -> Result<FreePlaces, NoMemory>
    ensures { IfOk result (AreInLists (run_setting accounts.now) (run_state accounts.now)) }
{
    // Says that CPUs and caches are few.
    let _ = accounts.history();
    let cpus = accounts.header().cpus;
    let caches = CLASS_COUNT + accounts.header().caches.as_slice().len() as u32;
    Ok(FreePlaces {
        cpu_places: Sequence::new(empty_places(alloc, cpus, caches)?),
        depots: Sequence::new(empty_depots(alloc, caches)?),
        lists: Sequence::new(free_lists(alloc, accounts)?),
    })
}
