ghost use Rattle.std.specs.Prelude.{◌≡◌, ◌+◌, ◌<◌, ◌≤◌, ◌↔◌, IfOk, IsTrue, All};
ghost use Rattle.std.specs.List.{list_all};
ghost use Rattle.std.specs.List.Sorted.{IsStrictlyIncreasing};
ghost use Rattle.heap_ledger.specs.Ledger.{run_setting, run_state};
ghost use Rattle.heap_slabs.specs.Standing.{IsStanding};
ghost use Rattle.heap_accounts.specs.Places.{cache_count};
ghost use Rattle.heap_books.specs.Fit.{AreCpuPlacesFor, AreDepotsFor, AreListsFor, FitRun};
ghost use Rattle.heap_books.specs.InLists.{AreInLists};
ghost use Rattle.heap_books.specs.Tests.{AreListsAt, IsListAt, is_depot, is_full, is_magazine, is_cache_number, is_own, is_cpu_place};

use crate::numbers::stand_once_in;
use case_table::CLASS_COUNT;
use core_format::{CpuPlace, DepotItem};
use depot::MAGAZINES;
use heap_accounts::Accounts;
use heap_pictures::{FreeList, FreePlaces};
use heap_slabs::Standing;
use std::alloc::Global;
use umem_base::{NoMemory, Sequence};

/// Tells whether a number is that of a chunk of a slab of the cache that stands.
fn is_cache_number(accounts: &Accounts, cache: u32, chunk: u32) -> bool
    ensures { result ≡ is_cache_number (run_setting accounts.now) (run_state accounts.now) cache chunk }
{
    match accounts.cache_of(chunk) {
        Some(its) => its == cache,
        None => false,
    }
}

/// Tells the same of each of these.
fn are_of_cache(accounts: &Accounts, cache: u32, chunks: &[u32]) -> bool
    ensures { result ≡ list_all (is_cache_number (run_setting accounts.now) (run_state accounts.now) cache) chunks.now }
{
    chunks
        .iter()
        .all(|chunk| is_cache_number(accounts, cache, *chunk))
}

/// Tells whether it may be a magazine of a cache.
fn is_magazine(accounts: &Accounts, cache: u32, chunks: &[u32]) -> bool
    requires { cache < cache_count (run_setting accounts.now) }
    ensures { result ≡ is_magazine (run_setting accounts.now) (run_state accounts.now) cache chunks.now }
{
    let most = accounts.quantities(cache).magazine as usize;
    chunks.len() <= most && are_of_cache(accounts, cache, chunks)
}

/// Tells whether it may be a full one.
fn is_full(accounts: &Accounts, cache: u32, chunks: &[u32]) -> bool
    requires { cache < cache_count (run_setting accounts.now) }
    ensures { result ≡ is_full (run_setting accounts.now) (run_state accounts.now) cache chunks.now }
{
    let all = accounts.quantities(cache).magazine as usize;
    chunks.len() == all && are_of_cache(accounts, cache, chunks)
}

/// Tells whether these may be the magazines of the CPU and the cache of an index, of so many caches.
fn is_cpu_place(accounts: &Accounts, caches: usize, index: usize, place: &CpuPlace) -> bool
    requires { caches ≡ cache_count (run_setting accounts.now) }
    ensures { result ≡ is_cpu_place (run_setting accounts.now) (run_state accounts.now) index place.now }
{
    if place.cpu as usize != index / caches || place.cache as usize != index % caches {
        return false;
    }
    is_magazine(accounts, place.cache, place.loaded.as_slice())
        && is_magazine(accounts, place.cache, place.previous.as_slice())
}

/// Tells whether there are magazines for each CPU and cache.
fn are_places(accounts: &Accounts, caches: usize, places: &[CpuPlace]) -> bool
    requires { caches ≡ cache_count (run_setting accounts.now) }
    ensures { IsTrue result ↔ AreCpuPlacesFor (run_setting accounts.now) (run_state accounts.now) places.now }
{
    // Says that CPUs and caches are few.
    let _ = accounts.history();
    if places.len() != accounts.header().cpus as usize * caches {
        return false;
    }
    for index in 0..places.len() {
        if !is_cpu_place(accounts, caches, index, &places[index]) {
            return false;
        }
    }
    true
}

/// Tells whether each of these may be a full magazine of a cache.
fn are_full(accounts: &Accounts, cache: u32, magazines: &[Sequence<u32>]) -> bool
    requires { cache < cache_count (run_setting accounts.now) }
    ensures { result ≡ list_all (is_full (run_setting accounts.now) (run_state accounts.now) cache) magazines.now }
{
    magazines
        .iter()
        .all(|magazine| is_full(accounts, cache, magazine.as_slice()))
}

/// Tells whether it may be the depot of a cache.
fn is_depot(accounts: &Accounts, cache: u32, depot: &DepotItem) -> bool
    requires { cache < cache_count (run_setting accounts.now) }
    ensures { result ≡ is_depot (run_setting accounts.now) (run_state accounts.now) cache depot.now }
{
    let full = depot.full.as_slice();
    full.len() <= MAGAZINES as usize && are_full(accounts, cache, full)
}

/// Tells whether there is a depot for each cache.
fn are_depots(accounts: &Accounts, caches: usize, depots: &[DepotItem]) -> bool
    requires { caches ≡ cache_count (run_setting accounts.now) }
    ensures { IsTrue result ↔ AreDepotsFor (run_setting accounts.now) (run_state accounts.now) depots.now }
{
    // Says that caches are few.
    let _ = accounts.history();
    if depots.len() != caches {
        return false;
    }
    for cache in 0..depots.len() {
        if !is_depot(accounts, cache as u32, &depots[cache]) {
            return false;
        }
    }
    true
}

/// Tells whether numbers rise.
fn rise(numbers: &[u32]) -> bool
    ensures { IsTrue result ↔ IsStrictlyIncreasing numbers.now }
{
    for index in 1..numbers.len() {
        if numbers[index] <= numbers[index - 1] {
            return false;
        }
    }
    true
}

/// Tells whether each of these numbers is that of one of a slab's chunks.
fn are_own(slab: &Standing, chunks: &[u32]) -> bool
    requires { IsStanding slab.now }
    ensures { result ≡ list_all (is_own slab.now) chunks.now }
{
    let first = slab.first;
    let end = first + slab.rounds;
    chunks.iter().all(|chunk| first <= *chunk && *chunk < end)
}

/// Tells whether it may be the list of a slab.
fn is_list(slab: &Standing, list: &FreeList) -> bool
    requires { IsStanding slab.now }
    ensures { IsTrue result ↔ IsListAt slab.now list.now }
{
    if list.base != slab.base {
        return false;
    }
    if !rise(list.chunks.as_slice()) {
        return false;
    }
    are_own(slab, list.chunks.as_slice())
}

/// Tells whether there is a list for each of these slabs.
fn are_lists_at(standing: &[Standing], lists: &[FreeList]) -> bool
    requires { All IsStanding standing.now }
    ensures { IsTrue result ↔ AreListsAt standing.now lists.now }
{
    if lists.len() != standing.len() {
        return false;
    }
    for index in 0..lists.len() {
        if !is_list(&standing[index], &lists[index]) {
            return false;
        }
    }
    true
}

/// Tells whether there is a list for each slab that stands, by rising base.
fn are_lists(accounts: &Accounts, lists: &[FreeList]) -> bool
    ensures { IsTrue result ↔ AreListsFor (run_setting accounts.now) (run_state accounts.now) lists.now }
{
    // Says that the entries are legal.
    let _ = accounts.history();
    are_lists_at(accounts.standing(), lists)
}

/// Tells whether places fit. The others are the places of the same chunks with each in its slab's list.
pub fn fits(
    alloc: Global,
    accounts: &Accounts,
    places: &FreePlaces,
    others: &FreePlaces,
) -> Result<bool, NoMemory>
    requires { AreInLists (run_setting accounts.now) (run_state accounts.now) others.now }
    ensures { IfOk result (λ fit. IsTrue fit ↔ FitRun (run_setting accounts.now) (run_state accounts.now) places.now) }
{
    // Says that the entries are legal.
    let _ = accounts.history();
    let caches = CLASS_COUNT as usize + accounts.header().caches.as_slice().len();
    if !are_places(accounts, caches, places.cpu_places.as_slice()) {
        return Ok(false);
    }
    if !are_depots(accounts, caches, places.depots.as_slice()) {
        return Ok(false);
    }
    if !are_lists(accounts, places.lists.as_slice()) {
        return Ok(false);
    }
    stand_once_in(alloc, places, others)
}
