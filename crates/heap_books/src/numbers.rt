ghost use Rattle.std.specs.Prelude.{◌≡◌, ◌≢◌, ◌++◌, ◌↔◌, AllPairs, IfOk, IsTrue, OnOk};
ghost use Rattle.std.specs.List.{flat_map};
ghost use Rattle.core_format.specs.Magazines.{depot_rounds_of, place_rounds};
ghost use Rattle.heap_books.specs.Fit.{listed_in, numbers_in};
ghost use Rattle.heap_books.specs.Tests.{StandOnceIn};

use core_format::{CpuPlace, DepotItem};
use heap_pictures::{FreeList, FreePlaces};
use std::alloc::Global;
use umem_base::NoMemory;

/// Adds the numbers in the magazines of CPUs.
fn push_places(places: &[CpuPlace], numbers: &mut Vec<u32>) -> Result<(), NoMemory>
    ensures { OnOk result (numbers.new.items ≡ numbers.old.items ++ flat_map place_rounds places.now) }
{
    for place in places {
        numbers.extend_from_slice(place.loaded.as_slice())?;
        numbers.extend_from_slice(place.previous.as_slice())?;
    }
    Ok(())
}

/// Adds the numbers in a depot.
fn push_depot(depot: &DepotItem, numbers: &mut Vec<u32>) -> Result<(), NoMemory>
    ensures { OnOk result (numbers.new.items ≡ numbers.old.items ++ depot_rounds_of depot.now) }
{
    for magazine in depot.full.as_slice() {
        numbers.extend_from_slice(magazine.as_slice())?;
    }
    Ok(())
}

/// Adds the numbers in depots.
fn push_depots(depots: &[DepotItem], numbers: &mut Vec<u32>) -> Result<(), NoMemory>
    ensures { OnOk result (numbers.new.items ≡ numbers.old.items ++ flat_map depot_rounds_of depots.now) }
{
    for depot in depots {
        push_depot(depot, numbers)?;
    }
    Ok(())
}

/// Adds the numbers in lists.
fn push_lists(lists: &[FreeList], numbers: &mut Vec<u32>) -> Result<(), NoMemory>
    ensures { OnOk result (numbers.new.items ≡ numbers.old.items ++ listed_in lists.now) }
{
    for list in lists {
        numbers.extend_from_slice(list.chunks.as_slice())?;
    }
    Ok(())
}

/// All numbers that stand at these places.
fn numbers_at(alloc: Global, places: &FreePlaces) -> Result<Vec<u32>, NoMemory>
    ensures { IfOk result (λ numbers. numbers.items ≡ numbers_in places.now) }
{
    let mut numbers = Vec::new(alloc);
    push_places(places.cpu_places.as_slice(), &mut numbers)?;
    push_depots(places.depots.as_slice(), &mut numbers)?;
    push_lists(places.lists.as_slice(), &mut numbers)?;
    Ok(numbers)
}

/// Tells whether no number stands twice at the first places, and the same numbers stand at both.
pub fn stand_once_in(
    alloc: Global,
    places: &FreePlaces,
    others: &FreePlaces,
) -> Result<bool, NoMemory>
    requires { AllPairs (λ one other. one ≢ other) (numbers_in others.now) }
    ensures { IfOk result (λ stand. IsTrue stand ↔ StandOnceIn (numbers_in places.now) (numbers_in others.now)) }
{
    let mut numbers = numbers_at(alloc, places)?;
    let mut wanted = numbers_at(alloc, others)?;
    numbers.sort_unstable();
    wanted.sort_unstable();
    Ok(numbers.as_slice() == wanted.as_slice())
}
