ghost use Rattle.std.specs.Prelude.{◌≡◌, ℕ, ◌++◌, IfOk, OnOk, length};
ghost use Rattle.std.specs.List.{flat_map};
ghost use Rattle.core_format.specs.Chunks.{is_chunk_in, is_held};
ghost use Rattle.core_format.specs.Items.{has_number};
ghost use Rattle.core_format.specs.Magazines.{all_rounds, depot_rounds_of, place_rounds};
ghost use Rattle.heap_view.specs.Buffers.{chunks_of, numbers_from};
ghost use Rattle.heap_view.specs.Layout.{IsLaidOut};
ghost use Rattle.heap_view.specs.View.{AreThose};
ghost use Rattle.std.specs.List.Sorted.{IsNonDecreasing};

use core_format::{Core, CpuPlace, DepotItem, SlabItem};
use std::alloc::Global;
use umem_base::NoMemory;

/// Tells whether the number is one of these, which rise.
pub fn has_number(numbers: &[u32], number: u32) -> bool
    requires { IsNonDecreasing numbers.now }
    ensures { result ≡ has_number numbers.now number }
{
    numbers.binary_search(&number).is_ok()
}

/// Appends the chunks of the slabs' lists.
fn put_listed(out: &mut Vec<u32>, slabs: &[SlabItem]) -> Result<(), NoMemory>
    ensures { OnOk result (out.new.items ≡ out.old.items ++ flat_map (λ slab. slab.free) slabs.now) }
{
    for slab in slabs {
        out.extend_from_slice(slab.free.as_slice())?;
    }
    Ok(())
}

/// Appends the chunks of the CPUs' magazines.
fn put_places(out: &mut Vec<u32>, places: &[CpuPlace]) -> Result<(), NoMemory>
    ensures { OnOk result (out.new.items ≡ out.old.items ++ flat_map place_rounds places.now) }
{
    for place in places {
        out.extend_from_slice(place.loaded.as_slice())?;
        out.extend_from_slice(place.previous.as_slice())?;
    }
    Ok(())
}

/// Appends the chunks of a depot's magazines.
fn put_depot(out: &mut Vec<u32>, depot: &DepotItem) -> Result<(), NoMemory>
    ensures { OnOk result (out.new.items ≡ out.old.items ++ depot_rounds_of depot.now) }
{
    for rounds in depot.full.as_slice() {
        out.extend_from_slice(rounds.as_slice())?;
    }
    Ok(())
}

/// Appends the chunks of the depots' magazines.
fn put_depots(out: &mut Vec<u32>, depots: &[DepotItem]) -> Result<(), NoMemory>
    ensures { OnOk result (out.new.items ≡ out.old.items ++ flat_map depot_rounds_of depots.now) }
{
    for depot in depots {
        put_depot(out, depot)?;
    }
    Ok(())
}

/// The numbers of the chunks that stand in a list or a magazine.
pub fn held_chunks(alloc: Global, core: &Core) -> Result<Vec<u32>, NoMemory>
    ensures { IfOk result (λ held. AreThose (is_held core.now) held.items) }
{
    let mut held = Vec::new(alloc);
    put_listed(&mut held, core.slabs.as_slice())?;
    put_places(&mut held, core.cpu_places.as_slice())?;
    put_depots(&mut held, core.depots.as_slice())?;
    held.sort_unstable();
    Ok(held)
}
