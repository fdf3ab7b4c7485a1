ghost use Rattle.std.specs.Prelude.{◌<◌, IfOk, OnErr, length};
ghost use Rattle.heap_accounts.specs.Frees.{AreOfSome};
ghost use Rattle.heap_accounts.specs.Grows.{CanGrowFor, HandsFresh, HasNumbersFor, OpensFresh, ClearsSlot};
ghost use Rattle.heap_accounts.specs.Slots.{IsOfSomeState};
ghost use Rattle.heap_accounts.specs.Tables.{KeepsTables};

use crate::chunk_calls::hand_chunk;
use crate::chunk_request::ChunkRequest;
use crate::fresh::Fresh;
use crate::tables::Tables;
use case_table::geometry;
use heap_memory::laws::slots_are_mapped;
use heap_slabs::laws::{free_runs_are_places, new_slabs_are_unused, tables_look_at_slabs};
use plain_heap::Reply;
use slab_layer::rounds_from;
use std::alloc::Global;
use umem_base::NoMemory;

/// Makes the slab that a cache makes next, at the lowest run of pages that fits; `None` where no run of its pages is
/// free.
fn open_fresh(alloc: Global, tables: &mut Tables, cache: u32) -> Result<Option<Fresh>, NoMemory>
    requires some { AreOfSome tables.old }
    requires cache { cache < length tables.old.slabs.caches }
    requires numbers { HasNumbersFor tables.old.slabs cache }
    ensures ok { IfOk result (OpensFresh tables.old tables.new cache) }
    ensures err { OnErr result (KeepsTables tables.old tables.new) }
{
    // Laws that say why the slab has its place in the table, and why none of its chunks lives.
    free_runs_are_places();
    new_slabs_are_unused();
    let slab = tables.slabs.next_slab(cache);
    let count = geometry(slab.kind.size, slab.align, slab.kind.guards).rounds;
    tables.slabs.make_room()?;
    let rounds = rounds_from(alloc, slab.first, count)?;
    let Some(base) = tables.memory.open_slab(&slab)? else {
        return Ok(None);
    };
    tables.slabs.add(cache, base);
    Ok(Some(Fresh { base, rounds }))
}

/// Makes a slab for an allocation from a cache, and answers it with the slab's first chunk; `None` where no run of its
/// pages is free.
pub fn hand_fresh(
    alloc: Global,
    tables: &mut Tables,
    thread: u32,
    request: ChunkRequest,
) -> Result<Option<(Reply, Fresh)>, NoMemory>
    requires { CanGrowFor tables.old thread request }
    ensures ok { IfOk result (HandsFresh tables.old tables.new thread request) }
    ensures err { OnErr result (KeepsTables tables.old tables.new) }
{
    // A law that says why the chunk is free.
    new_slabs_are_unused();
    let number = tables.slabs.next_slab(request.cache).first;
    let Some(fresh) = open_fresh(alloc, tables, request.cache)? else {
        return Ok(None);
    };
    let Some(placed) = tables.slabs.chunk(number) else {
        unreachable!();
    };
    let reply = hand_chunk(tables, thread, request, placed.chunk);
    Ok(Some((reply, fresh)))
}

/// The slot of an allocation that is refused gets 0.
pub fn refuse(tables: &mut Tables, thread: u32, slot: u32)
    requires { IsOfSomeState tables.old.memory thread slot }
    ensures { ClearsSlot tables.old tables.new thread slot }
{
    // Laws that say why the slot is mapped, and why the table of slabs stays when its word changes.
    slots_are_mapped();
    tables_look_at_slabs();
    tables.memory.put_slot(thread, slot, 0);
}
