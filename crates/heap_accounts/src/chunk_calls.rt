ghost use Rattle.std.specs.Prelude.{◌≡◌, ◌↔◌, IsTrue, MatchOption, None};
ghost use Rattle.case_table.specs.Sizes.{class_for};
ghost use Rattle.plain_heap.specs.Live.{live_at};
ghost use Rattle.heap_slabs.specs.States.{ForEachTabled};
ghost use Rattle.heap_accounts.specs.Allocs.{CanHandIn, HandsChunk, HasFreeNumber, HasNoFreeNumber, NamesCache};
ghost use Rattle.heap_accounts.specs.Frees.{AreOfSome};
ghost use Rattle.heap_accounts.specs.Kinds.{chunk_request, class_request};
ghost use Rattle.heap_accounts.specs.Tables.{ForEachHistory};

use crate::chunk_request::ChunkRequest;
use crate::entering::enter;
use crate::tables::Tables;
use case_table::class_of;
use heap_memory::Chunk;
use heap_memory::laws::{chunks_are_inside_of_runs, slots_are_mapped};
use heap_slabs::laws::{placed_chunks_are_known, tables_look_at_slabs};
use heap_slabs::{HeapSlabs, Placed};
use plain_heap::{Held, Live, Reply};
use script::Op;

/// What an operation asks of a cache, if it asks for a chunk.
pub fn chunk_request(slabs: &HeapSlabs, op: &Op) -> Option<ChunkRequest>
    requires { NamesCache slabs.now op.now }
    ensures { ForEachTabled (λ setting state. result ≡ chunk_request setting op.now) slabs.now }
{
    match op {
        Op::Alloc { slot, size } => of_class(*slot, *size, false),
        Op::Zalloc { slot, size } => of_class(*slot, *size, true),
        Op::CacheAlloc { slot, cache } => Some(ChunkRequest {
            slot: *slot,
            cache: *cache,
            size: slabs.kind(*cache).size,
            zero: false,
        }),
        Op::Free { .. }
        | Op::CacheFree { .. }
        | Op::Copy { .. }
        | Op::Clear { .. }
        | Op::Store { .. }
        | Op::Link { .. }
        | Op::Load { .. }
        | Op::Reap => None,
    }
}

/// What is asked of a class, if one serves the size.
fn of_class(slot: u32, size: u32, zero: bool) -> Option<ChunkRequest>
    ensures { result ≡ class_request slot size zero (class_for size) }
{
    let cache = class_of(u64::from(size))?;
    Some(ChunkRequest {
        slot,
        cache,
        size,
        zero,
    })
}

/// The free chunk of a cache that has the number, if one has.
pub fn free_chunk(tables: &Tables, cache: u32, number: u32) -> Option<Chunk>
    requires { AreOfSome tables.now }
    ensures { ForEachHistory (λ setting state. MatchOption result (HasNoFreeNumber cache number setting state)
        (λ chunk. HasFreeNumber cache number chunk setting state)) tables.now }
{
    let placed = tables.slabs.chunk(number)?;
    if is_free_of(&tables.live, placed, cache) {
        Some(placed.chunk)
    } else {
        None
    }
}

/// Tells whether a chunk is one of a cache and does not live.
fn is_free_of(live: &Live, placed: Placed, cache: u32) -> bool
    ensures { IsTrue result ↔ (placed.cache ≡ cache) × (live_at live.now.buffers placed.chunk.address ≡ None) }
{
    placed.cache == cache && live.held(placed.chunk.address).is_none()
}

/// Answers an allocation from a cache with a free chunk of it.
pub fn hand_chunk(tables: &mut Tables, thread: u32, request: ChunkRequest, chunk: Chunk) -> Reply
    requires { CanHandIn tables.old thread request chunk }
    ensures { HandsChunk tables.old tables.new thread request chunk result }
{
    // Laws that say why the chunk and the slot are mapped, and why the table stays when the slot's word changes.
    chunks_are_inside_of_runs();
    placed_chunks_are_known();
    slots_are_mapped();
    tables_look_at_slabs();
    let kind = tables.slabs.kind(request.cache);
    let report = tables
        .memory
        .hand_chunk(chunk, kind, request.size, request.zero);
    let address = chunk.address;
    let reply = Reply::At { address, report };
    let held = Held {
        size: request.size,
        cache: Some(request.cache),
    };
    enter(&mut tables.live, &mut tables.slabs, held, reply);
    tables.memory.put_slot(thread, request.slot, address);
    reply
}
