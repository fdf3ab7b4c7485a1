ghost use Rattle.std.specs.Prelude.{◌≡◌};
ghost use Rattle.plain_heap.specs.Replies.{has_finding_at};
ghost use Rattle.plain_heap.specs.State.{give_back};
ghost use Rattle.heap_accounts.specs.Frees.{AreOfSome, LivesAt, PerformsFree, TakesBack, number_there};
ghost use Rattle.heap_accounts.specs.Kinds.{freed_slot};
ghost use Rattle.heap_accounts.specs.Tables.{ForEachHistory, IsKnown, Leaves};

use crate::freed::Freed;
use crate::tables::Tables;
use buftag::State;
use heap_memory::laws::{
    chunks_are_inside_of_runs, chunks_are_known_by_their_places, large_buffers_have_a_span,
    slots_are_mapped,
};
use heap_slabs::laws::tables_look_at_slabs;
use plain_heap::Reply;
use script::Op;
use slab_layer::Round;

/// The slot whose buffer an operation gives back, if it gives one back.
pub fn freed_slot(op: &Op) -> Option<u32>
    ensures { result ≡ freed_slot op.now }
{
    match op {
        Op::Free { slot, .. } | Op::CacheFree { slot, .. } => Some(*slot),
        Op::Alloc { .. }
        | Op::Zalloc { .. }
        | Op::CacheAlloc { .. }
        | Op::Copy { .. }
        | Op::Clear { .. }
        | Op::Store { .. }
        | Op::Link { .. }
        | Op::Load { .. }
        | Op::Reap => None,
    }
}

/// Makes a free of a thread, and gives the round of the chunk back that was freed, if one was.
pub fn free(tables: &mut Tables, thread: u32, op: &Op) -> Freed
    requires { IsKnown tables.old thread op.now }
    ensures { PerformsFree tables.old tables.new thread op.now result }
{
    // Laws that say why the slot is mapped, and why the table of slabs stays when its word changes.
    slots_are_mapped();
    tables_look_at_slabs();
    let Some(slot) = freed_slot(op) else {
        return Freed::Behind;
    };
    let word = tables.memory.slot(thread, slot);
    let finding = has_finding(tables, word);
    let reply = tables.live.judge(op, word, finding);
    let Reply::Ok = reply else {
        return Freed::Made { reply, round: None };
    };
    let round = give_back(tables, word);
    tables.memory.put_slot(thread, slot, 0);
    Freed::Made { reply, round }
}

/// Tells whether a chunk begins at an address that has a finding as an allocated one.
fn has_finding(tables: &Tables, address: u64) -> bool
    requires { AreOfSome tables.now }
    ensures { ForEachHistory (λ setting state. result ≡ has_finding_at setting state address) tables.now }
{
    // A law that says why the chunk is mapped.
    chunks_are_inside_of_runs();
    let Some(placed) = tables.slabs.chunk_at(address) else {
        return false;
    };
    let kind = tables.slabs.kind(placed.cache);
    tables
        .memory
        .finding(placed.chunk, kind, State::Allocated)
        .is_some()
}

/// Gives the live buffer at an address back, and the round of its chunk, if it is one.
fn give_back(tables: &mut Tables, address: u64) -> Option<Round>
    requires { LivesAt tables.old address }
    ensures after { Leaves (λ setting state. give_back setting state address) tables.old tables.new }
    ensures round { ForEachHistory (λ setting state. result ≡ number_there setting state address) tables.old }
    ensures room { tables.new.live.spare ≡ tables.old.live.spare }
{
    let round = take_back(tables, address);
    tables.slabs.gave(address);
    tables.live.freed(address);
    round
}

/// Gives the bytes of the live buffer at an address back: those of a chunk are then those of a free one, and the pages
/// of a large buffer are mapped no more. Answers the round of the chunk, if it is one.
fn take_back(tables: &mut Tables, address: u64) -> Option<Round>
    requires { LivesAt tables.old address }
    ensures memory { TakesBack tables.old tables.new address }
    ensures round { ForEachHistory (λ setting state. result ≡ number_there setting state address) tables.old }
    ensures same { (tables.new.live ≡ tables.old.live) × (tables.new.slabs ≡ tables.old.slabs) }
{
    // Laws that say why the chunk is mapped, and why a buffer where none begins is a large one.
    chunks_are_inside_of_runs();
    chunks_are_known_by_their_places();
    large_buffers_have_a_span();
    match tables.slabs.chunk_at(address) {
        None => {
            tables.memory.close_large(address);
            None
        }
        Some(placed) => {
            let kind = tables.slabs.kind(placed.cache);
            tables.memory.take_back_chunk(placed.chunk, kind);
            Some(Round::new(placed.chunk.number))
        }
    }
}
