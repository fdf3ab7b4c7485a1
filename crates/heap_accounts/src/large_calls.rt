ghost use Rattle.std.specs.Prelude.{◌≡◌, ◌<◌, IfOk, OnErr, if◌then◌else◌, None, Some};
ghost use Rattle.heap_memory.specs.States.{Keeps};
ghost use Rattle.heap_accounts.specs.Kinds.{is_large, is_large_size, large_request};
ghost use Rattle.heap_accounts.specs.Large.{MakesLarge};
ghost use Rattle.heap_accounts.specs.Slots.{IsOfSomeState};
ghost use Rattle.heap_accounts.specs.Tables.{IsKnown, KeepsTables, PerformsKind};

use crate::entering::enter;
use crate::large_request::LargeRequest;
use crate::tables::Tables;
use case_table::class_of;
use heap_memory::Memory;
use heap_memory::laws::slots_are_mapped;
use heap_slabs::laws::tables_look_at_slabs;
use plain_heap::{Held, Reply, Report};
use script::Op;
use umem_base::NoMemory;

/// What an operation asks of whole pages, if it does.
pub fn large_request(op: &Op) -> Option<LargeRequest>
    ensures { result ≡ large_request op.now }
{
    match op {
        Op::Alloc { slot, size } | Op::Zalloc { slot, size } => whole_pages(*slot, *size),
        Op::Free { .. }
        | Op::CacheAlloc { .. }
        | Op::CacheFree { .. }
        | Op::Copy { .. }
        | Op::Clear { .. }
        | Op::Store { .. }
        | Op::Link { .. }
        | Op::Load { .. }
        | Op::Reap => None,
    }
}

/// The request of a size, if no class serves it.
fn whole_pages(slot: u32, size: u32) -> Option<LargeRequest>
    ensures { result ≡ (if is_large_size size then Some (record { slot = slot; size = size }) else None) }
{
    if size != 0 && class_of(u64::from(size)).is_none() {
        Some(LargeRequest { slot, size })
    } else {
        None
    }
}

/// Hands out the lowest free run of pages for a large buffer, and answers the allocation of a thread.
pub fn make_large(
    memory: &mut Memory,
    thread: u32,
    request: LargeRequest,
) -> Result<Reply, NoMemory>
    requires known { IsOfSomeState memory.old thread request.slot }
    requires some { 0 < request.size }
    ensures ok { IfOk result (MakesLarge memory.old memory.new thread request) }
    ensures err { OnErr result (Keeps memory.old memory.new) }
{
    // A law that says why the slot is mapped still.
    slots_are_mapped();
    let base = memory.open_large(request.size)?;
    memory.put_slot(thread, request.slot, base.unwrap_or(0));
    Ok(match base {
        None => Reply::NoSpace,
        Some(address) => Reply::At {
            address,
            report: Report::Clean,
        },
    })
}

/// Makes an allocation of whole pages of a thread; `None` for other calls.
pub fn large(tables: &mut Tables, thread: u32, op: &Op) -> Result<Option<Reply>, NoMemory>
    requires { IsKnown tables.old thread op.now }
    ensures ok { IfOk result (PerformsKind is_large tables.old tables.new thread op.now) }
    ensures err { OnErr result (KeepsTables tables.old tables.new) }
{
    // A law that says why the table of slabs stays when the slot's word changes.
    tables_look_at_slabs();
    let Some(request) = large_request(op) else {
        return Ok(None);
    };
    let reply = make_large(&mut tables.memory, thread, request)?;
    let held = Held {
        size: request.size,
        cache: None,
    };
    enter(&mut tables.live, &mut tables.slabs, held, reply);
    Ok(Some(reply))
}
