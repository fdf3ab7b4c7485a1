ghost use Rattle.std.specs.Prelude.{◌≡◌};
ghost use Rattle.case_table.specs.declared.limits.TheConstants.{CLASS_COUNT};
ghost use Rattle.script.specs.PlanText.{HasCache};
ghost use Rattle.script.specs.Rules.{IsHeader};
ghost use Rattle.plain_heap.specs.History.{IsNumbered};
ghost use Rattle.plain_heap.specs.Setting.{IsCache, def_of};
ghost use Rattle.plain_heap.specs.Texts.{HasItsCache, HaveTheirCaches};
ghost use Rattle.heap_summary.specs.Changes.{change_of, change_of_call, change_of_free, change_of_allocation};
ghost use Rattle.heap_summary.specs.Sums.{IsSomeRun, SumsUp};
ghost use Rattle.heap_summary.specs.Tallies.{tally_of};

use crate::change::Change;
use crate::summary::Summary;
use crate::tally::Tally;
use case_table::{CLASS_COUNT, CacheDef, class_size};
use plain_heap::{Body, Entry, History, Reply};
use script::{Header, Op};

/// What a legal history did, with guards or without. It looks at each entry once, and takes no memory.
pub fn summary_of(header: &Header, history: &History) -> Summary
    requires header { IsHeader header.now }
    requires caches { HaveTheirCaches header.now.caches history.now.items }
    requires legal { IsSomeRun header.now history.now.items }
    ensures { SumsUp header.now history.now.items result }
{
    let tally = tally_of(header.caches.as_slice(), history.as_slice());
    Summary {
        allocs: tally.allocs,
        frees: tally.frees,
        live: tally.allocs - tally.frees,
        bytes: tally.handed - tally.back,
        grows: tally.grows,
    }
}

/// The sums over entries.
fn tally_of(caches: &[CacheDef], entries: &[Entry]) -> Tally
    requires caches { HaveTheirCaches caches.now entries.now }
    requires numbered { IsNumbered 0 entries.now }
    ensures { result ≡ tally_of caches.now entries.now }
{
    let mut tally = Tally {
        allocs: 0,
        frees: 0,
        handed: 0,
        back: 0,
        grows: 0,
    };
    for entry in entries {
        // Read, since no more entries stand before one than its number: so each sum has room.
        let _number = entry.number;
        match change_of(caches, &entry.body) {
            Change::HandedOut(size) => {
                tally.allocs += 1;
                tally.handed += u64::from(size);
            }
            Change::GivenBack(size) => {
                tally.frees += 1;
                tally.back += u64::from(size);
            }
            Change::Grown => tally.grows += 1,
            Change::Nothing => {}
        }
    }
    tally
}

/// What an entry changes.
fn change_of(caches: &[CacheDef], body: &Body) -> Change
    requires { HasItsCache caches.now body.now }
    ensures { result ≡ change_of caches.now body.now }
{
    match body {
        Body::Call { op, reply, .. } => change_of_call(caches, op, *reply),
        Body::Grow { .. } => Change::Grown,
        Body::Shrink { .. } => Change::Nothing,
    }
}

/// What a call with its answer changes.
fn change_of_call(caches: &[CacheDef], op: &Op, reply: Reply) -> Change
    requires { HasCache caches.now op.now }
    ensures { result ≡ change_of_call caches.now op.now reply }
{
    match op {
        Op::Alloc { size, .. } | Op::Zalloc { size, .. } => change_of_allocation(*size, reply),
        Op::CacheAlloc { cache, .. } => change_of_allocation(size_of_cache(caches, *cache), reply),
        Op::Free { size, .. } => change_of_free(*size, reply),
        Op::CacheFree { cache, .. } => change_of_free(size_of_cache(caches, *cache), reply),
        Op::Copy { .. }
        | Op::Clear { .. }
        | Op::Store { .. }
        | Op::Link { .. }
        | Op::Load { .. }
        | Op::Reap => Change::Nothing,
    }
}

/// What an answered allocation changes.
fn change_of_allocation(size: u32, reply: Reply) -> Change
    ensures { result ≡ change_of_allocation size reply }
{
    match reply {
        Reply::At { .. } => Change::HandedOut(size),
        _ => Change::Nothing,
    }
}

/// What an answered free changes.
fn change_of_free(size: u32, reply: Reply) -> Change
    ensures { result ≡ change_of_free size reply }
{
    match reply {
        Reply::Ok => Change::GivenBack(size),
        _ => Change::Nothing,
    }
}

/// The size of a cache's objects.
fn size_of_cache(caches: &[CacheDef], cache: u32) -> u32
    requires { IsCache caches.now cache }
    ensures { result ≡ (def_of caches.now cache).size }
{
    if cache < CLASS_COUNT {
        class_size(cache)
    } else {
        caches[(cache - CLASS_COUNT) as usize].size
    }
}
