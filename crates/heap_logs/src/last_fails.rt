ghost use Rattle.std.specs.Prelude.{◌≡◌, IfOk, length, filter_map, drop};
ghost use Rattle.trans_log.specs.Last.{last_of};
ghost use Rattle.plain_heap.specs.Setting.{IsCache, def_of};
ghost use Rattle.script.specs.PlanText.{HasCache};
ghost use Rattle.plain_heap.specs.Texts.{HasItsCache, HaveTheirCaches};
ghost use Rattle.heap_logs.specs.Fails.{fail_of_entry, fail_of_op, fails_of};

use crate::push_some::push_some;
use case_table::{CLASS_COUNT, CacheDef, class_of, class_size};
use plain_heap::{Body, Entry, Reply};
use script::Op;
use std::alloc::Global;
use trans_log::Fail;
use umem_base::NoMemory;

/// The last allocations of a history that found no chunk, `capacity` at most, oldest first: those of size classes and
/// of declared caches. Of a run it is the fail log of umem_debug(3MALLOC); that it holds no request for whole pages is
/// this project's own rule.
pub fn fails(
    alloc: Global,
    caches: &[CacheDef],
    capacity: u32,
    entries: &[Entry],
) -> Result<Vec<Fail>, NoMemory>
    requires { HaveTheirCaches caches.now entries.now }
    ensures { IfOk result (λ items. items.items ≡ last_of capacity (fails_of caches.now entries.now)) }
{
    let passed = count_fails(caches, entries).saturating_sub(capacity as usize);
    fails_behind(alloc, caches, passed, entries)
}

/// How many fails there are.
fn count_fails(caches: &[CacheDef], entries: &[Entry]) -> usize
    requires { HaveTheirCaches caches.now entries.now }
    ensures { result ≡ length (fails_of caches.now entries.now) }
{
    let mut count = 0;
    for entry in entries {
        count += usize::from(fail(caches, entry).is_some());
    }
    count
}

/// The fails behind the first ones, so many.
fn fails_behind(
    alloc: Global,
    caches: &[CacheDef],
    passed: usize,
    entries: &[Entry],
) -> Result<Vec<Fail>, NoMemory>
    requires { HaveTheirCaches caches.now entries.now }
    ensures { IfOk result (λ items. items.items ≡ drop passed (fails_of caches.now entries.now)) }
{
    let mut left = passed;
    let mut items = Vec::new(alloc);
    for entry in entries {
        let item = fail(caches, entry);
        if left > 0 {
            left -= usize::from(item.is_some());
            continue;
        }
        push_some(&mut items, item)?;
    }
    Ok(items)
}

/// The fail of an entry, if it is a call that was answered that there is no space.
fn fail(caches: &[CacheDef], entry: &Entry) -> Option<Fail>
    requires { HasItsCache caches.now entry.now.body }
    ensures { result ≡ fail_of_entry caches.now entry.now }
{
    let Body::Call { op, reply, .. } = &entry.body else {
        return None;
    };
    if *reply != Reply::NoSpace {
        return None;
    }
    failed_request(caches, entry.number, entry.thread, op)
}

/// What a failed operation asked of a cache, if it asked anything of one.
fn failed_request(caches: &[CacheDef], number: u32, thread: u32, op: &Op) -> Option<Fail>
    requires { HasCache caches.now op.now }
    ensures { result ≡ fail_of_op caches.now number thread op.now }
{
    let (cache, size) = match op {
        Op::Alloc { size, .. } | Op::Zalloc { size, .. } => (class_of(u64::from(*size))?, *size),
        Op::CacheAlloc { cache, .. } => (*cache, size_of_cache(caches, *cache)),
        Op::Free { .. }
        | Op::CacheFree { .. }
        | Op::Copy { .. }
        | Op::Clear { .. }
        | Op::Store { .. }
        | Op::Link { .. }
        | Op::Load { .. }
        | Op::Reap => return None,
    };
    Some(Fail {
        thread,
        cache,
        size: u64::from(size),
        time: u64::from(number),
    })
}

/// The size of a cache's objects.
fn size_of_cache(caches: &[CacheDef], cache: u32) -> u32
    requires { IsCache caches.now cache }
    ensures { result ≡ (def_of caches.now cache).size }
{
    if cache < CLASS_COUNT {
        class_size(cache)
    } else {
        caches[(cache - CLASS_COUNT) as usize].size
    }
}
