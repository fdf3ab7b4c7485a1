//! Which entries are legal where they stand.

ghost use Rattle.std.specs.Prelude.{◌≡◌, ◌↔◌, ◌+◌, ◌<◌, IfOk, IsTrue, Some, length, option_map, take};
ghost use Rattle.std.specs.List.{slice_get};
ghost use Rattle.plain_heap.specs.Legal.{IsGrow, IsLegalBody, IsLegalEntry, IsShrink, next_of_thread};
ghost use Rattle.plain_heap.specs.State.{state_of};
ghost use Rattle.yardstick.specs.Kept.{state_kept};
ghost use Rattle.yardstick.specs.Tests.{hands_out_from, has_unused, is_reaping, has_no_live};
ghost use Rattle.plain_heap.specs.declared.entry.Entry.{Entry as EntryData};

use crate::caches::geometry_of;
use crate::frees::held_at;
use crate::kept::{Kept, MOST_ENTRIES};
use crate::live_buffer::LiveBuffer;
use crate::pages::is_free_run;
use crate::replies::is_reply;
use crate::setting::Setting;
use crate::slab::HeapSlab;
use crate::slabs::{has_chunk_at, start_of};
use case_table::CLASS_COUNT;
use plain_heap::{Body, Entry, Reply};
use script::Op;
use std::alloc::Global;
use umem_base::{NoMemory, PAGE_BYTES};

/// The next entry of a thread, if there is one.
fn next_of_thread(thread: u32, later: &[Entry]) -> Option<&Entry>
    ensures { option_map (λ entry. entry.now) result ≡ next_of_thread thread later.now }
{
    later.iter().find(|entry| entry.thread == thread)
}

/// The entry hands out a chunk of a slab.
fn hands_out_from(setting: &Setting, slab: &HeapSlab, body: &Body) -> bool
    ensures { result ≡ hands_out_from setting.now slab.now body.now }
{
    match body {
        Body::Call {
            op: Op::Alloc { .. } | Op::Zalloc { .. } | Op::CacheAlloc { .. },
            reply: Reply::At { address, .. },
            ..
        } => has_chunk_at(setting, slab, u128::from(*address)),
        _ => false,
    }
}

/// The entry is a shrink, or a reap with any answer.
fn is_reaping(body: &Body) -> bool
    ensures { result ≡ is_reaping body.now }
{
    matches!(body, Body::Call { op: Op::Reap, .. } | Body::Shrink { .. })
}

/// A grow is allowed, and the next entry of its thread uses it.
fn is_grow(setting: &Setting, kept: &Kept, cache: u32, base: u64, next: Option<&Entry>) -> bool
    requires { length kept.now.grown.items < MOST_ENTRIES }
    ensures { IsTrue result ↔ IsGrow setting.now (state_kept setting.now kept.now) cache base
        (option_map (λ entry. entry.now) next.entry) }
{
    let declared = setting.header().caches.as_slice().len();
    if (cache as usize) >= CLASS_COUNT as usize + declared || base % PAGE_BYTES != 0 {
        return false;
    }
    let pages = u64::from(geometry_of(setting, cache).pages);
    let slab = kept.new_slab(setting, cache, base);
    match next {
        Some(entry) => {
            is_free_run(setting, kept, pages, base) && hands_out_from(setting, &slab, &entry.body)
        }
        None => false,
    }
}

/// No chunk of a slab lives.
fn has_no_live(setting: &Setting, live: &[LiveBuffer], slab: &HeapSlab) -> bool
    ensures { result ≡ has_no_live setting.now live.now slab.now }
{
    let rounds = geometry_of(setting, slab.cache()).rounds;
    (0..rounds).all(|index| held_at(live, start_of(setting, slab, index)).is_none())
}

/// A slab of the cache at the base stands, of which no chunk lives.
fn has_unused(setting: &Setting, kept: &Kept, cache: u32, base: u64) -> bool
    ensures { result ≡ has_unused setting.now (state_kept setting.now kept.now) cache base }
{
    let live = kept.live.as_slice();
    kept.slabs.iter().any(|slab| {
        slab.cache() == cache && slab.base() == base && has_no_live(setting, live, slab)
    })
}

/// A shrink is allowed, and the next entry of its thread is another or a reap.
fn is_shrink(setting: &Setting, kept: &Kept, cache: u32, base: u64, next: Option<&Entry>) -> bool
    ensures { IsTrue result ↔ IsShrink setting.now (state_kept setting.now kept.now) cache base
        (option_map (λ entry. entry.now) next.entry) }
{
    match next {
        Some(entry) => is_reaping(&entry.body) && has_unused(setting, kept, cache, base),
        None => false,
    }
}

/// The body of an entry of a thread is allowed, by what the entries before it left and the next entry of its thread.
fn is_legal_body(
    alloc: Global,
    setting: &Setting,
    kept: &Kept,
    entry: &Entry,
    next: Option<&Entry>,
) -> Result<bool, NoMemory>
    requires { length kept.now.grown.items < MOST_ENTRIES }
    ensures { IfOk result (λ is. IsTrue is ↔ IsLegalBody setting.now (state_kept setting.now kept.now)
        entry.now.thread entry.now.body (option_map (λ entry. entry.now) next.entry)) }
{
    match &entry.body {
        Body::Call { op, reply, .. } => is_reply(alloc, setting, kept, entry.thread, op, reply),
        Body::Grow { cache, base } => Ok(is_grow(setting, kept, *cache, *base, next)),
        Body::Shrink { cache, base } => Ok(is_shrink(setting, kept, *cache, *base, next)),
    }
}

/// The entry at a place has its number, and is allowed.
pub fn is_legal_entry(
    alloc: Global,
    setting: &Setting,
    kept: &Kept,
    entries: &[Entry],
    n: usize,
) -> Result<bool, NoMemory>
    requires place { n < length entries.now }
    requires few { length kept.now.grown.items < MOST_ENTRIES }
    requires before { state_kept setting.now kept.now ≡ state_of setting.now (take n entries.now) }
    ensures { IfOk result (λ is. (entry : EntryData) → slice_get entries.now n ≡ Some entry
        → (IsTrue is ↔ IsLegalEntry setting.now entries.now n entry)) }
{
    let entry = &entries[n];
    if entry.number as usize != n {
        return Ok(false);
    }
    let next = next_of_thread(entry.thread, &entries[n + 1..]);
    is_legal_body(alloc, setting, kept, entry, next)
}
