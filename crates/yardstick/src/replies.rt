//! Which answers a plain allocator may give to a call, by what the entries before it left.

ghost use Rattle.std.specs.Prelude.{◌≡◌, ◌↔◌, ◌<◌, IfOk, IsTrue};
ghost use Rattle.plain_heap.specs.Replies.{IsAllocReply, IsCacheReply, IsChoice, IsLargeReply, IsReply, load_answer, range_answer, report_at, store_answer};
ghost use Rattle.yardstick.specs.Kept.{state_kept};
ghost use Rattle.yardstick.specs.Tests.{are_all_live, is_all_live, is_cache_full, is_chunk_of_cache, is_choice};

use crate::bytes::word_left;
use crate::caches::geometry_of;
use crate::frees::{finding_at, free_answer, held_at};
use crate::kept::Kept;
use crate::live_buffer::LiveBuffer;
use crate::pages::{has_run, is_free_run, is_mapped_range};
use crate::setting::Setting;
use crate::slab::HeapSlab;
use crate::slabs::{has_chunk_at, start_of};
use buftag::State;
use case_table::class_of;
use plain_heap::{Reply, Report, report_of};
use script::Op;
use std::alloc::Global;
use umem_base::{NoMemory, pages_for};

/// An address is where a chunk of a slab of the cache begins.
fn is_chunk_of_cache(setting: &Setting, slabs: &[HeapSlab], cache: u32, address: u64) -> bool
    ensures { result ≡ is_chunk_of_cache setting.now slabs.now cache address }
{
    let at = u128::from(address);
    slabs.iter().any(|slab| slab.cache() == cache && has_chunk_at(setting, slab, at))
}

/// An address is one that a cache may hand out.
fn is_choice(setting: &Setting, kept: &Kept, cache: u32, address: u64) -> bool
    ensures { result ≡ is_choice setting.now (state_kept setting.now kept.now) cache address }
{
    is_chunk_of_cache(setting, &kept.slabs, cache, address)
        && held_at(&kept.live, u128::from(address)).is_none()
}

/// Each chunk of a slab lives.
fn is_all_live(setting: &Setting, live: &[LiveBuffer], slab: &HeapSlab) -> bool
    ensures { result ≡ is_all_live setting.now live.now slab.now }
{
    let rounds = geometry_of(setting, slab.cache()).rounds;
    (0..rounds).all(|index| held_at(live, start_of(setting, slab, index)).is_some())
}

/// Each chunk of each slab of a cache lives.
fn are_all_live(setting: &Setting, kept: &Kept, cache: u32) -> bool
    ensures { result ≡ are_all_live setting.now (state_kept setting.now kept.now) cache }
{
    let live = kept.live.as_slice();
    kept.slabs.iter().all(|slab| slab.cache() != cache || is_all_live(setting, live, slab))
}

/// A cache has nothing to hand out.
fn is_cache_full(setting: &Setting, kept: &Kept, cache: u32) -> bool
    ensures { result ≡ is_cache_full setting.now (state_kept setting.now kept.now) cache }
{
    let pages = u64::from(geometry_of(setting, cache).pages);
    are_all_live(setting, kept, cache) && !has_run(setting, kept, pages)
}

/// An address was a choice of the cache, and the report is that of its chunk.
fn is_chosen(
    alloc: Global,
    setting: &Setting,
    kept: &Kept,
    cache: u32,
    address: u64,
    report: Report,
) -> Result<bool, NoMemory>
    ensures { IfOk result (λ is. IsTrue is ↔ (IsChoice setting.now (state_kept setting.now kept.now) cache address
        × (report ≡ report_at setting.now (state_kept setting.now kept.now) address))) }
{
    setting.settled();
    let found = finding_at(alloc, setting, kept, address, State::Free)?;
    Ok(is_choice(setting, kept, cache, address) && report == report_of(found))
}

/// The answer to an allocation from a cache is allowed.
fn is_cache_reply(
    alloc: Global,
    setting: &Setting,
    kept: &Kept,
    cache: u32,
    reply: &Reply,
) -> Result<bool, NoMemory>
    ensures { IfOk result (λ is. IsTrue is
        ↔ IsCacheReply setting.now (state_kept setting.now kept.now) cache reply.now) }
{
    setting.settled();
    match reply {
        Reply::At { address, report } => is_chosen(alloc, setting, kept, cache, *address, *report),
        Reply::NoSpace => Ok(is_cache_full(setting, kept, cache)),
        _ => Ok(false),
    }
}

/// The answer to an allocation of whole pages is allowed.
fn is_large_reply(setting: &Setting, kept: &Kept, size: u32, reply: &Reply) -> bool
    requires { 0 < size }
    ensures { IsTrue result ↔ IsLargeReply setting.now (state_kept setting.now kept.now) size reply.now }
{
    let pages = pages_for(u64::from(size));
    match reply {
        Reply::At { address, report } => {
            *report == Report::Clean && is_free_run(setting, kept, pages, *address)
        }
        Reply::NoSpace => !has_run(setting, kept, pages),
        _ => false,
    }
}

/// The answer to an allocation of a size is allowed.
fn is_alloc_reply(
    alloc: Global,
    setting: &Setting,
    kept: &Kept,
    size: u32,
    reply: &Reply,
) -> Result<bool, NoMemory>
    ensures { IfOk result (λ is. IsTrue is
        ↔ IsAllocReply setting.now (state_kept setting.now kept.now) size reply.now) }
{
    if size == 0 {
        return Ok(*reply == Reply::Null);
    }
    match class_of(u64::from(size)) {
        Some(class) => is_cache_reply(alloc, setting, kept, class, reply),
        None => Ok(is_large_reply(setting, kept, size, reply)),
    }
}

fn range_answer(word: u64, mapped: bool, done: Reply) -> Reply
    ensures { result ≡ range_answer word mapped done }
{
    if word == 0 {
        Reply::Null
    } else if mapped {
        done
    } else {
        Reply::Fault
    }
}

/// The answer to a store of so many bytes behind a slot's word.
fn store_answer(setting: &Setting, kept: &Kept, word: u64, offset: u32, count: usize) -> Reply
    ensures { result ≡ store_answer setting.now (state_kept setting.now kept.now) word offset count }
{
    let at = u128::from(word) + u128::from(offset);
    range_answer(word, is_mapped_range(setting, kept, at, count), Reply::Ok)
}

/// The answer to a load behind a slot's word.
fn load_answer(setting: &Setting, kept: &Kept, word: u64, offset: u32) -> Reply
    ensures { result ≡ load_answer setting.now (state_kept setting.now kept.now) word offset }
{
    let at = u128::from(word) + u128::from(offset);
    let loaded = word_left(setting, &kept.writes, at);
    range_answer(
        word,
        is_mapped_range(setting, kept, at, 8),
        Reply::Word(loaded),
    )
}

/// An answer is the one that is due.
fn is_due(reply: &Reply, due: &Reply) -> bool
    ensures { IsTrue result ↔ (reply.now ≡ due.now) }
{
    *reply == *due
}

/// The answer is one that is allowed to a call of a thread.
pub fn is_reply(
    alloc: Global,
    setting: &Setting,
    kept: &Kept,
    thread: u32,
    op: &Op,
    reply: &Reply,
) -> Result<bool, NoMemory>
    ensures { IfOk result (λ is. IsTrue is
        ↔ IsReply setting.now (state_kept setting.now kept.now) thread op.now reply.now) }
{
    match op {
        Op::Alloc { size, .. } | Op::Zalloc { size, .. } => {
            is_alloc_reply(alloc, setting, kept, *size, reply)
        }
        Op::CacheAlloc { cache, .. } => is_cache_reply(alloc, setting, kept, *cache, reply),
        Op::Free { slot, .. } | Op::CacheFree { slot, .. } => {
            let word = kept.slot_word(setting, thread, *slot);
            let due = free_answer(alloc, setting, kept, op, word)?;
            Ok(is_due(reply, &due))
        }
        Op::Store {
            slot,
            offset,
            bytes,
        } => {
            let word = kept.slot_word(setting, thread, *slot);
            let due = store_answer(setting, kept, word, *offset, bytes.as_slice().len());
            Ok(is_due(reply, &due))
        }
        Op::Link { slot, offset, .. } => {
            let word = kept.slot_word(setting, thread, *slot);
            let due = store_answer(setting, kept, word, *offset, 8);
            Ok(is_due(reply, &due))
        }
        Op::Load { slot, offset, .. } => {
            let word = kept.slot_word(setting, thread, *slot);
            let due = load_answer(setting, kept, word, *offset);
            Ok(is_due(reply, &due))
        }
        Op::Copy { .. } | Op::Clear { .. } | Op::Reap => Ok(is_due(reply, &Reply::Ok)),
    }
}
