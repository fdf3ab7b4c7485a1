//! What lives at an address, and how a free of it is answered.

ghost use Rattle.std.specs.Prelude.{◌≡◌, ◌==◌, IfOk};
ghost use Rattle.std.specs.List.{list_any};
ghost use Rattle.plain_heap.specs.Frees.{refusal_of};
ghost use Rattle.plain_heap.specs.Replies.{finding_at, free_answer_in, refusal_by_cache, refusal_by_size};
ghost use Rattle.plain_heap.specs.State.{held_at};
ghost use Rattle.yardstick.specs.Kept.{state_kept};

use crate::bytes::bytes_left;
use crate::caches::shape_of;
use crate::kept::Kept;
use crate::live_buffer::LiveBuffer;
use crate::setting::Setting;
use crate::slabs::{number_of, slab_at};
use buftag::{Finding, State, first_broken};
use case_table::{CLASS_COUNT, TAG_BYTES};
use plain_heap::{Held, Reply};
use script::Op;
use std::alloc::Global;
use umem_base::NoMemory;

/// What lives at an address.
pub fn held_at(live: &[LiveBuffer], address: u128) -> Option<Held>
    ensures { result ≡ held_at live.now address }
{
    let found = live
        .iter()
        .find(|buffer| u128::from(buffer.address()) == address);
    found.map(LiveBuffer::held)
}

/// An allocation was answered with an address.
fn was_given(given: &[u64], address: u64) -> bool
    ensures { result ≡ list_any (λ one. one == address) given.now }
{
    given.iter().any(|one| *one == address)
}

/// The finding of the chunk that begins at an address, as one in a state.
pub fn finding_at(
    alloc: Global,
    setting: &Setting,
    kept: &Kept,
    address: u64,
    chunk: State,
) -> Result<Option<Finding>, NoMemory>
    ensures { IfOk result (λ found. found ≡ finding_at setting.now (state_kept setting.now kept.now) address chunk) }
{
    if !setting.guards() {
        return Ok(None);
    }
    let at = u128::from(address);
    let Some(slab) = slab_at(setting, &kept.slabs, at) else {
        return Ok(None);
    };
    let shape = shape_of(setting, slab.cache(), number_of(setting, &slab, at));
    let count = shape.content + TAG_BYTES;
    let bytes = bytes_left(alloc, setting, &kept.writes, at, count)?;
    Ok(first_broken(&bytes, &shape, chunk))
}

fn refusal_by_size(size: u32, held: &Held) -> Option<Reply>
    ensures { result ≡ refusal_by_size size held.now }
{
    if held.cache.is_some_and(|cache| cache >= CLASS_COUNT) {
        Some(Reply::BadCache)
    } else if held.size == size {
        None
    } else {
        Some(Reply::BadSize)
    }
}

fn refusal_by_cache(cache: u32, held: &Held) -> Option<Reply>
    ensures { result ≡ refusal_by_cache cache held.now }
{
    if held.cache == Some(cache) {
        None
    } else {
        Some(Reply::BadCache)
    }
}

/// Why a live buffer is not given back by a free, if it is not.
fn refusal_of(op: &Op, held: &Held) -> Option<Reply>
    ensures { result ≡ refusal_of op.now held.now }
{
    match op {
        Op::Free { size, .. } => refusal_by_size(*size, held),
        Op::CacheFree { cache, .. } => refusal_by_cache(*cache, held),
        _ => None,
    }
}

/// The answer to a free of a slot's word: the first that applies.
pub fn free_answer(
    alloc: Global,
    setting: &Setting,
    kept: &Kept,
    op: &Op,
    word: u64,
) -> Result<Reply, NoMemory>
    ensures { IfOk result (λ answer. answer
        ≡ free_answer_in setting.now (state_kept setting.now kept.now) word (refusal_of op.now)) }
{
    if word == 0 {
        return Ok(Reply::Null);
    }
    let Some(held) = held_at(&kept.live, u128::from(word)) else {
        return Ok(if was_given(&kept.given, word) {
            Reply::Dup
        } else {
            Reply::BadAddr
        });
    };
    if let Some(refusal) = refusal_of(op, &held) {
        return Ok(refusal);
    }
    if finding_at(alloc, setting, kept, word, State::Allocated)?.is_some() {
        Ok(Reply::Redzone)
    } else {
        Ok(Reply::Ok)
    }
}
