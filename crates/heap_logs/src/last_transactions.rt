ghost use Rattle.std.specs.Prelude.{◌≡◌, ℕ, ◌<◌, IfOk, is_some, length, filter_map, take, zip, drop};
ghost use Rattle.umem_options.specs.declared.options.Options.{Options as OptionsData};
ghost use Rattle.trans_log.specs.Last.{last_of};
ghost use Rattle.heap_logs.specs.Transactions.{transaction_kind, transaction_of, transactions_by};

use crate::act::Act;
use crate::push_some::push_some;
use plain_heap::{Body, Entry};
use script::Op;
use std::alloc::Global;
use trans_log::{ALLOCATION, FREE, Trans};
use umem_base::{NoMemory, Sequence};
use umem_options::Options;

/// The last transactions of a history, `capacity` at most, oldest first, by the act of each of its entries. Without
/// audit there are none. Of a run it is the transaction log of umem_debug(3MALLOC).
pub fn transactions(
    alloc: Global,
    options: &Options,
    cpus: u32,
    capacity: u32,
    entries: &[Entry],
    acts: &[Option<Act>],
) -> Result<Vec<Trans>, NoMemory>
    requires cpus { 0 < cpus }
    requires acts { length acts.now ≡ length entries.now }
    ensures { IfOk result (λ items. items.items
        ≡ last_of capacity (transactions_by options.now cpus entries.now acts.now)) }
{
    if !options.has_audit() {
        return Ok(Vec::new(alloc));
    }
    let count = count_transactions(entries, acts);
    let passed = count.saturating_sub(capacity as usize);
    transactions_behind(alloc, options, cpus, passed, entries, acts)
}

/// How many transactions there are.
fn count_transactions(entries: &[Entry], acts: &[Option<Act>]) -> usize
    requires { length acts.now ≡ length entries.now }
    ensures { (options : OptionsData) (cpus : ℕ)
        → result ≡ length (filter_map (transaction_of options cpus) (zip entries.now acts.now)) }
{
    let mut count = 0;
    for (index, entry) in entries.iter().enumerate() {
        count += usize::from(is_transaction(entry, acts[index]));
    }
    count
}

/// The transactions behind the first ones, so many.
fn transactions_behind(
    alloc: Global,
    options: &Options,
    cpus: u32,
    passed: usize,
    entries: &[Entry],
    acts: &[Option<Act>],
) -> Result<Vec<Trans>, NoMemory>
    requires cpus { 0 < cpus }
    requires acts { length acts.now ≡ length entries.now }
    ensures { IfOk result (λ items. items.items
        ≡ drop passed (filter_map (transaction_of options.now cpus) (zip entries.now acts.now))) }
{
    let mut left = passed;
    let mut items = Vec::new(alloc);
    for (index, entry) in entries.iter().enumerate() {
        if left > 0 {
            left -= usize::from(is_transaction(entry, acts[index]));
            continue;
        }
        push_some(
            &mut items,
            transaction(alloc, options, cpus, entry, acts[index])?,
        )?;
    }
    Ok(items)
}

/// The entry is a call that acted on a chunk.
fn is_transaction(entry: &Entry, act: Option<Act>) -> bool
    ensures { (options : OptionsData) (cpus : ℕ) → result ≡ is_some (transaction_of options cpus (entry.now, act)) }
{
    match &entry.body {
        Body::Call { .. } => act.is_some(),
        Body::Grow { .. } | Body::Shrink { .. } => false,
    }
}

/// The transaction of an entry, if it is a call that acted on a chunk.
pub fn transaction(
    alloc: Global,
    options: &Options,
    cpus: u32,
    entry: &Entry,
    act: Option<Act>,
) -> Result<Option<Trans>, NoMemory>
    requires { 0 < cpus }
    ensures { IfOk result (λ item. item ≡ transaction_of options.now cpus (entry.now, act)) }
{
    let Some(act) = act else {
        return Ok(None);
    };
    let Body::Call { op, frames, .. } = &entry.body else {
        return Ok(None);
    };
    Ok(Some(Trans {
        kind: kind(op),
        cpu: entry.thread % cpus,
        thread: entry.thread,
        chunk: act.chunk,
        address: act.address,
        time: u64::from(entry.number),
        stack: first_frames(alloc, options, frames)?,
    }))
}

/// The kind of a transaction, by the operation that made it.
fn kind(op: &Op) -> u32
    ensures { result ≡ transaction_kind op.now }
{
    match op {
        Op::Alloc { .. } | Op::Zalloc { .. } | Op::CacheAlloc { .. } => ALLOCATION,
        Op::Free { .. }
        | Op::CacheFree { .. }
        | Op::Copy { .. }
        | Op::Clear { .. }
        | Op::Store { .. }
        | Op::Link { .. }
        | Op::Load { .. }
        | Op::Reap => FREE,
    }
}

/// The first frames of a call, as many as the option says.
fn first_frames(
    alloc: Global,
    options: &Options,
    frames: &Sequence<u64>,
) -> Result<Sequence<u64>, NoMemory>
    ensures { IfOk result (λ kept. kept ≡ take options.now.frames frames.now) }
{
    let all = frames.as_slice();
    let count = all.len().min(options.frames as usize);
    let mut kept = Vec::new(alloc);
    kept.extend_from_slice(&all[..count])?;
    Ok(Sequence::new(kept))
}
