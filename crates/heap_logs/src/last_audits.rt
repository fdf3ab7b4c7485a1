ghost use Rattle.std.specs.Prelude.{◌≡◌, ℕ, ◌++◌, ◌<◌, ◌+◌, ◌^◌, All, IfOk, OnOk, length, filter_map, option_map, zip};
ghost use Rattle.umem_options.specs.declared.options.Options.{Options as OptionsData};
ghost use Rattle.heap_logs.specs.Audits.{audit_record, audits_by, chunks_in};
ghost use Rattle.heap_logs.specs.LastActs.{TellsLast, told_by};
ghost use Rattle.heap_logs.specs.Transactions.{transaction_of, transactions_by};

use crate::act::Act;
use crate::chunk_range::ChunkRange;
use crate::last_transactions::transaction;
use crate::push_some::push_some;
use core_format::AuditItem;
use plain_heap::{Body, Entry};
use std::alloc::Global;
use std::collections::HashMap;
use trans_log::Trans;
use umem_base::NoMemory;
use umem_options::Options;

/// The last transaction of each chunk that has one, of the chunks of some ranges, one range behind the other, by the
/// act of each entry. Without audit there are none. Of a run they are the audits of umem_debug(3MALLOC).
pub fn audits(
    alloc: Global,
    options: &Options,
    cpus: u32,
    entries: &[Entry],
    acts: &[Option<Act>],
    standing: &[ChunkRange],
) -> Result<Vec<AuditItem>, NoMemory>
    requires cpus { 0 < cpus }
    requires acts { length acts.now ≡ length entries.now }
    requires chunks { All (λ range. range.first + range.count < 2 ^ 32) standing.now }
    ensures { IfOk result (λ items. items.items
        ≡ audits_by (transactions_by options.now cpus entries.now acts.now) standing.now) }
{
    if !options.has_audit() {
        return Ok(Vec::new(alloc));
    }
    let table = last_entries(alloc, entries, acts)?;
    let mut items = Vec::new(alloc);
    for range in standing {
        push_audits(
            alloc, options, cpus, entries, acts, &table, range, &mut items,
        )?;
    }
    Ok(items)
}

/// Which entry made the last transaction of each chunk.
fn last_entries(
    alloc: Global,
    entries: &[Entry],
    acts: &[Option<Act>],
) -> Result<HashMap<u32, usize>, NoMemory>
    requires { length acts.now ≡ length entries.now }
    ensures { IfOk result (λ table. (options : OptionsData) (cpus : ℕ)
        → TellsLast options cpus (zip entries.now acts.now) (zip entries.now acts.now) table.entries) }
{
    let mut table = HashMap::new(alloc);
    for (index, entry) in entries.iter().enumerate() {
        let Some(chunk) = acted_chunk(entry, acts[index]) else {
            continue;
        };
        table.insert(chunk, index)?;
    }
    Ok(table)
}

/// The chunk on which an entry acted, if it is a call that did.
fn acted_chunk(entry: &Entry, act: Option<Act>) -> Option<u32>
    ensures { (options : OptionsData) (cpus : ℕ)
        → result ≡ option_map (λ last. last.chunk) (transaction_of options cpus (entry.now, act)) }
{
    match &entry.body {
        Body::Call { .. } => act.map(|act| act.chunk),
        Body::Grow { .. } | Body::Shrink { .. } => None,
    }
}

/// Pushes the audits of the chunks of a range.
fn push_audits(
    alloc: Global,
    options: &Options,
    cpus: u32,
    entries: &[Entry],
    acts: &[Option<Act>],
    table: &HashMap<u32, usize>,
    range: &ChunkRange,
    items: &mut Vec<AuditItem>,
) -> Result<(), NoMemory>
    requires cpus { 0 < cpus }
    requires acts { length acts.now ≡ length entries.now }
    requires chunks { range.now.first + range.now.count < 2 ^ 32 }
    ensures { OnOk result (items.new.items ≡ items.old.items
        ++ filter_map (λ chunk. option_map audit_record (told_by options.now cpus (zip entries.now acts.now)
        table.now.entries chunk)) (chunks_in range.now)) }
{
    for chunk in range.first..range.first + range.count {
        push_some(
            items,
            audit(alloc, options, cpus, entries, acts, table, chunk)?,
        )?;
    }
    Ok(())
}

/// The audit of a chunk, by the table.
fn audit(
    alloc: Global,
    options: &Options,
    cpus: u32,
    entries: &[Entry],
    acts: &[Option<Act>],
    table: &HashMap<u32, usize>,
    chunk: u32,
) -> Result<Option<AuditItem>, NoMemory>
    requires cpus { 0 < cpus }
    requires acts { length acts.now ≡ length entries.now }
    ensures { IfOk result (λ item. item ≡ option_map audit_record (told_by options.now cpus
        (zip entries.now acts.now) table.now.entries chunk)) }
{
    let Some(index) = table.get(&chunk) else {
        return Ok(None);
    };
    let Some(entry) = entries.get(*index) else {
        return Ok(None);
    };
    let last = transaction(alloc, options, cpus, entry, acts[*index])?;
    Ok(audit_item(last))
}

/// What an audit keeps of a transaction, if there is one.
fn audit_item(last: Option<Trans>) -> Option<AuditItem>
    ensures { result ≡ option_map audit_record last }
{
    match last {
        None => None,
        Some(last) => Some(AuditItem {
            chunk: last.chunk,
            thread: last.thread,
            time: last.time,
            stack: last.stack,
        }),
    }
}
