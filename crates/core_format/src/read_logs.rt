ghost use Rattle.std.specs.Prelude.{◌≡◌, ◌&&◌, ◌||◌, ◌==◌, ◌*◌, ◌+◌, [], nat_le};
ghost use Rattle.std.specs.Option.{option_map};
ghost use Rattle.trans_log.specs.declared.kinds.TheConstants.{ALLOCATION, FREE};
ghost use Rattle.core_format.specs.Items.{items_at, last_of_list};
ghost use Rattle.core_format.specs.Logs.{audit_item_at, audit_widths, fail_item_at, fail_widths, is_in_arena, kept_bytes, saved_item_at, saved_widths, trans_item_at, trans_widths};
ghost use Rattle.core_format.specs.Sections.{ReadsItem, audit_in, audits_in, fails_in, saved_in, trans_in};
ghost use Rattle.core_format.specs.Reader.{ReadsAs};

use crate::core_fault::CoreFault;
use crate::fault::Fault;
use crate::header::Header;
use crate::items::AuditItem;
use crate::read_header::has_bit;
use crate::read_slabs::{arena_end, is_above};
use crate::read_words::words;
use crate::reader::{Reader, rule};
use crate::slab_table::SlabTable;
use case_table::{Layout, MOST_CACHE_BYTES, MOST_THREADS, take_fields};
use std::alloc::Global;
use trans_log::{ALLOCATION, FREE, Fail, Saved, Trans};
use umem_base::{ARENA_BASE, Sequence, Text};
use umem_options::{DEFAULT_CONTENTS, DebugFlags};

fn audit_layout() -> Layout<4>
    ensures { result ≡ audit_widths }
{
    Layout::new([4, 4, 8, 4]).unwrap()
}

fn last_chunk(audits: &[AuditItem]) -> Option<u64>
    ensures { result ≡ option_map (λ a. a.chunk) (last_of_list audits.now) }
{
    let last = audits.last()?;
    Some(u64::from(last.chunk))
}

#[tactic(auto, unfolding(crate::specs::Logs::audit_item_at))]
fn audit(
    alloc: Global,
    reader: &mut Reader,
    header: &Header,
    table: &SlabTable,
    before: &[AuditItem],
) -> Result<AuditItem, CoreFault>
    ensures { ReadsItem result reader.new (audit_in header.now table.now before.now reader.old) }
{
    let start = reader.at();
    take_fields!(reader, &audit_layout(), start => chunk, thread, time, depth);
    rule(table.holds_chunk(chunk as u32), start, Fault::BadAudit)?;
    rule(is_above(last_chunk(before), chunk), start, Fault::BadAudit)?;
    rule(thread < u64::from(MOST_THREADS), start + 4, Fault::BadAudit)?;
    rule(time < header.entries, start + 8, Fault::BadAudit)?;
    rule(
        depth <= u64::from(header.frames),
        start + 16,
        Fault::BadAudit,
    )?;
    let frames = words(alloc, reader, depth as u32)?;
    Ok(AuditItem {
        chunk: chunk as u32,
        thread: thread as u32,
        time,
        stack: Sequence::new(frames),
    })
}

/// The audits of a core that has these slabs.
pub fn audits(
    alloc: Global,
    reader: &mut Reader,
    header: &Header,
    table: &SlabTable,
) -> Result<Vec<AuditItem>, CoreFault>
    ensures { ReadsAs (λ audits. (audits.items, reader.new)) result (audits_in header.now table.now reader.old) }
{
    let mut audits = Vec::new(alloc);
    for _ in 0..header.audits {
        let audit = audit(alloc, reader, header, table, &audits)?;
        audits.push(audit)?;
    }
    Ok(audits)
}

fn trans_layout() -> Layout<7>
    ensures { result ≡ trans_widths }
{
    Layout::new([4, 4, 4, 4, 8, 8, 4]).unwrap()
}

fn is_in_arena(version: u32, address: u64) -> bool
    ensures { result ≡ is_in_arena version address }
{
    ARENA_BASE <= address && address < arena_end(version)
}

fn is_kind(kind: u64) -> bool
    ensures { result ≡ (kind == ALLOCATION || kind == FREE) }
{
    kind == u64::from(ALLOCATION) || kind == u64::from(FREE)
}

fn last_trans(trans: &[Trans]) -> Option<u64>
    ensures { result ≡ option_map (λ t. t.time) (last_of_list trans.now) }
{
    let last = trans.last()?;
    Some(last.time)
}

#[tactic(auto, unfolding(crate::specs::Logs::trans_item_at))]
fn transaction(
    alloc: Global,
    reader: &mut Reader,
    header: &Header,
    before: &[Trans],
) -> Result<Trans, CoreFault>
    ensures { ReadsItem result reader.new (trans_item_at header.now before.now reader.old) }
{
    let start = reader.at();
    take_fields!(reader, &trans_layout(), start => kind, cpu, thread, chunk, address, time, depth);
    rule(is_kind(kind), start, Fault::BadLog)?;
    rule(cpu < u64::from(header.cpus), start + 4, Fault::BadLog)?;
    rule(thread < u64::from(MOST_THREADS), start + 8, Fault::BadLog)?;
    rule(
        chunk < u64::from(header.next_chunk),
        start + 12,
        Fault::BadLog,
    )?;
    rule(
        is_in_arena(header.version, address),
        start + 16,
        Fault::BadLog,
    )?;
    rule(time < header.entries, start + 24, Fault::BadLog)?;
    rule(
        is_above(last_trans(before), time),
        start + 24,
        Fault::BadLog,
    )?;
    rule(depth <= u64::from(header.frames), start + 32, Fault::BadLog)?;
    let frames = words(alloc, reader, depth as u32)?;
    Ok(Trans {
        kind: kind as u32,
        cpu: cpu as u32,
        thread: thread as u32,
        chunk: chunk as u32,
        address,
        time,
        stack: Sequence::new(frames),
    })
}

/// The transaction log.
pub fn transactions(
    alloc: Global,
    reader: &mut Reader,
    header: &Header,
) -> Result<Vec<Trans>, CoreFault>
    ensures { ReadsAs (λ trans. (trans.items, reader.new)) result (trans_in header.now reader.old) }
{
    let mut trans = Vec::new(alloc);
    for _ in 0..header.trans {
        let item = transaction(alloc, reader, header, &trans)?;
        trans.push(item)?;
    }
    Ok(trans)
}

fn fail_layout() -> Layout<4>
    ensures { result ≡ fail_widths }
{
    Layout::new([4, 4, 8, 8]).unwrap()
}

fn is_request(size: u64) -> bool
    ensures { result ≡ (nat_le 1 size && nat_le size MOST_CACHE_BYTES) }
{
    1 <= size && size <= u64::from(MOST_CACHE_BYTES)
}

fn last_fail(fails: &[Fail]) -> Option<u64>
    ensures { result ≡ option_map (λ f. f.time) (last_of_list fails.now) }
{
    let last = fails.last()?;
    Some(last.time)
}

#[tactic(auto, unfolding(crate::specs::Logs::fail_item_at))]
fn fail(reader: &mut Reader, header: &Header, before: &[Fail]) -> Result<Fail, CoreFault>
    ensures { ReadsItem result reader.new (fail_item_at header.now before.now reader.old) }
{
    let start = reader.at();
    take_fields!(reader, &fail_layout(), start => thread, cache, size, time);
    rule(thread < u64::from(MOST_THREADS), start, Fault::BadLog)?;
    rule(cache < u64::from(header.caches), start + 4, Fault::BadLog)?;
    rule(is_request(size), start + 8, Fault::BadLog)?;
    rule(time < header.entries, start + 16, Fault::BadLog)?;
    rule(is_above(last_fail(before), time), start + 16, Fault::BadLog)?;
    Ok(Fail {
        thread: thread as u32,
        cache: cache as u32,
        size,
        time,
    })
}

/// The fail log.
pub fn fails(alloc: Global, reader: &mut Reader, header: &Header) -> Result<Vec<Fail>, CoreFault>
    ensures { ReadsAs (λ fails. (fails.items, reader.new)) result (fails_in header.now reader.old) }
{
    let mut fails = Vec::new(alloc);
    for _ in 0..header.fails {
        let item = fail(reader, header, &fails)?;
        fails.push(item)?;
    }
    Ok(fails)
}

fn saved_layout() -> Layout<3>
    ensures { result ≡ saved_widths }
{
    Layout::new([8, 4, 4]).unwrap()
}

fn kept_bytes(header: &Header) -> u32
    ensures { result ≡ kept_bytes header.now }
{
    if has_bit(header.flags, DebugFlags::CONTENTS) {
        header.contents
    } else {
        DEFAULT_CONTENTS
    }
}

fn last_saved(saved: &[Saved]) -> Option<u64>
    ensures { result ≡ option_map (λ s. s.time) (last_of_list saved.now) }
{
    let last = saved.last()?;
    Some(last.time)
}

#[tactic(auto, unfolding(crate::specs::Logs::saved_item_at))]
fn saved_item(
    alloc: Global,
    reader: &mut Reader,
    header: &Header,
    before: &[Saved],
) -> Result<Saved, CoreFault>
    ensures { ReadsItem result reader.new (saved_item_at header.now before.now reader.old) }
{
    let start = reader.at();
    take_fields!(reader, &saved_layout(), start => time, chunk, length);
    rule(time < header.entries, start, Fault::BadLog)?;
    rule(is_above(last_saved(before), time), start, Fault::BadLog)?;
    rule(
        chunk < u64::from(header.next_chunk),
        start + 8,
        Fault::BadLog,
    )?;
    rule(
        length <= u64::from(kept_bytes(header)),
        start + 12,
        Fault::BadLog,
    )?;
    let bytes = reader.take_slice(length as usize)?;
    Ok(Saved {
        time,
        chunk: chunk as u32,
        bytes: Text::from_slice(alloc, bytes)?,
    })
}

/// The contents log, which has so many items.
pub fn saved_items(
    alloc: Global,
    reader: &mut Reader,
    header: &Header,
    count: u32,
) -> Result<Vec<Saved>, CoreFault>
    ensures { ReadsAs (λ saved. (saved.items, reader.new)) result (saved_in header.now count reader.old) }
{
    let mut saved = Vec::new(alloc);
    for _ in 0..count {
        let item = saved_item(alloc, reader, header, &saved)?;
        saved.push(item)?;
    }
    Ok(saved)
}
