ghost use Rattle.std.specs.Prelude.{◌≡◌, ◌+◌, ◌<◌, ◌≤◌, ◌^◌, ◌&&◌, ◌*◌, ◌∷◌, [], false, nat_le, nat_lt, unwrap_or, IfOk, IsTrue, OnOk};
ghost use Rattle.std.specs.List.{list_any};
ghost use Rattle.std.specs.Option.{option_map};
ghost use Rattle.umem_base.specs.Roots.{arena_end, arena_pages};
ghost use Rattle.core_format.specs.Items.{is_above, is_unlike, items_at, last_of_list};
ghost use Rattle.core_format.specs.Sections.{ReadsItem, first_rules_in, meets_in, slab_in, slab_rules_in, slabs_in, table_end};
ghost use Rattle.core_format.specs.Reader.{ReadsAs};
ghost use Rattle.core_format.specs.Slabs.{ends_in_arena, first_rules, is_arena_page, is_colour, listed_at, meets_chunks, slab_end, slab_head_at, slab_item_at, slab_rules, slab_widths};
ghost use Rattle.core_format.specs.SlabTable.{FitsTable, IsRisingWithin};

use crate::cache_shape::CacheShape;
use crate::core_fault::CoreFault;
use crate::fault::Fault;
use crate::header::Header;
use crate::items::SlabItem;
use crate::reader::{Reader, rule};
use crate::slab_table::SlabTable;
use case_table::{Layout, take_fields};
use std::alloc::Global;
use umem_base::{ARENA_BASE, PAGE_BYTES, Sequence, arena_pages};

pub fn arena_end(version: u32) -> u64
    ensures { result ≡ ARENA_BASE + PAGE_BYTES * arena_pages version }
{
    ARENA_BASE + PAGE_BYTES * arena_pages(version)
}

/// Tells whether a page of the arena begins there.
pub fn is_arena_page(version: u32, base: u64) -> bool
    ensures value { result ≡ is_arena_page version base }
    ensures within { IsTrue result → base < ARENA_BASE + PAGE_BYTES * arena_pages version }
{
    base % PAGE_BYTES == 0 && ARENA_BASE <= base && base < arena_end(version)
}

/// Tells whether so many pages from there on end in the arena.
pub fn ends_in_arena(version: u32, base: u64, pages: u64) -> bool
    requires { base ≤ ARENA_BASE + PAGE_BYTES * arena_pages version }
    ensures { result ≡ ends_in_arena version base pages }
{
    pages <= (arena_end(version) - base) / PAGE_BYTES
}

/// Tells whether a number is above the one before it, if there is one.
pub fn is_above(before: Option<u64>, number: u64) -> bool
    ensures { result ≡ is_above before number }
{
    match before {
        Some(before) => before < number,
        None => true,
    }
}

fn is_unlike(before: Option<u64>, number: u64) -> bool
    ensures { result ≡ is_unlike before number }
{
    match before {
        Some(before) => before != number,
        None => true,
    }
}

fn chunk_layout() -> Layout<1>
    ensures { result ≡ 4 ∷ [] }
{
    Layout::new([4]).unwrap()
}

fn last_number(numbers: &[u32]) -> Option<u64>
    ensures { result ≡ last_of_list numbers.now }
{
    let last = numbers.last()?;
    Some(u64::from(*last))
}

fn is_within(low: u64, number: u64, past: u64) -> bool
    ensures { result ≡ (nat_le low number && nat_lt number past) }
{
    low <= number && number < past
}

/// The next chunk of a slab's list.
#[tactic(auto, unfolding(crate::specs::Slabs::listed_at))]
fn listed(reader: &mut Reader, first: u64, past: u64, before: &[u32]) -> Result<u32, CoreFault>
    ensures { ReadsItem result reader.new (listed_at first past before.now reader.old) }
{
    let start = reader.at();
    take_fields!(reader, &chunk_layout(), start => chunk);
    let last = last_number(before);
    rule(is_within(first, chunk, past), start, Fault::BadRound)?;
    rule(is_unlike(last, chunk), start, Fault::RoundTwice)?;
    rule(is_above(last, chunk), start, Fault::Unsorted)?;
    Ok(chunk as u32)
}

fn list(
    alloc: Global,
    reader: &mut Reader,
    first: u64,
    past: u64,
    count: u32,
) -> Result<Vec<u32>, CoreFault>
    ensures read { ReadsAs (λ list. (list.items, reader.new)) result
        (items_at (listed_at first past) count [] reader.old) }
    ensures rising { IfOk result (λ list. IsRisingWithin first past list.items) }
{
    let mut list = Vec::new(alloc);
    for _ in 0..count {
        let chunk = listed(reader, first, past, &list)?;
        list.push(chunk)?;
    }
    Ok(list)
}

fn slab_layout() -> Layout<5>
    ensures { result ≡ slab_widths }
{
    Layout::new([8, 4, 4, 4, 4]).unwrap()
}

fn is_colour(shape: &CacheShape, colour: u32) -> bool
    ensures { result ≡ is_colour shape.now colour }
{
    0 < shape.align && colour % shape.align == 0 && colour <= shape.leftover
}

fn last_base(slabs: &[SlabItem]) -> Option<u64>
    ensures { result ≡ option_map (λ s. s.base) (last_of_list slabs.now) }
{
    let last = slabs.last()?;
    Some(last.base)
}

/// The rules of a slab's base, cache and colour.
#[tactic(auto, unfolding(crate::specs::Slabs::slab_rules))]
fn check_slab(
    header: &Header,
    table: &SlabTable,
    slab: &SlabItem,
    start: usize,
) -> Result<(), CoreFault>
    requires { start < 2 ^ 63 }
    ensures rules { ReadsAs (λ _. tt) result (slab_rules_in header.now table.now slab.now start) }
    ensures behind { OnOk result (table_end table.now ≤ slab.now.base) }
    ensures within { OnOk result (slab_end table.now.shapes slab.now ≤ arena_end header.now.version) }
{
    let version = header.version;
    let shape = table.shape_at(slab.cache);
    let pages = u64::from(shape.pages);
    rule(is_arena_page(version, slab.base), start, Fault::BadSlab)?;
    rule(
        is_above(last_base(table.slabs()), slab.base),
        start,
        Fault::Unsorted,
    )?;
    rule(table.end() <= slab.base, start, Fault::Overlap)?;
    rule(slab.cache < header.caches, start + 8, Fault::BadSlab)?;
    rule(
        ends_in_arena(version, slab.base, pages),
        start + 8,
        Fault::BadSlab,
    )?;
    rule(is_colour(&shape, slab.colour), start + 12, Fault::BadSlab)
}

/// The rules of a slab's first chunk.
#[tactic(auto, unfolding(crate::specs::Slabs::first_rules))]
fn check_first(
    header: &Header,
    table: &SlabTable,
    first: u64,
    past: u64,
    offset: usize,
) -> Result<(), CoreFault>
    requires { first ≤ past }
    ensures rules { ReadsAs (λ _. tt) result (first_rules_in header.now table.now first past offset) }
    ensures free { OnOk result (meets_in table.now first past ≡ false) }
{
    rule(past <= u64::from(header.next_chunk), offset, Fault::BadSlab)?;
    let is_free = !table.meets_chunks(first, past);
    rule(is_free, offset, Fault::BadSlab)
}

/// The fields of a slab, and how many chunks stand in its list.
#[tactic(auto, unfolding(crate::specs::Slabs::slab_head_at))]
fn slab_head(alloc: Global, reader: &mut Reader) -> Result<(SlabItem, u32), CoreFault>
    ensures { ReadsItem result reader.new (slab_head_at reader.old) }
{
    let start = reader.at();
    take_fields!(reader, &slab_layout(), start => base, cache, colour, first, listed);
    let slab = SlabItem {
        base,
        cache: cache as u32,
        colour: colour as u32,
        first: first as u32,
        free: Sequence::new(Vec::new(alloc)),
        bytes: Sequence::new(Vec::new(alloc)),
    };
    Ok((slab, listed as u32))
}

/// The next slab, with its list.
#[tactic(auto, unfolding(crate::specs::Slabs::slab_item_at))]
fn slab(
    alloc: Global,
    reader: &mut Reader,
    header: &Header,
    table: &SlabTable,
) -> Result<SlabItem, CoreFault>
    ensures read { ReadsItem result reader.new (slab_in header.now table.now reader.old) }
    ensures fits { IfOk result (FitsTable table.now) }
{
    let start = reader.at();
    let (head, listed) = slab_head(alloc, reader)?;
    let shape = table.shape_at(head.cache);
    let first = u64::from(head.first);
    let past = first + u64::from(shape.rounds);
    check_slab(header, table, &head, start)?;
    check_first(header, table, first, past, start + 16)?;
    rule(listed <= shape.rounds, start + 20, Fault::BadLength)?;
    let free = list(alloc, reader, first, past, listed)?;
    Ok(SlabItem {
        free: Sequence::new(free),
        ..head
    })
}

/// The slabs of a core whose caches have these shapes.
pub fn slabs(
    alloc: Global,
    reader: &mut Reader,
    header: &Header,
    shapes: Vec<CacheShape>,
) -> Result<SlabTable, CoreFault>
    ensures read { ReadsAs (λ table. (table.slabs, reader.new)) result (slabs_in header.now shapes.items reader.old) }
    ensures shapes { IfOk result (λ table. table.shapes ≡ shapes.items) }
{
    let mut table = SlabTable::new(alloc, shapes);
    for _ in 0..header.slabs {
        let slab = slab(alloc, reader, header, &table)?;
        let more = table.with_slab(slab)?;
        table = more;
    }
    Ok(table)
}
