ghost use Rattle.std.specs.Prelude.{◌≡◌, ◌≤◌, ◌||◌, ◌∷◌, [], false, IfOk};
ghost use Rattle.std.specs.List.{list_any};
ghost use Rattle.std.specs.Option.{option_map};
ghost use Rattle.core_format.specs.Items.{items_at, last_of_list};
ghost use Rattle.core_format.specs.Sections.{all_large_in, large_in};
ghost use Rattle.core_format.specs.Reader.{ReadsAs};
ghost use Rattle.core_format.specs.Slabs.{large_end, large_item_at, meets_large, meets_some};

use crate::core_fault::CoreFault;
use crate::fault::Fault;
use crate::header::Header;
use crate::items::LargeItem;
use crate::large_table::LargeTable;
use crate::read_slabs::{ends_in_arena, is_above, is_arena_page};
use crate::reader::{Reader, rule};
use crate::slab_table::SlabTable;
use case_table::{Layout, MOST_CACHE_BYTES, take_fields};
use std::alloc::Global;
use umem_base::{PAGE_BYTES, Sequence, pages_for};

fn large_layout() -> Layout<2>
    ensures { result ≡ 8 ∷ 8 ∷ [] }
{
    Layout::new([8, 8]).unwrap()
}

fn last_base(large: &[LargeItem]) -> Option<u64>
    ensures { result ≡ option_map (λ l. l.base) (last_of_list large.now) }
{
    let last = large.last()?;
    Some(last.base)
}

fn meets_some(table: &SlabTable, large: &LargeTable, base: u64, past: u64) -> bool
    requires { base ≤ past }
    ensures { result ≡ meets_some table.now.shapes table.now.slabs large.now base past }
{
    table.meets_pages(base, past) || large.meets_pages(base, past)
}

/// The next large buffer, and the address past it.
#[tactic(auto, unfolding(crate::specs::Slabs::large_item_at))]
fn large_item(
    alloc: Global,
    reader: &mut Reader,
    header: &Header,
    table: &SlabTable,
    large: &LargeTable,
) -> Result<(LargeItem, u64), CoreFault>
    ensures read { ReadsAs (λ item. (item.0, reader.new)) result (large_in header.now table.now large.now reader.old) }
    ensures past { IfOk result (λ item. item.1 ≡ large_end item.0) }
    ensures free { IfOk result (λ item. list_any (meets_large item.0.base item.1) large.now ≡ false) }
{
    let version = header.version;
    let start = reader.at();
    take_fields!(reader, &large_layout(), start => base, size);
    rule(is_arena_page(version, base), start, Fault::BadSpan)?;
    rule(
        is_above(last_base(large.large()), base),
        start,
        Fault::Unsorted,
    )?;
    rule(
        u64::from(MOST_CACHE_BYTES) < size,
        start + 8,
        Fault::BadSpan,
    )?;
    let pages = pages_for(size);
    rule(
        ends_in_arena(version, base, pages),
        start + 8,
        Fault::BadSpan,
    )?;
    let past = base + PAGE_BYTES * pages;
    let is_free = !meets_some(table, large, base, past);
    rule(is_free, start, Fault::Overlap)?;
    let item = LargeItem {
        base,
        size,
        bytes: Sequence::new(Vec::new(alloc)),
    };
    Ok((item, past))
}

/// The large buffers of a core that has these slabs.
pub fn large_buffers(
    alloc: Global,
    reader: &mut Reader,
    header: &Header,
    table: &SlabTable,
) -> Result<Vec<LargeItem>, CoreFault>
    ensures { ReadsAs (λ large. (large.items, reader.new)) result (all_large_in header.now table.now reader.old) }
{
    let mut large = LargeTable::new(alloc);
    for _ in 0..header.large {
        let (item, past) = large_item(alloc, reader, header, table, &large)?;
        let more = large.with_item(item, past)?;
        large = more;
    }
    Ok(large.into_vec())
}
