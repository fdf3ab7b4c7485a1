ghost use Rattle.std.specs.Prelude.{◌≡◌, ◌<◌, ◌≤◌, ◌++◌, ℕ, IfOk, OnOk, length, slice_index};
ghost use Rattle.std.specs.List.{enumerate_from, flat_map};
ghost use Rattle.case_table.specs.declared.limits.TheConstants.{MOST_CACHES};
ghost use Rattle.heap_view.specs.Layout.{IsLaidOut};
ghost use Rattle.dcmd.specs.CacheLines.{cache_line, cache_text, chunk_count, class_flag, counted_line};

use crate::column::Column::{LeftWord, PaddedHex, RightDecimal, RightHex};
use crate::lines::put_line;
use bitflags::Flags;
use case_table::{CLASS_COUNT, cache_address};
use core_format::{CacheItem, Core};
use heap_view::{View, geometry_in};
use std::alloc::Global;
use umem_base::{NoMemory, Text};

/// The words over the columns of `::umem_cache`, those of mdb(1).
const CACHE_HEADING: &[u8] = b"    ADDR NAME                      FLAG  CFLAG  BUFSIZE  BUFTOTL\n";

/// How many chunks each cache has, by its index.
fn chunk_counts(alloc: Global, core: &Core) -> Result<Vec<u64>, NoMemory>
    requires { IsLaidOut core.now }
    ensures all { IfOk result (λ counts. length counts.items ≡ length core.now.caches) }
    ensures value { IfOk result (λ counts. (cache : ℕ) → cache < length core.now.caches
        → slice_index counts.items cache ≡ chunk_count core.now core.now.slabs cache) }
{
    let mut counts = vec![in alloc; 0; core.caches.as_slice().len()]?;
    for slab in core.slabs.as_slice() {
        counts[slab.cache as usize] += u64::from(geometry_in(core, slab.cache).rounds);
    }
    Ok(counts)
}

fn class_flag(cache: u32) -> u64
    ensures { result ≡ class_flag cache }
{
    if cache < CLASS_COUNT { 1 } else { 0 }
}

/// Appends the line of a cache that has so many chunks.
fn put_cache(
    out: &mut Text,
    core: &Core,
    cache: u32,
    item: &CacheItem,
    count: u64,
) -> Result<(), NoMemory>
    ensures { OnOk result (out.new ≡ out.old ++ counted_line core.now cache item.now count) }
{
    let first = RightHex {
        width: 8,
        value: cache_address(cache),
    };
    let name = LeftWord {
        width: 25,
        bytes: item.def.name.as_slice(),
    };
    let flags = PaddedHex {
        width: 4,
        value: u64::from(core.flags.bits()),
    };
    let class = PaddedHex {
        width: 6,
        value: class_flag(cache),
    };
    let size = RightDecimal {
        width: 8,
        value: u64::from(item.def.size),
    };
    let total = RightDecimal {
        width: 8,
        value: count,
    };
    put_line(out, first, &[name, flags, class, size, total])
}

/// Appends the line of each cache, by its number of chunks.
fn put_caches(out: &mut Text, core: &Core, counts: &[u64]) -> Result<(), NoMemory>
    requires few { length core.now.caches ≤ MOST_CACHES }
    requires all { length counts.now ≡ length core.now.caches }
    requires counted { (cache : ℕ) → cache < length core.now.caches
        → slice_index counts.now cache ≡ chunk_count core.now core.now.slabs cache }
    ensures { OnOk result
        (out.new ≡ out.old ++ flat_map (cache_line core.now) (enumerate_from 0 core.now.caches)) }
{
    for (index, item) in core.caches.as_slice().iter().enumerate() {
        put_cache(out, core, index as u32, item, counts[index])?;
    }
    Ok(())
}

/// What `::umem_cache` answers. The chunks of all caches are counted in one pass over the slabs.
pub(crate) fn cache_text(alloc: Global, view: &View) -> Result<Text, NoMemory>
    ensures { IfOk result (λ text. text ≡ cache_text view.now) }
{
    let core = view.core();
    let counts = chunk_counts(alloc, core)?;
    let mut out = Text::new(alloc);
    out.push_slice(CACHE_HEADING)?;
    put_caches(&mut out, core, &counts)?;
    Ok(out)
}
