ghost use Rattle.std.specs.Prelude.{◌≡◌, ◌+◌, ◌≤◌, ◌<◌, ◌^◌, [], drop, length, IfOk};
ghost use Rattle.core_format.specs.Items.{items_at};
ghost use Rattle.core_format.specs.PageBytes.{large_bytes_at, large_page_at, lower_count, pages_at, slab_bytes_at};
ghost use Rattle.core_format.specs.Sections.{ReadsItem};
ghost use Rattle.core_format.specs.Reader.{ReadsAs};

use crate::cache_shape::CacheShape;
use crate::core_fault::CoreFault;
use crate::items::{LargeItem, SlabItem};
use crate::reader::Reader;
use crate::slab_table::shape_in;
use std::alloc::Global;
use umem_base::{Sequence, pages_for};

/// How many of the large buffers stand below an address, one after the other.
pub fn lower_count(large: &[LargeItem], base: u64) -> usize
    ensures value { result ≡ lower_count base large.now }
    ensures within { result ≤ length large.now }
{
    let mut count = 0;
    for item in large {
        if item.base >= base {
            return count;
        }
        count += 1;
    }
    count
}

/// A large buffer with its bytes.
#[tactic(auto, unfolding(crate::specs::PageBytes::large_bytes_at))]
fn large_page(alloc: Global, reader: &mut Reader, item: &LargeItem) -> Result<LargeItem, CoreFault>
    ensures { ReadsItem result reader.new (large_bytes_at item.now reader.old) }
{
    let bytes = reader.take_pages(alloc, pages_for(item.size))?;
    Ok(LargeItem {
        base: item.base,
        size: item.size,
        bytes: Sequence::new(bytes),
    })
}

/// So many large buffers with their bytes, behind those that have theirs.
fn large_pages(
    alloc: Global,
    reader: &mut Reader,
    large: &[LargeItem],
    before: Vec<LargeItem>,
    count: usize,
) -> Result<Vec<LargeItem>, CoreFault>
    requires { length before.items + count ≤ length large.now }
    ensures read { ReadsAs (λ pages. (pages.items, reader.new)) result
        (items_at (large_page_at large.now) count before.items reader.old) }
    ensures many { IfOk result (λ pages. length pages.items ≡ length before.items + count) }
{
    let mut pages = before;
    for _ in 0..count {
        let item = large_page(alloc, reader, &large[pages.len()])?;
        pages.push(item)?;
    }
    Ok(pages)
}

/// A slab with its bytes.
#[tactic(auto, unfolding(crate::specs::PageBytes::slab_bytes_at))]
fn slab_page(
    alloc: Global,
    reader: &mut Reader,
    shapes: &[CacheShape],
    slab: SlabItem,
) -> Result<SlabItem, CoreFault>
    ensures { ReadsItem result reader.new (slab_bytes_at shapes.now slab reader.old) }
{
    let shape = shape_in(shapes, slab.cache);
    let bytes = reader.take_pages(alloc, u64::from(shape.pages))?;
    Ok(SlabItem {
        bytes: Sequence::new(bytes),
        ..slab
    })
}

/// The slabs and the large buffers with their bytes.
pub fn pages(
    alloc: Global,
    reader: &mut Reader,
    shapes: &[CacheShape],
    slabs: Vec<SlabItem>,
    large: &[LargeItem],
) -> Result<(Vec<SlabItem>, Vec<LargeItem>), CoreFault>
    ensures { ReadsAs (λ pages. ((pages.0.items, pages.1.items), reader.new)) result
        (pages_at shapes.now large.now slabs.items [] [] reader.old) }
{
    let mut slab_pages = Vec::new(alloc);
    let mut done = Vec::new(alloc);
    for slab in slabs {
        let lower = lower_count(&large[done.len()..], slab.base);
        done = large_pages(alloc, reader, large, done, lower)?;
        let page = slab_page(alloc, reader, shapes, slab)?;
        slab_pages.push(page)?;
    }
    let upper = large.len() - done.len();
    let large = large_pages(alloc, reader, large, done, upper)?;
    Ok((slab_pages, large))
}
