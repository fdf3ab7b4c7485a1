ghost use Rattle.std.specs.Prelude.{◌≡◌, ◌++◌, OnOk};
ghost use Rattle.core_format.specs.Spelling.{large_bytes, spelled_pages};

use crate::items::{LargeItem, SlabItem};
use crate::read_pages::lower_count;
use umem_base::NoMemory;

/// Appends the bytes of large buffers.
fn put_large_bytes(out: &mut Vec<u8>, large: &[LargeItem]) -> Result<(), NoMemory>
    ensures { OnOk result (out.new.items ≡ out.old.items ++ large_bytes large.now) }
{
    for item in large {
        out.extend_from_slice(item.bytes.as_slice())?;
    }
    Ok(())
}

/// Appends the bytes of all pages by rising base.
pub fn put_pages(out: &mut Vec<u8>, slabs: &[SlabItem], large: &[LargeItem]) -> Result<(), NoMemory>
    ensures { OnOk result (out.new.items ≡ out.old.items ++ spelled_pages slabs.now large.now) }
{
    let mut left = large;
    for slab in slabs {
        let (lower, upper) = left.split_at(lower_count(left, slab.base));
        put_large_bytes(out, lower)?;
        out.extend_from_slice(slab.bytes.as_slice())?;
        left = upper;
    }
    put_large_bytes(out, left)
}
