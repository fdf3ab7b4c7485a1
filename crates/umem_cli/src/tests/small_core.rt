//! A small core, byte by byte.

ghost use Rattle.std.specs.Prelude.{◌<◌};
ghost use Rattle.case_table.specs.declared.limits.TheConstants.{CLASS_COUNT};

use case_table::{CLASS_COUNT, class_def};
use std::alloc::Global;
use umem_base::NoMemory;

// What a cache's name takes, with the zeros behind it.
const NAME_BYTES: usize = 32;

/// A core of the first version without a flag, of a heap with two large buffers side by side. The one of 4,097 bytes is
/// named nowhere; the other has 8,192, and the second word of the root segment is its address.
pub fn two_large(alloc: Global) -> Result<Vec<u8>, NoMemory> {
    let mut out = Vec::from_slice(alloc, b"UMEMCORE")?;
    for number in [1, 0, 15, 256, 1, 32, 0, 2, 0, 0, 0, 0, 0, 0] {
        put_short(&mut out, number)?;
    }
    for number in [2, 0, 0x102000] {
        put_long(&mut out, number)?;
    }
    put_zeros(&mut out, 4080)?;
    for class in 0..CLASS_COUNT {
        put_class(alloc, &mut out, class)?;
    }
    for number in [0x100000, 4097, 0x102000, 8192] {
        put_long(&mut out, number)?;
    }
    // No magazine and no depot has a round, and all bytes of the buffers are zero.
    put_zeros(&mut out, 384)?;
    put_zeros(&mut out, 16384)?;
    Ok(out)
}

fn put_short(out: &mut Vec<u8>, number: u32) -> Result<(), NoMemory> {
    out.extend_from_slice(&number.to_le_bytes())?;
    Ok(())
}

fn put_long(out: &mut Vec<u8>, number: u64) -> Result<(), NoMemory> {
    out.extend_from_slice(&number.to_le_bytes())?;
    Ok(())
}

fn put_zeros(out: &mut Vec<u8>, count: usize) -> Result<(), NoMemory> {
    for _ in 0..count {
        out.push(0)?;
    }
    Ok(())
}

/// Appends a size class that made no slab: its name, its size, its alignment, and how many slabs.
fn put_class(alloc: Global, out: &mut Vec<u8>, class: u32) -> Result<(), NoMemory>
    requires { class < CLASS_COUNT }
{
    let def = class_def(alloc, class)?;
    let name = def.name.as_slice();
    out.extend_from_slice(name)?;
    put_zeros(out, NAME_BYTES.saturating_sub(name.len()))?;
    put_short(out, def.size)?;
    put_short(out, def.align)?;
    put_short(out, 0)
}
