ghost use Rattle.std.specs.Prelude.{◌≡◌, ◌++◌, ◌∷◌, [], OnOk, length};
ghost use Rattle.byteorder.specs.Endian.{little_bytes};
ghost use Rattle.case_table.specs.Record.{spelling};
ghost use Rattle.core_format.specs.Spelling.{header_of_core, second_of_core, spelled_header, spelled_second};

use crate::read_header::MAGIC;
use crate::spell::{Spell, put_count, put_two};
use crate::whole::Core;
use bitflags::Flags;
use umem_base::NoMemory;

/// Appends two numbers of items.
fn put_counts(out: &mut Vec<u8>, first: usize, second: usize) -> Result<(), NoMemory>
    ensures { OnOk result (out.new.items ≡ out.old.items ++ (little_bytes 4 first ++ little_bytes 4 second)) }
{
    put_count(out, first)?;
    put_count(out, second)
}

/// Appends how many items a log holds at most, and how many it holds.
fn put_log(out: &mut Vec<u8>, capacity: u32, count: usize) -> Result<(), NoMemory>
    ensures { OnOk result (out.new.items ≡ out.old.items ++ (little_bytes 4 capacity ++ little_bytes 4 count)) }
{
    capacity.put(out)?;
    put_count(out, count)
}

/// The bits of a core's flags.
fn flag_bits(core: &Core) -> u32
    ensures { result ≡ core.now.flags.0 }
{
    u32::from(core.flags.bits())
}

/// Appends what a header says of the options.
fn put_options(out: &mut Vec<u8>, core: &Core) -> Result<(), NoMemory>
    ensures { OnOk result (out.new.items ≡ out.old.items ++ spelling (8 ∷ 4 ∷ 4 ∷ 4 ∷ 4 ∷ [])
        (MAGIC ∷ core.now.version ∷ core.now.flags.0 ∷ core.now.frames ∷ core.now.contents ∷ [])) }
{
    let flags = flag_bits(core);
    MAGIC.put(out)?;
    put_two(out, &core.version, &flags)?;
    put_two(out, &core.frames, &core.contents)
}

/// Appends how many CPUs, caches, slabs, large buffers and audits there are.
fn put_sizes(out: &mut Vec<u8>, core: &Core) -> Result<(), NoMemory>
    ensures { OnOk result (out.new.items ≡ out.old.items ++ spelling (4 ∷ 4 ∷ 4 ∷ 4 ∷ 4 ∷ [])
        (core.now.cpus ∷ length core.now.caches ∷ length core.now.slabs ∷ length core.now.large
        ∷ length core.now.audits ∷ [])) }
{
    core.cpus.put(out)?;
    put_counts(
        out,
        core.caches.as_slice().len(),
        core.slabs.as_slice().len(),
    )?;
    put_counts(
        out,
        core.large.as_slice().len(),
        core.audits.as_slice().len(),
    )
}

/// Appends what a header says of the logs, and the numbers of the next chunk and entry.
fn put_logs(out: &mut Vec<u8>, core: &Core) -> Result<(), NoMemory>
    ensures { OnOk result (out.new.items ≡ out.old.items ++ spelling (4 ∷ 4 ∷ 4 ∷ 4 ∷ 4 ∷ 8 ∷ [])
        (core.now.trans_capacity ∷ length core.now.trans ∷ core.now.fail_capacity ∷ length core.now.fails
        ∷ core.now.next_chunk ∷ core.now.entries ∷ [])) }
{
    put_log(out, core.trans_capacity, core.trans.as_slice().len())?;
    put_log(out, core.fail_capacity, core.fails.as_slice().len())?;
    put_two(out, &core.next_chunk, &core.entries)
}

/// Appends the first record of a core.
pub fn put_header(out: &mut Vec<u8>, core: &Core) -> Result<(), NoMemory>
    ensures { OnOk result (out.new.items ≡ out.old.items ++ spelled_header (header_of_core core.now)) }
{
    put_options(out, core)?;
    put_sizes(out, core)?;
    put_logs(out, core)
}

/// Appends the second record, which a core of version 1 has not.
pub fn put_second(out: &mut Vec<u8>, core: &Core) -> Result<(), NoMemory>
    ensures { OnOk result (out.new.items ≡ out.old.items
        ++ spelled_second core.now.version (second_of_core core.now)) }
{
    if core.version == 1 {
        return Ok(());
    }
    put_count(out, core.own.as_slice().len())?;
    put_log(out, core.contents_capacity, core.saved.as_slice().len())
}
