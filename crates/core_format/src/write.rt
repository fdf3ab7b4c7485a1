ghost use Rattle.std.specs.Prelude.{◌≡◌, ◌++◌, IfOk, OnOk};
ghost use Rattle.core_format.specs.Cores.{IsCore, MeetsTheRules};
ghost use Rattle.core_format.specs.Spelling.{spelled_core, spelled_front, spelled_middle, spelled_records};

use crate::put_caches::put_caches;
use crate::put_header::{put_header, put_second};
use crate::put_pages::put_pages;
use crate::spell::put_all;
use crate::whole::Core;
use std::alloc::Global;
use umem_base::NoMemory;

/// Appends the sections up to the caches.
fn put_front(out: &mut Vec<u8>, core: &Core) -> Result<(), NoMemory>
    ensures { OnOk result (out.new.items ≡ out.old.items ++ spelled_front core.now) }
{
    put_header(out, core)?;
    put_second(out, core)?;
    put_all(out, core.root.as_slice())?;
    put_all(out, core.own.as_slice())?;
    put_caches(out, core.version, core.caches.as_slice())
}

/// Appends the sections that say where chunks and large buffers stand.
fn put_middle(out: &mut Vec<u8>, core: &Core) -> Result<(), NoMemory>
    ensures { OnOk result (out.new.items ≡ out.old.items ++ spelled_middle core.now) }
{
    put_all(out, core.slabs.as_slice())?;
    put_all(out, core.large.as_slice())?;
    put_all(out, core.cpu_places.as_slice())?;
    put_all(out, core.depots.as_slice())
}

/// Appends the audits and the logs.
fn put_records(out: &mut Vec<u8>, core: &Core) -> Result<(), NoMemory>
    ensures { OnOk result (out.new.items ≡ out.old.items ++ spelled_records core.now) }
{
    put_all(out, core.audits.as_slice())?;
    put_all(out, core.trans.as_slice())?;
    put_all(out, core.fails.as_slice())?;
    put_all(out, core.saved.as_slice())
}

/// The bytes of a core: those that `read_core` reads as it, where there are any. Each count of items stands in
/// four bytes, so that of a longer list its lowest ones do. The format is this project's own.
pub fn write_core(alloc: Global, core: &Core) -> Result<Vec<u8>, NoMemory>
    ensures spelled { IfOk result (λ bytes. bytes.items ≡ spelled_core core.now) }
    ensures again { MeetsTheRules core.now → IfOk result (λ bytes. IsCore bytes.items core.now) }
{
    let mut out = Vec::new(alloc);
    put_front(&mut out, core)?;
    put_middle(&mut out, core)?;
    put_records(&mut out, core)?;
    put_pages(&mut out, core.slabs.as_slice(), core.large.as_slice())?;
    Ok(out)
}
