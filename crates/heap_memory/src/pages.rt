ghost use Rattle.std.specs.Prelude.{◌≡◌, ◌+◌, ◌*◌, ◌^◌, ◌≤◌, IfOk, OnErr, OnOk};
ghost use Rattle.umem_base.specs.declared.pages.TheConstants.{PAGE_BYTES};
ghost use Rattle.umem_base.specs.Pages.{IsPage};
ghost use Rattle.addr_space.specs.Space.{HasMapped, IsMappedRange, IsSound, Maps, Writes, byte_of_word};
ghost use Rattle.script.specs.Rules.{IsHeader};
ghost use Rattle.heap_memory.specs.Memory.{HasRoots};

use addr_space::{MapFault, Space};
use script::Header;
use std::alloc::Global;
use umem_base::{NoMemory, OWN_ROOTS, SHARED_ROOT};

/// A space in which the root pages of a heap are mapped.
pub fn map_roots(alloc: Global, header: &Header) -> Result<Space, NoMemory>
    requires { IsHeader header.now }
    ensures { IfOk result (HasRoots header.now) }
{
    let mut space = Space::new(alloc);
    map_run(&mut space, SHARED_ROOT, 1)?;
    if header.version != 2 {
        return Ok(space);
    }
    map_run(&mut space, OWN_ROOTS, u64::from(header.threads))?;
    Ok(space)
}

/// Maps a run of pages of which no byte is mapped. On a refusal nothing changed.
pub fn map_run(space: &mut Space, base: u64, pages: u64) -> Result<(), NoMemory>
    requires page { IsPage base }
    requires some { 1 ≤ pages }
    requires below { base + PAGE_BYTES * pages ≤ 2 ^ 32 }
    requires free { ¬ HasMapped space.old base (PAGE_BYTES * pages) }
    ensures ok { OnOk result (Maps space.old space.new (record { base = base; pages = pages })) }
    ensures err { OnErr result (space.new ≡ space.old) }
    ensures sound { IsSound space.new }
{
    match space.map(base, pages) {
        Ok(()) => Ok(()),
        Err(MapFault::NoMemory) => Err(NoMemory),
        Err(MapFault::Overlap) => unreachable!(),
    }
}

/// Writes a word of which each byte is mapped.
pub fn put_word(space: &mut Space, at: u64, word: u64)
    requires { IsMappedRange space.old at 8 }
    ensures written { Writes space.old space.new at 8 (byte_of_word word) }
    ensures sound { IsSound space.new }
{
    match space.store_word(at, word) {
        Ok(()) => {}
        Err(_) => unreachable!(),
    }
}
