ghost use Rattle.std.specs.Prelude.{◌≡◌};
ghost use Rattle.umem_base.specs.Roots.{arena_pages};

/// Where the pages begin that slabs and large buffers are given.
pub const ARENA_BASE: u64 = 0x10_0000;

/// How many pages the arena of a heap of version 1 has.
pub const FIRST_ARENA_PAGES: u64 = 1024;

/// How many pages the arena of a heap of each later version has.
pub const LATER_ARENA_PAGES: u64 = 4096;

/// How many pages the arena of a heap of that version has.
pub fn arena_pages(version: u32) -> u64
    ensures { result ≡ arena_pages version }
{
    if version == 1 {
        FIRST_ARENA_PAGES
    } else {
        LATER_ARENA_PAGES
    }
}
