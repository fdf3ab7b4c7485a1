ghost use Rattle.std.specs.Prelude.{◌≡◌, ◌≤◌, ◌<◌, ◌+◌, ◌*◌, ◌^◌, ◌%◌, ◌↔◌, IsTrue};
ghost use Rattle.case_table.specs.Geometry.{IsAlign, IsCacheShape, IsSlabGeometry, colour_of, geometry_of, magazine_of, pages_of, round_up, tag_of};

use crate::limits::MOST_CACHE_BYTES;
use crate::slab_quantities::Geometry;
use umem_base::{PAGE_BYTES, pages_for};

/// The bytes of the tag behind a guarded buffer: the redzone word, the bufctl word and bxstat.
pub const TAG_BYTES: u32 = 24;

/// What the addresses of a cache's buffers may be multiples of.
pub const ALIGNS: [u64; 4] = [8, 16, 32, 64];

/// The bytes of the largest chunk that counts as small.
pub const SMALL_CHUNK: u32 = 128;

/// The bytes of the largest chunk that counts as middling.
pub const MIDDLING_CHUNK: u32 = 512;

/// The rounds of a magazine for small chunks.
pub const SMALL_CHUNK_ROUNDS: u32 = 15;

/// The rounds of a magazine for middling chunks.
pub const MIDDLING_CHUNK_ROUNDS: u32 = 7;

/// The rounds of a magazine for all larger chunks.
pub const LARGE_CHUNK_ROUNDS: u32 = 3;

const PAGE: u32 = PAGE_BYTES as u32;

/// Tells whether a cache may have buffers of so many bytes at multiples of `align`.
pub fn is_cache_shape(size: u64, align: u64) -> bool
    ensures { IsTrue result ↔ IsCacheShape size align }
{
    size > 0 && size <= u64::from(MOST_CACHE_BYTES) && ALIGNS.contains(&align)
}

fn round_up(number: u32, step: u32) -> u32
    requires some { 0 < step }
    requires fits { number + step < 2 ^ 32 }
    ensures { result ≡ round_up number step }
{
    (number + (step - 1)) / step * step
}

fn tag_size(guards: bool) -> u32
    ensures { result ≡ tag_of guards }
{
    if guards { TAG_BYTES } else { 0 }
}

fn slab_pages(chunk: u32) -> u32
    requires { 8 * chunk < 2 ^ 32 }
    ensures { result ≡ pages_of chunk }
{
    pages_for(8 * u64::from(chunk)).max(1) as u32
}

fn magazine_size(chunk: u32) -> u32
    ensures { result ≡ magazine_of chunk }
{
    if chunk <= SMALL_CHUNK {
        SMALL_CHUNK_ROUNDS
    } else if chunk <= MIDDLING_CHUNK {
        MIDDLING_CHUNK_ROUNDS
    } else {
        LARGE_CHUNK_ROUNDS
    }
}

/// The quantities of a cache's slabs, for buffers with a tag behind them, as the guards of
/// umem_debug(3MALLOC) want it, or without. That a slab has eight rounds or more and that a magazine's
/// size falls with the chunk is after Bonwick 1994 and Bonwick and Adams 2001; the numbers are this
/// project's own.
pub fn geometry(size: u32, align: u32, guards: bool) -> Geometry
    requires { IsCacheShape size align }
    ensures value { result ≡ geometry_of size align guards }
    ensures sound { IsSlabGeometry size align guards result }
{
    let content = round_up(size, 8);
    let chunk = round_up(content + tag_size(guards), align);
    let pages = slab_pages(chunk);
    let rounds = pages * PAGE / chunk;
    Geometry {
        content,
        chunk,
        pages,
        rounds,
        leftover: pages * PAGE - rounds * chunk,
        magazine: magazine_size(chunk),
    }
}

/// Where the first chunk of a slab begins, in bytes from the slab's base, for the slab before which its
/// cache made `made` others. The colours go round over the leftover (Bonwick 1994).
pub fn colour(align: u32, leftover: u32, made: u32) -> u32
    requires { IsAlign align }
    ensures value { result ≡ colour_of align leftover made }
    ensures within { result ≤ leftover }
    ensures aligned { result % align ≡ 0 }
{
    align * (made % (leftover / align + 1))
}
