ghost use Rattle.std.specs.Prelude.{◌≡◌, ◌+◌, ◌*◌, ◌<◌, ◌≤◌, IsTrue, false, length};
ghost use Rattle.buftag.specs.Shape.{IsShape};
ghost use Rattle.case_table.specs.Geometry.{content_of};
ghost use Rattle.case_table.specs.declared.limits.TheConstants.{MOST_CACHE_BYTES};
ghost use Rattle.case_table.specs.declared.slab_formulas.TheConstants.{TAG_BYTES};
ghost use Rattle.core_format.specs.Caches.{is_size_of};
ghost use Rattle.core_format.specs.Chunks.{chunk_bytes, core_shapes, finding_in_slab, guarded_finding, is_guarded_core, tag_shape, unguarded_finding};
ghost use Rattle.heap_view.specs.Layout.{IsLaidOut, IsShapeIn, IsSoundSlab};
ghost use Rattle.verify.specs.Lines.{NoneBreaks};

use bitflags::Flags;
use buftag::{Finding, Shape, State, first_broken, first_unconstructed};
use case_table::{CLASS_COUNT, Geometry, TAG_BYTES, bufctl_address};
use core_format::{CacheItem, Core, SlabItem};
use umem_options::DebugFlags;

/// Tells whether each chunk of the core has a tag.
fn is_guarded(core: &Core) -> bool
    ensures { result ≡ is_guarded_core core.now }
{
    core.flags.contains(DebugFlags::GUARDS)
}

/// Tells whether a chunk of a cache can have a finding: with guards each can, and without them one that a constructor
/// filled.
pub fn can_break(core: &Core, cache: u32) -> bool
    requires { cache < length core.now.caches }
    ensures { result ≡ false → NoneBreaks core.now cache }
{
    if is_guarded(core) {
        return true;
    }
    let item = &core.caches.as_slice()[cache as usize];
    item.def.ctor.is_some()
}

/// What the tag of a chunk depends on.
fn tag_shape(item: &CacheItem, cache: u32, chunk: u32) -> Shape
    requires { IsTrue (is_size_of cache item.now.def.size) }
    ensures value { result ≡ tag_shape item.now cache chunk }
    ensures sound { IsShape result }
{
    let bufctl = bufctl_address(chunk);
    if cache < CLASS_COUNT {
        Shape::of_class(cache, bufctl)
    } else {
        Shape::of_cache(item.def.size, bufctl)
    }
}

/// With guards: the first rule that the chunk's bytes break in its state.
fn guarded_finding(
    item: &CacheItem,
    cache: u32,
    chunk: u32,
    bytes: &[u8],
    state: State,
) -> Option<Finding>
    requires sized { IsTrue (is_size_of cache item.now.def.size) }
    requires room { content_of item.now.def.size + TAG_BYTES ≤ length bytes.now }
    ensures { result ≡ guarded_finding item.now cache chunk bytes.now state }
{
    let shape = tag_shape(item, cache, chunk);
    let tagged = (shape.content + TAG_BYTES) as usize;
    first_broken(&bytes[..tagged], &shape, state)
}

/// Without them: the first byte of a free chunk that is not its constructor's.
fn unguarded_finding(item: &CacheItem, bytes: &[u8], state: State) -> Option<Finding>
    requires small { item.now.def.size ≤ MOST_CACHE_BYTES }
    requires room { item.now.def.size ≤ length bytes.now }
    ensures { result ≡ unguarded_finding item.now bytes.now state }
{
    match state {
        State::Allocated => None,
        State::Free => {
            let value = item.def.ctor?;
            let object = &bytes[..item.def.size as usize];
            let offset = first_unconstructed(object, value)?;
            Some(Finding::Unconstructed(offset))
        }
    }
}

/// The bytes of a chunk of a slab.
fn chunk_bytes<'a>(core: &Core, slab: &'a SlabItem, geometry: &Geometry, chunk: u32) -> &'a [u8]
    requires slab { IsSoundSlab core.now slab.now }
    requires shape { IsShapeIn core.now slab.now.cache geometry.now }
    requires from { slab.now.first ≤ chunk }
    requires within { chunk < slab.now.first + geometry.now.rounds }
    ensures value { result.now ≡ chunk_bytes (core_shapes core.now) slab.now chunk }
    ensures count { length result.now ≡ geometry.now.chunk }
{
    let offset = (slab.colour + (chunk - slab.first) * geometry.chunk) as usize;
    let bytes = slab.bytes.as_slice();
    &bytes[offset..offset + geometry.chunk as usize]
}

/// What is wrong with a chunk of a slab in a state.
pub fn finding_of(
    core: &Core,
    slab: &SlabItem,
    geometry: &Geometry,
    chunk: u32,
    state: State,
) -> Option<Finding>
    requires laid_out { IsLaidOut core.now }
    requires slab { IsSoundSlab core.now slab.now }
    requires shape { IsShapeIn core.now slab.now.cache geometry.now }
    requires from { slab.now.first ≤ chunk }
    requires within { chunk < slab.now.first + geometry.now.rounds }
    ensures { result ≡ finding_in_slab core.now chunk state slab.now }
{
    let item = &core.caches.as_slice()[slab.cache as usize];
    let bytes = chunk_bytes(core, slab, geometry, chunk);
    if is_guarded(core) {
        guarded_finding(item, slab.cache, chunk, bytes, state)
    } else {
        unguarded_finding(item, bytes, state)
    }
}
