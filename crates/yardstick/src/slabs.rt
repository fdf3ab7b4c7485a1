//! Where the chunks of slabs begin, and which chunk an address is.

ghost use Rattle.std.specs.Prelude.{◌≡◌, ◌+◌, ◌<◌, ◌≤◌, ◌^◌, IfSome, IsTrue};
ghost use Rattle.plain_heap.specs.State.{begins_chunk, chunk_number, chunk_start, index_at, slab_with_chunk};

use crate::caches::{geometry_of, rule_in};
use crate::setting::Setting;
use crate::slab::{HeapSlab, MOST_ROUNDS};
use case_table::colour;

/// Where a chunk of a slab begins.
pub fn start_of(setting: &Setting, slab: &HeapSlab, index: u32) -> u128
    ensures { result ≡ chunk_start setting.now slab.now index }
{
    let align = rule_in(setting, slab.cache()).align;
    let geometry = geometry_of(setting, slab.cache());
    let colour = colour(align, geometry.leftover, slab.made());
    let offset = u64::from(index) * u64::from(geometry.chunk);
    u128::from(slab.base()) + (u128::from(colour) + u128::from(offset))
}

/// Which chunk of a slab holds an address, if one does.
pub fn chunk_index(setting: &Setting, slab: &HeapSlab, address: u128) -> Option<u32>
    ensures value { result ≡ index_at setting.now slab.now address }
    ensures within { IfSome result (λ index. index < MOST_ROUNDS) }
    ensures low { IfSome result (λ index. chunk_start setting.now slab.now index ≤ address) }
    ensures high { IfSome result (λ index. address < chunk_start setting.now slab.now index + 2 ^ 32) }
{
    let geometry = geometry_of(setting, slab.cache());
    let behind = address.checked_sub(start_of(setting, slab, 0))?;
    if behind < u128::from(geometry.rounds * geometry.chunk) {
        Some((behind / u128::from(geometry.chunk)) as u32)
    } else {
        None
    }
}

/// Whether a chunk of the slab begins at an address.
pub fn has_chunk_at(setting: &Setting, slab: &HeapSlab, address: u128) -> bool
    ensures { result ≡ begins_chunk setting.now slab.now address }
{
    match chunk_index(setting, slab, address) {
        Some(index) => start_of(setting, slab, index) == address,
        None => false,
    }
}

/// The number of the chunk of a slab that begins at an address.
pub fn number_of(setting: &Setting, slab: &HeapSlab, address: u128) -> u32
    requires { IsTrue (begins_chunk setting.now slab.now address) }
    ensures { result ≡ chunk_number setting.now slab.now address }
{
    let geometry = geometry_of(setting, slab.cache());
    let behind = address - start_of(setting, slab, 0);
    slab.first() + (behind / u128::from(geometry.chunk)) as u32
}

/// The slab of which a chunk begins at an address.
pub fn slab_at(setting: &Setting, slabs: &[HeapSlab], address: u128) -> Option<HeapSlab>
    ensures value { result ≡ slab_with_chunk setting.now slabs.now address }
    ensures begins { IfSome result (λ slab. IsTrue (begins_chunk setting.now slab address)) }
{
    slabs
        .iter()
        .find(|slab| has_chunk_at(setting, slab, address))
        .copied()
}
