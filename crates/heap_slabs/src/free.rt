ghost use Rattle.std.specs.Prelude.{◌↔◌, All, IsTrue, MatchOption};
ghost use Rattle.heap_slabs.specs.Standing.{HasFree, IsFirstFree, IsLowestWithFree, IsStanding, AreLive};

use crate::search::address_in;
use crate::standing::Standing;
use heap_memory::Chunk;
use plain_heap::Live;

/// Tells whether the slab is one of the cache, of which a chunk does not live.
fn has_free(slab: &Standing, cache: u32) -> bool
    ensures { IsTrue result ↔ HasFree cache slab.now }
{
    slab.cache == cache && slab.live < slab.rounds
}

/// The slab with the lowest numbers of those of the cache of which a chunk does not live.
pub fn lowest_with_free(slabs: &[Standing], cache: u32) -> Option<usize>
    ensures { MatchOption result (All (λ slab. ¬ HasFree cache slab) slabs.now) (IsLowestWithFree cache slabs.now) }
{
    let mut lowest: Option<usize> = None;
    for (index, slab) in slabs.iter().enumerate() {
        if has_free(slab, cache) && lowest.is_none_or(|other| slab.first < slabs[other].first) {
            lowest = Some(index);
        }
    }
    lowest
}

/// The first chunk of the slab that does not live.
pub fn first_free(slab: &Standing, live: &Live) -> Option<Chunk>
    requires { IsStanding slab.now }
    ensures { MatchOption result (AreLive live.now.buffers slab.now slab.now.rounds)
        (IsFirstFree live.now.buffers slab.now) }
{
    for index in 0..slab.rounds {
        let address = address_in(slab, index);
        if live.held(address).is_none() {
            return Some(Chunk {
                address,
                number: slab.first + index,
            });
        }
    }
    None
}
