ghost use Rattle.std.specs.Prelude.{◌≡◌, ◌<◌, ◌≤◌, [], All, MatchOption};
ghost use Rattle.umem_base.specs.Ordered.{SplitsBy};
ghost use Rattle.slab_layer.specs.Slab.{IsComplete};
ghost use Rattle.slab_layer.specs.Slabs.{AreSlabs, HasChunkAt, IsFirstWithRounds, IsForeign, IsLowestCompleteAt};

use crate::slab::Slab;

/// How many of the slabs begin at the chunk or below.
pub fn count_from_below(slabs: &[Slab], chunk: u32) -> usize
    requires { AreSlabs slabs.now }
    ensures { SplitsBy (λ slab. slab.first ≤ chunk) (λ slab. chunk < slab.first) slabs.now result }
{
    slabs.partition_point(|slab| slab.first() <= chunk)
}

/// Where the slab stands that the chunk is one of.
pub fn index_of_chunk(slabs: &[Slab], chunk: u32) -> Option<usize>
    requires { AreSlabs slabs.now }
    ensures { MatchOption result (IsForeign slabs.now chunk) (HasChunkAt slabs.now chunk) }
{
    let count = count_from_below(slabs, chunk);
    if count == 0 {
        return None;
    }
    let index = count - 1;
    slabs[index].has_chunk(chunk).then_some(index)
}

/// The first slab whose list is not empty.
pub fn first_with_rounds(slabs: &[Slab]) -> Option<usize>
    ensures { MatchOption result (All (λ slab. slab.list ≡ []) slabs.now) (IsFirstWithRounds slabs.now) }
{
    slabs.iter().position(|slab| !slab.list().is_empty())
}

/// The complete slab that begins lowest.
pub fn lowest_complete(slabs: &[Slab]) -> Option<usize>
    ensures { MatchOption result (All (λ slab. ¬ IsComplete slab) slabs.now) (IsLowestCompleteAt slabs.now) }
{
    let mut lowest: Option<usize> = None;
    for (index, slab) in slabs.iter().enumerate() {
        if slab.is_complete() && lowest.is_none_or(|other| slab.base() < slabs[other].base()) {
            lowest = Some(index);
        }
    }
    lowest
}
