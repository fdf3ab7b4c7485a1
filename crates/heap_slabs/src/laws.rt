//! What the definitions of this crate give, for contracts that speak of them: whoever keeps the table of a state meets
//! by them what its calls ask for, and knows when the table stays.

ghost use Rattle.heap_slabs.specs.Laws.{CountsOfZeroAreUnused, FoundChunksArePlaced, FreeRunsArePlaces, FreedLargeBuffersLeaveTheTable, LargeBuffersLeaveTheTable, NewSlabsAreUnused, OtherCountsAreInUse, PlacedChunksAreKnown, TablesLookAtSlabs};

use heap_memory::laws::chunks_are_known_by_their_places;

/// States with the same live buffers, slabs and grows have the same tables.
pub fn tables_look_at_slabs()
    ensures { TablesLookAtSlabs }
{}

/// A large buffer that is handed out over free pages leaves the table.
pub fn large_buffers_leave_the_table()
    ensures { LargeBuffersLeaveTheTable }
{}

/// A large buffer that is given back leaves the table.
pub fn freed_large_buffers_leave_the_table()
    ensures { FreedLargeBuffersLeaveTheTable }
{}

/// Over free pages a slab may be added.
pub fn free_runs_are_places()
    ensures { FreeRunsArePlaces }
{}

/// No chunk lives of a slab over free pages.
pub fn new_slabs_are_unused()
    ensures { NewSlabsAreUnused }
{}

/// A slab of which the count is zero has no live chunk.
pub fn counts_of_zero_are_unused()
    ensures { CountsOfZeroAreUnused }
{}

/// A slab of another count has one.
pub fn other_counts_are_in_use()
    ensures { OtherCountsAreInUse }
{}

/// A chunk at its place is one that a memory knows.
pub fn placed_chunks_are_known()
    ensures { PlacedChunksAreKnown }
{
    chunks_are_known_by_their_places();
}

/// A chunk that is found at an address is at its place.
pub fn found_chunks_are_placed()
    ensures { FoundChunksArePlaced }
{}
