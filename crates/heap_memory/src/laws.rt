//! What the definitions of this crate give, for contracts that speak of them: whoever keeps a memory of a state meets
//! by them what its calls ask for.

ghost use Rattle.heap_memory.specs.Laws.{AreChunksInsideOfRuns, AreChunksKnownByTheirPlaces, AreKindsOfCachesSound, AreSlotsMapped, HaveLargeBuffersASpan, HaveSlabsASpan};

/// The words of the slots that a thread may name are mapped.
pub fn slots_are_mapped()
    ensures { AreSlotsMapped }
{}

/// The pages of a live large buffer are a taken span.
pub fn large_buffers_have_a_span()
    ensures { HaveLargeBuffersASpan }
{}

/// The pages of a slab that stands are a taken span.
pub fn slabs_have_a_span()
    ensures { HaveSlabsASpan }
{}

/// The bytes of a chunk of a slab that stands, with its tag, are inside of one run.
pub fn chunks_are_inside_of_runs()
    ensures { AreChunksInsideOfRuns }
{}

/// The kind of each cache is one that chunks may have.
pub fn kinds_of_caches_are_sound()
    ensures { AreKindsOfCachesSound }
{}

/// A chunk of a slab that stands is the one at its place there, which has its number.
pub fn chunks_are_known_by_their_places()
    ensures { AreChunksKnownByTheirPlaces }
{}
