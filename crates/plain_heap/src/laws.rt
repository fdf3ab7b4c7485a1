//! What the definitions of this crate give, for contracts that speak of them and call nothing here.

ghost use Rattle.plain_heap.specs.Laws.{ChunksKeepTheirBytes, ChunksTakeNoPages, FollowingGrows, FollowingIsClosedUnderPrefixes, FreeRunsHaveALowest, GivingBackLeavesTheOthers, GrowsTakeTheirPages, LargeBuffersFreeTheirPages, LargeBuffersTakeTheirPages, LegalHistoriesGrow, LiveBuffersAreDisjoint, LowestRunsAreOne, OneEntryMoreIsOneStep, ShrinksFreeTheirPages, TranscriptsDecideHistories};

/// The buffers that live after a legal history never meet. Each lies inside one chunk of its cache, which belongs to a
/// slab that stands, or has a run of pages of its own. The runs of pages of the slabs and of the large buffers lie in
/// the arena and never meet.
pub fn live_buffers_are_disjoint()
    ensures { LiveBuffersAreDisjoint }
{}

/// Two histories that answer one plan and are printed alike are one.
pub fn transcript_decides_history()
    ensures { TranscriptsDecideHistories }
{}

/// What a longer history leaves is what its last entry makes of what the others left.
pub fn one_entry_more_is_one_step()
    ensures { OneEntryMoreIsOneStep }
{}

/// A buffer that was given back is the only one that lives no more.
pub fn giving_back_leaves_the_others()
    ensures { GivingBackLeavesTheOthers }
{}

/// A legal history stays legal by entries that are legal behind it.
pub fn legal_histories_grow()
    ensures { LegalHistoriesGrow }
{}

/// A grow takes the pages of its slab, and no other page changes.
pub fn grows_take_their_pages()
    ensures { GrowsTakeTheirPages }
{}

/// A legal shrink frees the pages of its slab, and no other page changes.
pub fn shrinks_free_their_pages()
    ensures { ShrinksFreeTheirPages }
{}

/// A large buffer takes its pages when it is handed out, and no other page changes.
pub fn large_buffers_take_their_pages()
    ensures { LargeBuffersTakeTheirPages }
{}

/// A live large buffer frees its pages when it is given back, and no other page changes.
pub fn large_buffers_free_their_pages()
    ensures { LargeBuffersFreeTheirPages }
{}

/// A buffer of a cache takes and frees no page.
pub fn chunks_take_no_pages()
    ensures { ChunksTakeNoPages }
{}

/// The bytes of a chunk of a slab that stands are changed by its own allocation and free and by stores over it alone.
pub fn chunks_keep_their_bytes()
    ensures { ChunksKeepTheirBytes }
{}

/// There is one lowest run of a length at most.
pub fn lowest_runs_are_one()
    ensures { LowestRunsAreOne }
{}

/// Where a run of some pages is free, there is a lowest one.
pub fn free_runs_have_a_lowest()
    ensures { FreeRunsHaveALowest }
{}

/// What follows a plan so far, did so at each earlier entry.
pub fn following_is_closed_under_prefixes()
    ensures { FollowingIsClosedUnderPrefixes }
{}

/// The next call of a thread may be made.
pub fn following_grows()
    ensures { FollowingGrows }
{}
