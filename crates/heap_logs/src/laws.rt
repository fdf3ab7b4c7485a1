//! What the definitions of this crate give, for a heap that keeps the acts of its history and enters what is kept of
//! its frees.

ghost use Rattle.heap_logs.specs.Laws.{ActsAreOneAnEntry, ActsGrow, ChunksAreFound, FirstBytesStand, SavedItemsGrow, SavedLogsGrow, StandingChunksRise};

/// The acts of a longer history are those of the shorter one, and those of the entries behind it.
pub fn acts_grow()
    ensures { ActsGrow }
{}

/// There is one act an entry.
pub fn acts_are_one_an_entry()
    ensures { ActsAreOneAnEntry }
{}

/// What is kept of a longer history is what is kept of the shorter one, and of the entries behind it.
pub fn saved_items_grow()
    ensures { SavedItemsGrow }
{}

/// A contents log goes on as the log of the longer history, once what is kept of each entry is entered.
pub fn saved_logs_grow()
    ensures { SavedLogsGrow }
{}

/// The chunks of the slabs that stand rise from slab to slab, the oldest slab first.
pub fn standing_chunks_rise()
    ensures { StandingChunksRise }
{}

/// Where a chunk of a slab begins that stands after a legal history, that slab is found, and the chunk has its number.
pub fn chunks_are_found()
    ensures { ChunksAreFound }
{}

/// The first of some bytes at an address are those at it.
pub fn first_bytes_stand()
    ensures { FirstBytesStand }
{}
