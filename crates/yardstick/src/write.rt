use crate::slab::HeapSlab;
use umem_base::Text;

/// What an entry wrote: at which address, and what.
#[derive(Drop)]
pub enum Write {
    /// A word, its lowest byte first.
    Word { at: u128, word: u64 },
    /// So many zeros.
    Zeros { at: u128, count: u64 },
    /// Bytes.
    Stored { at: u128, bytes: Text },
    /// All pages of a slab that was made.
    Made { slab: HeapSlab },
}
