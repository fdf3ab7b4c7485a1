use crate::chunk_kind::ChunkKind;

/// A slab that is to be made: the kind of its chunks, what their addresses are multiples of, how many slabs its cache
/// made before, and the number of its first chunk.
#[derive(Clone, Copy, Debug, PartialEq, Eq)]
pub struct NewSlab {
    pub kind: ChunkKind,
    pub align: u32,
    pub made: u32,
    pub first: u32,
}
