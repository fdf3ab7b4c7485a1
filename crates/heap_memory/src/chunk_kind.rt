/// What the bytes of a cache's chunks depend on: the number of the cache, the size of its buffers in bytes, the byte of
/// its constructor, where it has one, and whether guards are on.
#[derive(Clone, Copy, Debug, PartialEq, Eq)]
pub struct ChunkKind {
    pub cache: u32,
    pub size: u32,
    pub ctor: Option<u8>,
    pub guards: bool,
}
