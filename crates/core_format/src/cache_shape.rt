/// What the slabs of a cache are like: the numbers that a core does not tell, but that follow from its
/// caches.
#[derive(Clone, Copy)]
pub struct CacheShape {
    pub align: u32,
    pub chunk: u32,
    pub pages: u32,
    pub rounds: u32,
    pub leftover: u32,
    pub magazine: u32,
}
