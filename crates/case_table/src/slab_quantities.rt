/// The quantities of a cache's slabs. `content`, `chunk` and `leftover` are bytes: of a buffer in whole
/// words, of a buffer with what stands round it, and of a slab's end that no chunk takes. `pages` and
/// `rounds` are the pages and chunks of a slab, `magazine` the rounds that one magazine holds.
#[derive(Clone, Copy, Debug, PartialEq, Eq)]
pub struct Geometry {
    pub content: u32,
    pub chunk: u32,
    pub pages: u32,
    pub rounds: u32,
    pub leftover: u32,
    pub magazine: u32,
}
