/// A chunk as the allocator speaks of it: its number, and the address of its content.
#[derive(Clone, Copy, Debug, PartialEq, Eq)]
pub struct Bufctl {
    pub chunk: u32,
    pub address: u64,
}
