/// Where the slab begins whose first chunk has a number.
#[derive(Clone, Copy, Debug, PartialEq, Eq)]
pub struct Numbered {
    pub first: u32,
    pub base: u64,
}
