/// The numbers from `low` to `past`, that one excluded, and the index of what they belong to.
#[derive(Clone, Copy)]
pub struct Range {
    pub low: u64,
    pub past: u64,
    pub owner: usize,
}
