/// Where a chunk stands in a table: the index of its slab there, and its own in the slab.
#[derive(Clone, Copy, Debug, PartialEq, Eq)]
pub struct Place {
    pub slab: usize,
    pub index: u32,
}
