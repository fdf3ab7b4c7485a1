/// A row of a table: the states in which it stands and the facts at which it hits, each a set of bits.
#[derive(Clone, Copy, Debug, PartialEq, Eq)]
pub struct Rule {
    pub state: u32,
    pub fact: u32,
}
