/// The chunks that a rule is about, each with its bit in the table of rules.
#[derive(Clone, Copy, Debug, PartialEq, Eq)]
pub enum Kind {
    /// An allocated chunk of a size class.
    OfClass = 1,
    /// An allocated chunk of a declared cache.
    Declared = 2,
    /// A free chunk.
    Unused = 4,
}
