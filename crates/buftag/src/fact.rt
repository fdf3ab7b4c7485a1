/// A fault of a chunk, as the bit by which the rows of the findings ask for it.
#[derive(Clone, Copy, Debug, PartialEq, Eq)]
pub enum Fact {
    /// One of the two words behind the redzone word is another than the chunk and its state want.
    Tag = 1,
    /// No size that the class serves has the code in the redzone word.
    Code = 2,
    /// A size has it, and no guard byte stands behind so many bytes.
    Guard = 4,
    /// The half of the redzone word below the code was changed.
    Low = 8,
    /// A redzone word without a code was changed.
    Word = 16,
    /// A free chunk's content has a word that is not its pattern.
    Pattern = 32,
}
