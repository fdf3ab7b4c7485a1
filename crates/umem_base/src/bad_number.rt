/// Why bytes are no number.
#[derive(Clone, Copy, Debug, PartialEq, Eq)]
pub enum BadNumber {
    /// There is no byte, or one that is no digit.
    NotDigits,
    /// All bytes are digits, and the value passes 64 bits.
    TooLarge,
}
