/// A column of a line that is printed. A width is a least one.
#[derive(Clone, Copy, Debug)]
pub(crate) enum Column<'a> {
    /// Bytes as they stand.
    Word(&'a [u8]),
    /// A number in decimal.
    Decimal(u64),
    /// A number in hexadecimal.
    Hex(u64),
    /// Bytes with spaces behind them.
    LeftWord { width: usize, bytes: &'a [u8] },
    /// A number in decimal with spaces before it.
    RightDecimal { width: usize, value: u64 },
    /// A number in hexadecimal with spaces before it.
    RightHex { width: usize, value: u64 },
    /// A number in hexadecimal with zeros before it.
    PaddedHex { width: usize, value: u64 },
}
