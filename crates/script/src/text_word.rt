/// A word of a line, as a part of a script.
#[derive(Clone, Copy, Debug)]
pub(crate) enum TextWord<'a> {
    /// Bytes as they stand.
    Bytes(&'a [u8]),
    /// A root word.
    Slot(u32),
    /// A number in decimal.
    Number(u32),
    /// Two hexadecimal digits a byte.
    Hex(&'a [u8]),
    /// Numbers in hexadecimal.
    Frames(&'a [u64]),
}
