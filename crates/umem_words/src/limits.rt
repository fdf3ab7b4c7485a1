/// The most operations of a generated script.
pub const MOST_OPS: u32 = 65_536;
