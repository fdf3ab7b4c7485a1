/// The kind of a transaction that handed a chunk out.
pub const ALLOCATION: u32 = 1;

/// The kind of a transaction that took a chunk back.
pub const FREE: u32 = 2;
