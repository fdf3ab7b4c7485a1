/// One item of the text of UMEM_DEBUG.
#[derive(Clone, Copy, PartialEq, Eq, Debug)]
pub enum DebugItem {
    /// Audit, with so many frames.
    Audit(u32),
    /// Contents, with so many bytes.
    Contents(u32),
    Guards,
    Default,
    /// An item that means nothing.
    Unknown,
}

/// One item of the text of UMEM_LOGGING: a log, and its size in bytes.
#[derive(Clone, Copy, PartialEq, Eq, Debug)]
pub enum LoggingItem {
    Transaction(u64),
    Contents(u64),
    Fail(u64),
    /// An item that means nothing.
    Unknown,
}
