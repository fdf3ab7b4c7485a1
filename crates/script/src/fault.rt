use crate::reasons::Reason;

/// Why bytes were not read as a script.
#[derive(Clone, Copy, Debug, PartialEq, Eq)]
pub enum ScriptFault {
    /// The first bad line, counted from 1, and its reason. A file that is too long is line 0, and one
    /// without a header is told at the line behind its last.
    Bad { line: u32, reason: Reason },
    NoMemory,
}
