/// The most bytes that the commands of a call may have together.
pub const MOST_COMMAND_BYTES: usize = 1_048_576;
