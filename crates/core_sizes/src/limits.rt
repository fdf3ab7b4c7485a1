/// The most bytes that the file of a core may have, 256 MiB. No core of a run is longer.
pub const MOST_CORE_BYTES: usize = 268_435_456;
