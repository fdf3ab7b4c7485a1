use std::alloc::{AllocError, AllocFailed};
use umem_base::{BadNumber, NoMemory};

/// Why a text gave no bytes.
#[derive(Clone, Copy, Debug, PartialEq, Eq)]
pub enum SampleFault {
    /// A line is no piece.
    BadLine,
    NoMemory,
}

impl From<BadNumber> for SampleFault {
    fn from(_: BadNumber) -> SampleFault {
        SampleFault::BadLine
    }
}

impl From<NoMemory> for SampleFault {
    fn from(_: NoMemory) -> SampleFault {
        SampleFault::NoMemory
    }
}

impl From<AllocError> for SampleFault {
    fn from(_: AllocError) -> SampleFault {
        SampleFault::NoMemory
    }
}

impl<T: Drop> From<AllocFailed<T>> for SampleFault {
    fn from(_: AllocFailed<T>) -> SampleFault {
        SampleFault::NoMemory
    }
}
