use std::alloc::{AllocError, AllocFailed};
use umem_base::NoMemory;

/// Why a trial ended before its end.
#[derive(Clone, Copy, Debug)]
pub enum TrialFault {
    NoMemory,
    /// What differs between heap and walk, and the number of the entry, the item or the cache at which it does.
    Differs(&'static str, usize),
}

/// Ends a trial unless this holds at a number.
pub fn holds(what: &'static str, at: usize, holds: bool) -> Result<(), TrialFault> {
    if holds {
        Ok(())
    } else {
        Err(TrialFault::Differs(what, at))
    }
}

impl From<NoMemory> for TrialFault {
    fn from(_: NoMemory) -> TrialFault {
        TrialFault::NoMemory
    }
}

impl From<AllocError> for TrialFault {
    fn from(_: AllocError) -> TrialFault {
        TrialFault::NoMemory
    }
}

impl<T: Drop> From<AllocFailed<T>> for TrialFault {
    fn from(_: AllocFailed<T>) -> TrialFault {
        TrialFault::NoMemory
    }
}
