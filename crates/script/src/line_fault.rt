ghost use Rattle.std.specs.Prelude.{◌≡◌, Result};
ghost use Rattle.script.specs.declared.line_fault.LineFault.TheVariants.{NoMemory as no_memory};

use crate::reasons::Reason;
use std::alloc::{AllocError, AllocFailed};
use umem_base::NoMemory;

/// Why a line was not read.
#[derive(Clone, Copy, Debug, PartialEq, Eq)]
pub(crate) enum LineFault {
    NoMemory,
    Refused(Reason),
}

impl From<NoMemory> for LineFault {
    ghost from_gives = { λ _ e. e ≡ no_memory };

    fn from(_: NoMemory) -> LineFault {
        LineFault::NoMemory
    }
}

impl From<AllocError> for LineFault {
    ghost from_gives = { λ _ e. e ≡ no_memory };

    fn from(_: AllocError) -> LineFault {
        LineFault::NoMemory
    }
}

impl<T: Drop> From<AllocFailed<T>> for LineFault {
    ghost from_gives = { λ _ e. e ≡ no_memory };

    fn from(_: AllocFailed<T>) -> LineFault {
        LineFault::NoMemory
    }
}
