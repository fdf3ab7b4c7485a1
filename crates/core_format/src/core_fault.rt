ghost use Rattle.std.specs.Prelude.{◌≡◌};
ghost use Rattle.core_format.specs.declared.core_fault.CoreFault.TheVariants.{NoMemory};

use crate::fault::Fault;
use std::alloc::{AllocError, AllocFailed};

/// Why bytes were not read as a core.
#[derive(Clone, Copy, Debug, PartialEq, Eq)]
pub enum CoreFault {
    /// The first rule that the bytes break, with the offset of the field that breaks it.
    Bad { offset: u64, fault: Fault },
    /// Memory ran out before the bytes were read.
    NoMemory,
}

impl From<AllocError> for CoreFault {
    ghost from_gives = { λ _ e. e ≡ NoMemory };

    fn from(_: AllocError) -> CoreFault {
        CoreFault::NoMemory
    }
}

impl<T: Drop> From<AllocFailed<T>> for CoreFault {
    ghost from_gives = { λ _ e. e ≡ NoMemory };

    fn from(_: AllocFailed<T>) -> CoreFault {
        CoreFault::NoMemory
    }
}

impl From<umem_base::NoMemory> for CoreFault {
    ghost from_gives = { λ _ e. e ≡ NoMemory };

    fn from(_: umem_base::NoMemory) -> CoreFault {
        CoreFault::NoMemory
    }
}
