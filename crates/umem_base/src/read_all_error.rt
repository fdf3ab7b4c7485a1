ghost use Rattle.std.specs.Prelude.{◌≡◌};
ghost use Rattle.umem_base.specs.declared.read_all_error.ReadAll.TheVariants.{ReadFault, NoMemory};

use crate::outside::Failed;
use std::alloc::{AllocError, AllocFailed};

/// Why not all bytes were read.
#[derive(Clone, Copy, Debug, PartialEq, Eq)]
pub enum ReadAll {
    /// A read failed.
    ReadFault,
    /// More bytes came than the limit.
    TooLong,
    NoMemory,
}

impl From<Failed> for ReadAll {
    ghost from_gives = { λ _ e. e ≡ ReadFault };

    fn from(_: Failed) -> ReadAll {
        ReadAll::ReadFault
    }
}

impl From<AllocError> for ReadAll {
    ghost from_gives = { λ _ e. e ≡ NoMemory };

    fn from(_: AllocError) -> ReadAll {
        ReadAll::NoMemory
    }
}
