use std::alloc::AllocFailed;
use umem_base::NoMemory;

/// A byte of the range is not mapped, or lies past the end of 64 bits.
#[derive(Clone, Copy, Debug, PartialEq, Eq)]
pub struct Unmapped;

/// Why a run was not mapped.
#[derive(Clone, Copy, Debug, PartialEq, Eq)]
pub enum MapFault {
    /// A byte of the run is mapped.
    Overlap,
    NoMemory,
}

impl From<NoMemory> for MapFault {
    ghost use Rattle.std.specs.Prelude.{◌≡◌};
    ghost use Rattle.addr_space.specs.declared.fault.MapFault.TheVariants as faults;

    ghost from_gives = { λ _ fault. fault ≡ faults.NoMemory };

    fn from(_: NoMemory) -> MapFault {
        MapFault::NoMemory
    }
}

impl<T: Drop> From<AllocFailed<T>> for MapFault {
    ghost use Rattle.std.specs.Prelude.{◌≡◌};
    ghost use Rattle.addr_space.specs.declared.fault.MapFault.TheVariants as faults;

    ghost from_gives = { λ _ fault. fault ≡ faults.NoMemory };

    fn from(_: AllocFailed<T>) -> MapFault {
        MapFault::NoMemory
    }
}
