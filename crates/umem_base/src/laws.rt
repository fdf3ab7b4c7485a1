//! What the definitions of this crate give, for contracts that speak of them and call nothing here.

ghost use Rattle.umem_base.specs.Constants.{AreNumbersOfMemory};

/// Pages, the arena and the root words as numbers: code and definitions share the constants, so nothing else here would
/// refuse another value.
pub fn memory_has_its_numbers()
    ensures { AreNumbersOfMemory }
{}
