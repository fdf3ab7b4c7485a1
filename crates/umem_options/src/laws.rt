//! What the definitions of this crate give, for contracts that speak of them and call nothing here.

ghost use Rattle.umem_options.specs.Limits.{AreNumbersOfOptions};

/// The bits of the flags, and what options, sizes and capacities go by, as numbers: code and definitions share
/// the constants, so nothing else here would refuse an exchange of two.
pub fn options_have_their_numbers()
    ensures { AreNumbersOfOptions }
{}
