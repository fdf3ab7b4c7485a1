//! What the definitions of this crate give, for contracts that speak of them and call nothing here.

ghost use Rattle.std.specs.Prelude.{◌≡◌};

use crate::limits::MOST_OPS;

/// The most operations of a generated script, as a number: code and definitions share the constant, so nothing
/// else here would refuse another one.
pub fn most_operations_are_their_number()
    ensures { MOST_OPS ≡ 65536 }
{}
