//! What the definitions of this crate give, for contracts that speak of them and call nothing here.

ghost use Rattle.std.specs.Prelude.{◌≡◌};
ghost use Rattle.umausers.specs.declared.group.TheConstants.{LARGE_COUNT, LARGE_TOTAL};

/// Code and definitions share the numbers from which a group is listed without leave.
pub fn groups_have_their_numbers()
    ensures total { LARGE_TOTAL ≡ 8192 }
    ensures count { LARGE_COUNT ≡ 100 }
{}
