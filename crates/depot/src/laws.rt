//! What the definitions of this crate give, for contracts that speak of them and call nothing here.

ghost use Rattle.std.specs.Prelude.{◌≡◌};
ghost use Rattle.depot.specs.declared.depot.TheConstants.{MAGAZINES};

/// Code and definitions share the number of magazines: a depot has eight.
pub fn depots_have_eight_magazines()
    ensures { MAGAZINES ≡ 8 }
{}
