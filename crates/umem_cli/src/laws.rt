//! What the definitions of this crate give, for contracts that speak of them and call nothing here.

ghost use Rattle.std.specs.Prelude.{◌≡◌};
ghost use Rattle.umem_cli.specs.declared.limits.TheConstants.{MOST_COMMAND_BYTES};

/// The most bytes that the commands of a call may have, as a number: code and definitions share the constant, so
/// nothing else here would refuse another one.
pub fn commands_have_their_number()
    ensures { MOST_COMMAND_BYTES ≡ 1048576 }
{}
