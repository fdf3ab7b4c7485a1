//! What the definitions of cores and of runs give, for a program that writes cores and reads them.

ghost use Rattle.std.specs.Prelude.{◌≡◌};
ghost use Rattle.core_sizes.specs.Laws.{CoresOfRunsAreRead};
ghost use Rattle.core_sizes.specs.declared.limits.TheConstants.{MOST_CORE_BYTES};

/// A core that pictures a run is spelled in no more bytes than the file of a core may have.
pub fn cores_of_runs_are_read()
    ensures { CoresOfRunsAreRead }
{}

/// The most bytes that the file of a core may have, as a number: code and definitions share the constant, so nothing
/// else here would refuse another one.
pub fn cores_have_their_number()
    ensures { MOST_CORE_BYTES ≡ 268435456 }
{}
