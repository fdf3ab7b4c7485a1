//! What the definitions of this crate give, for contracts that speak of them and call nothing here.

ghost use Rattle.std.specs.Prelude.{◌≡◌, ℕ, List};
ghost use Rattle.core_format.specs.declared.whole.Core.{Core};
ghost use Rattle.dcmd.specs.declared.dcmd.Dcmd.{Dcmd};
ghost use Rattle.dcmd.specs.Answers.{IsAnswer};

/// A command has no more than one answer over a core.
pub fn answers_are_one()
    ensures { (core : Core) (dcmd : Dcmd) (text other : List ℕ) → IsAnswer core dcmd text
        → IsAnswer core dcmd other → text ≡ other }
{}
