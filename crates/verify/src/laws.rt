//! What the definitions of this crate give, for contracts that speak of them and call nothing here.

ghost use Rattle.std.specs.Prelude.{◌≡◌, [], AllPairs};
ghost use Rattle.core_format.specs.declared.whole.Core.{Core};
ghost use Rattle.core_format.specs.Cores.{MeetsTheRules};
ghost use Rattle.verify.specs.Lines.{IsLineBelow, IsUntagged, findings_of};

/// The findings of a core that meets the rules of its format stand by rising address, so no address has two.
pub fn lines_rise()
    ensures { (core : Core) → MeetsTheRules core → AllPairs IsLineBelow (findings_of core) }
{}

/// A core without guards has no findings where no cache has a constructor, whatever bytes stand in it.
pub fn bare_cores_have_no_findings()
    ensures { (core : Core) → IsUntagged core → findings_of core ≡ [] }
{}
