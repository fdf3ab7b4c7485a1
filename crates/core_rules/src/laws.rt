//! What the definitions of this crate give, for contracts that speak of them and call nothing here.

ghost use Rattle.core_rules.specs.Laws.{KeptRulesAreMet, KeptRulesAreReadAgain};

/// A core that keeps the rules is read again from the bytes that it is spelled as, so some bytes are it.
pub fn kept_rules_are_met()
    ensures again { KeptRulesAreReadAgain }
    ensures met { KeptRulesAreMet }
{}
