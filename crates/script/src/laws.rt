//! What the definitions of this crate give, for contracts that speak of them and call nothing here.

ghost use Rattle.std.specs.Prelude.{◌≡◌, ℕ, List, [], ◌∷◌};
ghost use Rattle.script.specs.Generated.{draws};
ghost use Rattle.script.specs.Grammar.{script_of};
ghost use Rattle.script.specs.Limits.{AreNumbersOfScripts};
ghost use Rattle.script.specs.Plan.{Plan};
ghost use Rattle.script.specs.PlanText.{HasAllCaches, HasShortText, text_of};
ghost use Rattle.script.specs.Rules.{IsPlan};

/// The text of a plan that keeps the rules and limits is read as that plan, if it is no longer than a file may
/// be. So two such plans that have one text are one plan.
pub fn texts_are_read_as_their_plans()
    ensures read { (plan : Plan) → IsPlan plan → HasShortText plan → script_of (text_of plan) ≡ Ok plan }
    ensures apart { (a b : Plan) → IsPlan a → IsPlan b → HasShortText a → text_of a ≡ text_of b → a ≡ b }
{}

/// What bytes say keeps the rules and limits of its version.
pub fn read_plans_keep_the_rules()
    ensures { (bytes : List ℕ) → (plan : Plan) → script_of bytes ≡ Ok plan → IsPlan plan }
{}

/// A plan that keeps the rules names declared caches alone, so its text can be written.
pub fn plans_have_their_caches()
    ensures { (plan : Plan) → IsPlan plan → HasAllCaches plan }
{}

/// The first draws from two seeds, as numbers: code and definitions share the constants of the generator, so
/// nothing else here would refuse an exchange of two.
pub fn draws_have_their_numbers()
    ensures from_0 { draws 0 3 ≡ 167951807 ∷ 218396424 ∷ 1299921937 ∷ [] }
    ensures from_1 { draws 1 1 ≡ 908834774 ∷ [] }
{}

/// The limits of scripts, and how many slots and sizes the generator draws from, as numbers: code and definitions
/// share the constants, so nothing else here would refuse another value.
pub fn scripts_have_their_numbers()
    ensures { AreNumbersOfScripts }
{}
