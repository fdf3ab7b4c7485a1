ghost use Rattle.std.specs.Prelude.{◌≡◌, ℕ, List, [], ◌∷◌, ◌++◌};
ghost use Rattle.trans_log.specs.declared.kinds.TheConstants.{ALLOCATION, FREE};
ghost use Rattle.trans_log.specs.Last.{entered, last_of, with_new};

/// A law of the definitions alone, for the items of every log: a log that begins empty has the last `c` of
/// all that was entered, one by one, and one more item keeps this true.
pub fn entering_keeps_the_last<T>()
    ensures all { (c : ℕ) (xs : List T) → entered c [] xs ≡ last_of c xs }
    ensures one_more { (c : ℕ) (xs : List T) (x : T) → with_new c (last_of c xs) x ≡ last_of c (xs ++ x ∷ []) }
    ensures none { (xs : List T) → last_of 0 xs ≡ [] }
{}

/// Code and definitions share the numbers of the kinds: an allocation is of kind 1, a free of kind 2.
pub fn kinds_have_their_numbers()
    ensures allocation { ALLOCATION ≡ 1 }
    ensures free { FREE ≡ 2 }
{}
