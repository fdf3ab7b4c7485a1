//! What the definitions of this crate give, for contracts that speak of them and call nothing here.

ghost use Rattle.std.specs.Prelude.{◌≡◌, ℕ, List, [], ◌∷◌, ◌++◌, All};
ghost use Rattle.std.specs.List.Sorted.{IsStrictlyIncreasing};
ghost use Rattle.slab_layer.specs.Slab.{IsApartBelow, IsComplete, Slab};
ghost use Rattle.slab_layer.specs.Slabs.{AreSlabs, HasLowestComplete, KeepsRounds, after_puts, listed_rounds, with_slab, without_complete, without_slab_at};

/// The rounds of all lists rise from one to the next, so none stands there twice.
pub fn rounds_stand_once()
    ensures { (slabs : List Slab) → AreSlabs slabs → IsStrictlyIncreasing (listed_rounds slabs) }
{}

/// After rounds that are missing were put, each once, the lists hold them and all that they held. Whatever
/// rounds are put, the slabs stay sound.
pub fn puts_keep_all_rounds()
    ensures holds { (slabs : List Slab) (rounds : List ℕ) → AreSlabs slabs
        → KeepsRounds slabs (after_puts slabs rounds) rounds }
    ensures sound { (slabs : List Slab) (rounds : List ℕ) → AreSlabs slabs → AreSlabs (after_puts slabs rounds) }
{}

/// A slab whose chunks are behind those of all others comes last.
pub fn slabs_grow_at_the_end()
    ensures { (slabs : List Slab) (new : Slab) → All (IsApartBelow new) slabs
        → with_slab slabs new ≡ slabs ++ new ∷ [] }
{}

/// Slabs that are dropped one by one, until none is complete, leave those that were not complete.
pub fn drops_leave_the_others()
    ensures dropped { (slabs : List Slab) (base : ℕ) (rounds : List ℕ)
        → AreSlabs slabs → HasLowestComplete slabs base rounds
        → without_complete (without_slab_at slabs base) ≡ without_complete slabs }
    ensures none { (slabs : List Slab) → AreSlabs slabs → All (λ slab. ¬ IsComplete slab) slabs
        → without_complete slabs ≡ slabs }
{}
