//! What the definitions of this crate give, for contracts that speak of them and call nothing here.

ghost use Rattle.std.specs.Prelude.{◌≡◌, ℕ, List, ◌<◌, ◌↔◌, [], ◌∷◌, ◌++◌, None, All, Contains, IfSome, length};
ghost use Rattle.slab_layer.specs.Slab.{HasChunk, IsApartBelow, IsComplete, IsSlab, Slab, slab_of};
ghost use Rattle.shelf.specs.Laws.{AddsSlab, DropsComplete, KeepsAll, PutsOne, TakesOne};
ghost use Rattle.shelf.specs.Steps.{InHand, IsBare, drained, gathered, put_on, reach_of, taken_any, taken_from, with_slab_of, without_complete_slabs};
ghost use Rattle.shelf.specs.Stock.{AreOut, IsOut, IsStock, Stock, empty_stock, held_rounds};

/// A cache begins with a sound stock.
pub fn stocks_begin_sound()
    ensures { (size : ℕ) (cpus : ℕ) → 0 < size → IsStock (empty_stock size cpus) }
{}

/// An allocation takes a round that was held, and the others are held still. It finds none exactly where nothing is
/// within reach of its CPU, and where all CPUs are looked at, exactly where nothing is held.
pub fn allocations_take_one()
    ensures from { (stock : Stock) (cpu : ℕ) → cpu < length stock.cpus → IsStock stock
        → IfSome (taken_from stock cpu) (TakesOne stock) }
    ensures any { (stock : Stock) (cpu : ℕ) → cpu < length stock.cpus → IsStock stock
        → IfSome (taken_any stock cpu) (TakesOne stock) }
    ensures bare { (stock : Stock) (cpu : ℕ) → cpu < length stock.cpus → IsStock stock
        → (taken_from stock cpu ≡ None) ↔ IsBare (reach_of stock cpu) }
    ensures none { (stock : Stock) (cpu : ℕ) → cpu < length stock.cpus → IsStock stock
        → (taken_any stock cpu ≡ None) ↔ (held_rounds stock ≡ []) }
{}

/// A free holds a round more.
pub fn frees_put_one()
    ensures { (stock : Stock) (cpu : ℕ) (chunk : ℕ) → cpu < length stock.cpus → IsStock stock → IsOut stock chunk
        → PutsOne stock chunk (put_on stock cpu chunk) }
{}

/// Rounds that were taken and not put stand nowhere, and may be put.
pub fn rounds_in_hand_are_out()
    ensures taken { (stock : Stock) (rounds : List ℕ) (hand : InHand Stock) → AreOut stock rounds
        → TakesOne stock hand → AreOut hand.left (rounds ++ hand.chunk ∷ []) }
    ensures first { (stock : Stock) (chunk : ℕ) (rounds : List ℕ) → AreOut stock (chunk ∷ rounds)
        → IsOut stock chunk }
    ensures put { (stock : Stock) (chunk : ℕ) (rounds : List ℕ) (now : Stock) → AreOut stock (chunk ∷ rounds)
        → PutsOne stock chunk now → AreOut now rounds }
{}

/// A slab behind all others brings its rounds.
pub fn slabs_bring_their_rounds()
    ensures { (stock : Stock) (base : ℕ) (rounds : List ℕ) → IsStock stock → IsSlab (slab_of base rounds)
        → All (IsApartBelow (slab_of base rounds)) stock.slabs
        → AddsSlab stock rounds (with_slab_of stock base rounds) }
{}

/// A drain holds the same rounds. A slab is complete afterwards exactly where all of its chunks are held.
pub fn drains_keep_all()
    ensures keeps { (stock : Stock) → IsStock stock → KeepsAll stock (drained stock) }
    ensures complete { (stock : Stock) (slab : Slab) → IsComplete (gathered stock slab)
        ↔ ((chunk : ℕ) → HasChunk chunk slab → Contains (held_rounds stock) chunk) }
{}

/// Slabs that are complete go with their rounds, and no other round goes.
pub fn complete_slabs_go()
    ensures { (stock : Stock) → IsStock stock → DropsComplete stock (without_complete_slabs stock) }
{}
