//! What the definitions of this crate give, for contracts that speak of them and call nothing here.

ghost use Rattle.std.specs.Prelude.{◌≡◌, ℕ, ◌+◌, ◌*◌, ◌<◌, Bool, true, false, All, List, Some, None};
ghost use Rattle.buftag.specs.declared.state.State.TheVariants.{Allocated, Free};
ghost use Rattle.core_format.specs.declared.cache_shape.CacheShape.{CacheShape};
ghost use Rattle.core_format.specs.declared.items.SlabItem.{SlabItem};
ghost use Rattle.core_format.specs.declared.whole.Core.{Core};
ghost use Rattle.core_format.specs.Chunks.{allocated_in, chunk_address, chunk_state, free_in, is_chunk_in, is_held};
ghost use Rattle.core_format.specs.Cores.{IsCore, IsCoreOrHasFault, MeetsTheRules, first_flaw};
ghost use Rattle.core_format.specs.Numbers.{AreNumbersOfCores};
ghost use Rattle.core_format.specs.Slabs.{shape_at};
ghost use Rattle.core_format.specs.Spelling.{spelled_core};

/// The constants of the format as numbers: code and definitions share them, so that another value would be refused
/// by nothing else.
pub fn cores_have_their_numbers()
    ensures { AreNumbersOfCores }
{}

/// Any bytes are a core or have a first fault, and never both, and they are one core at most.
pub fn bytes_are_a_core_or_have_a_fault()
    ensures one { (bytes : List ℕ) → IsCoreOrHasFault bytes }
    ensures not_both { (bytes : List ℕ) (core : Core) → IsCore bytes core → first_flaw bytes ≡ None }
    ensures one_core { (bytes : List ℕ) (core other : Core) → IsCore bytes core → IsCore bytes other → core ≡ other }
{}

/// A chunk of a slab is free or allocated and not both, and its state says which.
pub fn chunks_are_free_or_allocated()
    ensures free { (core : Core) (chunk : ℕ) → chunk_state core chunk ≡ Some Free → free_in core chunk ≡ true }
    ensures allocated { (core : Core) (chunk : ℕ) → chunk_state core chunk ≡ Some Allocated
        → allocated_in core chunk ≡ true }
    ensures free_state { (core : Core) (chunk : ℕ) → free_in core chunk ≡ true → chunk_state core chunk ≡ Some Free }
    ensures allocated_state { (core : Core) (chunk : ℕ) → allocated_in core chunk ≡ true
        → chunk_state core chunk ≡ Some Allocated }
    ensures none { (core : Core) (chunk : ℕ) → is_chunk_in core chunk ≡ false → chunk_state core chunk ≡ None }
{}

/// The chunks of a slab stand one behind the other, from the colour on.
pub fn chunks_of_a_slab_follow_one_another()
    ensures { (shapes : List CacheShape) (slab : SlabItem) (index : ℕ)
        → chunk_address shapes slab (slab.first + index)
        ≡ slab.base + (slab.colour + index * (shape_at shapes slab.cache).chunk) }
{}

/// A core is spelled as the bytes that it was read from, so it has one list of bytes, and is read again from it.
pub fn cores_have_one_spelling()
    ensures spelled { (bytes : List ℕ) (core : Core) → All (λ byte. byte < 256) bytes → IsCore bytes core
        → spelled_core core ≡ bytes }
    ensures one { (bytes other : List ℕ) (core : Core) → All (λ byte. byte < 256) bytes
        → All (λ byte. byte < 256) other → IsCore bytes core → IsCore other core → bytes ≡ other }
    ensures again { (core : Core) → MeetsTheRules core → IsCore (spelled_core core) core }
{}
