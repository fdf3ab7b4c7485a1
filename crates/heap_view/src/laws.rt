//! What the definitions of this crate give, for contracts that speak of them and call nothing here.

ghost use Rattle.std.specs.Prelude.{◌≡◌, ℕ, ◌+◌, ◌*◌, ◌<◌, ◌≤◌, All, IsPermutation, length};
ghost use Rattle.umem_base.specs.declared.roots.TheConstants.{ROOT_WORDS};
ghost use Rattle.core_format.specs.declared.whole.Core.{Core};
ghost use Rattle.core_format.specs.Chunks.{free_in};
ghost use Rattle.core_format.specs.Cores.{MeetsTheRules};
ghost use Rattle.heap_view.specs.declared.buffer.Buffer.{Buffer};
ghost use Rattle.heap_view.specs.Buffers.{allocated_buffers, buffers_of, chunk_buffers, free_buffers_of};
ghost use Rattle.heap_view.specs.Layout.{IsLaidOut};
ghost use Rattle.heap_view.specs.Memory.{HasAllBytes, root_words};
ghost use Rattle.heap_view.specs.Points.{AreBuffersApart, FitsAddresses, PointsTo};

/// The slabs and the large buffers of a core that meets the rules stand apart in its arena, by rising address.
pub fn cores_are_laid_out()
    ensures { (core : Core) → MeetsTheRules core → IsLaidOut core }
{}

/// The allocated buffers of such a core rise by address and have no byte in common, and so do the free chunks.
pub fn buffers_are_apart()
    ensures allocated { (core : Core) → IsLaidOut core → AreBuffersApart (buffers_of core) }
    ensures allocated_fit { (core : Core) → IsLaidOut core → All FitsAddresses (buffers_of core) }
    ensures some { (core : Core) → IsLaidOut core → All (λ buffer. 0 < buffer.size) (buffers_of core) }
    ensures free { (core : Core) → IsLaidOut core → AreBuffersApart (free_buffers_of core) }
{}

/// Each of them has as many bytes in its slab, or in its pages, as its size says.
pub fn buffers_have_bytes()
    ensures { (core : Core) → IsLaidOut core → All (HasAllBytes core) (buffers_of core) }
{}

/// The root segments of such a core have 512 words each: that of all threads, and each thread's own.
pub fn root_words_are_counted()
    ensures { (core : Core) → IsLaidOut core → length (root_words core) ≡ ROOT_WORDS * (1 + length core.own) }
{}

/// The list by address has the allocated buffers, each once, and that of the free chunks has these.
pub fn buffers_are_in_order()
    ensures allocated { (core : Core) → IsPermutation (allocated_buffers core) (buffers_of core) }
    ensures free { (core : Core) → IsPermutation (chunk_buffers core (free_in core)) (free_buffers_of core) }
{}

/// The address of each byte of a buffer keeps it, its own included, and the one past its end does not.
pub fn interior_pointers_keep_a_buffer()
    ensures inside { (buffer : Buffer) (offset : ℕ) → offset < buffer.size
        → PointsTo (buffer.address + offset) buffer }
    ensures past { (buffer : Buffer) (offset : ℕ) → buffer.size ≤ offset
        → PointsTo (buffer.address + offset) buffer → ⊥ }
    ensures below { (buffer : Buffer) (word : ℕ) → word < buffer.address → PointsTo word buffer → ⊥ }
{}
