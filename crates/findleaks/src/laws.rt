//! What the definitions of this crate give, for contracts that speak of them and call nothing here.

ghost use Rattle.std.specs.Prelude.{◌≡◌, ◌+◌, ◌<◌, ◌↔◌, ℕ, List, All, Contains, length};
ghost use Rattle.core_format.specs.declared.items.OwnRoot.{OwnRoot};
ghost use Rattle.core_format.specs.declared.whole.Core.{Core};
ghost use Rattle.heap_view.specs.declared.buffer.Buffer.{Buffer};
ghost use Rattle.heap_view.specs.Buffers.{buffers_of};
ghost use Rattle.heap_view.specs.Memory.{root_words, words_in};
ghost use Rattle.heap_view.specs.Points.{AreBuffersApart};
ghost use Rattle.heap_view.specs.Reached.{HasPointerTo, IsLeaked, IsReached};
ghost use Rattle.findleaks.specs.Chains.{HasRootsOf, LeadsTo, with_roots};
ghost use Rattle.findleaks.specs.Classes.{AreParted};

/// The classes have exactly the reached buffers and exactly the leaked ones, as many as there are together, and both
/// rise as the buffers do.
pub fn classes_are_exact()
    ensures reached { (core : Core) (reached leaked : List Buffer) (buffer : Buffer)
        → AreParted core (buffers_of core) reached leaked → (Contains reached buffer) ↔ (IsReached core buffer) }
    ensures leaked { (core : Core) (reached leaked : List Buffer) (buffer : Buffer)
        → AreParted core (buffers_of core) reached leaked → (Contains leaked buffer) ↔ (IsLeaked core buffer) }
    ensures each { (core : Core) (buffers reached leaked : List Buffer)
        → AreParted core buffers reached leaked → length reached + length leaked ≡ length buffers }
    ensures reached_rise { (core : Core) (buffers reached leaked : List Buffer)
        → AreParted core buffers reached leaked → AreBuffersApart buffers → AreBuffersApart reached }
    ensures leaked_rise { (core : Core) (buffers reached leaked : List Buffer)
        → AreParted core buffers reached leaked → AreBuffersApart buffers → AreBuffersApart leaked }
{}

/// A root word that is the address of a byte of a buffer keeps it: its own address, and each one inside.
pub fn interior_pointers_in_roots_keep_a_buffer()
    ensures { (core : Core) (buffer : Buffer) (offset : ℕ) → Contains (buffers_of core) buffer → offset < buffer.size
        → Contains (root_words core) (buffer.address + offset) → IsReached core buffer }
{}

/// A buffer to which no root word and no word of an allocated buffer points is leaked, however many of these words are
/// the address past its end.
pub fn what_no_word_points_to_is_leaked()
    ensures { (core : Core) (buffer : Buffer) → Contains (buffers_of core) buffer
        → (HasPointerTo (root_words core) buffer → ⊥)
        → ((other : Buffer) → Contains (buffers_of core) other → HasPointerTo (words_in core other) buffer → ⊥)
        → IsLeaked core buffer }
{}

/// What chains of pointers lead to from a reached buffer is reached, and so it is not leaked.
pub fn nothing_reachable_from_a_reached_buffer_is_leaked()
    ensures reached { (core : Core) (start buffer : Buffer) (chain : List Buffer) → IsReached core start
        → Contains (buffers_of core) buffer → LeadsTo core start chain buffer → IsReached core buffer }
    ensures not_leaked { (core : Core) (start buffer : Buffer) (chain : List Buffer) → IsReached core start
        → Contains (buffers_of core) buffer → LeadsTo core start chain buffer → IsLeaked core buffer → ⊥ }
{}

/// Where no root word points to a buffer, all are leaked.
pub fn without_pointers_in_roots_all_is_leaked()
    ensures { (core : Core)
        → ((buffer : Buffer) → Contains (buffers_of core) buffer → HasPointerTo (root_words core) buffer → ⊥)
        → All (IsLeaked core) (buffers_of core) }
{}

/// More root words never leak more.
pub fn more_root_words_never_leak_more()
    ensures { (core : Core) (root : List ℕ) (own : List OwnRoot) (buffer : Buffer)
        → HasRootsOf core (with_roots core root own) → IsLeaked (with_roots core root own) buffer
        → IsLeaked core buffer }
{}
