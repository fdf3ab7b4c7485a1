//! What follows from the definitions alone. Each law is the contract of a function that does nothing.
ghost use Rattle.std.specs.Prelude.{◌≡◌, ◌≢◌, ℕ, ◌↔◌, ◌⊎◌, ◌&&◌, Bool, List, Contains, IsTrue, not};
ghost use Rattle.umem_base.specs.declared.span.Span.{Span};
ghost use Rattle.umem_base.specs.Ordered.{put_by, left_out_by};
ghost use Rattle.span_arena.specs.Arena.{IsUntaken};
ghost use Rattle.span_arena.specs.Untaken.{lies_in, is_untaken};

/// The test says that no span holds a page exactly where none does. With a span more it is the test of the others
/// and of that one.
pub fn untaken_pages_are_tested()
    ensures tested { (spans : List Span) (page : ℕ) → IsTrue (is_untaken spans page) ↔ IsUntaken spans page }
    ensures one_more { (spans : List Span) (span : Span) (page : ℕ) →
        is_untaken (put_by (λ s. s.base) spans span) page ≡ is_untaken spans page && not (lies_in span page) }
{}

/// With a span put at its place there are the spans that there were, and that one. Without those of a base there
/// are the others.
pub fn spans_stay_but_for_the_named()
    ensures one_more { (spans : List Span) (span other : Span) →
        Contains (put_by (λ s. s.base) spans span) other ↔ (Contains spans other ⊎ (other ≡ span)) }
    ensures left_out { (spans : List Span) (base : ℕ) (other : Span) →
        Contains (left_out_by (λ s. s.base) spans base) other ↔ (Contains spans other × (other.base ≢ base)) }
{}
