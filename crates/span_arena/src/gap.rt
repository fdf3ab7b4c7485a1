ghost use Rattle.std.specs.Prelude.{◌≡◌, ◌+◌, ◌*◌, ◌<◌, ◌≤◌, ◌↔◌, IsTrue, MatchOption};
ghost use Rattle.umem_base.specs.declared.pages.TheConstants.{PAGE_BYTES};
ghost use Rattle.umem_base.specs.Pages.{HasNoRun};
ghost use Rattle.span_arena.specs.Arena.{IsFreeIn, IsSound};
ghost use Rattle.span_arena.specs.Gap.{arena_of, IsGap};

use umem_base::{PAGE_BYTES, Span};

/// A free run between taken spans, and how many of those stand below it.
#[derive(Clone, Copy)]
pub struct Gap {
    pub index: usize,
    pub run: Span,
}

/// Whether so many pages fit from the one address to the other.
fn fits(pages: u64, from: u64, to: u64) -> bool
    requires { from ≤ to }
    ensures { IsTrue result ↔ (from + PAGE_BYTES * pages ≤ to) }
{
    pages <= (to - from) / PAGE_BYTES
}

/// The lowest gap between the spans of an arena, of `count` pages from `base` on, that has room for so
/// many pages.
pub fn lowest_gap(base: u64, count: u64, spans: &[Span], pages: u64) -> Option<Gap>
    requires sound { IsSound (arena_of base count spans.now) }
    requires some { 0 < pages }
    ensures { let arena = arena_of base count spans.now in
        MatchOption result (HasNoRun (IsFreeIn arena) pages) (λ gap.
        (gap.run.pages ≡ pages) × IsGap arena gap.run gap.index) }
{
    let mut from = base;
    for (index, span) in spans.iter().enumerate() {
        if fits(pages, from, span.base) {
            let run = Span { base: from, pages };
            return Some(Gap { index, run });
        }
        from = span.end();
    }
    if fits(pages, from, base + PAGE_BYTES * count) {
        let run = Span { base: from, pages };
        return Some(Gap {
            index: spans.len(),
            run,
        });
    }
    None
}
