ghost use Rattle.std.specs.Prelude.{◌≡◌, ◌≢◌, ℕ, ◌+◌, ◌*◌, ◌<◌, ◌≤◌, ◌^◌, [], length, All, IfOk, IfSome, OnErr, IfErr, MatchOption, MatchResult, Contains};
ghost use Rattle.std.specs.List.{HoldsAt};
ghost use Rattle.umem_base.specs.declared.pages.TheConstants.{PAGE_BYTES};
ghost use Rattle.umem_base.specs.declared.span.Span.{Span};
ghost use Rattle.umem_base.specs.Ordered.{put_by, left_out_by, IsOrderedBy, Gains, Loses};
ghost use Rattle.umem_base.specs.Pages.{IsPage, HasNoRun, IsLowestRun};
ghost use Rattle.span_arena.specs.Arena.{IsFreeIn, IsSound};

use crate::gap::lowest_gap;
use crate::not_a_span::NotASpan;
use std::alloc::Global;
use std::marker::Model;
use umem_base::{NoMemory, Span};

/// A range of pages, some of them taken in spans. Contracts see its base, its number of pages, and the
/// taken spans by rising base.
#[derive(Debug, Drop)]
pub struct Arena {
    base: u64,
    pages: u64,
    spans: Vec<Span>,
}

impl Model for Arena {
    ghost use Rattle.span_arena.specs.Arena.{Arena, IsSound};

    ghost Value = { Arena };

    ghost view = { λ a. record { base = a.base; pages = a.pages; spans = a.spans.items } };

    ghost invariant = { λ a. IsSound (record { base = a.base; pages = a.pages; spans = a.spans.items }) };
}

/// Where the span stands that begins at the base.
fn index_of(spans: &[Span], base: u64) -> Option<usize>
    requires { IsOrderedBy (λ s. s.base) spans.now }
    ensures { MatchOption result (All (λ s. s.base ≢ base) spans.now)
        (λ i. (i < length spans.now) × HoldsAt (λ s. s.base ≡ base) spans.now i) }
{
    spans.binary_search_by_key(&base, |span| span.base).ok()
}

impl Arena {
    /// An arena of so many pages from `base` on, all of them free. It takes no memory.
    pub fn new(alloc: Global, base: u64, pages: u64) -> Arena
        requires page { IsPage base }
        requires below { base + PAGE_BYTES * pages ≤ 2 ^ 32 }
        ensures value { result ≡ record { base = base; pages = pages; spans = [] } }
        ensures sound { IsSound result }
    {
        Arena {
            base,
            pages,
            spans: Vec::new(alloc),
        }
    }

    /// Takes the lowest run of so many free pages and answers its base, or `None` where no so many free
    /// pages stand together. On a refusal nothing changed. First fit by address, this project's own.
    pub fn take(&mut self, pages: u64) -> Result<Option<u64>, NoMemory>
        requires { 1 ≤ pages }

        // Which run it is.
        ensures lowest { IfOk result (λ r.
            MatchOption r (HasNoRun (IsFreeIn self.old) pages) (IsLowestRun (IsFreeIn self.old) pages)) }

        // What the arena is then.
        ensures spans { IfOk result (λ r. MatchOption r (self.new ≡ self.old) (λ base.
            let span : Span = record { base = base; pages = pages } in
            self.new ≡ record self.old { spans = put_by (λ s. s.base) self.old.spans span })) }
        ensures gains { IfOk result (λ r. IfSome r (λ base.
            Gains self.old.spans self.new.spans (record { base = base; pages = pages }))) }
        ensures sound { IsSound self.new }
        ensures err { OnErr result (self.new ≡ self.old) }
    {
        let Some(gap) = lowest_gap(self.base, self.pages, &self.spans, pages) else {
            return Ok(None);
        };
        self.spans.insert(gap.index, gap.run)?;
        Ok(Some(gap.run.base))
    }

    /// Gives the span back that begins there, whole, and answers its pages. On a refusal nothing changed.
    pub fn give_back(&mut self, base: u64) -> Result<u64, NotASpan>
        ensures spans { MatchResult result
            (λ pages. self.new ≡ record self.old { spans = left_out_by (λ s. s.base) self.old.spans base })
            (λ _. self.new ≡ self.old) }
        ensures loses { IfOk result (λ pages.
            Loses (λ s. s.base) self.old.spans self.new.spans (record { base = base; pages = pages })) }

        // No taken span begins there.
        ensures refused { IfErr result (λ _.
            (pages : ℕ) → ¬ Contains self.old.spans (record { base = base; pages = pages })) }
        ensures sound { IsSound self.new }
    {
        let Some(index) = index_of(&self.spans, base) else {
            return Err(NotASpan);
        };
        Ok(self.spans.remove(index).pages)
    }

    /// The taken spans, by rising base.
    pub fn spans(&self) -> &[Span]
        ensures spans { result.now ≡ self.now.spans }
        ensures sound { IsSound self.now }
    {
        &self.spans
    }
}
