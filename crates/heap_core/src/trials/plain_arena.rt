use script::Header;
use std::alloc::Global;
use umem_base::{ARENA_BASE, NoMemory, PAGE_BYTES};

/// Pages that a slab or a large buffer has.
#[derive(Clone, Copy, PartialEq, Eq, PartialOrd, Ord)]
struct PlainSpan {
    base: u64,
    end: u64,
}

/// The runs of pages that are taken, by rising base, and where the arena ends.
#[derive(Drop)]
pub struct PlainArena {
    spans: Vec<PlainSpan>,
    end: u64,
}

impl PlainArena {
    pub fn new(alloc: Global, header: &Header) -> PlainArena {
        PlainArena {
            spans: Vec::new(alloc),
            end: if header.version == 1 {
                0x50_0000
            } else {
                0x110_0000
            },
        }
    }

    /// The lowest base at which so many bytes are free.
    fn lowest(&self, bytes: u64) -> u64 {
        let mut base = ARENA_BASE;
        for span in self.spans.iter() {
            if base.saturating_add(bytes) <= span.base {
                return base;
            }
            base = span.end;
        }
        base
    }

    /// Takes the lowest run of so many pages, if one is free.
    pub fn take(&mut self, pages: u64) -> Result<Option<u64>, NoMemory> {
        let bytes = pages.saturating_mul(PAGE_BYTES);
        let base = self.lowest(bytes);
        let end = base.saturating_add(bytes);
        if end > self.end {
            return Ok(None);
        }
        self.spans.push(PlainSpan { base, end })?;
        self.spans.sort()?;
        Ok(Some(base))
    }

    /// Gives back the run at a base.
    pub fn give_back(&mut self, base: u64) {
        self.spans.retain(|span| span.base != base);
    }
}
