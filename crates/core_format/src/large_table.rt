ghost use Rattle.std.specs.Prelude.{◌≡◌, ◌≤◌, [], ◌∷◌, ◌++◌, false, IfOk};
ghost use Rattle.std.specs.List.{list_any};
ghost use Rattle.core_format.specs.Slabs.{large_end, meets_large};

use crate::items::LargeItem;
use crate::range::Range;
use crate::ranges::Ranges;
use std::alloc::Global;
use std::marker::Model;
use umem_base::NoMemory;

/// The large buffers that were read so far, and where their pages are looked up.
#[derive(Drop)]
pub struct LargeTable {
    large: Vec<LargeItem>,
    pages: Ranges,
}

impl Model for LargeTable {
    ghost use Rattle.std.specs.Prelude.{IsPermutation, List, map};
    ghost use Rattle.core_format.specs.declared.items.LargeItem.{LargeItem};
    ghost use Rattle.core_format.specs.Ranges.{large_range};

    ghost Value = { List LargeItem };

    ghost view = { λ t. t.large.items };

    ghost invariant = { λ t. IsPermutation (map large_range t.large.items) t.pages };
}

impl LargeTable {
    pub fn new(alloc: Global) -> LargeTable
        ensures { result ≡ [] }
    {
        LargeTable {
            large: Vec::new(alloc),
            pages: Ranges::new(alloc),
        }
    }

    pub fn large(&self) -> &[LargeItem]
        ensures { result.now ≡ self.now }
    {
        &self.large
    }

    /// Tells whether a large buffer has one of the pages from `base` to `past`.
    pub fn meets_pages(&self, base: u64, past: u64) -> bool
        requires { base ≤ past }
        ensures { result ≡ list_any (meets_large base past) self.now }
    {
        match self.pages.place_of(base, past) {
            Some(_) => false,
            None => true,
        }
    }

    /// The table with one large buffer more, whose pages end at `past`.
    pub fn with_item(self, item: LargeItem, past: u64) -> Result<LargeTable, NoMemory>
        requires past { past ≡ large_end item }
        requires free { list_any (meets_large item.base past) self ≡ false }
        ensures { IfOk result (λ table. table ≡ self ++ item ∷ []) }
    {
        let LargeTable {
            mut large,
            mut pages,
        } = self;
        let range = Range {
            low: item.base,
            past,
            owner: 0,
        };
        let place = pages.place_of(range.low, range.past).unwrap();
        pages.put(place, range)?;
        large.push(item)?;
        Ok(LargeTable { large, pages })
    }

    pub fn into_vec(self) -> Vec<LargeItem>
        ensures { result.items ≡ self }
    {
        self.large
    }
}
