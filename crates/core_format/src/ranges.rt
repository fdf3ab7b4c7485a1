ghost use Rattle.std.specs.Prelude.{◌≡◌, ℕ, ◌≤◌, ◌<◌, [], ◌∷◌, Contains, IsPermutation, IfSome, OnOk, OnErr, is_none, is_some, length, slice_index_or, true, unwrap_or, ◌++◌};
ghost use Rattle.std.specs.Option.{option_map};
ghost use Rattle.core_format.specs.Items.{last_of_list};
ghost use Rattle.std.specs.List.{list_any};
ghost use Rattle.core_format.specs.declared.range.Range.{Range as Seen};
ghost use Rattle.core_format.specs.Ranges.{IsOwnerOf, AreRanges, FitsBefore, meets_range, is_in_range};

use crate::range::Range;
use std::alloc::Global;
use std::marker::Model;
use umem_base::NoMemory;

/// Ranges of numbers that have none in common, in order. A look-up takes as many steps as the logarithm of
/// their number.
#[derive(Drop)]
pub struct Ranges {
    ranges: Vec<Range>,
}

impl Model for Ranges {
    ghost use Rattle.std.specs.Prelude.{List};
    ghost use Rattle.core_format.specs.declared.range.Range.{Range};
    ghost use Rattle.core_format.specs.Ranges.{IsOwnerOf, AreRanges};

    ghost Value = { List Range };

    ghost view = { λ r. r.ranges.items };

    ghost invariant = { λ r. AreRanges r.ranges.items };
}

/// How many of the ranges end at the number or below.
fn count_up_to(ranges: &[Range], number: u64) -> usize
    requires { AreRanges ranges.now }
    ensures within { result ≤ length ranges.now }
    ensures below { (k : ℕ) (d : Seen) → k < result → (slice_index_or ranges.now k d).past ≤ number }
    ensures above { (k : ℕ) (d : Seen) → result ≤ k → k < length ranges.now
        → number < (slice_index_or ranges.now k d).past }
{
    ranges.partition_point(|range| range.past <= number)
}

impl Ranges {
    pub fn new(alloc: Global) -> Ranges
        ensures { result ≡ [] }
    {
        Ranges {
            ranges: Vec::new(alloc),
        }
    }

    /// Where the numbers from `low` to `past` go, if no range has one of them.
    pub fn place_of(&self, low: u64, past: u64) -> Option<usize>
        requires { low ≤ past }
        ensures none { is_none result ≡ list_any (meets_range low past) self.now }
        ensures place { IfSome result (FitsBefore self.now low past) }
    {
        let index = count_up_to(&self.ranges, low);
        if index == self.ranges.len() {
            return Some(index);
        }
        let range = self.ranges[index];
        (past <= range.low).then_some(index)
    }

    pub fn put(&mut self, index: usize, range: Range) -> Result<(), NoMemory>
        requires whole { range.low ≤ range.past }
        requires place { FitsBefore self.old range.low range.past index }
        ensures ok { OnOk result (IsPermutation (range ∷ self.old) self.new) }
        ensures err { OnErr result (self.new ≡ self.old) }
    {
        self.ranges.insert(index, range)?;
        Ok(())
    }

    /// The number past all ranges.
    pub fn end(&self) -> u64
        ensures { result ≡ unwrap_or (option_map (λ range. range.past) (last_of_list self.now)) 0 }
    {
        match self.ranges.last() {
            Some(range) => range.past,
            None => 0,
        }
    }

    /// Puts a range behind all others.
    pub fn push(&mut self, range: Range) -> Result<(), NoMemory>
        requires whole { range.low ≤ range.past }
        requires behind { unwrap_or (option_map (λ range. range.past) (last_of_list self.old)) 0 ≤ range.low }
        ensures { OnOk result (self.new ≡ self.old ++ range ∷ []) }
    {
        self.ranges.push(range)?;
        Ok(())
    }

    /// What the number belongs to.
    pub fn owner_of(&self, number: u64) -> Option<usize>
        ensures found { is_some result ≡ list_any (is_in_range number) self.now }
        ensures some { IfSome result (IsOwnerOf self.now number) }
    {
        let index = count_up_to(&self.ranges, number);
        if index == self.ranges.len() {
            return None;
        }
        let range = self.ranges[index];
        (range.low <= number).then_some(range.owner)
    }
}
