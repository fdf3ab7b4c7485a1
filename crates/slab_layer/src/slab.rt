ghost use Rattle.std.specs.Prelude.{◌≡◌, ◌+◌, ◌^◌, ◌<◌, ◌≤◌, ◌↔◌, [], ◌∷◌, ◌⊎◌, length, Contains, IsTrue, IfErr, IsErr, MatchOption, OnOk, OnErr};
ghost use Rattle.std.specs.List.Sorted.{IsStrictlyIncreasing};
ghost use Rattle.umem_base.specs.Ordered.{SplitsBy};
ghost use Rattle.slab_layer.specs.Rounds.{AreConsecutive};
ghost use Rattle.slab_layer.specs.Slab.{HasChunk, IsComplete, IsSlab, clashes, has_chunk, slab_of, with_chunk};

use crate::empty_slab::EmptySlab;
use crate::round::{Round, Rounds};
use std::marker::Model;

/// A slab: where it begins, its chunks, which have the numbers from `first` on, and the rounds of those
/// that are free and in no magazine, by rising number.
#[derive(Debug, Drop)]
pub struct Slab {
    base: u64,
    first: u32,
    count: u32,
    list: Rounds,
}

impl Model for Slab {
    ghost use Rattle.std.specs.Prelude.{◌+◌, ◌≤◌, length};
    ghost use Rattle.slab_layer.specs.Slab.{IsSlab, Slab};

    ghost Value = { Slab };

    ghost view = { λ s. record { base = s.base; first = s.first; count = s.count; list = s.list.items } };

    ghost invariant = { λ s. IsSlab (record { base = s.base; first = s.first; count = s.count; list = s.list.items })
        × (s.count ≤ length s.list.items + s.list.spare) };
}

/// Where a round goes in a list, or `None` where one with its number stands there.
fn place_for(rounds: &[Round], chunk: u32) -> Option<usize>
    requires { IsStrictlyIncreasing rounds.now }
    ensures { MatchOption result (Contains rounds.now chunk)
        (SplitsBy (λ other. other < chunk) (λ other. chunk < other) rounds.now) }
{
    rounds.binary_search_by_key(&chunk, Round::chunk).err()
}

impl Slab {
    pub fn new(base: u64, rounds: Rounds) -> Slab
        requires some { 0 < length rounds.items }
        requires fits { length rounds.items < 2 ^ 32 }
        requires rising { AreConsecutive rounds.items }
        ensures value { result ≡ slab_of base rounds.items }
        ensures sound { IsSlab result }
    {
        let list = rounds.as_slice();
        let first = list[0].chunk();
        let last = list[list.len() - 1].chunk();
        Slab {
            base,
            first,
            count: last - first + 1,
            list: rounds,
        }
    }

    pub fn base(&self) -> u64
        ensures { result ≡ self.now.base }
    {
        self.base
    }

    pub fn first(&self) -> u32
        ensures { result ≡ self.now.first }
    {
        self.first
    }

    /// The number past the last chunk.
    pub fn end(&self) -> u64
        ensures { result ≡ self.now.first + self.now.count }
    {
        u64::from(self.first) + u64::from(self.count)
    }

    pub fn list(&self) -> &[Round]
        ensures { result.now ≡ self.now.list }
    {
        self.list.as_slice()
    }

    pub fn has_chunk(&self, chunk: u32) -> bool
        ensures { result ≡ has_chunk chunk self.now }
    {
        self.first <= chunk && u64::from(chunk) < self.end()
    }

    /// Whether both begin at one base, or have a chunk in common.
    pub fn clashes(&self, other: &Slab) -> bool
        ensures { result ≡ clashes self.now other.now }
    {
        self.base == other.base
            || (u64::from(self.first) < other.end() && u64::from(other.first) < self.end())
    }

    pub fn is_complete(&self) -> bool
        ensures { IsTrue result ↔ IsComplete self.now }
    {
        self.list.as_slice().len() == self.count as usize
    }

    /// Takes the lowest round of the list.
    pub fn take(&mut self) -> Option<Round>
        ensures taken { MatchOption result ((self.old.list ≡ []) × (self.new ≡ self.old))
            (λ round. (self.old.list ≡ round ∷ self.new.list) × (self.new ≡ record self.old { list = self.new.list })) }
        ensures sound { IsSlab self.new }
    {
        if self.list.as_slice().is_empty() {
            return None;
        }
        Some(self.list.remove(0))
    }

    /// Puts a round into the list, or hands it back where it is of no chunk of this slab or stands there.
    pub fn put(&mut self, round: Round) -> Result<(), Round>
        ensures own { OnOk result (HasChunk round self.old) }
        ensures missing { OnOk result (¬ Contains self.old.list round) }
        ensures ok { OnOk result (self.new ≡ with_chunk round self.old) }
        ensures refused { IsErr result ↔ ((¬ HasChunk round self.old) ⊎ Contains self.old.list round) }
        ensures back { IfErr result (λ back. back ≡ round) }
        ensures err { OnErr result (self.new ≡ self.old) }
        ensures sound { IsSlab self.new }
    {
        let chunk = round.chunk();
        if !self.has_chunk(chunk) {
            return Err(round);
        }
        let Some(place) = place_for(self.list.as_slice(), chunk) else {
            return Err(round);
        };
        self.list.insert(place, round);
        Ok(())
    }

    pub fn into_empty(self) -> EmptySlab
        ensures base { result.base ≡ self.base }
        ensures rounds { result.rounds.items ≡ self.list }
    {
        EmptySlab {
            base: self.base,
            rounds: self.list,
        }
    }
}
