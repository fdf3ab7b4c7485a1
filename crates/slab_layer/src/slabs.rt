ghost use Rattle.std.specs.Prelude.{◌≡◌, ◌≢◌, ◌+◌, ◌<◌, ◌≤◌, ◌↔◌, [], ◌∷◌, ◌++◌, max, length, All, IsNone, IsErr, IfErr, IfSome, MatchOption, OnOk, OnErr};
ghost use Rattle.std.specs.List.Sorted.{IsPermutation};
ghost use Rattle.slab_layer.specs.Rounds.{AreConsecutive};
ghost use Rattle.slab_layer.specs.Slab.{IsComplete, slab_of};
ghost use Rattle.slab_layer.specs.Slabs.{AddsRounds, AreSlabs, HasListAt, HasLowestComplete, IsLowestRound, IsMissing, IsRefused, after_put, listed_rounds, with_round, with_slab, without_round, without_slab_at};

use crate::empty_slab::EmptySlab;
use crate::round::{Round, Rounds};
use crate::search::{count_from_below, first_with_rounds, index_of_chunk, lowest_complete};
use crate::slab::Slab;
use std::alloc::Global;
use std::marker::Model;
use umem_base::NoMemory;

/// The slabs of one cache (Bonwick 1994), each with a list of its rounds that no magazine holds. Contracts
/// see the slabs in the order of their chunks, each with its base, its chunks and its list by rising number,
/// and the spare: how many rounds one more slab may bring. That the lowest-numbered round is taken first is
/// this project's own.
#[derive(Debug, Drop)]
pub struct Slabs {
    cache: u32,
    spare: u32,
    slabs: Vec<Slab>,
}

impl Model for Slabs {
    ghost use Rattle.std.specs.Prelude.{◌<◌, vec_len, vec_capacity};
    ghost use Rattle.slab_layer.specs.Slabs.{AreSlabs, Slabs};

    ghost Value = { Slabs };

    ghost view = { λ s. record { cache = s.cache; spare = s.spare; slabs = s.slabs.items } };

    ghost invariant = { λ s. AreSlabs s.slabs.items × (0 < s.spare → vec_len s.slabs < vec_capacity s.slabs) };
}

impl Slabs {
    /// The slabs of the cache of that number, of which there is none yet. It takes no memory.
    pub fn new(alloc: Global, cache: u32) -> Slabs
        ensures value { result ≡ record { cache = cache; spare = 0; slabs = [] } }
    {
        Slabs {
            cache,
            spare: 0,
            slabs: Vec::new(alloc),
        }
    }

    /// The number of the cache.
    pub fn cache(&self) -> u32
        ensures cache { result ≡ self.now.cache }
        ensures sound { AreSlabs self.now.slabs }
    {
        self.cache
    }

    /// Takes the memory for one more slab of so many rounds. On a refusal nothing changed.
    pub fn make_room(&mut self, rounds: u32) -> Result<(), NoMemory>
        ensures ok { OnOk result (self.new ≡ record self.old { spare = max self.old.spare rounds }) }
        ensures err { OnErr result (self.new ≡ self.old) }
    {
        self.slabs.reserve(1)?;
        self.spare = self.spare.max(rounds);
        Ok(())
    }

    /// Adds a slab whose rounds are all in its list. A slab that was there before and begins at the same
    /// base or has a chunk in common goes first, with its rounds. It takes no memory and uses up the spare.
    pub fn add_slab(&mut self, base: u64, rounds: Rounds)
        requires some { 0 < length rounds.items }
        requires room { length rounds.items ≤ self.old.spare }
        requires rising { AreConsecutive rounds.items }
        ensures value { self.new ≡ record self.old {
          spare = 0;
          slabs = with_slab self.old.slabs (slab_of base rounds.items);
        } }
        ensures holds { AddsRounds self.old.slabs self.new.slabs (slab_of base rounds.items) }
        ensures sound { AreSlabs self.new.slabs }
    {
        // Shows that the spare, and so the number of rounds, fits 32 bits.
        let _ = &self.spare;
        let new = Slab::new(base, rounds);
        self.slabs.retain(|slab| !slab.clashes(&new));
        let place = count_from_below(&self.slabs, new.first());
        self.slabs.insert(place, new).unwrap();
        self.spare = 0;
    }

    /// Takes the round with the lowest number of all lists, or `None` where all are empty. It takes no
    /// memory.
    pub fn take(&mut self) -> Option<Round>
        // Which round it is.
        ensures lowest { IfSome result (IsLowestRound self.old.slabs) }
        ensures none { IsNone result ↔ (listed_rounds self.old.slabs ≡ []) }

        // The lists afterwards.
        ensures taken { MatchOption result (self.new ≡ self.old)
            (λ round. self.new ≡ record self.old { slabs = without_round self.old.slabs round }) }
        ensures holds { IfSome result (λ round. listed_rounds self.old.slabs ≡ round ∷ listed_rounds self.new.slabs) }
        ensures sound { AreSlabs self.new.slabs }
    {
        let index = first_with_rounds(&self.slabs)?;
        let slab = &mut self.slabs[index];
        slab.take()
    }

    /// Puts a round into the list of its slab. It is handed back where its chunk is none of these slabs', or
    /// stands in a list already; then nothing changed. It takes no memory.
    pub fn put(&mut self, round: Round) -> Result<(), Round>
        // Which rounds are handed back.
        ensures refused { IsErr result ↔ IsRefused self.old.slabs round }
        ensures missing { OnOk result (IsMissing self.old.slabs round) }
        ensures back { IfErr result (λ back. back ≡ round) }

        // The lists afterwards.
        ensures ok { OnOk result (self.new ≡ record self.old { slabs = with_round self.old.slabs round }) }
        ensures after { self.new ≡ record self.old { slabs = after_put self.old.slabs round } }
        ensures holds { OnOk result
            (IsPermutation (round ∷ listed_rounds self.old.slabs) (listed_rounds self.new.slabs)) }
        ensures err { OnErr result (self.new ≡ self.old) }
        ensures sound { AreSlabs self.new.slabs }
    {
        let Some(index) = index_of_chunk(&self.slabs, round.chunk()) else {
            return Err(round);
        };
        let slab = &mut self.slabs[index];
        slab.put(round)
    }

    /// The list of the slab that begins at the base, by rising number, or `None` where none begins there.
    pub fn list(&self, base: u64) -> Option<&[Round]>
        ensures list { MatchOption result (All (λ slab. slab.base ≢ base) self.now.slabs)
            (λ list. HasListAt self.now.slabs base list.now) }
        ensures sound { AreSlabs self.now.slabs }
    {
        let slab = self.slabs.iter().find(|slab| slab.base() == base)?;
        Some(slab.list())
    }

    /// Drops the slab that begins lowest of those whose rounds are all in their lists, and hands it out, or
    /// `None` where there is none. It takes no memory.
    pub fn drop_empty(&mut self) -> Option<EmptySlab>
        // Which slab it is.
        ensures lowest { IfSome result (λ empty. HasLowestComplete self.old.slabs empty.base empty.rounds.items) }
        ensures none { IsNone result ↔ All (λ slab. ¬ IsComplete slab) self.old.slabs }

        // The slabs afterwards.
        ensures dropped { MatchOption result (self.new ≡ self.old)
            (λ empty. self.new ≡ record self.old { slabs = without_slab_at self.old.slabs empty.base }) }
        ensures holds { IfSome result (λ empty.
            IsPermutation (listed_rounds self.old.slabs) (empty.rounds.items ++ listed_rounds self.new.slabs)) }
        ensures sound { AreSlabs self.new.slabs }
    {
        let index = lowest_complete(&self.slabs)?;
        let slab = self.slabs.remove(index);
        Some(slab.into_empty())
    }
}
