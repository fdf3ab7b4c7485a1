ghost use Rattle.std.specs.Prelude.{◌≡◌, ◌≤◌, ◌⊎◌, ◌↔◌, [], IfOk, IfSome, IsNone, MatchOption};
ghost use Rattle.slab_layer.specs.Slabs.{AreSlabs, KeepsRounds, after_puts};
ghost use Rattle.magazine.specs.CpuCache.{AreEmpty, AreFull, GainsRound, IsCpuCache, LosesRound, PutsExchanged, PutsLoaded, TakesExchanged, TakesLoaded, TakesPrevious, after_load, drain_order, loaded_magazine, previous_magazine};
ghost use Rattle.magazine.specs.Need.{MatchNeed};
ghost use Rattle.magazine.specs.Room.{MatchRoom};

use crate::magazine::Magazine;
use crate::need::Need;
use crate::room::Room;
use slab_layer::{Round, Slabs};
use std::alloc::Global;
use std::marker::Model;
use std::mem;
use umem_base::NoMemory;

/// What a CPU holds of a cache (Bonwick and Adams 2001): a loaded magazine, which serves its calls, and a
/// previous one, which served them until then. Both are of one size. Contracts see the size and the rounds of
/// each, oldest first. Only `new` takes memory.
#[derive(Debug, Drop)]
pub struct CpuCache {
    loaded: Magazine,
    previous: Magazine,
}

impl Model for CpuCache {
    ghost use Rattle.std.specs.Prelude.{◌≡◌};
    ghost use Rattle.magazine.specs.CpuCache.{CpuCache, IsCpuCache};

    ghost Value = { CpuCache };

    ghost view = { λ c. record { size = c.loaded.size; loaded = c.loaded.rounds; previous = c.previous.rounds } };

    ghost invariant = { λ c. (c.previous.size ≡ c.loaded.size)
        × IsCpuCache (record { size = c.loaded.size; loaded = c.loaded.rounds; previous = c.previous.rounds }) };
}

impl CpuCache {
    /// Two empty magazines for so many rounds each.
    pub fn new(alloc: Global, size: u32) -> Result<CpuCache, NoMemory>
        requires { 1 ≤ size }
        ensures { IfOk result (λ cpu. cpu ≡ record { size = size; loaded = []; previous = [] }) }
    {
        Ok(CpuCache {
            loaded: Magazine::new(alloc, size)?,
            previous: Magazine::new(alloc, size)?,
        })
    }

    pub fn loaded(&self) -> &Magazine
        ensures loaded { result.now ≡ loaded_magazine self.now }
        ensures sound { IsCpuCache self.now }
    {
        &self.loaded
    }

    pub fn previous(&self) -> &Magazine
        ensures previous { result.now ≡ previous_magazine self.now }
        ensures sound { IsCpuCache self.now }
    {
        &self.previous
    }

    /// A round for an allocation: the one that came last to the loaded magazine. If there is none, the
    /// magazines change places first, where that helps.
    pub fn alloc(&mut self) -> Need
        ensures cases { MatchNeed result
            (λ round. TakesLoaded self.old self.new round ⊎ TakesExchanged self.old self.new round)
            (AreEmpty self.old × (self.new ≡ self.old)) }
        ensures want { (result ≡ Need.WantFull) ↔ AreEmpty self.old }
        ensures holds { MatchNeed result (LosesRound self.old self.new) (self.new ≡ self.old) }
        ensures sound { IsCpuCache self.new }
    {
        if self.loaded.is_empty() {
            if self.previous.is_empty() {
                return Need::WantFull;
            }
            mem::swap(&mut self.loaded, &mut self.previous);
        }
        match self.loaded.pop() {
            Some(round) => Need::Got(round),
            None => Need::WantFull,
        }
    }

    /// Keeps the round of a free in the loaded magazine. If there is no room, the magazines change places
    /// first, where that helps; else the round comes back.
    pub fn free(&mut self, round: Round) -> Room
        ensures cases { MatchRoom result
            (PutsLoaded self.old self.new round ⊎ PutsExchanged self.old self.new round)
            (λ back. AreFull self.old × (back ≡ round) × (self.new ≡ self.old)) }
        ensures want { (result ≡ Room.WantEmpty round) ↔ AreFull self.old }
        ensures holds { MatchRoom result (GainsRound self.old self.new round) (λ _. self.new ≡ self.old) }
        ensures sound { IsCpuCache self.new }
    {
        if self.loaded.is_full() {
            if self.previous.is_full() {
                return Room::WantEmpty(round);
            }
            mem::swap(&mut self.loaded, &mut self.previous);
        }
        match self.loaded.push(round) {
            Ok(()) => Room::Kept,
            Err(round) => Room::WantEmpty(round),
        }
    }

    /// Gives a CPU without a round another magazine to serve its calls. Of its two, the one that did so is
    /// kept, and the other one comes back.
    pub fn load_full(&mut self, full: Magazine) -> Magazine
        requires empty { AreEmpty self.old }
        requires size { full.size ≡ self.old.size }
        ensures back { result ≡ previous_magazine self.old }
        ensures loaded { self.new ≡ after_load self.old full }
        ensures sound { IsCpuCache self.new }
    {
        self.load(full)
    }

    /// Gives a CPU without room for a round another magazine to serve its calls. Of its two, the one that did
    /// so is kept, and the other one comes back.
    pub fn load_empty(&mut self, empty: Magazine) -> Magazine
        requires full { AreFull self.old }
        requires size { empty.size ≡ self.old.size }
        ensures back { result ≡ previous_magazine self.old }
        ensures loaded { self.new ≡ after_load self.old empty }
        ensures sound { IsCpuCache self.new }
    {
        self.load(empty)
    }

    fn load(&mut self, magazine: Magazine) -> Magazine
        requires { magazine.size ≡ self.old.size }
        ensures back { result ≡ previous_magazine self.old }
        ensures loaded { self.new ≡ after_load self.old magazine }
        ensures sound { IsCpuCache self.new }
    {
        let loaded = mem::replace(&mut self.loaded, magazine);
        mem::replace(&mut self.previous, loaded)
    }

    /// A round from wherever there is one, with the magazines left in their places: the loaded one is looked
    /// at first, and the round that came last is given.
    pub fn take_any(&mut self) -> Option<Round>
        ensures cases { MatchOption result
            (AreEmpty self.old × (self.new ≡ self.old))
            (λ round. TakesLoaded self.old self.new round ⊎ TakesPrevious self.old self.new round) }
        ensures none { IsNone result ↔ AreEmpty self.old }
        ensures holds { IfSome result (LosesRound self.old self.new) }
        ensures sound { IsCpuCache self.new }
    {
        if let Some(round) = self.loaded.pop() {
            return Some(round);
        }
        self.previous.pop()
    }

    /// Puts every round into the slabs, those of the loaded magazine first and the newest of each first. One
    /// that is handed back is given up.
    pub fn drain_into(&mut self, slabs: &mut Slabs)
        ensures emptied { self.new ≡ record self.old { loaded = []; previous = [] } }

        // The slabs afterwards.
        ensures put { slabs.new ≡ record slabs.old { slabs = after_puts slabs.old.slabs (drain_order self.old) } }
        ensures holds { KeepsRounds slabs.old.slabs slabs.new.slabs (drain_order self.old) }
        ensures sound { AreSlabs slabs.new.slabs }
    {
        // Says that the slabs are sound, also where there is nothing to put.
        let _ = slabs.cache();
        self.loaded.drain_into(slabs);
        self.previous.drain_into(slabs);
    }
}
