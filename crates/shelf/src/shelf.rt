ghost use Rattle.std.specs.Prelude.{◌≡◌, ◌≢◌, ◌+◌, ◌^◌, ◌<◌, ◌≤◌, ◌↔◌, [], ◌∷◌, ◌++◌, max, drop, length, All, IfOk, IfSome, IsNone, MatchOption, OnOk, OnErr};
ghost use Rattle.std.specs.List.Sorted.{IsPermutation};
ghost use Rattle.slab_layer.specs.Rounds.{AreConsecutive};
ghost use Rattle.slab_layer.specs.Slab.{IsApartBelow, slab_of};
ghost use Rattle.slab_layer.specs.Slabs.{HasListAt, listed_rounds};
ghost use Rattle.depot.specs.Depot.{Depot, full_magazines};
ghost use Rattle.shelf.specs.Shelf.{cpu_caches};
ghost use Rattle.shelf.specs.Steps.{IsBare, chunk_in, complete_slabs, drained, left_in, put_on, reach_of, taken_any, taken_from, with_slab_of, without_complete_slabs};
ghost use Rattle.shelf.specs.Stock.{IsOut, IsStock, KeepsShape, empty_stock, held_rounds};

use crate::steps;
use depot::Depot;
use magazine::{CpuCache, Magazine};
use slab_layer::{Round, Rounds, Slabs};
use std::alloc::Global;
use std::marker::Model;
use umem_base::NoMemory;

/// Where the free chunks of a cache stand (Bonwick and Adams 2001): in the two magazines of each CPU, in the full ones
/// of the depot, or in the list of their slab. Contracts see these as plain lists of chunk numbers, beside the number
/// of the cache and the spare. No round stands twice, and each is that of a chunk of one of the slabs.
#[derive(Debug, Drop)]
pub struct Shelf {
    cpus: Vec<CpuCache>,
    depot: Depot,
    slabs: Slabs,
}

impl Model for Shelf {
    ghost use Rattle.shelf.specs.Shelf.{AreParts, Shelf, stock_of};

    ghost Value = { Shelf };

    ghost view = { λ s. record {
      cache = s.slabs.cache;
      spare = s.slabs.spare;
      stock = stock_of s.cpus.items s.depot s.slabs.slabs;
    } };

    ghost invariant = { λ s. AreParts s.cpus.items s.depot s.slabs.slabs };
}

impl Shelf {
    /// The shelf of the cache of that number, for so many CPUs and magazines of that size. It holds nothing yet.
    pub fn new(alloc: Global, cpus: u32, size: u32, cache: u32) -> Result<Shelf, NoMemory>
        requires { 1 ≤ size }
        ensures { IfOk result (λ shelf. shelf ≡ record { cache = cache; spare = 0; stock = empty_stock size cpus }) }
    {
        let mut magazines = Vec::new(alloc);
        for _ in 0..cpus {
            magazines.push(CpuCache::new(alloc, size)?)?;
        }
        Ok(Shelf {
            cpus: magazines,
            depot: Depot::new(alloc, size)?,
            slabs: Slabs::new(alloc, cache),
        })
    }

    /// The number of the cache.
    pub fn cache(&self) -> u32
        ensures cache { result ≡ self.now.cache }
        ensures sound { IsStock self.now.stock }
    {
        self.slabs.cache()
    }

    /// The magazines of each CPU, by its number.
    pub fn cpus(&self) -> &[CpuCache]
        ensures { result.now ≡ cpu_caches self.now.stock }
    {
        &self.cpus
    }

    /// The full magazines of the depot, in the order in which they came.
    pub fn full(&self) -> &[Magazine]
        ensures { result.now ≡ full_magazines (record { size = self.now.stock.size; full = self.now.stock.depot }) }
    {
        self.depot.full()
    }

    /// The list of the slab that begins at the base, by rising number, or `None` where none begins there.
    pub fn list(&self, base: u64) -> Option<&[Round]>
        ensures { MatchOption result (All (λ slab. slab.base ≢ base) self.now.stock.slabs)
            (λ list. HasListAt self.now.stock.slabs base list.now) }
    {
        self.slabs.list(base)
    }

    /// Takes a round for an allocation of a CPU: the newest of its magazines, or of one that the depot gives for an
    /// empty one, or the lowest of the slabs' lists. It takes no memory.
    pub fn find(&mut self, cpu: u32) -> Option<Round>
        requires { cpu < length self.old.stock.cpus }
        // Which round it is, and what is left.
        ensures round { result ≡ chunk_in (taken_from self.old.stock cpu) }
        ensures left { self.new ≡ record self.old { stock = left_in self.old.stock (taken_from self.old.stock cpu) } }

        // It was held, and the others still are.
        ensures holds { IfSome result (λ round.
            IsPermutation (held_rounds self.old.stock) (round ∷ held_rounds self.new.stock)) }
        ensures out { IfSome result (IsOut self.new.stock) }
        ensures none { IsNone result ↔ IsBare (reach_of self.old.stock cpu) }
        ensures sound { IsStock self.new.stock }
        ensures shape { KeepsShape self.old.stock self.new.stock }
    {
        let at = &mut self.cpus[cpu as usize];
        steps::take(at, &mut self.depot, &mut self.slabs)
    }

    /// Takes a round for an allocation of a CPU from wherever one stands: from the CPU with the lowest number that has
    /// one, or from the depot or the slabs. It takes no memory.
    pub fn find_any(&mut self, cpu: u32) -> Option<Round>
        requires { cpu < length self.old.stock.cpus }
        // Which round it is, and what is left.
        ensures round { result ≡ chunk_in (taken_any self.old.stock cpu) }
        ensures left { self.new ≡ record self.old { stock = left_in self.old.stock (taken_any self.old.stock cpu) } }

        // It was held, and the others still are.
        ensures holds { IfSome result (λ round.
            IsPermutation (held_rounds self.old.stock) (round ∷ held_rounds self.new.stock)) }
        ensures out { IfSome result (IsOut self.new.stock) }
        ensures none { IsNone result ↔ (held_rounds self.old.stock ≡ []) }
        ensures sound { IsStock self.new.stock }
        ensures shape { KeepsShape self.old.stock self.new.stock }
    {
        steps::take_any(
            &mut self.cpus,
            cpu as usize,
            &mut self.depot,
            &mut self.slabs,
        )
    }

    /// Puts the round of a chunk that a CPU frees: into its magazines, or into one that the depot gives for a full one,
    /// or into the list of its slab. It takes no memory.
    pub fn put(&mut self, cpu: u32, round: Round)
        requires cpu { cpu < length self.old.stock.cpus }
        requires out { IsOut self.old.stock round }
        ensures after { self.new ≡ record self.old { stock = put_on self.old.stock cpu round } }
        ensures holds { IsPermutation (round ∷ held_rounds self.old.stock) (held_rounds self.new.stock) }
        ensures sound { IsStock self.new.stock }
        ensures shape { KeepsShape self.old.stock self.new.stock }
    {
        let at = &mut self.cpus[cpu as usize];
        steps::put(at, &mut self.depot, &mut self.slabs, round);
    }

    /// Takes the memory for one more slab of so many rounds. On a refusal nothing changed.
    pub fn make_room(&mut self, rounds: u32) -> Result<(), NoMemory>
        ensures ok { OnOk result (self.new ≡ record self.old { spare = max self.old.spare rounds }) }
        ensures err { OnErr result (self.new ≡ self.old) }
    {
        self.slabs.make_room(rounds)
    }

    /// Adds a slab behind the others, for an allocation that found no round, and hands out the first of its rounds. The
    /// others stand in its list. It takes no memory and uses up the spare.
    pub fn add_slab(&mut self, base: u64, rounds: Rounds) -> Round
        requires some { 0 < length rounds.items }
        requires room { length rounds.items ≤ self.old.spare }
        requires rising { AreConsecutive rounds.items }
        requires apart { All (IsApartBelow (slab_of base rounds.items)) self.old.stock.slabs }
        requires empty { listed_rounds self.old.stock.slabs ≡ [] }
        ensures first { rounds.items ≡ result ∷ drop 1 rounds.items }
        ensures after { self.new ≡ record self.old {
          spare = 0;
          stock = with_slab_of self.old.stock base rounds.items;
        } }
        ensures holds { IsPermutation (rounds.items ++ held_rounds self.old.stock)
            (result ∷ held_rounds self.new.stock) }
        ensures out { IsOut self.new.stock result }
        ensures sound { IsStock self.new.stock }
    {
        self.slabs.add_slab(base, rounds);
        self.slabs.take().unwrap()
    }

    /// Empties every magazine, so that each round stands in the list of its slab. It takes no memory.
    pub fn drain(&mut self)
        ensures after { self.new ≡ record self.old { stock = drained self.old.stock } }
        ensures holds { IsPermutation (held_rounds self.old.stock) (held_rounds self.new.stock) }
        ensures sound { IsStock self.new.stock }
        ensures shape { KeepsShape self.old.stock self.new.stock }
    {
        steps::drain_cpus(&mut self.cpus, &mut self.slabs);
        self.depot.drain_into(&mut self.slabs);
    }

    /// Drops each slab that has all of its rounds in its list. It takes no memory.
    pub fn drop_complete(&mut self)
        ensures after { self.new ≡ record self.old { stock = without_complete_slabs self.old.stock } }
        ensures holds { IsPermutation (held_rounds self.old.stock)
            (listed_rounds (complete_slabs self.old.stock) ++ held_rounds self.new.stock) }
        ensures sound { IsStock self.new.stock }
    {
        steps::drop_complete(&mut self.slabs);
    }
}
