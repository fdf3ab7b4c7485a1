ghost use Rattle.std.specs.Prelude.{◌≡◌, ◌≤◌, ◌↔◌, [], IfOk, IsTrue, false, reverse};
ghost use Rattle.std.specs.Bool.{OnFalse, OnTrue};
ghost use Rattle.slab_layer.specs.Slabs.{AreSlabs, KeepsRounds, after_puts};
ghost use Rattle.magazine.specs.CpuCache.{AreEmpty, AreFull, IsCpuCache};
ghost use Rattle.depot.specs.Depot.{HasNoEmpty, HasNoFull, IsDepot, TradesForEmpty, TradesForFull, TradesRounds, depot_rounds, full_magazines};

use magazine::{CpuCache, Magazine};
use slab_layer::Slabs;
use std::alloc::Global;
use std::marker::Model;
use umem_base::{BoundedVec, NoMemory};

/// How many magazines a depot has.
pub const MAGAZINES: u32 = 8;

/// Where the CPUs of a cache trade an empty magazine for a full one and the other way round (Bonwick and Adams
/// 2001). Contracts see the size of the magazines and the rounds of each full one, in the order in which they
/// came. That there are eight magazines is this project's own. Only `new` takes memory.
#[derive(Debug, Drop)]
pub struct Depot {
    size: u32,
    full: BoundedVec<Magazine>,
    empty: BoundedVec<Magazine>,
}

impl Model for Depot {
    ghost use Rattle.depot.specs.Depot.{AreMagazines, Depot, rounds_of_each};

    ghost Value = { Depot };

    ghost view = { λ d. record { size = d.size; full = rounds_of_each d.full.items } };

    ghost invariant = { λ d. AreMagazines d.size d.full.items d.full.spare d.empty.items d.empty.spare };
}

impl Depot {
    /// Eight empty magazines for so many rounds each.
    pub fn new(alloc: Global, size: u32) -> Result<Depot, NoMemory>
        requires { 1 ≤ size }
        ensures { IfOk result (λ depot. depot ≡ record { size = size; full = [] }) }
    {
        let full = BoundedVec::with_room(alloc, MAGAZINES)?;
        let mut empty = BoundedVec::with_room(alloc, MAGAZINES)?;
        for _ in 0..MAGAZINES {
            empty.push(Magazine::new(alloc, size)?);
        }
        Ok(Depot { size, full, empty })
    }

    /// A CPU without a round loads the full magazine that came last, and leaves an empty one here. Where the
    /// depot has no full magazine, or the sizes differ, the answer is false and all stays as it was.
    pub fn trade_for_full(&mut self, cpu: &mut CpuCache) -> bool
        requires { AreEmpty cpu.old }
        ensures refused { (result ≡ false) ↔ HasNoFull self.old cpu.old }

        // What stands afterwards.
        ensures traded { OnTrue result (TradesForFull self.old self.new cpu.old cpu.new) }
        ensures unchanged { OnFalse result ((self.new ≡ self.old) × (cpu.new ≡ cpu.old)) }
        ensures holds { TradesRounds self.old self.new cpu.old cpu.new }
        ensures sound { IsDepot self.new }
        ensures cpu_sound { IsCpuCache cpu.new }
    {
        if !self.fits(cpu) {
            return false;
        }
        let Some(full) = self.full.pop() else {
            return false;
        };
        let empty = cpu.load_full(full);
        self.empty.push(empty);
        true
    }

    /// A CPU without room for a round loads an empty magazine, and leaves a full one here, which is then the
    /// last that came. Where the depot has no empty magazine, or the sizes differ, the answer is false and all
    /// stays as it was.
    pub fn trade_for_empty(&mut self, cpu: &mut CpuCache) -> bool
        requires { AreFull cpu.old }
        ensures refused { (result ≡ false) ↔ HasNoEmpty self.old cpu.old }

        // What stands afterwards.
        ensures traded { OnTrue result (TradesForEmpty self.old self.new cpu.old cpu.new) }
        ensures unchanged { OnFalse result ((self.new ≡ self.old) × (cpu.new ≡ cpu.old)) }
        ensures holds { TradesRounds self.old self.new cpu.old cpu.new }
        ensures sound { IsDepot self.new }
        ensures cpu_sound { IsCpuCache cpu.new }
    {
        if !self.fits(cpu) {
            return false;
        }
        let Some(empty) = self.empty.pop() else {
            return false;
        };
        let full = cpu.load_empty(empty);
        self.full.push(full);
        true
    }

    /// Whether the CPU's magazines have the size of these.
    fn fits(&self, cpu: &CpuCache) -> bool
        ensures fits { IsTrue result ↔ (self.now.size ≡ cpu.now.size) }
        ensures sound { IsDepot self.now }
        ensures cpu_sound { IsCpuCache cpu.now }
    {
        cpu.loaded().size() == self.size
    }

    /// The full magazines, in the order in which they came.
    pub fn full(&self) -> &[Magazine]
        ensures full { result.now ≡ full_magazines self.now }
        ensures sound { IsDepot self.now }
    {
        self.full.as_slice()
    }

    /// Puts every round into the slabs, those of the newest magazine first and the newest of each first. One
    /// that is handed back is given up. All eight magazines are empty afterwards.
    pub fn drain_into(&mut self, slabs: &mut Slabs)
        ensures emptied { self.new ≡ record self.old { full = [] } }

        // The slabs afterwards.
        ensures put { slabs.new ≡ record slabs.old {
          slabs = after_puts slabs.old.slabs (reverse (depot_rounds self.old));
        } }
        ensures holds { KeepsRounds slabs.old.slabs slabs.new.slabs (reverse (depot_rounds self.old)) }
        ensures sound { AreSlabs slabs.new.slabs }
    {
        // Says that the slabs are sound, also where there is nothing to put.
        let _ = slabs.cache();
        while let Some(mut magazine) = self.full.pop() {
            magazine.drain_into(slabs);
            self.empty.push(magazine);
        }
    }
}
