//! Where the chunks of one cache stand that are not live, over plain lists of their numbers.

use crate::trials::cases::{Case, Cases};
use crate::trials::plain_shape::PlainShape;
use std::alloc::Global;
use std::mem::{replace, swap};
use umem_base::NoMemory;

// The magazines of a depot, full and empty ones.
const DEPOT: usize = 8;

/// The two magazines of a CPU, the oldest round first.
#[derive(Drop)]
pub struct PlainCpu {
    pub loaded: Vec<u32>,
    pub previous: Vec<u32>,
}

/// A slab, and the chunks of its list by rising number.
#[derive(Drop)]
pub struct PlainSlab {
    pub base: u64,
    pub colour: u32,
    pub first: u32,
    pub free: Vec<u32>,
}

impl PlainSlab {
    fn has(&self, chunk: u32, rounds: u32) -> bool {
        self.first <= chunk && chunk.wrapping_sub(self.first) < rounds
    }
}

/// The magazines of all CPUs for a cache, the full magazines of its depot, the oldest first, and its slabs in the order
/// in which they were made.
#[derive(Drop)]
pub struct PlainCache {
    pub shape: PlainShape,
    pub made: u32,
    pub cpus: Vec<PlainCpu>,
    pub full: Vec<Vec<u32>>,
    pub slabs: Vec<PlainSlab>,
    pub met: Cases,
}

/// Moves all rounds of a magazine behind the others.
fn empty_into(rounds: &mut Vec<u32>, magazine: &mut Vec<u32>) -> Result<(), NoMemory> {
    rounds.extend_from_slice(magazine)?;
    magazine.clear();
    Ok(())
}

impl PlainCache {
    pub fn new(alloc: Global, shape: PlainShape, cpus: u32) -> Result<PlainCache, NoMemory> {
        let mut all = Vec::new(alloc);
        for _ in 0..cpus {
            all.push(PlainCpu {
                loaded: Vec::new(alloc),
                previous: Vec::new(alloc),
            })?;
        }
        Ok(PlainCache {
            shape,
            made: 0,
            cpus: all,
            full: Vec::new(alloc),
            slabs: Vec::new(alloc),
            met: Cases::new(),
        })
    }

    /// The address of a chunk.
    pub fn address(&self, chunk: u32) -> Option<u64> {
        let rounds = self.shape.rounds;
        let slab = self.slabs.iter().find(|slab| slab.has(chunk, rounds))?;
        let offset = chunk
            .wrapping_sub(slab.first)
            .wrapping_mul(self.shape.chunk);
        let first = slab.base.wrapping_add(u64::from(slab.colour));
        Some(first.wrapping_add(u64::from(offset)))
    }

    /// Takes the round within reach of a CPU: from its magazines, the depot or the lists.
    pub fn take(&mut self, cpu: usize) -> Option<u32> {
        match self.take_round(cpu) {
            Some(chunk) => Some(chunk),
            None => self.take_listed(),
        }
    }

    /// Takes the newest round of the loaded magazine, or of the one that comes to be it.
    fn take_round(&mut self, cpu: usize) -> Option<u32> {
        let its = self.cpus.get_mut(cpu)?;
        if !its.loaded.is_empty() {
            self.met.meet(Case::TakenLoaded);
            return its.loaded.pop();
        }
        if !its.previous.is_empty() {
            self.met.meet(Case::TakenExchanged);
            swap(&mut its.loaded, &mut its.previous);
            return its.loaded.pop();
        }
        let full = self.full.pop()?;
        self.met.meet(Case::TakenOfDepot);
        its.previous = replace(&mut its.loaded, full);
        its.loaded.pop()
    }

    /// Takes the lowest chunk of the lists. Numbers rise from slab to slab.
    fn take_listed(&mut self) -> Option<u32> {
        for slab in self.slabs.iter_mut() {
            if !slab.free.is_empty() {
                self.met.meet(Case::TakenListed);
                return Some(slab.free.remove(0));
            }
        }
        None
    }

    /// Takes the first round that any CPU has.
    pub fn take_any(&mut self) -> Option<u32> {
        for its in self.cpus.iter_mut() {
            let newest = match its.loaded.pop() {
                Some(chunk) => Some(chunk),
                None => its.previous.pop(),
            };
            if newest.is_some() {
                self.met.meet(Case::TakenOfOtherCpu);
                return newest;
            }
        }
        self.met.meet(Case::NoChunk);
        None
    }

    /// Adds a slab whose first chunk is handed out.
    pub fn add_slab(&mut self, alloc: Global, base: u64, first: u32) -> Result<(), NoMemory> {
        self.met.meet(Case::TakenOfNewSlab);
        let mut free = Vec::new(alloc);
        for round in 1..self.shape.rounds {
            free.push(first.wrapping_add(round))?;
        }
        let colour = self.shape.colour(self.made);
        self.made = self.made.wrapping_add(1);
        self.slabs.push(PlainSlab {
            base,
            colour,
            first,
            free,
        })?;
        Ok(())
    }

    /// Puts a freed chunk where a CPU finds it.
    pub fn put(&mut self, alloc: Global, cpu: usize, chunk: u32) -> Result<(), NoMemory> {
        let most = self.shape.magazine as usize;
        let Some(its) = self.cpus.get_mut(cpu) else {
            return Ok(());
        };
        if its.loaded.len() < most {
            self.met.meet(Case::PutLoaded);
        } else if its.previous.len() < most {
            self.met.meet(Case::PutExchanged);
            swap(&mut its.loaded, &mut its.previous);
        } else if self.full.len() < DEPOT {
            self.met.meet(Case::PutWithDepot);
            let loaded = replace(&mut its.loaded, Vec::new(alloc));
            self.full.push(replace(&mut its.previous, loaded))?;
        } else {
            self.met.meet(Case::PutListed);
            return self.put_listed(chunk);
        }
        its.loaded.push(chunk)?;
        Ok(())
    }

    /// Puts a chunk into the list of its slab.
    fn put_listed(&mut self, chunk: u32) -> Result<(), NoMemory> {
        let rounds = self.shape.rounds;
        for slab in self.slabs.iter_mut() {
            if slab.has(chunk, rounds) {
                slab.free.push(chunk)?;
                slab.free.sort()?;
            }
        }
        Ok(())
    }

    /// Puts all rounds of the magazines and the depot into the lists.
    pub fn drain(&mut self, alloc: Global) -> Result<(), NoMemory> {
        let mut rounds = Vec::new(alloc);
        for its in self.cpus.iter_mut() {
            empty_into(&mut rounds, &mut its.loaded)?;
            empty_into(&mut rounds, &mut its.previous)?;
        }
        for magazine in self.full.iter_mut() {
            empty_into(&mut rounds, magazine)?;
        }
        self.full.clear();
        for chunk in rounds.iter() {
            self.put_listed(*chunk)?;
        }
        Ok(())
    }

    /// Drops the slabs whose chunks are all in their lists, and tells their bases, rising.
    pub fn drop_complete(&mut self, alloc: Global) -> Result<Vec<u64>, NoMemory> {
        let rounds = self.shape.rounds as usize;
        let mut bases = Vec::new(alloc);
        for slab in self.slabs.iter() {
            if slab.free.len() == rounds {
                self.met.meet(Case::GivenBack);
                bases.push(slab.base)?;
            }
        }
        bases.sort()?;
        self.slabs.retain(|slab| slab.free.len() != rounds);
        Ok(bases)
    }
}
