ghost use Rattle.std.specs.Prelude.{◌≡◌, ℕ, ◌+◌, ◌<◌, Bool, AllPairs, map, max, length, IfOk, IfSome, IsTrue, MatchOption, OnErr, OnOk, ⊤};
ghost use Rattle.script.specs.Rules.{IsHeader};
ghost use Rattle.case_table.specs.Geometry.{IsAlign};
ghost use Rattle.heap_ledger.specs.Commits.{AreReaped, after_shrinks};
ghost use Rattle.plain_heap.specs.Live.{TellsLive};
ghost use Rattle.plain_heap.specs.Setting.{geometry_in};
ghost use Rattle.plain_heap.specs.State.{after_grow, give_back, grows_of, hand_out, is_live, next_chunk, start_state};
ghost use Rattle.plain_heap.specs.declared.held.Held.{Held};
ghost use Rattle.heap_memory.specs.Chunks.{IsKind, IsNextSlab, kind_in};
ghost use Rattle.heap_slabs.specs.Chunks.{HasNoChunk, HasNoFreeChunk, IsFreeAt, IsLowestFreeChunk, IsNextUnused, IsNumberedAs, placed_at};
ghost use Rattle.heap_slabs.specs.Standing.{AreStanding, as_slab_at};
ghost use Rattle.heap_slabs.specs.States.{ForEachTabled, TableBecomes};
ghost use Rattle.heap_slabs.specs.HeapSlabs.{AreStandingIn, HasPlace, IsTable, IsTableOf, next_slab_of};

use crate::cache_slabs::CacheSlabs;
use crate::caches::{all_caches, slab_made};
use crate::free::{first_free, lowest_with_free};
use crate::placed::Placed;
use crate::search::address_in;
use crate::standing::Standing;
use crate::standing_slabs::StandingSlabs;
use case_table::{Geometry, geometry};
use heap_ledger::SlabAt;
use heap_memory::{Chunk, ChunkKind, NewSlab};
use plain_heap::Live;
use script::Header;
use std::alloc::Global;
use std::marker::Model;
use umem_base::NoMemory;

/// The slabs of a heap: what the slabs of each cache are made of and how many it made, the number of the next chunk,
/// and the slabs that stand, with their counts of live chunks. Contracts see these, the slabs that the last reap gave
/// back, and the spare: for how many slabs more there is room.
#[derive(Debug, Drop)]
pub struct HeapSlabs {
    caches: Vec<CacheSlabs>,
    next: u32,
    slabs: StandingSlabs,
}

impl Model for HeapSlabs {
    ghost use Rattle.heap_slabs.specs.HeapSlabs.{IsTable, HeapSlabs};

    ghost Value = { HeapSlabs };

    ghost view = { λ t. record {
      caches = t.caches.items;
      next = t.next;
      slabs = t.slabs.slabs;
      reaped = t.slabs.reaped;
      spare = t.slabs.spare;
    } };

    ghost invariant = { λ t. IsTable (record {
      caches = t.caches.items;
      next = t.next;
      slabs = t.slabs.slabs;
      reaped = t.slabs.reaped;
      spare = t.slabs.spare;
    }) };
}

impl HeapSlabs {
    /// The table of a heap of which nothing was asked yet.
    pub fn start(alloc: Global, header: &Header, guards: bool) -> Result<HeapSlabs, NoMemory>
        requires { IsHeader header.now }
        ensures start { IfOk result (IsTableOf (record { header = header.now; guards = guards }) start_state) }
        ensures spare { IfOk result (λ table. table.spare ≡ 0) }
    {
        Ok(HeapSlabs {
            caches: all_caches(alloc, header, guards)?,
            next: 0,
            slabs: StandingSlabs::new(alloc),
        })
    }

    /// The slabs that stand, by rising base.
    pub fn slabs(&self) -> &[SlabAt]
        ensures slabs { result.now ≡ map as_slab_at self.now.slabs }
        ensures rising { AllPairs (λ one other. one.base < other.base) result.now }
        ensures exactly { ForEachTabled (λ setting state. AreStandingIn state result.now) self.now }
    {
        self.slabs.places()
    }

    /// The slabs that stand, by rising base, each with its chunks.
    pub fn standing(&self) -> &[Standing]
        ensures slabs { result.now ≡ self.now.slabs }
        ensures sound { AreStanding self.now.slabs }
    {
        self.slabs.slabs()
    }

    /// The slab that a cache makes next.
    pub fn next_slab(&self, cache: u32) -> NewSlab
        requires { cache < length self.now.caches }
        ensures value { result ≡ next_slab_of self.now cache }
        ensures kind { IsKind result.kind }
        ensures align { IsAlign result.align }
        ensures cache { ForEachTabled (λ setting state. result.kind ≡ kind_in setting cache) self.now }
        ensures next { ForEachTabled (IsNextSlab result) self.now }
    {
        let its = &self.caches[cache as usize];
        NewSlab {
            kind: its.kind,
            align: its.align,
            made: its.made,
            first: self.next,
        }
    }

    /// The kind of a cache's chunks.
    pub fn kind(&self, cache: u32) -> &ChunkKind
        requires { cache < length self.now.caches }
        ensures kind { ForEachTabled (λ setting state. result.now ≡ kind_in setting cache) self.now }
        ensures sound { IsKind result.now }
    {
        &self.caches[cache as usize].kind
    }

    /// The quantities of a cache's slabs.
    pub fn quantities(&self, cache: u32) -> Geometry
        requires { cache < length self.now.caches }
        ensures { ForEachTabled (λ setting state. result ≡ geometry_in setting cache) self.now }
    {
        let its = &self.caches[cache as usize];
        geometry(its.kind.size, its.align, its.kind.guards)
    }

    /// How many slabs a cache ever made.
    pub fn made(&self, cache: u32) -> u32
        requires { cache < length self.now.caches }
        ensures { ForEachTabled (λ setting state. result ≡ grows_of state cache) self.now }
    {
        self.caches[cache as usize].made
    }

    /// The number that the next chunk gets.
    pub fn next_chunk(&self) -> u32
        ensures { ForEachTabled (λ setting state. result ≡ next_chunk setting state) self.now }
    {
        self.next
    }

    /// Takes the memory for one slab more. On a refusal nothing changed.
    pub fn make_room(&mut self) -> Result<(), NoMemory>
        ensures ok { OnOk result (self.new ≡ record self.old { spare = max self.old.spare 1 }) }
        ensures err { OnErr result (self.new ≡ self.old) }
    {
        self.slabs.make_room()
    }

    /// Adds the slab that a cache makes next, at a base. It takes no memory and uses room for one up.
    pub fn add(&mut self, cache: u32, base: u64)
        requires room { 0 < self.old.spare }
        requires cache { cache < length self.old.caches }
        requires place { HasPlace self.old cache base }
        ensures added { TableBecomes (IsNextUnused cache base) (λ setting state. after_grow setting state cache base)
            self.old self.new }
        ensures spare { self.new.spare + 1 ≡ self.old.spare }
    {
        let its = &mut self.caches[cache as usize];
        let slab = slab_made(its, cache, self.next, base);
        its.made += 1;
        self.next += slab.rounds;
        self.slabs.add(slab);
    }

    /// The chunk that begins at the address, or `None` where none does of a slab that stands.
    pub fn chunk_at(&self, address: u64) -> Option<Placed>
        ensures placed { ForEachTabled (λ setting state. result ≡ placed_at setting state address) self.now }
        ensures cache { IfSome result (λ placed. placed.cache < length self.now.caches) }
    {
        let place = self.slabs.place_of(address)?;
        let slab = &self.slabs.slabs()[place.slab];
        let number = slab.first + place.index;
        Some(Placed {
            chunk: Chunk { address, number },
            cache: slab.cache,
        })
    }

    /// The chunk that has the number, or `None` where none has of a slab that stands.
    pub fn chunk(&self, number: u32) -> Option<Placed>
        ensures numbered { ForEachTabled (λ setting state.
            MatchOption result (HasNoChunk number setting state) (λ placed. IsNumberedAs number placed setting state))
            self.now }
        ensures cache { IfSome result (λ placed. placed.cache < length self.now.caches) }
    {
        let place = self.slabs.place_of_number(number)?;
        let slab = &self.slabs.slabs()[place.slab];
        let address = address_in(slab, place.index);
        Some(Placed {
            chunk: Chunk { address, number },
            cache: slab.cache,
        })
    }

    /// The buffer at the address was handed out. Nothing changes where no chunk of a slab that stands begins there.
    pub fn took(&mut self, address: u64)
        ensures took { (held : Held) (zero : Bool) → TableBecomes (IsFreeAt address)
            (λ setting state. hand_out setting state address held zero) self.old self.new }
        ensures spare { self.new.spare ≡ self.old.spare }
    {
        self.slabs.took(address);
    }

    /// The buffer at the address was given back. Nothing changes where no chunk of a slab that stands begins there.
    pub fn gave(&mut self, address: u64)
        ensures gave { TableBecomes (λ setting state. IsTrue (is_live state address))
            (λ setting state. give_back setting state address) self.old self.new }
        ensures spare { self.new.spare ≡ self.old.spare }
    {
        self.slabs.gave(address);
    }

    /// The free chunk of a cache that has the lowest number, or `None` where each chunk lives of its slabs that stand,
    /// by the book of live buffers. That the lowest is taken is this project's own.
    pub fn lowest_free(&self, cache: u32, live: &Live) -> Option<Chunk>
        ensures { ForEachTabled (λ setting state. TellsLive live.now.buffers state → MatchOption result
            (HasNoFreeChunk cache setting state) (λ chunk. IsLowestFreeChunk cache chunk setting state)) self.now }
    {
        let slabs = self.slabs.slabs();
        let index = lowest_with_free(slabs, cache)?;
        first_free(&slabs[index], live)
    }

    /// Drops the slabs of which no chunk lives, as a reap gives them back. It takes no memory.
    pub fn drop_unused(&mut self)
        ensures reaped { ForEachTabled (λ setting state. AreReaped setting state self.new.reaped) self.old }
        ensures dropped { TableBecomes (λ setting state. ⊤) (λ setting state. after_shrinks state self.new.reaped)
            self.old self.new }
        ensures spare { self.new.spare ≡ self.old.spare }
    {
        self.slabs.drop_unused();
    }

    /// The slabs that the last reap gave back, by cache and then by base.
    pub fn reaped(&self) -> &[SlabAt]
        ensures { result.now ≡ self.now.reaped }
    {
        self.slabs.reaped()
    }
}
