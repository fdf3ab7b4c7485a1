//! A heap over plain lists, which follows the calls of a history.

use crate::trials::cases::{Case, Cases};
use crate::trials::fault::{TrialFault, holds};
use crate::trials::plain_arena::PlainArena;
use crate::trials::plain_places::PlainCache;
use crate::trials::plain_roots::PlainRoots;
use crate::trials::plain_shape::PlainShape;
use case_table::{CLASS_ALIGN, SIZE_TABLE, class_of};
use plain_heap::Reply;
use script::{Header, Op};
use std::alloc::Global;
use umem_base::pages_for;

/// A slab that came or went.
#[derive(Clone, Copy, Debug, PartialEq, Eq)]
pub enum Inner {
    Grow { cache: u32, base: u64 },
    Shrink { cache: u32, base: u64 },
}

/// What an allocation gives.
#[derive(Clone, Copy, Debug, PartialEq, Eq)]
pub enum Given {
    Null,
    NoSpace,
    At(u64),
}

impl Given {
    /// What an allocation was answered with.
    pub fn of(reply: &Reply) -> Option<Given> {
        match reply {
            Reply::Null => Some(Given::Null),
            Reply::NoSpace => Some(Given::NoSpace),
            Reply::At { address, .. } => Some(Given::At(*address)),
            _ => None,
        }
    }

    /// The word that the slot of the allocation gets.
    fn word(self) -> u64 {
        match self {
            Given::At(address) => address,
            _ => 0,
        }
    }
}

/// A live buffer: its address, the requested size, and its cache and chunk, if it has them.
#[derive(Clone, Copy, PartialEq, Eq)]
pub struct PlainBuffer {
    pub address: u64,
    pub size: u32,
    pub cache: Option<u32>,
    pub chunk: u32,
}

#[derive(Drop)]
pub struct PlainRun {
    cpus: u32,
    pub caches: Vec<PlainCache>,
    arena: PlainArena,
    pub roots: PlainRoots,
    pub live: Vec<PlainBuffer>,
    pub next_chunk: u32,
    /// The slabs that came and went in the last call.
    pub inner: Vec<Inner>,
    met: Cases,
}

/// The caches of a header: the size classes, and those that it declares.
fn caches_of(alloc: Global, header: &Header, guards: bool) -> Result<Vec<PlainCache>, TrialFault> {
    let mut caches = Vec::new(alloc);
    for size in SIZE_TABLE {
        let shape = PlainShape::new(size, CLASS_ALIGN, guards);
        caches.push(PlainCache::new(alloc, shape, header.cpus)?)?;
    }
    for def in header.caches.as_slice() {
        let shape = PlainShape::new(def.size, def.align, guards);
        caches.push(PlainCache::new(alloc, shape, header.cpus)?)?;
    }
    Ok(caches)
}

impl PlainRun {
    pub fn new(alloc: Global, header: &Header, guards: bool) -> Result<PlainRun, TrialFault> {
        Ok(PlainRun {
            cpus: header.cpus.max(1),
            caches: caches_of(alloc, header, guards)?,
            arena: PlainArena::new(alloc, header),
            roots: PlainRoots::new(alloc, header)?,
            live: Vec::new(alloc),
            next_chunk: 0,
            inner: Vec::new(alloc),
            met: Cases::new(),
        })
    }

    /// What the calls met.
    pub fn met(&self) -> Cases {
        let mut met = self.met;
        for its in self.caches.iter() {
            met.add(&its.met);
        }
        met
    }

    fn cpu_of(&self, thread: u32) -> usize {
        (thread % self.cpus.max(1)) as usize
    }

    /// Makes a thread's call, and tells what an allocation gives. Which frees are refused, and which words are loaded,
    /// it takes from the reply.
    pub fn follow(
        &mut self,
        alloc: Global,
        thread: u32,
        op: &Op,
        reply: &Reply,
    ) -> Result<Option<Given>, TrialFault> {
        self.inner.clear();
        match op {
            Op::Alloc { slot, size } | Op::Zalloc { slot, size } => {
                let given = self.ask(alloc, thread, *size)?;
                self.roots.set(thread, *slot, given.word());
                Ok(Some(given))
            }
            Op::CacheAlloc { slot, cache } => {
                let given = self.ask_cache(alloc, thread, *cache, None)?;
                self.roots.set(thread, *slot, given.word());
                Ok(Some(given))
            }
            Op::Free { slot, .. } | Op::CacheFree { slot, .. } => {
                if *reply == Reply::Ok {
                    self.free(alloc, thread, *slot)?;
                }
                Ok(None)
            }
            Op::Reap => {
                self.reap(alloc)?;
                Ok(None)
            }
            _ => {
                self.write(thread, op, reply);
                Ok(None)
            }
        }
    }

    /// Changes the words of the root segments.
    fn write(&mut self, thread: u32, op: &Op, reply: &Reply) {
        let roots = &mut self.roots;
        match (op, reply) {
            (Op::Copy { to, from }, _) => {
                let word = roots.get(thread, *from);
                roots.set(thread, *to, word);
            }
            (Op::Clear { slot }, _) => roots.set(thread, *slot, 0),
            (Op::Load { to, .. }, Reply::Word(word)) => roots.set(thread, *to, *word),
            (
                Op::Store {
                    slot,
                    offset,
                    bytes,
                },
                Reply::Ok,
            ) => {
                let word = roots.get(thread, *slot);
                roots.write(word.wrapping_add(u64::from(*offset)), bytes.as_slice());
            }
            (
                Op::Link {
                    slot,
                    offset,
                    value,
                },
                Reply::Ok,
            ) => {
                let word = roots.get(thread, *slot);
                let bytes = roots.get(thread, *value).to_le_bytes();
                roots.write(word.wrapping_add(u64::from(*offset)), &bytes);
            }
            _ => {}
        }
    }

    /// Asks for so many bytes.
    fn ask(&mut self, alloc: Global, thread: u32, size: u32) -> Result<Given, TrialFault> {
        if size == 0 {
            return Ok(Given::Null);
        }
        match class_of(u64::from(size)) {
            Some(class) => self.ask_cache(alloc, thread, class, Some(size)),
            None => self.ask_pages(size),
        }
    }

    fn ask_pages(&mut self, size: u32) -> Result<Given, TrialFault> {
        let Some(base) = self.arena.take(pages_for(u64::from(size)))? else {
            self.met.meet(Case::NoPages);
            return Ok(Given::NoSpace);
        };
        self.live.push(PlainBuffer {
            address: base,
            size,
            cache: None,
            chunk: 0,
        })?;
        Ok(Given::At(base))
    }

    /// Asks a cache for a buffer, of so many bytes where it is a size class.
    fn ask_cache(
        &mut self,
        alloc: Global,
        thread: u32,
        cache: u32,
        size: Option<u32>,
    ) -> Result<Given, TrialFault> {
        let index = cache as usize;
        let Some(chunk) = self.chunk_for(alloc, thread, cache)? else {
            return Ok(Given::NoSpace);
        };
        let its = self
            .caches
            .get(index)
            .ok_or(TrialFault::Differs("no such cache", index))?;
        let address = its
            .address(chunk)
            .ok_or(TrialFault::Differs("a chunk of no slab", chunk as usize))?;
        self.live.push(PlainBuffer {
            address,
            size: size.unwrap_or(its.shape.size),
            cache: Some(cache),
            chunk,
        })?;
        Ok(Given::At(address))
    }

    /// The chunk that a cache gives to a thread, with a new slab where no free one is within its reach.
    fn chunk_for(
        &mut self,
        alloc: Global,
        thread: u32,
        cache: u32,
    ) -> Result<Option<u32>, TrialFault> {
        let cpu = self.cpu_of(thread);
        let its = self
            .caches
            .get_mut(cache as usize)
            .ok_or(TrialFault::Differs("no such cache", cache as usize))?;
        if let Some(chunk) = its.take(cpu) {
            return Ok(Some(chunk));
        }
        let Some(base) = self.arena.take(u64::from(its.shape.pages))? else {
            return Ok(its.take_any());
        };
        let first = self.next_chunk;
        self.next_chunk = first.wrapping_add(its.shape.rounds);
        its.add_slab(alloc, base, first)?;
        self.inner.push(Inner::Grow { cache, base })?;
        Ok(Some(first))
    }

    /// Frees the buffer whose address is in a slot.
    fn free(&mut self, alloc: Global, thread: u32, slot: u32) -> Result<(), TrialFault> {
        let address = self.roots.get(thread, slot);
        let buffer = self
            .live
            .iter()
            .copied()
            .find(|buffer| buffer.address == address)
            .ok_or(TrialFault::Differs("a free of no buffer", slot as usize))?;
        self.live.retain(|buffer| buffer.address != address);
        self.roots.set(thread, slot, 0);
        let Some(cache) = buffer.cache else {
            self.arena.give_back(address);
            return Ok(());
        };
        let cpu = self.cpu_of(thread);
        if let Some(its) = self.caches.get_mut(cache as usize) {
            its.put(alloc, cpu, buffer.chunk)?;
        }
        Ok(())
    }

    fn reap(&mut self, alloc: Global) -> Result<(), TrialFault> {
        let mut cache = 0_u32;
        for its in self.caches.iter_mut() {
            its.drain(alloc)?;
            for base in its.drop_complete(alloc)?.iter() {
                self.arena.give_back(*base);
                self.inner.push(Inner::Shrink { cache, base: *base })?;
            }
            cache = cache.saturating_add(1);
        }
        Ok(())
    }

    /// Compares what a call gave, and the slabs that came and went directly before it.
    pub fn compare(
        &mut self,
        alloc: Global,
        number: usize,
        call: (u32, &Op, &Reply),
        inner: &[Inner],
    ) -> Result<(), TrialFault> {
        let (thread, op, reply) = call;
        let given = self.follow(alloc, thread, op, reply)?;
        holds(
            "the slabs that came and went before the entry",
            number,
            self.inner.as_slice() == inner,
        )?;
        holds(
            "what the entry was answered with",
            number,
            given.is_none() || given == Given::of(reply),
        )
    }
}
