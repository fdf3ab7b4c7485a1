//! What each entry changes, by the definitions of a history's state.

ghost use Rattle.std.specs.Prelude.{◌≡◌, ◌∷◌, ◌+◌, ◌<◌, ◌≤◌, ◌^◌, ◌==◌, OnOk, IsSome, count_by, length};
ghost use Rattle.plain_heap.specs.Setting.{Setting as SettingData, slot_address};
ghost use Rattle.plain_heap.specs.State.{after_alloc, after_call, after_entry, after_free, after_grow, after_link, after_shrink, after_store, after_word, freed_chunk, give_back, hand_out, handed_bytes, new_slab, next_chunk, request_from, request_of, start_state, with_bytes_of, with_chunk_at, with_slot, word_of_slot};
ghost use Rattle.yardstick.specs.Kept.{state_kept};

use crate::bytes::word_left;
use crate::caches::{geometry_of, rule_in};
use crate::chunks::{freed_chunk, handed_chunk};
use crate::kept::{Kept, MOST_ENTRIES};
use crate::live_buffer::LiveBuffer;
use crate::setting::Setting;
use crate::slab::{HeapSlab, MOST_ROUNDS};
use crate::slabs::{number_of, slab_at};
use crate::write::Write;
use case_table::{MOST_CACHE_BYTES, class_of};
use plain_heap::{Body, Entry, Held, Reply};
use script::{FIRST_OWN_SLOT, Op};
use std::alloc::Global;
use umem_base::{NoMemory, PAGE_BYTES, SHARED_ROOT, Text, own_root, pages_for};

/// Where the word of a slot stands for a thread.
pub fn address_of_slot(thread: u32, slot: u32) -> u64
    ensures { result ≡ slot_address thread slot }
{
    if slot < FIRST_OWN_SLOT {
        SHARED_ROOT + 8 * u64::from(slot)
    } else {
        own_root(thread) + 8 * u64::from(slot - FIRST_OWN_SLOT)
    }
}

/// What is requested by a size.
fn request_of(size: u32) -> Held
    ensures value { result ≡ request_of size }
    ensures small { IsSome result.cache → result.size ≤ MOST_CACHE_BYTES }
{
    Held {
        size,
        cache: class_of(u64::from(size)),
    }
}

/// What is requested of a cache.
fn request_from(setting: &Setting, cache: u32) -> Held
    ensures value { result ≡ request_from setting.now cache }
    ensures small { result.size ≤ MOST_CACHE_BYTES }
{
    Held {
        size: rule_in(setting, cache).size,
        cache: Some(cache),
    }
}

/// Puts an item before the others.
fn put_first<T: Drop>(items: &mut Vec<T>, item: T) -> Result<(), NoMemory>
    ensures { OnOk result (items.new.items ≡ item ∷ items.old.items) }
{
    items.insert(0, item)?;
    Ok(())
}

impl Kept {
    /// Nothing happened yet.
    pub fn start(alloc: Global) -> Kept
        ensures { (setting : SettingData) → state_kept setting result ≡ start_state }
    {
        Kept {
            live: Vec::new(alloc),
            given: Vec::new(alloc),
            slabs: Vec::new(alloc),
            grown: Vec::new(alloc),
            writes: Vec::new(alloc),
        }
    }

    /// The word of a slot for a thread.
    pub fn slot_word(&self, setting: &Setting, thread: u32, slot: u32) -> u64
        ensures { result ≡ word_of_slot (state_kept setting.now self.now) thread slot }
    {
        let at = u128::from(address_of_slot(thread, slot));
        word_left(setting, &self.writes, at)
    }

    /// The slot of a thread gets a word.
    fn set_slot(&mut self, thread: u32, slot: u32, word: u64) -> Result<(), NoMemory>
        ensures { OnOk result ((setting : SettingData)
            → state_kept setting self.new ≡ with_slot (state_kept setting self.old) thread slot word) }
    {
        let at = u128::from(address_of_slot(thread, slot));
        put_first(&mut self.writes, Write::Word { at, word })
    }

    /// The bytes that a buffer holds when it is handed out are written.
    fn write_handed(
        &mut self,
        alloc: Global,
        setting: &Setting,
        address: u64,
        held: Held,
        zero: bool,
    ) -> Result<(), NoMemory>
        requires { IsSome held.cache → held.size ≤ MOST_CACHE_BYTES }
        ensures { OnOk result (state_kept setting.now self.new ≡ with_bytes_of (state_kept setting.now self.old)
            (handed_bytes setting.now (state_kept setting.now self.old) address held zero)) }
    {
        let at = u128::from(address);
        if held.cache.is_none() {
            let count = PAGE_BYTES * pages_for(u64::from(held.size));
            return put_first(&mut self.writes, Write::Zeros { at, count });
        }
        let Some(slab) = slab_at(setting, &self.slabs, at) else {
            return Ok(());
        };
        let number = number_of(setting, &slab, at);
        let bytes = handed_chunk(alloc, setting, slab.cache(), number, held.size, zero)?;
        put_first(&mut self.writes, Write::Stored { at, bytes })
    }

    /// The bytes of a buffer that is given back are written.
    fn write_freed(
        &mut self,
        alloc: Global,
        setting: &Setting,
        address: u64,
    ) -> Result<(), NoMemory>
        ensures { OnOk result (state_kept setting.now self.new ≡ with_bytes_of (state_kept setting.now self.old)
            (with_chunk_at setting.now (state_kept setting.now self.old) address (freed_chunk setting.now))) }
    {
        let at = u128::from(address);
        let Some(slab) = slab_at(setting, &self.slabs, at) else {
            return Ok(());
        };
        let number = number_of(setting, &slab, at);
        let bytes = freed_chunk(alloc, setting, slab.cache(), number)?;
        put_first(&mut self.writes, Write::Stored { at, bytes })
    }

    /// A buffer is handed out at an address.
    fn hand_out(
        &mut self,
        alloc: Global,
        setting: &Setting,
        address: u64,
        held: Held,
        zero: bool,
    ) -> Result<(), NoMemory>
        requires { IsSome held.cache → held.size ≤ MOST_CACHE_BYTES }
        ensures { OnOk result (state_kept setting.now self.new
            ≡ hand_out setting.now (state_kept setting.now self.old) address held zero) }
    {
        self.write_handed(alloc, setting, address, held, zero)?;
        put_first(&mut self.live, LiveBuffer::new(address, held))?;
        put_first(&mut self.given, address)
    }

    /// The buffer at an address is given back.
    fn give_back(&mut self, alloc: Global, setting: &Setting, address: u64) -> Result<(), NoMemory>
        ensures { OnOk result (state_kept setting.now self.new
            ≡ give_back setting.now (state_kept setting.now self.old) address) }
    {
        self.write_freed(alloc, setting, address)?;
        self.live.retain(|buffer| buffer.address() != address);
        Ok(())
    }

    /// How many slabs a cache ever made.
    fn grows_of(&self, cache: u32) -> u32
        requires { length self.now.grown.items < MOST_ENTRIES }
        ensures { result ≡ count_by (λ grown. grown == cache) self.now.grown.items }
    {
        let mut made = 0;
        for grown in &self.grown {
            if *grown == cache {
                made += 1;
            }
        }
        made
    }

    /// The number of the next chunk.
    fn next_chunk(&self, setting: &Setting) -> u32
        requires { length self.now.grown.items < MOST_ENTRIES }
        ensures value { result ≡ next_chunk setting.now (state_kept setting.now self.now) }
        ensures fits { result + MOST_ROUNDS ≤ 2 ^ 32 }
    {
        let mut next = 0;
        for grown in &self.grown {
            next += geometry_of(setting, *grown).rounds;
        }
        next
    }

    /// The slab that a cache makes next, at a base.
    pub fn new_slab(&self, setting: &Setting, cache: u32, base: u64) -> HeapSlab
        requires { length self.now.grown.items < MOST_ENTRIES }
        ensures { result ≡ new_slab setting.now (state_kept setting.now self.now) cache base }
    {
        HeapSlab::new(cache, base, self.grows_of(cache), self.next_chunk(setting))
    }

    fn after_grow(&mut self, setting: &Setting, cache: u32, base: u64) -> Result<(), NoMemory>
        requires { length self.old.grown.items < MOST_ENTRIES }
        ensures { OnOk result (state_kept setting.now self.new
            ≡ after_grow setting.now (state_kept setting.now self.old) cache base) }
    {
        let slab = self.new_slab(setting, cache, base);
        put_first(&mut self.writes, Write::Made { slab })?;
        put_first(&mut self.slabs, slab)?;
        put_first(&mut self.grown, cache)
    }

    fn after_shrink(&mut self, base: u64)
        ensures { (setting : SettingData)
            → state_kept setting self.new ≡ after_shrink (state_kept setting self.old) base }
    {
        self.slabs.retain(|slab| slab.base() != base);
    }

    fn after_alloc(
        &mut self,
        alloc: Global,
        setting: &Setting,
        thread: u32,
        slot: u32,
        held: Held,
        zero: bool,
        reply: &Reply,
    ) -> Result<(), NoMemory>
        requires { IsSome held.cache → held.size ≤ MOST_CACHE_BYTES }
        ensures { OnOk result (state_kept setting.now self.new
            ≡ after_alloc setting.now (state_kept setting.now self.old) thread slot held zero reply.now) }
    {
        match reply {
            Reply::At { address, .. } => {
                self.hand_out(alloc, setting, *address, held, zero)?;
                self.set_slot(thread, slot, *address)
            }
            Reply::Null | Reply::NoSpace => self.set_slot(thread, slot, 0),
            _ => Ok(()),
        }
    }

    fn after_free(
        &mut self,
        alloc: Global,
        setting: &Setting,
        thread: u32,
        slot: u32,
        reply: &Reply,
    ) -> Result<(), NoMemory>
        ensures { OnOk result (state_kept setting.now self.new
            ≡ after_free setting.now (state_kept setting.now self.old) thread slot reply.now) }
    {
        if *reply != Reply::Ok {
            return Ok(());
        }
        let word = self.slot_word(setting, thread, slot);
        self.give_back(alloc, setting, word)?;
        self.set_slot(thread, slot, 0)
    }

    fn after_store(
        &mut self,
        alloc: Global,
        at: u128,
        bytes: &Text,
        reply: &Reply,
    ) -> Result<(), NoMemory>
        ensures { OnOk result ((setting : SettingData) → state_kept setting self.new
            ≡ after_store (state_kept setting self.old) at bytes.now reply.now) }
    {
        if *reply != Reply::Ok {
            return Ok(());
        }
        let bytes = Text::from_slice(alloc, bytes.as_slice())?;
        put_first(&mut self.writes, Write::Stored { at, bytes })
    }

    fn after_link(&mut self, at: u128, word: u64, reply: &Reply) -> Result<(), NoMemory>
        ensures { OnOk result ((setting : SettingData) → state_kept setting self.new
            ≡ after_link (state_kept setting self.old) at word reply.now) }
    {
        if *reply != Reply::Ok {
            return Ok(());
        }
        put_first(&mut self.writes, Write::Word { at, word })
    }

    fn after_load(&mut self, thread: u32, slot: u32, reply: &Reply) -> Result<(), NoMemory>
        ensures { OnOk result ((setting : SettingData) → state_kept setting self.new
            ≡ after_word (state_kept setting self.old) thread slot reply.now) }
    {
        match reply {
            Reply::Word(word) => self.set_slot(thread, slot, *word),
            _ => Ok(()),
        }
    }

    /// The address at an offset behind the word of a slot.
    fn behind_slot(&self, setting: &Setting, thread: u32, slot: u32, offset: u32) -> u128
        ensures { result ≡ word_of_slot (state_kept setting.now self.now) thread slot + offset }
    {
        u128::from(self.slot_word(setting, thread, slot)) + u128::from(offset)
    }

    /// What a call of a thread with its answer changes.
    fn after_call(
        &mut self,
        alloc: Global,
        setting: &Setting,
        thread: u32,
        op: &Op,
        reply: &Reply,
    ) -> Result<(), NoMemory>
        ensures { OnOk result (state_kept setting.now self.new
            ≡ after_call setting.now (state_kept setting.now self.old) thread op.now reply.now) }
    {
        match op {
            Op::Alloc { slot, size } => {
                self.after_alloc(
                    alloc,
                    setting,
                    thread,
                    *slot,
                    request_of(*size),
                    false,
                    reply,
                )
            }
            Op::Zalloc { slot, size } => {
                self.after_alloc(
                    alloc,
                    setting,
                    thread,
                    *slot,
                    request_of(*size),
                    true,
                    reply,
                )
            }
            Op::CacheAlloc { slot, cache } => {
                let held = request_from(setting, *cache);
                self.after_alloc(alloc, setting, thread, *slot, held, false, reply)
            }
            Op::Free { slot, .. } | Op::CacheFree { slot, .. } => {
                self.after_free(alloc, setting, thread, *slot, reply)
            }
            Op::Copy { to, from } => {
                let word = self.slot_word(setting, thread, *from);
                self.set_slot(thread, *to, word)
            }
            Op::Clear { slot } => self.set_slot(thread, *slot, 0),
            Op::Store {
                slot,
                offset,
                bytes,
            } => {
                let at = self.behind_slot(setting, thread, *slot, *offset);
                self.after_store(alloc, at, bytes, reply)
            }
            Op::Link {
                slot,
                offset,
                value,
            } => {
                let at = self.behind_slot(setting, thread, *slot, *offset);
                let word = self.slot_word(setting, thread, *value);
                self.after_link(at, word, reply)
            }
            Op::Load { to, .. } => self.after_load(thread, *to, reply),
            Op::Reap => Ok(()),
        }
    }

    /// What an entry changes.
    pub fn after_entry(
        &mut self,
        alloc: Global,
        setting: &Setting,
        entry: &Entry,
    ) -> Result<(), NoMemory>
        requires { length self.old.grown.items < MOST_ENTRIES }
        ensures { OnOk result (state_kept setting.now self.new
            ≡ after_entry setting.now (state_kept setting.now self.old) entry.now) }
    {
        match &entry.body {
            Body::Call { op, reply, .. } => self.after_call(
                alloc,
                setting,
                entry.thread,
                op,
                reply,
            ),
            Body::Grow { cache, base } => self.after_grow(setting, *cache, *base),
            Body::Shrink { base, .. } => {
                self.after_shrink(*base);
                Ok(())
            }
        }
    }
}
