ghost use Rattle.std.specs.Prelude.{◌≡◌, ℕ, ◌+◌, ◌*◌, ◌<◌, ◌≤◌, ◌^◌, ◌↔◌, AllPairs, Bool, Contains, IfOk, IfSome, MatchResult, IsTrue, OnErr, Some, length};
ghost use Rattle.umem_base.specs.declared.pages.TheConstants.{PAGE_BYTES};
ghost use Rattle.umem_base.specs.Pages.{pages_for};
ghost use Rattle.umem_base.specs.Span.{EndsBelow};
ghost use Rattle.script.specs.Rules.{IsHeader};
ghost use Rattle.case_table.specs.Geometry.{IsAlign};
ghost use Rattle.plain_heap.specs.Laws.{AreSeparate};
ghost use Rattle.plain_heap.specs.Bytes.{bytes_from};
ghost use Rattle.plain_heap.specs.Replies.{finding_at, load_answer, report_at, store_answer};
ghost use Rattle.plain_heap.specs.Setting.{geometry_in};
ghost use Rattle.plain_heap.specs.State.{after_link, after_shrink, after_store, give_back, hand_out, start_state, with_slot, word_of_slot};
ghost use Rattle.heap_memory.specs.Chunks.{HasNumbers, HoldsChunk, IsChunkAt, IsKind, IsNextSlab, IsRequested, bytes_of_kind};
ghost use Rattle.heap_memory.specs.Memory.{IsMemory, IsMemoryOf};
ghost use Rattle.heap_memory.specs.Pages.{Closes, HasSameSpans, HasSlot, HasSpan, OpensLowest};
ghost use Rattle.heap_memory.specs.States.{AreSpansOf, Becomes, BecomesIf, ForEachState, HasSlabAt, IsLargeAt, IsLowestOrNone, Keeps, after_large, after_slab};

use crate::chunk::Chunk;
use crate::chunk_bytes::{bytes_of_kind, shape_of_kind, write_chunks, write_freed, write_handed};
use crate::chunk_kind::ChunkKind;
use crate::new_slab::NewSlab;
use crate::pages::{map_roots, map_run, put_word};
use crate::slots::slot_address;
use addr_space::{Space, Unmapped};
use buftag::{Finding, State, first_broken};
use case_table::{TAG_BYTES, colour, geometry};
use plain_heap::{Reply, Report, report_of};
use script::Header;
use span_arena::Arena;
use std::alloc::Global;
use std::marker::Model;
use umem_base::{ARENA_BASE, NoMemory, PAGE_BYTES, Span, arena_pages, pages_for};

/// The root pages of a heap and the pages of its slabs and large buffers, with their bytes. Contracts see the mapped
/// bytes and the arena.
#[derive(Debug, Drop)]
pub struct Memory {
    space: Space,
    arena: Arena,
}

impl Model for Memory {
    ghost use Rattle.heap_memory.specs.Memory.{IsMemory, Memory};

    ghost Value = { Memory };

    ghost view = { λ m. record { space = m.space; arena = m.arena } };

    ghost invariant = { λ m. IsMemory (record { space = m.space; arena = m.arena }) };
}

impl Memory {
    /// The memory of a heap of which nothing was asked yet: its root pages, which hold zeros.
    pub fn start(alloc: Global, header: &Header) -> Result<Memory, NoMemory>
        requires { IsHeader header.now }
        ensures { IfOk result (λ memory. (guards : Bool) →
            IsMemoryOf (record { header = header.now; guards = guards }) start_state memory) }
    {
        let space = map_roots(alloc, header)?;
        let arena = Arena::new(alloc, ARENA_BASE, arena_pages(header.version));
        Ok(Memory { space, arena })
    }

    /// Tells whether the word of a slot for a thread is mapped.
    pub fn has_slot(&self, thread: u32, slot: u32) -> bool
        ensures { IsTrue result ↔ HasSlot self.now thread slot }
    {
        self.space.load_word(slot_address(thread, slot)).is_ok()
    }

    /// Tells whether a taken span begins at an address.
    pub fn has_span(&self, base: u64) -> bool
        ensures { IsTrue result ↔ HasSpan self.now base }
    {
        self.arena.spans().iter().any(|span| span.base == base)
    }

    /// Tells whether a chunk, with its tag, is inside of one run of pages.
    pub fn holds_chunk(&self, chunk: Chunk, kind: &ChunkKind) -> bool
        requires { IsKind kind.now }
        ensures { IsTrue result ↔ HoldsChunk self.now kind.now chunk }
    {
        self.space.is_in_run(chunk.address, bytes_of_kind(kind))
    }

    /// The word of a slot for a thread.
    pub fn slot(&self, thread: u32, slot: u32) -> u64
        requires { HasSlot self.now thread slot }
        ensures { ForEachState (λ setting state. result ≡ word_of_slot state thread slot) self.now }
    {
        match self.space.load_word(slot_address(thread, slot)) {
            Ok(word) => word,
            Err(_) => unreachable!(),
        }
    }

    /// The slot of a thread gets a word.
    pub fn put_slot(&mut self, thread: u32, slot: u32, word: u64)
        requires { HasSlot self.old thread slot }
        ensures { Becomes (λ setting state. with_slot state thread slot word) self.old self.new }
    {
        put_word(&mut self.space, slot_address(thread, slot), word);
    }

    /// Stores bytes at an offset from the word of a slot. If it doesn't answer `Ok`, nothing changed.
    pub fn store(&mut self, word: u64, offset: u32, bytes: &[u8]) -> Reply
        requires { 0 < length bytes.now }
        ensures answer { ForEachState (λ setting state.
            result ≡ store_answer setting state word offset (length bytes.now)) self.old }
        ensures stored { Becomes (λ setting state. after_store state (word + offset) bytes.now result)
            self.old self.new }
    {
        // A read of a field shows a proof what every memory keeps.
        let _ = &self.space;
        if word == 0 {
            return Reply::Null;
        }
        let Some(at) = word.checked_add(u64::from(offset)) else {
            return Reply::Fault;
        };
        reply_of(self.space.store_bytes(at, bytes))
    }

    /// Stores a word at an offset from the word of a slot. If it doesn't answer `Ok`, nothing changed.
    pub fn link(&mut self, word: u64, offset: u32, value: u64) -> Reply
        ensures answer { ForEachState (λ setting state. result ≡ store_answer setting state word offset 8) self.old }
        ensures stored { Becomes (λ setting state. after_link state (word + offset) value result)
            self.old self.new }
    {
        let _ = &self.space;
        if word == 0 {
            return Reply::Null;
        }
        let Some(at) = word.checked_add(u64::from(offset)) else {
            return Reply::Fault;
        };
        reply_of(self.space.store_word(at, value))
    }

    /// Loads the word at an offset from the word of a slot.
    pub fn load(&self, word: u64, offset: u32) -> Reply
        ensures { ForEachState (λ setting state. result ≡ load_answer setting state word offset) self.now }
    {
        let _ = &self.space;
        if word == 0 {
            return Reply::Null;
        }
        let Some(at) = word.checked_add(u64::from(offset)) else {
            return Reply::Fault;
        };
        match self.space.load_word(at) {
            Ok(loaded) => Reply::Word(loaded),
            Err(_) => Reply::Fault,
        }
    }

    /// Takes the lowest free run of pages for a large buffer of so many bytes, and answers its base, or `None` where no
    /// run of its pages is free. Its pages hold zeros. First fit by address, this project's own.
    pub fn open_large(&mut self, size: u32) -> Result<Option<u64>, NoMemory>
        requires { 0 < size }
        ensures lowest { IfOk result (λ base. ForEachState (IsLowestOrNone (pages_for size) base) self.old) }
        ensures opened { IfOk result (λ base. (zero : Bool) →
            Becomes (after_large size zero base) self.old self.new) }
        ensures err { OnErr result (Keeps self.old self.new) }
    {
        self.open_run(pages_for(u64::from(size)))
    }

    /// Gives the pages of a large buffer back.
    pub fn close_large(&mut self, base: u64)
        requires { HasSpan self.old base }
        ensures { BecomesIf (IsLargeAt base) (λ setting state. give_back setting state base) self.old self.new }
    {
        self.close_run(base);
    }

    /// Takes the lowest free run of pages for a slab, and answers its base, or `None` where no run of its pages is
    /// free. Its chunks hold what chunks hold when their slab is made, and zeros stand beside them. First fit by
    /// address, this project's own.
    pub fn open_slab(&mut self, slab: &NewSlab) -> Result<Option<u64>, NoMemory>
        requires kind { IsKind slab.now.kind }
        requires align { IsAlign slab.now.align }
        requires numbers { HasNumbers slab.now }
        ensures lowest { IfOk result (λ base. ForEachState (λ setting state. IsNextSlab slab.now setting state →
            IsLowestOrNone (geometry_in setting slab.now.kind.cache).pages base setting state) self.old) }
        ensures opened { IfOk result (λ base.
            BecomesIf (IsNextSlab slab.now) (after_slab slab.now.kind.cache base) self.old self.new) }
        ensures err { OnErr result (Keeps self.old self.new) }
    {
        let layout = geometry(slab.kind.size, slab.align, slab.kind.guards);
        let Some(base) = self.open_run(u64::from(layout.pages))? else {
            return Ok(None);
        };
        let start = base + u64::from(colour(slab.align, layout.leftover, slab.made));
        write_chunks(&mut self.space, slab, start, &layout);
        Ok(Some(base))
    }

    /// Gives the pages of a slab back.
    pub fn close_slab(&mut self, base: u64)
        requires { HasSpan self.old base }
        ensures { BecomesIf (HasSlabAt base) (λ setting state. after_shrink state base) self.old self.new }
    {
        self.close_run(base);
    }

    /// What is wrong with a chunk as one in that state, or `None` where nothing is. Without guards nothing ever is.
    pub fn finding(&self, chunk: Chunk, kind: &ChunkKind, state: State) -> Option<Finding>
        requires kind { IsKind kind.now }
        requires inside { HoldsChunk self.now kind.now chunk }
        ensures { ForEachState (λ setting heap. IsChunkAt kind.now chunk setting heap →
            result ≡ finding_at setting heap chunk.address state) self.now }
    {
        if !kind.guards {
            return None;
        }
        let shape = shape_of_kind(kind, chunk.number);
        let count = (shape.content + TAG_BYTES) as usize;
        let Some(bytes) = self.space.bytes_of(chunk.address, count) else {
            unreachable!();
        };
        first_broken(bytes, &shape, state)
    }

    /// The bytes of a chunk, with its tag where there are guards.
    pub fn chunk_bytes(&self, chunk: Chunk, kind: &ChunkKind) -> &[u8]
        requires kind { IsKind kind.now }
        requires inside { HoldsChunk self.now kind.now chunk }
        ensures { ForEachState (λ setting heap.
            result.now ≡ bytes_from heap.bytes chunk.address (bytes_of_kind kind.now)) self.now }
    {
        match self.space.bytes_of(chunk.address, bytes_of_kind(kind)) {
            Some(bytes) => bytes,
            None => unreachable!(),
        }
    }

    /// The runs of pages of the slabs and of the large buffers, by rising base.
    pub fn spans(&self) -> &[Span]
        ensures spans { result.now ≡ self.now.arena.spans }
        ensures rising { AllPairs EndsBelow result.now }
        ensures exactly { ForEachState (λ setting state. AreSpansOf setting state result.now) self.now }
    {
        // A read of a field shows a proof what every memory keeps.
        let _ = &self.space;
        self.arena.spans()
    }

    /// The bytes of the pages of a taken run.
    pub fn span_bytes(&self, span: Span) -> &[u8]
        requires { Contains self.now.arena.spans span }
        ensures { ForEachState (λ setting state.
            result.now ≡ bytes_from state.bytes span.base (PAGE_BYTES * span.pages)) self.now }
    {
        let _ = &self.space;
        let count = (PAGE_BYTES * span.pages) as usize;
        match self.space.bytes_of(span.base, count) {
            Some(bytes) => bytes,
            None => unreachable!(),
        }
    }

    /// Hands a chunk out for a request of so many bytes, zeroed where that is wanted, and reports what its bytes told
    /// before.
    pub fn hand_chunk(
        &mut self,
        chunk: Chunk,
        kind: &ChunkKind,
        requested: u32,
        zero: bool,
    ) -> Report
        requires kind { IsKind kind.now }
        requires request { IsRequested kind.now requested }
        requires inside { HoldsChunk self.old kind.now chunk }
        ensures report { ForEachState (λ setting state. IsChunkAt kind.now chunk setting state →
            result ≡ report_at setting state chunk.address) self.old }
        ensures handed { BecomesIf (IsChunkAt kind.now chunk)
            (λ setting state. hand_out setting state chunk.address
            (record { size = requested; cache = Some kind.now.cache }) zero) self.old self.new }
    {
        let report = report_of(self.finding(chunk, kind, State::Free));
        write_handed(&mut self.space, chunk, kind, requested, zero);
        report
    }

    /// Takes a chunk back.
    pub fn take_back_chunk(&mut self, chunk: Chunk, kind: &ChunkKind)
        requires kind { IsKind kind.now }
        requires inside { HoldsChunk self.old kind.now chunk }
        ensures { BecomesIf (λ setting state. AreSeparate setting state × IsChunkAt kind.now chunk setting state)
            (λ setting state. give_back setting state chunk.address) self.old self.new }
    {
        write_freed(&mut self.space, chunk, kind);
    }

    /// Takes and maps the lowest free run of pages. On a refusal no other spans are taken than before.
    fn open_run(&mut self, pages: u64) -> Result<Option<u64>, NoMemory>
        requires { 1 ≤ pages }
        ensures opened { IfOk result (OpensLowest self.old self.new pages) }
        ensures below { IfOk result (λ base. IfSome base (λ base. base + PAGE_BYTES * pages ≤ 2 ^ 32)) }
        ensures err { OnErr result (HasSameSpans self.old self.new) }
    {
        let Some(base) = self.arena.take(pages)? else {
            return Ok(None);
        };
        if let Err(error) = map_run(&mut self.space, base, pages) {
            let _ = self.arena.give_back(base);
            return Err(error);
        }
        Ok(Some(base))
    }

    fn close_run(&mut self, base: u64)
        requires { HasSpan self.old base }
        ensures closes { (pages : ℕ) × Closes self.old self.new (record { base = base; pages = pages }) }
        ensures was_sound { IsMemory self.old }
    {
        match self.arena.give_back(base) {
            Ok(pages) => self.space.unmap(base, pages),
            Err(_) => unreachable!(),
        }
    }
}

/// The answer to a store.
fn reply_of(stored: Result<(), Unmapped>) -> Reply
    ensures { MatchResult stored (λ _. result ≡ Reply.Ok) (λ _. result ≡ Reply.Fault) }
{
    match stored {
        Ok(()) => Reply::Ok,
        Err(_) => Reply::Fault,
    }
}
