ghost use Rattle.std.specs.Prelude.{◌≡◌, ◌*◌, ◌^◌, ◌<◌, ◌≤◌, ◌↔◌, [], AllPairs, Contains, IfOk, MatchOption, OnErr, IsTrue, is_some, option_map};
ghost use Rattle.umem_base.specs.declared.pages.TheConstants.{PAGE_BYTES};
ghost use Rattle.umem_base.specs.Span.{EndsBelow};
ghost use Rattle.script.specs.Plan.{plan_of};
ghost use Rattle.script.specs.Rules.{IsPlan, IsSlot};
ghost use Rattle.plain_heap.specs.Bytes.{bytes_from};
ghost use Rattle.plain_heap.specs.Calls.{IsFinished, due_call};
ghost use Rattle.plain_heap.specs.Setting.{cache_def_in, geometry_in};
ghost use Rattle.plain_heap.specs.State.{grows_of, held_at, next_chunk, spans_of, word_of_slot};
ghost use Rattle.heap_ledger.specs.Ledger.{IsLedger, run_setting, run_state};
ghost use Rattle.heap_memory.specs.Chunks.{bytes_of_kind, kind_in};
ghost use Rattle.heap_memory.specs.States.{AreSpansOf};
ghost use Rattle.heap_slabs.specs.Chunks.{IsAtItsPlace, placed_at};
ghost use Rattle.heap_slabs.specs.HeapSlabs.{AreStandingIn, AreStandingSlabs};
ghost use Rattle.heap_slabs.specs.Standing.{AreStanding};
ghost use Rattle.heap_accounts.specs.Asked.{asked_of};
ghost use Rattle.heap_accounts.specs.Finish.{IsNextDue};
ghost use Rattle.heap_accounts.specs.Frees.{freed_next};
ghost use Rattle.heap_accounts.specs.Kinds.{is_large, is_plain_call};
ghost use Rattle.heap_accounts.specs.Places.{cache_count, slab_with_number};
ghost use Rattle.heap_accounts.specs.Turns.{TakesFree, TakesGrow, TakesLast, TakesReap, TakesRound, TakesTurn};

use crate::asked::Asked;
use crate::asked_calls::asked_of;
use crate::chunk_calls::{chunk_request, free_chunk, hand_chunk};
use crate::due::Due;
use crate::freed::Freed;
use crate::frees::{free, freed_slot};
use crate::grow_calls::{hand_fresh, refuse};
use crate::grown::Grown;
use crate::large_calls::large;
use crate::last::Last;
use crate::plain_calls::plain;
use crate::reap_calls::{is_reap, reap};
use crate::tables::Tables;
use crate::tried::Tried;
use crate::turn::Turn;
use case_table::Geometry;
use heap_ledger::laws::where_none_is_next_all_are_made;
use heap_ledger::{Ledger, SlabAt, calls_of};
use heap_memory::Memory;
use heap_memory::laws::{chunks_are_inside_of_runs, slots_are_mapped};
use heap_slabs::laws::placed_chunks_are_known;
use heap_slabs::{HeapSlabs, Placed, Standing};
use plain_heap::{Held, History, Live, Reply};
use script::{Header, Script};
use slab_layer::Round;
use std::alloc::Global;
use std::marker::Model;
use umem_base::{NoMemory, Span};
use umem_options::{Logging, Options};

/// The tables of one history: its entries, the bytes and pages that they left, and the live buffers. Contracts see what
/// it was given and its entries; its type knows that the tables are those of the entries.
#[derive(Drop)]
pub struct Accounts {
    ledger: Ledger,
    tables: Tables,
}

impl Model for Accounts {
    ghost use Rattle.heap_ledger.specs.Ledger.{Ledger};
    ghost use Rattle.heap_accounts.specs.Accounts.{AreAccounts};

    ghost Value = { Ledger };

    ghost view = { λ b. b.ledger };

    ghost invariant = { λ b. AreAccounts b.ledger b.tables };
}

impl Accounts {
    /// Nothing was called yet. It takes the memory of all entries, and of the table of live buffers.
    pub fn start(
        alloc: Global,
        script: &Script,
        options: &Options,
        logging: &Logging,
    ) -> Result<Accounts, NoMemory>
        requires { IsPlan (plan_of script.now) }
        ensures { IfOk result (λ accounts. accounts ≡ record {
          plan = plan_of script.now;
          options = options.now;
          logging = logging.now;
          entries = [];
        }) }
    {
        let ledger = Ledger::start(alloc, script, options, logging)?;
        let memory = Memory::start(alloc, &script.header)?;
        let live = Live::with_room(alloc, calls_of(script))?;
        let slabs = HeapSlabs::start(alloc, &script.header, options.has_guards())?;
        let tables = Tables {
            memory,
            live,
            slabs,
        };
        Ok(Accounts { ledger, tables })
    }

    /// Tells whether it was given these three.
    pub fn is_run(&self, script: &Script, options: &Options, logging: &Logging) -> bool
        ensures { IsTrue result ↔ (self.now.plan ≡ plan_of script.now) × (self.now.options ≡ options.now)
            × (self.now.logging ≡ logging.now) }
    {
        self.ledger.is_run(script, options, logging)
    }

    /// Tells whether the call of a thread of that number, counted from 0 for each thread, is its next one.
    pub fn is_due(&self, thread: u32, call: u32) -> bool
        ensures { result ≡ is_some (due_call self.now.plan self.now.entries thread call) }
    {
        self.ledger.due(thread, call).is_some()
    }

    /// What the call of a thread of that number asks for, if it is its next one, and so which commit makes it.
    pub fn asked(&self, thread: u32, call: u32) -> Option<Asked>
        ensures { result ≡ option_map (λ its. asked_of its.op) (due_call self.now.plan self.now.entries thread call) }
    {
        let ready = self.ledger.due(thread, call)?;
        Some(asked_of(ready.op()))
    }

    /// The next call of the lowest thread that has one, or `None` where all calls were made.
    pub fn next_due(&self) -> Option<Due>
        ensures { MatchOption result (IsFinished self.now.plan self.now.entries)
            (IsNextDue self.now.plan self.now.entries) }
    {
        // A law that says why all calls were made where no thread has a next one.
        where_none_is_next_all_are_made();
        for thread in 0..self.ledger.header().threads {
            if self.ledger.next(thread).is_some() {
                let call = self.ledger.calls_made(thread);
                return Some(Due { thread, call });
            }
        }
        None
    }

    /// The slabs that stand, by rising base.
    pub fn slabs(&self) -> &[SlabAt]
        ensures rising { AllPairs (λ one other. one.base < other.base) result.now }
        ensures exactly { AreStandingIn (run_state self.now) result.now }
    {
        self.tables.slabs.slabs()
    }

    /// The cache of the slab that stands of which the chunk has the number, if one has.
    pub fn cache_of(&self, chunk: u32) -> Option<u32>
        ensures { result ≡ option_map (λ slab. slab.cache)
            (slab_with_number (run_setting self.now) (run_state self.now).slabs chunk) }
    {
        let placed = self.tables.slabs.chunk(chunk)?;
        Some(placed.cache)
    }

    /// The header of the script.
    pub fn header(&self) -> &Header
        ensures { result.now ≡ self.now.plan.header }
    {
        self.ledger.header()
    }

    /// The options that it was given.
    pub fn options(&self) -> &Options
        ensures { result.now ≡ self.now.options }
    {
        self.ledger.options()
    }

    /// The sizes of the logs that it was given.
    pub fn logging(&self) -> &Logging
        ensures { result.now ≡ self.now.logging }
    {
        self.ledger.logging()
    }

    /// The chunk that begins at an address, if one does of a slab that stands.
    pub fn placed_at(&self, address: u64) -> Option<Placed>
        ensures { result ≡ placed_at (run_setting self.now) (run_state self.now) address }
    {
        self.tables.slabs.chunk_at(address)
    }

    /// The chunk that begins at the word of the slot whose buffer the call of a thread gives back, if it is the
    /// thread's next one and gives one back.
    pub fn freed_next(&self, thread: u32, call: u32) -> Option<Placed>
        ensures { result ≡ freed_next self.now thread call }
    {
        // A law that says why the slot is mapped.
        slots_are_mapped();
        let ready = self.ledger.due(thread, call)?;
        let slot = freed_slot(ready.op())?;
        let word = self.tables.memory.slot(thread, slot);
        self.tables.slabs.chunk_at(word)
    }

    /// The bytes of a chunk of a slab that stands, with its tag where there are guards.
    pub fn chunk_bytes(&self, placed: &Placed) -> &[u8]
        requires { IsAtItsPlace (run_setting self.now) (run_state self.now) placed.now }
        ensures { result.now ≡ bytes_from (run_state self.now).bytes placed.now.chunk.address
            (bytes_of_kind (kind_in (run_setting self.now) placed.now.cache)) }
    {
        // Laws that say why the chunk is mapped.
        placed_chunks_are_known();
        chunks_are_inside_of_runs();
        let kind = self.tables.slabs.kind(placed.cache);
        self.tables.memory.chunk_bytes(placed.chunk, kind)
    }

    /// The bytes of a cache's objects.
    pub fn object_bytes(&self, cache: u32) -> u32
        requires { cache < cache_count (run_setting self.now) }
        ensures { result ≡ (cache_def_in (run_setting self.now) cache).size }
    {
        self.tables.slabs.kind(cache).size
    }

    /// The quantities of a cache's slabs.
    pub fn quantities(&self, cache: u32) -> Geometry
        requires { cache < cache_count (run_setting self.now) }
        ensures { result ≡ geometry_in (run_setting self.now) cache }
    {
        self.tables.slabs.quantities(cache)
    }

    /// How many slabs a cache ever made.
    pub fn made(&self, cache: u32) -> u32
        requires { cache < cache_count (run_setting self.now) }
        ensures { result ≡ grows_of (run_state self.now) cache }
    {
        self.tables.slabs.made(cache)
    }

    /// The number that the next chunk gets.
    pub fn next_chunk(&self) -> u32
        ensures { result ≡ next_chunk (run_setting self.now) (run_state self.now) }
    {
        self.tables.slabs.next_chunk()
    }

    /// The slabs that stand, by rising base, each with its chunks.
    pub fn standing(&self) -> &[Standing]
        ensures sound { AreStanding result.now }
        ensures exactly { AreStandingSlabs (run_setting self.now) (run_state self.now) result.now }
    {
        self.tables.slabs.standing()
    }

    /// The buffer that lives at an address, if one does.
    pub fn held(&self, address: u64) -> Option<Held>
        ensures { result ≡ held_at (run_state self.now).live address }
    {
        self.tables.live.held(address)
    }

    /// The runs of pages of the slabs and of the large buffers, by rising base.
    pub fn spans(&self) -> &[Span]
        ensures rising { AllPairs EndsBelow result.now }
        ensures exactly { AreSpansOf (run_setting self.now) (run_state self.now) result.now }
    {
        self.tables.memory.spans()
    }

    /// The bytes of the pages of such a run.
    pub fn span_bytes(&self, span: Span) -> &[u8]
        requires { Contains (spans_of (run_setting self.now) (run_state self.now)) span }
        ensures { result.now ≡ bytes_from (run_state self.now).bytes span.base (PAGE_BYTES * span.pages) }
    {
        self.tables.memory.span_bytes(span)
    }

    /// The word of a slot of a thread.
    pub fn slot(&self, thread: u32, slot: u32) -> u64
        requires thread { thread < self.now.plan.header.threads }
        requires slot { IsSlot self.now.plan.header slot }
        ensures { result ≡ word_of_slot (run_state self.now) thread slot }
    {
        // A law that says why the slot is mapped.
        slots_are_mapped();
        self.tables.memory.slot(thread, slot)
    }

    /// The entries.
    pub fn history(&self) -> &History
        ensures entries { result.now.items ≡ self.now.entries }
        ensures sound { IsLedger self.now }
        ensures few { next_chunk (run_setting self.now) (run_state self.now) ≤ 2 ^ 32 }
    {
        self.ledger.history()
    }

    /// The entries, of a run that is over.
    pub fn into_history(self) -> History
        ensures entries { result.items ≡ self.entries }
        ensures sound { IsLedger self }
    {
        self.ledger.into_history()
    }

    /// Makes a call that hands nothing out and gives nothing back. It takes no memory.
    pub fn commit_plain(&mut self, thread: u32, call: u32) -> Turn
        ensures { TakesTurn is_plain_call self.old self.new thread call result }
    {
        let Some(ready) = self.ledger.due(thread, call) else {
            return Turn::Behind;
        };
        let Some(reply) = plain(&mut self.tables, thread, ready.op()) else {
            return Turn::Behind;
        };
        self.ledger.commit(thread, reply);
        Turn::Made(reply)
    }

    /// Makes an allocation of whole pages: at the lowest run that fits, first fit by address, this project's own.
    pub fn commit_large(&mut self, thread: u32, call: u32) -> Result<Turn, NoMemory>
        ensures ok { IfOk result (TakesTurn is_large self.old self.new thread call) }
        ensures err { OnErr result (self.new ≡ self.old) }
    {
        let Some(ready) = self.ledger.due(thread, call) else {
            return Ok(Turn::Behind);
        };
        let made = large(&mut self.tables, thread, ready.op())?;
        let Some(reply) = made else {
            return Ok(Turn::Behind);
        };
        self.ledger.commit(thread, reply);
        Ok(Turn::Made(reply))
    }

    /// Makes a free, and gives the round of the chunk back that was freed, if one was. It takes no memory.
    pub fn commit_free(&mut self, thread: u32, call: u32) -> Freed
        ensures { TakesFree self.old self.new thread call result }
    {
        let Some(ready) = self.ledger.due(thread, call) else {
            return Freed::Behind;
        };
        let Freed::Made { reply, round } = free(&mut self.tables, thread, ready.op()) else {
            return Freed::Behind;
        };
        self.ledger.commit(thread, reply);
        Freed::Made { reply, round }
    }

    /// Makes an allocation from a cache with the chunk of a round, which is given up where that chunk is no free one of
    /// the cache. It takes no memory.
    pub fn commit_alloc(&mut self, thread: u32, call: u32, round: Round) -> Tried
        ensures { TakesRound self.old self.new thread call round result }
    {
        let Some(ready) = self.ledger.due(thread, call) else {
            return Tried::Behind;
        };
        let Some(request) = chunk_request(&self.tables.slabs, ready.op()) else {
            return Tried::Behind;
        };
        let Some(chunk) = free_chunk(&self.tables, request.cache, round.chunk()) else {
            return Tried::Taken;
        };
        let reply = hand_chunk(&mut self.tables, thread, request, chunk);
        self.ledger.commit(thread, reply);
        Tried::Made(reply)
    }

    /// Makes an allocation from a cache with the first chunk of a slab that is made for it, at the lowest run of pages
    /// that fits, first fit by address, this project's own. All memory is taken before the entries are made.
    pub fn commit_grow(&mut self, alloc: Global, thread: u32, call: u32) -> Result<Grown, NoMemory>
        ensures ok { IfOk result (TakesGrow self.old self.new thread call) }
        ensures err { OnErr result (self.new ≡ self.old) }
    {
        let Some(ready) = self.ledger.due(thread, call) else {
            return Ok(Grown::Behind);
        };
        let Some(request) = chunk_request(&self.tables.slabs, ready.op()) else {
            return Ok(Grown::Behind);
        };
        let Some((reply, fresh)) = hand_fresh(alloc, &mut self.tables, thread, request)? else {
            return Ok(Grown::NoRun);
        };
        let slab = SlabAt {
            cache: request.cache,
            base: fresh.base,
        };
        self.ledger.commit_grown(thread, slab, reply);
        Ok(Grown::Made { reply, fresh })
    }

    /// Makes an allocation from a cache with what is left of it: its free chunk that has the lowest number, this
    /// project's own; else the first chunk of a slab that is made for it; else there is no space.
    pub fn commit_last(&mut self, alloc: Global, thread: u32, call: u32) -> Result<Last, NoMemory>
        ensures ok { IfOk result (TakesLast self.old self.new thread call) }
        ensures err { OnErr result (self.new ≡ self.old) }
    {
        let Some(ready) = self.ledger.due(thread, call) else {
            return Ok(Last::Behind);
        };
        let Some(request) = chunk_request(&self.tables.slabs, ready.op()) else {
            return Ok(Last::Behind);
        };
        let lowest = self
            .tables
            .slabs
            .lowest_free(request.cache, &self.tables.live);
        if let Some(chunk) = lowest {
            let reply = hand_chunk(&mut self.tables, thread, request, chunk);
            self.ledger.commit(thread, reply);
            return Ok(Last::Made { reply, fresh: None });
        }
        let Some((reply, fresh)) = hand_fresh(alloc, &mut self.tables, thread, request)? else {
            refuse(&mut self.tables, thread, request.slot);
            self.ledger.commit(thread, Reply::NoSpace);
            return Ok(Last::Made {
                reply: Reply::NoSpace,
                fresh: None,
            });
        };
        let slab = SlabAt {
            cache: request.cache,
            base: fresh.base,
        };
        self.ledger.commit_grown(thread, slab, reply);
        Ok(Last::Made {
            reply,
            fresh: Some(fresh),
        })
    }

    /// Makes a reap: the slabs of which no chunk lives are given back, by cache and then by base, which is this
    /// project's own. It takes no memory.
    pub fn commit_reap(&mut self, thread: u32, call: u32) -> Turn
        ensures { TakesReap self.old self.new thread call result }
    {
        let Some(ready) = self.ledger.due(thread, call) else {
            return Turn::Behind;
        };
        if !is_reap(ready.op()) {
            return Turn::Behind;
        }
        reap(&mut self.tables);
        self.ledger
            .commit_shrunk(thread, self.tables.slabs.reaped(), Reply::Ok);
        Turn::Made(Reply::Ok)
    }
}
