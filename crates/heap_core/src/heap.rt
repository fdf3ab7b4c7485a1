ghost use Rattle.std.specs.Prelude.{◌≡◌, ◌↔◌, [], IfOk, OnErr, OnOk, IsTrue};
ghost use Rattle.script.specs.Plan.{plan_of};
ghost use Rattle.script.specs.Rules.{IsPlan};
ghost use Rattle.umem_options.specs.Limits.{IsLogging, IsOptions};
ghost use Rattle.plain_heap.specs.Calls.{IsFinished};
ghost use Rattle.heap_ledger.specs.Ledger.{IsLedger, run_setting};
ghost use Rattle.heap_accounts.specs.Finish.{GoesOn};
ghost use Rattle.heap_accounts.specs.Placed.{IsPlaced};
ghost use Rattle.heap_pictures.specs.Pictures.{Pictures, TellsPlaces};
ghost use Rattle.heap_core.specs.Heap.{run_places};
ghost use Rattle.heap_core.specs.Performs.{KeepsRefused, PerformsTurn};

use crate::chunk_calls::perform_chunk;
use crate::free_calls::perform_free;
use crate::free_places::free_places;
use crate::plain_calls::{perform_large, perform_plain};
use crate::reap_calls::perform_reap;
use crate::shelves::start_shelves;
use core_format::Core;
use heap_accounts::{Asked, Turn};
use heap_books::Books;
use plain_heap::History;
use script::Script;
use shelf::Shelf;
use std::alloc::Global;
use std::marker::Model;
use umem_base::NoMemory;
use umem_options::{Logging, Options};

/// A heap of one owner (Bonwick 1994, Bonwick and Adams 2001): its books, and one shelf a cache, which has the
/// magazines of all CPUs, the depot and the slabs' lists of that cache. Contracts see what it was given and its
/// entries. These are placed: each allocation of a chunk was answered with the chunk that the magazine rules give.
#[derive(Drop)]
pub struct Heap {
    books: Books,
    shelves: Vec<Shelf>,
}

impl Model for Heap {
    ghost use Rattle.heap_ledger.specs.Ledger.{Ledger};
    ghost use Rattle.heap_core.specs.Heap.{IsHeap};

    ghost Value = { Ledger };

    ghost view = { λ h. h.books };

    ghost invariant = { λ h. IsHeap h.books h.shelves.items };
}

impl Heap {
    /// Nothing was called yet. It takes the memory of all entries, and of all magazines.
    pub fn start(
        alloc: Global,
        script: &Script,
        options: &Options,
        logging: &Logging,
    ) -> Result<Heap, NoMemory>
        requires plan { IsPlan (plan_of script.now) }
        requires options { IsOptions options.now }
        requires logging { IsLogging logging.now }
        ensures { IfOk result (λ heap. heap ≡ record {
          plan = plan_of script.now;
          options = options.now;
          logging = logging.now;
          entries = [];
        }) }
    {
        let books = Books::start(alloc, script, options, logging)?;
        // Says what is known of no entries.
        let _ = books.history();
        let shelves = start_shelves(alloc, &script.header, options.has_guards())?;
        Ok(Heap { books, shelves })
    }

    /// Tells whether it was given these three.
    pub fn is_run(&self, script: &Script, options: &Options, logging: &Logging) -> bool
        ensures { IsTrue result ↔ (self.now.plan ≡ plan_of script.now) × (self.now.options ≡ options.now)
            × (self.now.logging ≡ logging.now) }
    {
        self.books.is_run(script, options, logging)
    }

    /// Performs the call of a thread of that number, counted from 0 for each thread, of any kind. All memory is taken
    /// before the entries are made. A free that is refused adds its entry and changes nothing else.
    pub fn perform(&mut self, alloc: Global, thread: u32, call: u32) -> Result<Turn, NoMemory>
        ensures ok { IfOk result (PerformsTurn self.old self.new thread call) }
        ensures err { OnErr result (self.new ≡ self.old) }
        ensures refused { IfOk result (KeepsRefused self.old self.new thread call) }
    {
        let Some(asked) = self.books.asked(thread, call) else {
            return Ok(Turn::Behind);
        };
        match asked {
            Asked::Plain => Ok(perform_plain(&mut self.books, thread, call)),
            Asked::Large => perform_large(&mut self.books, thread, call),
            Asked::Chunk { cache } => perform_chunk(
                alloc,
                &mut self.books,
                &mut self.shelves,
                thread,
                call,
                cache,
            ),
            Asked::Free => Ok(perform_free(&mut self.books, &mut self.shelves, thread, call)),
            Asked::Reap => Ok(perform_reap(&mut self.books, &mut self.shelves, thread, call)),
        }
    }

    /// Performs the calls that are left, phase by phase, and in a phase thread by thread. Where memory is short, those
    /// that were performed stand.
    pub fn finish(&mut self, alloc: Global) -> Result<(), NoMemory>
        ensures goes_on { GoesOn self.old self.new }
        ensures done { OnOk result (IsFinished self.new.plan self.new.entries) }
    {
        while let Some(due) = self.books.next_due() {
            self.perform(alloc, due.thread, due.call)?;
        }
        Ok(())
    }

    /// The core of the run as it stands: what it was given, what its entries leave, their audits and logs, and each
    /// free chunk in the magazine, the depot or the slab that holds it. It refuses for want of memory alone.
    pub fn snapshot(&self, alloc: Global) -> Result<Core, NoMemory>
        ensures pictures { IfOk result (Pictures self.now) }
        ensures places { IfOk result (TellsPlaces self.now (run_places self.now)) }
    {
        // Says that options and sizes are within their limits.
        let _ = self.books.history();
        let cpus = self.books.header().cpus;
        let places = free_places(alloc, cpus, &self.shelves, self.books.slabs())?;
        self.books.draw(alloc, places)
    }

    /// The entries.
    pub fn history(&self) -> &History
        ensures entries { result.now.items ≡ self.now.entries }
        ensures sound { IsLedger self.now }
        ensures placed { IsPlaced (run_setting self.now) self.now.entries }
        ensures options { IsOptions self.now.options }
        ensures logging { IsLogging self.now.logging }
    {
        self.books.history()
    }

    /// The entries, of a run that is over.
    pub fn into_history(self) -> History
        ensures entries { result.items ≡ self.entries }
        ensures sound { IsLedger self }
        ensures placed { IsPlaced (run_setting self) self.entries }
    {
        self.books.into_history()
    }
}
