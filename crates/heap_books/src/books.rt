ghost use Rattle.std.specs.Prelude.{◌≡◌, ◌^◌, ◌<◌, ◌≤◌, ◌↔◌, [], AllPairs, IfOk, MatchOption, OnErr, OnOk, IsTrue, is_some, option_map};
ghost use Rattle.umem_options.specs.Limits.{IsLogging, IsOptions};
ghost use Rattle.script.specs.Plan.{plan_of};
ghost use Rattle.script.specs.Rules.{IsPlan};
ghost use Rattle.plain_heap.specs.Calls.{IsFinished, due_call};
ghost use Rattle.plain_heap.specs.State.{next_chunk};
ghost use Rattle.heap_ledger.specs.Ledger.{IsLedger, run_setting, run_state};
ghost use Rattle.heap_slabs.specs.HeapSlabs.{AreStandingIn};
ghost use Rattle.heap_accounts.specs.Asked.{asked_of};
ghost use Rattle.heap_accounts.specs.Finish.{GoesOn, IsNextDue};
ghost use Rattle.heap_accounts.specs.Kinds.{is_large, is_plain_call};
ghost use Rattle.heap_accounts.specs.Places.{slab_with_number};
ghost use Rattle.heap_accounts.specs.Turns.{TakesFree, TakesGrow, TakesLast, TakesReap, TakesRound, TakesTurn};
ghost use Rattle.heap_books.specs.Finish.{MakesCallsLeft, MakesNext};
ghost use Rattle.heap_books.specs.Fit.{FitRun};
ghost use Rattle.heap_books.specs.InLists.{DrawnInLists};
ghost use Rattle.heap_pictures.specs.Drawn.{AreListsOf};
ghost use Rattle.heap_pictures.specs.Pictures.{DrawnWith, Pictures};

use crate::chunk_commits::{commit_alloc, commit_grow, commit_last};
use crate::draw::draw;
use crate::free_commits::commit_free;
use crate::journal::Journal;
use crate::large_commits::commit_large;
use crate::picture::picture;
use crate::plain_commits::{commit_plain, commit_reap};
use crate::start::start;
use core_format::Core;
use heap_accounts::{Accounts, Asked, Due, Freed, Grown, Last, Tried, Turn};
use heap_ledger::SlabAt;
use heap_pictures::FreePlaces;
use plain_heap::History;
use script::{Header, Script};
use slab_layer::Round;
use std::alloc::Global;
use std::marker::Model;
use umem_base::NoMemory;
use umem_options::{Logging, Options};

/// The books of a run: its accounts, and what its audits and logs are made of. Contracts see what it was given and its
/// entries; its type knows that its tables and its logs are those of the entries.
#[derive(Drop)]
pub struct Books {
    accounts: Accounts,
    journal: Journal,
}

impl Model for Books {
    ghost use Rattle.heap_ledger.specs.Ledger.{Ledger};
    ghost use Rattle.heap_books.specs.Books.{AreBooks};

    ghost Value = { Ledger };

    ghost view = { λ b. b.accounts };

    ghost invariant = { λ b. AreBooks b.accounts b.journal };
}

impl Books {
    /// Nothing was called yet. It takes the memory of all entries with their acts, of the table of live buffers, and of
    /// the contents log.
    pub fn start(
        alloc: Global,
        script: &Script,
        options: &Options,
        logging: &Logging,
    ) -> Result<Books, NoMemory>
        requires plan { IsPlan (plan_of script.now) }
        requires options { IsOptions options.now }
        requires logging { IsLogging logging.now }
        ensures { IfOk result (λ books. books ≡ record {
          plan = plan_of script.now;
          options = options.now;
          logging = logging.now;
          entries = [];
        }) }
    {
        let (accounts, journal) = start(alloc, script, options, logging)?;
        Ok(Books { accounts, journal })
    }

    /// Tells whether it was given these three.
    pub fn is_run(&self, script: &Script, options: &Options, logging: &Logging) -> bool
        ensures { IsTrue result ↔ (self.now.plan ≡ plan_of script.now) × (self.now.options ≡ options.now)
            × (self.now.logging ≡ logging.now) }
    {
        self.accounts.is_run(script, options, logging)
    }

    /// Tells whether the call of a thread of that number, counted from 0 for each thread, is its next one.
    pub fn is_due(&self, thread: u32, call: u32) -> bool
        ensures { result ≡ is_some (due_call self.now.plan self.now.entries thread call) }
    {
        self.accounts.is_due(thread, call)
    }

    /// What the call of a thread of that number asks for, if it is its next one, and so which commit makes it.
    pub fn asked(&self, thread: u32, call: u32) -> Option<Asked>
        ensures { result ≡ option_map (λ its. asked_of its.op) (due_call self.now.plan self.now.entries thread call) }
    {
        self.accounts.asked(thread, call)
    }

    /// The next call of the lowest thread that has one, or `None` where all calls were made.
    pub fn next_due(&self) -> Option<Due>
        ensures { MatchOption result (IsFinished self.now.plan self.now.entries)
            (IsNextDue self.now.plan self.now.entries) }
    {
        self.accounts.next_due()
    }

    /// The slabs that stand, by rising base.
    pub fn slabs(&self) -> &[SlabAt]
        ensures rising { AllPairs (λ one other. one.base < other.base) result.now }
        ensures exactly { AreStandingIn (run_state self.now) result.now }
    {
        self.accounts.slabs()
    }

    /// The cache of the slab that stands of which the chunk has the number, if one has.
    pub fn cache_of(&self, chunk: u32) -> Option<u32>
        ensures { result ≡ option_map (λ slab. slab.cache)
            (slab_with_number (run_setting self.now) (run_state self.now).slabs chunk) }
    {
        self.accounts.cache_of(chunk)
    }

    /// The header of the script.
    pub fn header(&self) -> &Header
        ensures { result.now ≡ self.now.plan.header }
    {
        self.accounts.header()
    }

    /// The entries.
    pub fn history(&self) -> &History
        ensures entries { result.now.items ≡ self.now.entries }
        ensures sound { IsLedger self.now }
        ensures few { next_chunk (run_setting self.now) (run_state self.now) ≤ 2 ^ 32 }
        ensures options { IsOptions self.now.options }
        ensures logging { IsLogging self.now.logging }
    {
        // A read of a field shows a proof what all books keep.
        let _ = &self.journal;
        self.accounts.history()
    }

    /// The entries, of a run that is over.
    pub fn into_history(self) -> History
        ensures entries { result.items ≡ self.entries }
        ensures sound { IsLedger self }
    {
        self.accounts.into_history()
    }

    /// Makes a call that hands nothing out and gives nothing back. It takes no memory.
    pub fn commit_plain(&mut self, thread: u32, call: u32) -> Turn
        ensures { TakesTurn is_plain_call self.old self.new thread call result }
    {
        commit_plain(&mut self.accounts, &mut self.journal, thread, call)
    }

    /// Makes an allocation of whole pages: at the lowest run that fits, first fit by address, this project's own.
    pub fn commit_large(&mut self, thread: u32, call: u32) -> Result<Turn, NoMemory>
        ensures ok { IfOk result (TakesTurn is_large self.old self.new thread call) }
        ensures err { OnErr result (self.new ≡ self.old) }
    {
        commit_large(&mut self.accounts, &mut self.journal, thread, call)
    }

    /// Makes a free, and gives the round of the chunk back that was freed, if one was. It takes no memory.
    pub fn commit_free(&mut self, thread: u32, call: u32) -> Freed
        ensures { TakesFree self.old self.new thread call result }
    {
        commit_free(&mut self.accounts, &mut self.journal, thread, call)
    }

    /// Makes an allocation from a cache with the chunk of a round, which is given up where that chunk is no free one of
    /// the cache. It takes no memory.
    pub fn commit_alloc(&mut self, thread: u32, call: u32, round: Round) -> Tried
        ensures { TakesRound self.old self.new thread call round result }
    {
        commit_alloc(&mut self.accounts, &mut self.journal, thread, call, round)
    }

    /// Makes an allocation from a cache with the first chunk of a slab that is made for it, at the lowest run of pages
    /// that fits, first fit by address, this project's own. All memory is taken before the entries are made.
    pub fn commit_grow(&mut self, alloc: Global, thread: u32, call: u32) -> Result<Grown, NoMemory>
        ensures ok { IfOk result (TakesGrow self.old self.new thread call) }
        ensures err { OnErr result (self.new ≡ self.old) }
    {
        commit_grow(alloc, &mut self.accounts, &mut self.journal, thread, call)
    }

    /// Makes an allocation from a cache with what is left of it: its free chunk that has the lowest number, this
    /// project's own; else the first chunk of a slab that is made for it; else there is no space.
    pub fn commit_last(&mut self, alloc: Global, thread: u32, call: u32) -> Result<Last, NoMemory>
        ensures ok { IfOk result (TakesLast self.old self.new thread call) }
        ensures err { OnErr result (self.new ≡ self.old) }
    {
        commit_last(alloc, &mut self.accounts, &mut self.journal, thread, call)
    }

    /// Makes a reap: the slabs of which no chunk lives are given back, by cache and then by base, which is this
    /// project's own. It takes no memory.
    pub fn commit_reap(&mut self, thread: u32, call: u32) -> Turn
        ensures { TakesReap self.old self.new thread call result }
    {
        commit_reap(&mut self.accounts, &mut self.journal, thread, call)
    }

    /// Makes the calls that are left, phase by phase, and in a phase thread by thread, an allocation from a cache with
    /// what is left of it. Where memory is short, those that were made stand. The order is this project's own.
    pub fn finish(&mut self, alloc: Global) -> Result<(), NoMemory>
        ensures goes_on { GoesOn self.old self.new }
        ensures done { OnOk result (IsFinished self.new.plan self.new.entries) }
        ensures by_kind { MakesCallsLeft self.old self.new }
    {
        while let Some(due) = self.next_due() {
            self.make_next(alloc, due)?;
            // Says that the entries are legal.
            let _ = self.history();
        }
        Ok(())
    }

    /// Makes the next call of the lowest thread that has one, by the commit of its kind.
    fn make_next(&mut self, alloc: Global, due: Due) -> Result<(), NoMemory>
        requires { IsNextDue self.old.plan self.old.entries due }
        ensures ok { OnOk result (MakesNext self.old self.new) }
        ensures err { OnErr result (self.new ≡ self.old) }
    {
        let Some(asked) = self.asked(due.thread, due.call) else {
            unreachable!();
        };
        match asked {
            Asked::Plain => _ = self.commit_plain(due.thread, due.call),
            Asked::Large => _ = self.commit_large(due.thread, due.call)?,
            Asked::Chunk { .. } => _ = self.commit_last(alloc, due.thread, due.call)?,
            Asked::Free => _ = self.commit_free(due.thread, due.call),
            Asked::Reap => _ = self.commit_reap(due.thread, due.call),
        }
        Ok(())
    }

    /// The core of the run, with its free chunks at these places, and with its audits and logs.
    pub fn draw(&self, alloc: Global, places: FreePlaces) -> Result<Core, NoMemory>
        requires { AreListsOf (run_state self.now) places.lists }
        ensures { IfOk result (DrawnWith self.now places) }
    {
        draw(alloc, &self.accounts, &self.journal, places)
    }

    /// The core of the run, with its free chunks at these places where they fit, and where they do not, with each in
    /// its slab's list and with empty magazines, which is this project's own. It refuses for want of memory alone.
    pub fn picture(&self, alloc: Global, places: FreePlaces) -> Result<Core, NoMemory>
        ensures fitting { FitRun (run_setting self.now) (run_state self.now) places
            → IfOk result (DrawnWith self.now places) }
        ensures others { ¬ FitRun (run_setting self.now) (run_state self.now) places
            → IfOk result (DrawnInLists self.now) }
        ensures pictures { IfOk result (Pictures self.now) }
    {
        picture(alloc, &self.accounts, &self.journal, places)
    }
}
