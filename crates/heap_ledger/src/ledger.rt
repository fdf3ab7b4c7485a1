ghost use Rattle.std.specs.Prelude.{◌≡◌, ◌+◌, ◌^◌, ◌<◌, ◌≤◌, ◌↔◌, ◌∷◌, ◌++◌, [], IfOk, IsSome, IsTrue, length, option_map, sum_by};
ghost use Rattle.script.specs.declared.limits.TheConstants.{MOST_CALLS_2};
ghost use Rattle.script.specs.Plan.{call_count, plan_of};
ghost use Rattle.script.specs.Rules.{IsPlan};
ghost use Rattle.plain_heap.specs.Calls.{due_call, next_call, number_of_calls, turns_made};
ghost use Rattle.heap_ledger.specs.Ledger.{Commits, IsLedger, KeepsTurnLimits, MayCommit, commit_entries, entry, grown, inner_entries, shrunk};

use crate::ready::Ready;
use crate::schedule::Schedule;
use crate::slab_at::SlabAt;
use plain_heap::{Body, Entry, History, Reply};
use script::{Header, Phase, Script};
use std::alloc::Global;
use std::marker::Model;
use umem_base::NoMemory;
use umem_options::{Logging, Options};

/// What a run was given, and what it made so far. Contracts see the plan of its script, its options, the sizes of
/// its logs and its entries. They are legal and tidy, and their calls follow the plan. All memory of its entries is
/// taken at the start: three a call, since a call grows at most one slab, and a slab is given back once.
#[derive(Debug, Drop)]
pub struct Ledger {
    script: Script,
    options: Options,
    logging: Logging,
    schedule: Schedule,
    history: History,
}

impl Model for Ledger {
    ghost use Rattle.script.specs.Plan.{plan_of};
    ghost use Rattle.heap_ledger.specs.Ledger.{IsLedger, Ledger};
    ghost use Rattle.heap_ledger.specs.Room.{IsKept};

    ghost Value = { Ledger };

    ghost view = { λ l. record {
      plan = plan_of l.script;
      options = l.options;
      logging = l.logging;
      entries = l.history.items;
    } };

    ghost invariant = { λ l. IsKept l.script l.options l.logging l.schedule l.history };
}

impl Ledger {
    /// Nothing was called yet. It takes the memory of all entries.
    pub fn start(
        alloc: Global,
        script: &Script,
        options: &Options,
        logging: &Logging,
    ) -> Result<Ledger, NoMemory>
        requires { IsPlan (plan_of script.now) }
        ensures { IfOk result (λ ledger. ledger ≡ record {
          plan = plan_of script.now;
          options = options.now;
          logging = logging.now;
          entries = [];
        }) }
    {
        let schedule = Schedule::start(alloc, script)?;
        let history = History::with_room(alloc, 3 * calls_of(script))?;
        Ok(Ledger {
            script: script.clone()?,
            options: *options,
            logging: *logging,
            schedule,
            history,
        })
    }

    /// Tells whether it was given these three.
    pub fn is_run(&self, script: &Script, options: &Options, logging: &Logging) -> bool
        ensures { IsTrue result ↔ (self.now.plan ≡ plan_of script.now) × (self.now.options ≡ options.now)
            × (self.now.logging ≡ logging.now) }
    {
        self.script.says_the_same(script) && self.options == *options && self.logging == *logging
    }

    /// The header of the script.
    pub fn header(&self) -> &Header
        ensures { result.now ≡ self.now.plan.header }
    {
        &self.script.header
    }

    /// The options that it was given.
    pub fn options(&self) -> &Options
        ensures { result.now ≡ self.now.options }
    {
        &self.options
    }

    /// The sizes of the logs that it was given.
    pub fn logging(&self) -> &Logging
        ensures { result.now ≡ self.now.logging }
    {
        &self.logging
    }

    /// How many calls a thread made: the number of its next one. A thread that the script has not made none.
    pub fn calls_made(&self, thread: u32) -> u32
        ensures { result ≡ number_of_calls thread (turns_made self.now.entries) }
    {
        self.schedule.made_by(thread)
    }

    /// The call that a thread makes next, if it has one. A run that makes the next call of the lowest thread that has
    /// one, again and again, makes all calls phase by phase; to let each thread make all of its calls before the next
    /// thread's would leave calls of a later phase that wait for another thread.
    pub fn next(&self, thread: u32) -> Option<&Ready>
        ensures call { option_map (λ ready. ready.now) result ≡ next_call self.now.plan self.now.entries thread }
        ensures limits { KeepsTurnLimits self.now.plan.header thread (option_map (λ ready. ready.now) result) }
    {
        self.schedule.next(thread)
    }

    /// The call of a thread of that number, counted from 0 for each thread, if it is the next one of the thread.
    pub fn due(&self, thread: u32, call: u32) -> Option<&Ready>
        ensures call { option_map (λ ready. ready.now) result ≡ due_call self.now.plan self.now.entries thread call }
        ensures limits { KeepsTurnLimits self.now.plan.header thread (option_map (λ ready. ready.now) result) }
    {
        self.schedule.due(thread, call)
    }

    /// The entries.
    pub fn history(&self) -> &History
        ensures entries { result.now.items ≡ self.now.entries }
        ensures sound { IsLedger self.now }
    {
        &self.history
    }

    /// The entries, of a run that is over.
    pub fn into_history(self) -> History
        ensures entries { result.items ≡ self.entries }
        ensures sound { IsLedger self }
    {
        self.history
    }

    /// The next call of a thread was made, and answered. It takes no memory.
    pub fn commit(&mut self, thread: u32, answer: Reply)
        requires due { IsSome (next_call self.old.plan self.old.entries thread) }
        requires legal { MayCommit self.old thread [] answer }
        ensures { Commits self.old self.new thread [] answer }
    {
        let call = self.schedule.take(thread);
        enter_call(&mut self.history, thread, call, answer);
    }

    /// The same, and the answer is from a slab that was made for it.
    pub fn commit_grown(&mut self, thread: u32, slab: SlabAt, answer: Reply)
        requires due { IsSome (next_call self.old.plan self.old.entries thread) }
        requires legal { MayCommit self.old thread (grown slab ∷ []) answer }
        ensures { Commits self.old self.new thread (grown slab ∷ []) answer }
    {
        let call = self.schedule.take(thread);
        let body = Body::Grow {
            cache: slab.cache,
            base: slab.base,
        };
        enter(&mut self.history, thread, body);
        enter_call(&mut self.history, thread, call, answer);
    }

    /// The same, and these slabs were given back by it.
    pub fn commit_shrunk(&mut self, thread: u32, slabs: &[SlabAt], answer: Reply)
        requires due { IsSome (next_call self.old.plan self.old.entries thread) }
        requires legal { MayCommit self.old thread (shrunk slabs.now) answer }
        ensures { Commits self.old self.new thread (shrunk slabs.now) answer }
    {
        let call = self.schedule.take(thread);
        enter_shrinks(&mut self.history, thread, slabs);
        enter_call(&mut self.history, thread, call, answer);
    }
}

/// How many calls a script has.
pub fn calls_of(script: &Script) -> u32
    requires { IsPlan (plan_of script.now) }
    ensures calls { result ≡ call_count (plan_of script.now) }
    ensures few { result ≤ MOST_CALLS_2 }
{
    count_calls(script.phases.as_slice())
}

/// How many calls the phases have.
fn count_calls(phases: &[Phase]) -> u32
    requires { sum_by (λ phase. length phase.items) phases.now < 2 ^ 32 }
    ensures { result ≡ sum_by (λ phase. length phase.items) phases.now }
{
    let mut count = 0;
    for phase in phases {
        count += phase.as_slice().len() as u32;
    }
    count
}

/// An entry of a thread behind the others.
fn enter(history: &mut History, thread: u32, body: Body)
    requires room { 0 < history.old.spare }
    requires few { length history.old.items < 2 ^ 32 }
    ensures items { history.new.items ≡ history.old.items ++ entry (length history.old.items) thread body ∷ [] }
    ensures spare { history.new.spare + 1 ≡ history.old.spare }
{
    let number = history.as_slice().len() as u32;
    history.push(Entry {
        number,
        thread,
        body,
    });
}

/// The entry of a call and its answer.
fn enter_call(history: &mut History, thread: u32, call: Ready, answer: Reply)
    requires room { 0 < history.old.spare }
    requires few { length history.old.items < 2 ^ 32 }
    ensures items { history.new.items
        ≡ history.old.items ++ commit_entries (length history.old.items) thread [] call answer }
    ensures spare { history.new.spare + 1 ≡ history.old.spare }
{
    let (op, frames) = call.into_parts();
    let body = Body::Call {
        op,
        frames,
        reply: answer,
    };
    enter(history, thread, body);
}

/// The entries of slabs that were given back.
fn enter_shrinks(history: &mut History, thread: u32, slabs: &[SlabAt])
    requires room { length slabs.now ≤ history.old.spare }
    requires few { length history.old.items + length slabs.now < 2 ^ 32 }
    ensures items { history.new.items
        ≡ history.old.items ++ inner_entries (length history.old.items) thread (shrunk slabs.now) }
    ensures spare { history.new.spare + length slabs.now ≡ history.old.spare }
{
    for slab in slabs {
        let body = Body::Shrink {
            cache: slab.cache,
            base: slab.base,
        };
        enter(history, thread, body);
    }
}
