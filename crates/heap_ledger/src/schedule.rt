ghost use Rattle.std.specs.Prelude.{◌≡◌, ◌+◌, ◌^◌, ◌<◌, Some, IfOk, IsSome, option_map, slice_index, length};
ghost use Rattle.script.specs.Plan.{plan_of};
ghost use Rattle.heap_ledger.specs.Schedule.{after_take, due_in, first_left, first_schedule, settled};

use crate::phase_calls::PhaseCalls;
use crate::ready::Ready;
use script::Script;
use std::alloc::Global;
use std::marker::Model;
use umem_base::NoMemory;

/// The calls of a script that are left, and how many each thread made. The phase that runs has a call left, or no
/// later one has.
#[derive(Debug, Drop)]
pub struct Schedule {
    made: Vec<u32>,
    phase: PhaseCalls,
    /// The last one first.
    later: Vec<PhaseCalls>,
}

impl Model for Schedule {
    ghost use Rattle.std.specs.Prelude.{reverse};
    ghost use Rattle.heap_ledger.specs.Schedule.{Schedule};

    ghost Value = { Schedule };

    ghost view = { λ s. record { made = s.made.items; phase = s.phase; later = reverse s.later.items } };
}

impl Schedule {
    /// No call was made. It takes the memory of all calls.
    pub fn start(alloc: Global, script: &Script) -> Result<Schedule, NoMemory>
        ensures { IfOk result (λ schedule. schedule ≡ first_schedule (plan_of script.now)) }
    {
        let threads = script.header.threads;
        let mut made = Vec::new(alloc);
        for _thread in 0..threads {
            made.push(0)?;
        }
        let phases = script.phases.as_slice();
        let mut later = Vec::new(alloc);
        for phase in phases {
            later.push(PhaseCalls::of_phase(alloc, phase, threads)?)?;
        }
        later.reverse();
        let mut schedule = Schedule {
            made,
            phase: PhaseCalls::none(alloc),
            later,
        };
        schedule.settle();
        Ok(schedule)
    }

    /// How many calls a thread made.
    pub fn made_by(&self, thread: u32) -> u32
        ensures { result ≡ slice_index self.now.made thread }
    {
        self.made.get(thread as usize).copied().unwrap_or(0)
    }

    /// The call that a thread makes next, if it has one in the phase that runs.
    pub fn next(&self, thread: u32) -> Option<&Ready>
        ensures { option_map (λ ready. ready.now) result ≡ first_left self.now.phase thread }
    {
        self.phase.first(thread)
    }

    /// The call of a thread of that number, if it is its next one.
    pub fn due(&self, thread: u32, call: u32) -> Option<&Ready>
        ensures { option_map (λ ready. ready.now) result ≡ due_in self.now thread call }
    {
        let made = self.made.get(thread as usize)?;
        if *made != call {
            return None;
        }
        self.phase.first(thread)
    }

    /// Takes the next call of a thread. It takes no memory.
    pub fn take(&mut self, thread: u32) -> Ready
        requires left { IsSome (first_left self.old.phase thread) }
        requires known { thread < length self.old.made }
        requires few { slice_index self.old.made thread + 1 < 2 ^ 32 }
        ensures call { first_left self.old.phase thread ≡ Some result }
        ensures rest { self.new ≡ after_take self.old thread }
    {
        self.made[thread as usize] += 1;
        let call = self.phase.pop(thread);
        self.settle();
        call
    }

    /// Lets the next phase that has a call run, once the one that runs has none left.
    #[tactic(auto, using(crate::proofs::ScheduleLemmas::settled_stays))]
    fn settle(&mut self)
        ensures { self.new ≡ settled self.old.made self.old.phase self.old.later }
    {
        while self.phase.is_empty() {
            let Some(next) = self.later.pop() else {
                return;
            };
            self.phase = next;
        }
    }
}
