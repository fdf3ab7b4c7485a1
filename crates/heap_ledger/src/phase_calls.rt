ghost use Rattle.std.specs.Prelude.{◌≡◌, [], Some, IfOk, IsSome, option_map};
ghost use Rattle.script.specs.Plan.{turns_of};
ghost use Rattle.heap_ledger.specs.Schedule.{are_all_empty, by_thread, first_left, without_first};

use crate::queue::Queue;
use crate::ready::Ready;
use script::Phase;
use std::alloc::Global;
use std::marker::Model;
use umem_base::NoMemory;

/// The calls that are left of a phase. Contracts see those of each thread, by its number.
#[derive(Debug, Drop)]
pub struct PhaseCalls {
    threads: Vec<Queue>,
}

impl Model for PhaseCalls {
    ghost use Rattle.std.specs.Prelude.{List};
    ghost use Rattle.script.specs.Plan.{Call};

    ghost Value = { List (List Call) };

    ghost view = { λ p. p.threads.items };
}

impl PhaseCalls {
    /// No thread has a call. It takes no memory.
    pub fn none(alloc: Global) -> PhaseCalls
        ensures { result ≡ [] }
    {
        PhaseCalls {
            threads: Vec::new(alloc),
        }
    }

    /// The calls of a phase, of so many threads.
    #[tactic(auto, using(crate::proofs::ScheduleLemmas::by_thread_more))]
    pub fn of_phase(alloc: Global, phase: &Phase, threads: u32) -> Result<PhaseCalls, NoMemory>
        ensures { IfOk result (λ calls. calls ≡ by_thread threads (turns_of phase.now)) }
    {
        let mut queues = Vec::new(alloc);
        for thread in 0..threads {
            queues.push(Queue::of_thread(alloc, phase, thread)?)?;
        }
        Ok(PhaseCalls { threads: queues })
    }

    /// No thread has a call left.
    pub fn is_empty(&self) -> bool
        ensures { result ≡ are_all_empty self.now }
    {
        self.threads.iter().all(|queue| queue.is_empty())
    }

    /// The first call that a thread has left.
    pub fn first(&self, thread: u32) -> Option<&Ready>
        ensures { option_map (λ ready. ready.now) result ≡ first_left self.now thread }
    {
        let queue = self.threads.get(thread as usize)?;
        queue.first()
    }

    /// Takes the first call of a thread. It takes no memory.
    pub fn pop(&mut self, thread: u32) -> Ready
        requires { IsSome (first_left self.old thread) }
        ensures call { first_left self.old thread ≡ Some result }
        ensures rest { self.new ≡ without_first self.old thread }
    {
        let queue = &mut self.threads[thread as usize];
        queue.pop().unwrap()
    }
}
