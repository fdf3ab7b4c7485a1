ghost use Rattle.std.specs.Prelude.{◌≡◌, ◌∷◌, [], ◌↔◌, ◌==◌, IfOk, IsTrue, MatchOption, filter, length, option_map};
ghost use Rattle.std.specs.List.{slice_get};
ghost use Rattle.script.specs.Plan.{turn_of, turns_of};
ghost use Rattle.plain_heap.specs.Calls.{calls_of};

use crate::ready::Ready;
use script::Phase;
use std::alloc::Global;
use std::marker::Model;
use umem_base::NoMemory;

/// The calls that a thread has left in a phase. Contracts see them in their order.
#[derive(Debug, Drop)]
pub struct Queue {
    /// The last one first.
    calls: Vec<Ready>,
}

impl Model for Queue {
    ghost use Rattle.std.specs.Prelude.{List, reverse};
    ghost use Rattle.script.specs.Plan.{Call};

    ghost Value = { List Call };

    ghost view = { λ q. reverse q.calls.items };
}

impl Queue {
    /// The calls of a thread in a phase.
    pub fn of_thread(alloc: Global, phase: &Phase, thread: u32) -> Result<Queue, NoMemory>
        ensures { IfOk result (λ queue. queue ≡ calls_of thread (turns_of phase.now)) }
    {
        let steps = phase.as_slice();
        let mut calls = Vec::new(alloc);
        for step in steps {
            if step.thread == thread {
                calls.push(Ready::of_step(alloc, step)?)?;
            }
        }
        calls.reverse();
        Ok(Queue { calls })
    }

    pub fn is_empty(&self) -> bool
        ensures { result ≡ (length self.now == 0) }
    {
        self.calls.is_empty()
    }

    /// The first call.
    pub fn first(&self) -> Option<&Ready>
        ensures { option_map (λ ready. ready.now) result ≡ slice_get self.now 0 }
    {
        self.calls.last()
    }

    /// Takes the first call. It takes no memory.
    pub fn pop(&mut self) -> Option<Ready>
        ensures { MatchOption result ((self.old ≡ []) × (self.new ≡ self.old))
            (λ ready. self.old ≡ ready ∷ self.new) }
    {
        self.calls.pop()
    }
}
