ghost use Rattle.std.specs.Prelude.{IfOk};
ghost use Rattle.script.specs.Plan.{plan_of};
ghost use Rattle.script.specs.Rules.{IsPlan};
ghost use Rattle.plain_heap.specs.Answers.{Answers};
ghost use Rattle.umem_options.specs.Flags.{has_guards};
ghost use Rattle.umem_options.specs.Limits.{IsLogging, IsOptions};
ghost use Rattle.heap_ledger.specs.Ledger.{run_setting};
ghost use Rattle.heap_accounts.specs.Placed.{IsPlaced};
ghost use Rattle.heap_core.specs.Heap.{IsGiven};

use crate::heap::Heap;
use script::Script;
use std::alloc::Global;
use umem_base::NoMemory;
use umem_options::{Logging, Options};

/// Runs a script by one owner, phase by phase and in a phase thread by thread, and gives the heap at its end. It
/// refuses for want of memory alone.
pub fn run_alone(
    alloc: Global,
    script: &Script,
    options: &Options,
    logging: &Logging,
) -> Result<Heap, NoMemory>
    requires plan { IsPlan (plan_of script.now) }
    requires options { IsOptions options.now }
    requires logging { IsLogging logging.now }
    ensures given { IfOk result (IsGiven (plan_of script.now) options.now logging.now) }
    ensures answers { IfOk result (λ heap. Answers (has_guards options.now) (plan_of script.now) heap.entries) }
    ensures placed { IfOk result (λ heap. IsPlaced (run_setting heap) heap.entries) }
{
    let mut heap = Heap::start(alloc, script, options, logging)?;
    heap.finish(alloc)?;
    // Says that its entries are legal and placed.
    let _ = heap.history();
    Ok(heap)
}
