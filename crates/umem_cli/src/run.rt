ghost use Rattle.std.specs.Prelude.{IfOk};
ghost use Rattle.umem_options.specs.Flags.{has_guards};
ghost use Rattle.umem_options.specs.Limits.{IsLogging, IsOptions};
ghost use Rattle.script.specs.Plan.{plan_of};
ghost use Rattle.script.specs.Rules.{IsPlan};
ghost use Rattle.plain_heap.specs.Texts.{HaveTheirCaches};
ghost use Rattle.heap_core.specs.Heap.{IsGiven};
ghost use Rattle.umem_cli.specs.Histories.{IsHistoryOf};

use heap_core::{Heap, run_alone};
use script::Script;
use std::alloc::Global;
use umem_base::NoMemory;
use umem_options::{Logging, Options};

/// Runs a script, and gives the heap that made its history.
pub fn run(
    alloc: Global,
    script: &Script,
    options: &Options,
    logging: &Logging,
) -> Result<Heap, NoMemory>
    requires plan { IsPlan (plan_of script.now) }
    requires options { IsOptions options.now }
    requires logging { IsLogging logging.now }
    ensures given { IfOk result (IsGiven (plan_of script.now) options.now logging.now) }
    ensures history { IfOk result (λ heap. IsHistoryOf (has_guards options.now) (plan_of script.now) heap.entries) }
    ensures caches { IfOk result (λ heap. HaveTheirCaches script.now.header.caches heap.entries) }
{
    let heap = run_alone(alloc, script, options, logging)?;
    Ok(heap)
}
