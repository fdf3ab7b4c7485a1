ghost use Rattle.std.specs.Prelude.{◌≤◌, IfOk};
ghost use Rattle.umem_options.specs.Flags.{has_guards};
ghost use Rattle.umem_options.specs.Limits.{IsLogging, IsOptions};
ghost use Rattle.script.specs.declared.limits.TheConstants.{MOST_CALLS_1};
ghost use Rattle.umem_cli.specs.Made.{IsMade};
ghost use Rattle.umem_cli.specs.Outcomes.{GivesMade};
ghost use Rattle.umem_cli.specs.Streams.{stream};

use crate::report::print;
use crate::run::run;
use crate::status::Status;
use heap_summary::{put_summary, summary_of};
use script::laws::plans_have_their_caches;
use script::{make_script, script_text};
use std::alloc::Global;
use umem_base::{NoMemory, Sink, Text};
use umem_words::MakeJob;

/// Draws a script, runs it, and writes its text and a line of what the run did, as one piece.
pub fn make<O: Sink>(alloc: Global, job: &MakeJob, out: &mut O) -> Status
    requires ops { job.now.ops ≤ MOST_CALLS_1 }
    requires options { IsOptions job.now.options }
    requires logging { IsLogging job.now.logging }
    ensures { GivesMade (has_guards job.now.options) job.now.seed job.now.ops
        (stream (O.taken out.old) (O.faults out.old)) (stream (O.taken out.new) (O.faults out.new)) result }
{
    match made_text(alloc, job) {
        Ok(text) => print(out, &text),
        Err(NoMemory) => Status::NoMemory,
    }
}

/// The text of a drawn script, and behind it the line of what its run did.
fn made_text(alloc: Global, job: &MakeJob) -> Result<Text, NoMemory>
    requires ops { job.now.ops ≤ MOST_CALLS_1 }
    requires options { IsOptions job.now.options }
    requires logging { IsLogging job.now.logging }
    ensures { IfOk result (λ text. IsMade (has_guards job.now.options) job.now.seed job.now.ops text) }
{
    // A law that says that its text can be written.
    plans_have_their_caches();
    let script = make_script(alloc, job.seed, job.ops)?;
    let heap = run(alloc, &script, &job.options, &job.logging)?;
    let mut text = script_text(alloc, &script)?;
    put_summary(&mut text, &summary_of(&script.header, heap.history()))?;
    Ok(text)
}
