ghost use Rattle.std.specs.Prelude.{◌≡◌, IfOk};
ghost use Rattle.umem_options.specs.Limits.{IsLogging, IsOptions};
ghost use Rattle.script.specs.Rules.{IsPlan};
ghost use Rattle.script.specs.Plan.{plan_of};
ghost use Rattle.umem_cli.specs.Cores.{IsCoreAsked};
ghost use Rattle.umem_cli.specs.Histories.{MakesPrinted};
ghost use Rattle.umem_cli.specs.Outcomes.{GivesPrinted, MakesPrintedIn};
ghost use Rattle.umem_cli.specs.Streams.{outputs, streams};
ghost use Rattle.umem_cli.specs.Transcripts.{GivenByRun, KeepsOtherFiles, KeepsWriteFaults};
ghost use Rattle.umem_cli.specs.World.{without_input};

use crate::job::Job;
use crate::printed::{CoreFile, Printed};
use crate::refusal::Refusal;
use crate::report::refuse;
use crate::run::run;
use crate::status::Status;
use core_format::write_core;
use core_sizes::laws::cores_of_runs_are_read;
use heap_core::Heap;
use plain_heap::transcript;
use script::{MOST_BYTES, Script, read_script};
use std::alloc::Global;
use std::sync::Wait;
use std::thread::Threads;
use umem_base::{Folder, Gate, NoMemory, Sink, Text, read_file, write_file, write_whole};

/// Makes the calls of the script in a file, and writes their transcript on `out`, all of it or, where that fails, a
/// front; and then a core of the run, where the job names a file for it. The core is made before anything is written. A
/// transcript that fails leaves that file as it was. Where no call is made, `err` gets one line that says why.
pub fn run_script<R: Threads + Wait + Sync, O: Sink, E: Sink, F: Folder, G: Gate + Sync>(
    _rt: &R,
    alloc: Global,
    job: &Job,
    out: &mut O,
    err: &mut E,
    files: &mut F,
    _gate: &G,
) -> Status
    requires options { IsOptions job.now.options }
    requires logging { IsLogging job.now.logging }
    ensures given { GivenByRun job.now
        (without_input (F.files files.old) (F.read_faults files.old) (F.write_faults files.old)
        (streams (O.taken out.old) (O.faults out.old) (E.taken err.old) (E.faults err.old)))
        (without_input (F.files files.new) (F.read_faults files.new) (F.write_faults files.new)
        (streams (O.taken out.new) (O.faults out.new) (E.taken err.new) (E.faults err.new)))
        result }
    ensures files { KeepsOtherFiles job.now.core (F.files files.old) (F.files files.new) }
    ensures write_faults { KeepsWriteFaults job.now.core (F.write_faults files.old) (F.write_faults files.new) }
{
    let printed = match printed_in(alloc, job, files) {
        Ok(printed) => printed,
        Err(why) => return refuse(err, &job.file, why),
    };
    give_out(&printed, out, err, files)
}

/// What a run of the script in a file gives out.
fn printed_in<F: Folder>(alloc: Global, job: &Job, files: &mut F) -> Result<Printed, Refusal>
    requires options { IsOptions job.now.options }
    requires logging { IsLogging job.now.logging }
    ensures outcome { MakesPrintedIn job.now (F.files files.old)
        (F.read_faults files.old) (F.read_faults files.new) result }
    ensures files { F.files files.new ≡ F.files files.old }
    ensures write_faults { F.write_faults files.new ≡ F.write_faults files.old }
{
    let bytes = read_file(alloc, files, &job.file, MOST_BYTES)?;
    let script = read_script(alloc, &bytes)?;
    printed_of(alloc, &script, job)
}

/// Runs a script, and gives its transcript, and a core where one is asked for.
fn printed_of(alloc: Global, script: &Script, job: &Job) -> Result<Printed, Refusal>
    requires plan { IsPlan (plan_of script.now) }
    requires options { IsOptions job.now.options }
    requires logging { IsLogging job.now.logging }
    ensures { MakesPrinted job.now (plan_of script.now) result }
{
    let heap = run(alloc, script, &job.options, &job.logging)?;
    let guards = job.options.has_guards();
    let transcript = transcript(alloc, &script.header, guards, heap.history())?;
    let core = core_asked(alloc, &heap, &job.core)?;
    Ok(Printed { transcript, core })
}

/// The core of a heap, for the file of that name, where one is given.
fn core_asked(alloc: Global, heap: &Heap, name: &Option<Text>) -> Result<Option<CoreFile>, NoMemory>
    ensures { IfOk result (IsCoreAsked heap.now name.now) }
{
    let Some(name) = name else {
        return Ok(None);
    };
    // Says that options and sizes are within their limits, so that the core is no longer than what is read.
    let _ = heap.history();
    cores_of_runs_are_read();
    let core = heap.snapshot(alloc)?;
    Ok(Some(CoreFile {
        name: name.clone()?,
        bytes: write_core(alloc, &core)?,
    }))
}

/// Writes the transcript on the output, and then the core, if there is one, to its file.
fn give_out<O: Sink, E: Sink, F: Folder>(
    printed: &Printed,
    out: &mut O,
    err: &E,
    files: &mut F,
) -> Status
    ensures given { GivesPrinted printed.now
        (outputs (streams (O.taken out.old) (O.faults out.old) (E.taken err.now) (E.faults err.now))
        (record { files = F.files files.old; faults = F.write_faults files.old }))
        (outputs (streams (O.taken out.new) (O.faults out.new) (E.taken err.now) (E.faults err.now))
        (record { files = F.files files.new; faults = F.write_faults files.new })) result }
    ensures read_faults { F.read_faults files.new ≡ F.read_faults files.old }
{
    if write_whole(out, printed.transcript.as_slice()).is_err() {
        return Status::WriteFault;
    }
    let Some(core) = &printed.core else {
        return Status::Done;
    };
    match write_file(files, &core.name, &core.bytes) {
        Ok(()) => Status::Done,
        Err(_) => Status::WriteFault,
    }
}
