ghost use Rattle.std.specs.Prelude.{map};
ghost use Rattle.std.specs.String.{string_bytes};
ghost use Rattle.umem_cli.specs.Asked.{task_of};
ghost use Rattle.umem_cli.specs.Promise.{GivenOut, IsWhole, core_file};
ghost use Rattle.umem_cli.specs.Streams.{streams};
ghost use Rattle.umem_cli.specs.Transcripts.{KeepsOtherFiles, KeepsWriteFaults};
ghost use Rattle.umem_cli.specs.World.{world};

use crate::job::Job;
use crate::make::make;
use crate::report::refuse_words;
use crate::script_run::run_script;
use crate::session::diagnose;
use crate::status::Status;
use std::alloc::Global;
use std::sync::Wait;
use std::thread::Threads;
use umem_base::{Folder, Gate, NoMemory, Sink, Source};
use umem_words::{Job as Asked, read_words};

/// Does what the words ask for; they come without the program's name. Words that are no command get the
/// usage lines on `err`.
pub fn umem<R: Threads + Wait + Sync, S: Source, O: Sink, E: Sink, F: Folder, G: Gate + Sync>(
    rt: &R,
    alloc: Global,
    words: &[String],
    input: &mut S,
    out: &mut O,
    err: &mut E,
    files: &mut F,
    gate: &G,
) -> Status
    ensures given { GivenOut (map string_bytes words.now)
        (world (F.files files.old) (F.read_faults files.old) (F.write_faults files.old)
        (S.left input.old) (S.faults input.old)
        (streams (O.taken out.old) (O.faults out.old) (E.taken err.old) (E.faults err.old)))
        (world (F.files files.new) (F.read_faults files.new) (F.write_faults files.new)
        (S.left input.new) (S.faults input.new)
        (streams (O.taken out.new) (O.faults out.new) (E.taken err.new) (E.faults err.new)))
        result }
    ensures whole { IsWhole (map string_bytes words.now)
        (world (F.files files.old) (F.read_faults files.old) (F.write_faults files.old)
        (S.left input.old) (S.faults input.old)
        (streams (O.taken out.old) (O.faults out.old) (E.taken err.old) (E.faults err.old)))
        (world (F.files files.new) (F.read_faults files.new) (F.write_faults files.new)
        (S.left input.new) (S.faults input.new)
        (streams (O.taken out.new) (O.faults out.new) (E.taken err.new) (E.faults err.new)))
        result }
    ensures files { KeepsOtherFiles (core_file (task_of (map string_bytes words.now)))
        (F.files files.old) (F.files files.new) }
    ensures write_faults { KeepsWriteFaults (core_file (task_of (map string_bytes words.now)))
        (F.write_faults files.old) (F.write_faults files.new) }
{
    let asked = match read_words(alloc, words) {
        Ok(asked) => asked,
        Err(NoMemory) => return Status::NoMemory,
    };
    let Some(asked) = asked else {
        return refuse_words(err);
    };
    match asked {
        Asked::Run(job) => {
            let job = Job {
                file: job.script,
                core: job.core,
                options: job.options,
                logging: job.logging,
            };
            run_script(rt, alloc, &job, out, err, files, gate)
        }
        Asked::Mdb(job) => diagnose(alloc, &job.core, input, out, err, files),
        Asked::Make(job) => make(alloc, &job, out),
    }
}
