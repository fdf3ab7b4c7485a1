ghost use Rattle.std.specs.Prelude.{◌≡◌, IfOk};
ghost use Rattle.umem_words.specs.Jobs.{job_named, job_told, make_told, mdb_told, run_told};
ghost use Rattle.umem_words.specs.Texts.{told_texts};

use crate::job::Job;
use crate::make_job::MakeJob;
use crate::mdb_job::MdbJob;
use crate::run_job::RunJob;
use crate::told::Told;
use crate::values::{logging_given, ops_given, options_given, seed_given, text_given, text_of};
use std::alloc::Global;
use umem_base::NoMemory;

/// The job that is asked for, or `None` where what was given is none.
pub fn job_told(alloc: Global, told: &Told) -> Result<Option<Job>, NoMemory>
    ensures { IfOk result (λ job. job ≡ job_told (told_texts told.now)) }
{
    match told.mode {
        None => Ok(None),
        Some(mode) => job_named(alloc, mode, told),
    }
}

fn job_named(alloc: Global, mode: &str, told: &Told) -> Result<Option<Job>, NoMemory>
    ensures { IfOk result (λ job. job ≡ job_named mode.now (told_texts told.now)) }
{
    if mode == "run" {
        run_told(alloc, told)
    } else if mode == "mdb" {
        mdb_told(alloc, told)
    } else if mode == "make" {
        Ok(make_told(told))
    } else {
        Ok(None)
    }
}

// A run wants a file, and has neither seed nor operations.
fn run_told(alloc: Global, told: &Told) -> Result<Option<Job>, NoMemory>
    ensures { IfOk result (λ job. job ≡ run_told (told_texts told.now)) }
{
    if told.seed.is_some() || told.ops.is_some() {
        return Ok(None);
    }
    let Some(script) = told.file else {
        return Ok(None);
    };
    Ok(Some(Job::Run(RunJob {
        script: text_of(alloc, script)?,
        core: text_given(alloc, told.core)?,
        options: options_given(told.debug),
        logging: logging_given(told.logging),
    })))
}

// Questions want a file, and have no option.
fn mdb_told(alloc: Global, told: &Told) -> Result<Option<Job>, NoMemory>
    ensures { IfOk result (λ job. job ≡ mdb_told (told_texts told.now)) }
{
    if told.core.is_some() || told.debug.is_some() || told.logging.is_some() {
        return Ok(None);
    }
    if told.seed.is_some() || told.ops.is_some() {
        return Ok(None);
    }
    let Some(core) = told.file else {
        return Ok(None);
    };
    Ok(Some(Job::Mdb(MdbJob {
        core: text_of(alloc, core)?,
    })))
}

// A script is made of a seed and a number of operations, and there is neither a file nor a core.
fn make_told(told: &Told) -> Option<Job>
    ensures { result ≡ make_told (told_texts told.now) }
{
    if told.file.is_some() || told.core.is_some() {
        return None;
    }
    let seed = seed_given(told.seed)?;
    let ops = ops_given(told.ops)?;
    Some(Job::Make(MakeJob {
        seed,
        ops,
        options: options_given(told.debug),
        logging: logging_given(told.logging),
    }))
}
