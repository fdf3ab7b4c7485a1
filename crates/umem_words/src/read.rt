ghost use Rattle.std.specs.Prelude.{◌≡◌, IfOk, IfSome, map, string_bytes};
ghost use Rattle.umem_words.specs.Jobs.{job_of};
ghost use Rattle.umem_words.specs.Limits.{IsJob};

use crate::command::read_told;
use crate::job::Job;
use crate::modes::job_told;
use std::alloc::Global;
use umem_base::NoMemory;

/// The job that the words of a command line ask for, without the program's name, or `None` where they are no
/// command. They are read as `clap` reads one simple command: a mode, a file, and the options `--core`, `--debug`,
/// `--logging`, `--seed` and `--ops`, each with one value and at most once. It is refused where memory is short
/// alone.
pub fn read_words(alloc: Global, words: &[String]) -> Result<Option<Job>, NoMemory>
    ensures job { IfOk result (λ job. job ≡ job_of (map string_bytes words.now)) }
    ensures limits { IfOk result (λ job. IfSome job IsJob) }
{
    match read_told(alloc, words)? {
        None => Ok(None),
        Some(told) => job_told(alloc, &told),
    }
}
