ghost use Rattle.std.specs.Prelude.{◌≡◌, ◌∷◌};
ghost use Rattle.umem_base.specs.Lines.{words_of};
ghost use Rattle.script.specs.Reading.{GivesHeader, ReadsVersion, SplitsHeader, are_fixed};

use crate::both::both;
use crate::declared::Declared;
use crate::draft::Draft;
use crate::fields::read_number;
use crate::line_fault::LineFault;
use crate::phases::Phases;
use crate::reasons::Reason;
use case_table::{MOST_CPUS, MOST_THREADS};
use std::alloc::Global;
use umem_base::split_word;

/// Reads the first line that is not skipped, of which the first word and what stands behind it are given.
pub(crate) fn read_header<'a>(
    alloc: Global,
    first: &[u8],
    rest: &[u8],
) -> Result<Draft<'a>, LineFault>
    ensures { GivesHeader result (first.now ∷ words_of rest.now) }
{
    let Some((version, cpus, threads)) = split_header(first, rest) else {
        return Err(LineFault::Refused(Reason::Header));
    };
    let cpus = read_number(cpus, 1, MOST_CPUS);
    let threads = read_number(threads, 1, MOST_THREADS);
    let (cpus, threads) = both(cpus, threads)?;
    Ok(Draft {
        version,
        cpus,
        threads,
        declared: Declared::new(alloc),
        phases: Phases::new(alloc),
    })
}

// The version, and the words of the CPUs and of the threads, where each other word stands in its place.
fn split_header<'a>(first: &[u8], rest: &'a [u8]) -> Option<(u32, &'a [u8], &'a [u8])>
    ensures { SplitsHeader result (first.now ∷ words_of rest.now) }
{
    let Some((version, rest)) = split_word(rest) else {
        return None;
    };
    let Some((cpus, rest)) = split_word(rest) else {
        return None;
    };
    let Some((count, rest)) = split_word(rest) else {
        return None;
    };
    let Some((threads, rest)) = split_word(rest) else {
        return None;
    };
    let Some((last, rest)) = split_word(rest) else {
        return None;
    };
    if split_word(rest).is_some() || !are_fixed(first, cpus, threads) {
        return None;
    }
    match version_of(version) {
        Some(version) => Some((version, count, last)),
        None => None,
    }
}

fn are_fixed(umem: &[u8], cpus: &[u8], threads: &[u8]) -> bool
    ensures { result ≡ are_fixed umem.now cpus.now threads.now }
{
    umem == b"umem".as_slice() && (cpus == b"cpus".as_slice() && threads == b"threads".as_slice())
}

fn version_of(word: &[u8]) -> Option<u32>
    ensures { ReadsVersion result word.now }
{
    if word == b"1".as_slice() {
        return Some(1);
    }
    if word == b"2".as_slice() {
        return Some(2);
    }
    None
}
