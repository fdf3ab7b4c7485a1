//! One call of the command over objects in memory.

use crate::{command_words, umem};
use std::alloc::{AllocError, Global};
use std::sync::Wait;
use std::test::Fail;
use std::thread::Threads;
use umem_base::{MemFolder, MemSink, MemSource, NoGate, NoMemory, Text};

/// No call has this number.
pub const NEVER: u64 = u64::MAX;

// The most that one write takes, so that a transcript takes several.
const PIECE: usize = 16;

const ROOM: usize = 1000;

/// What a call finds: a file of a name, and the bytes of the input.
#[derive(Clone, Copy)]
pub struct Outside<'a> {
    pub name: &'a [u8],
    pub file: &'a [u8],
    pub input: &'a [u8],
}

/// The numbers of the calls that fail: of the folder, of the input, of the output, and of the error stream.
#[derive(Clone, Copy)]
pub struct Failing {
    pub files: u64,
    pub input: u64,
    pub out: u64,
    pub err: u64,
}

pub const NOTHING: Failing = Failing {
    files: NEVER,
    input: NEVER,
    out: NEVER,
    err: NEVER,
};

/// The number that a call ended with, and what the streams took.
#[derive(Drop)]
pub struct Outcome {
    pub number: u8,
    pub out: MemSink,
    pub err: MemSink,
}

/// Calls the command with these words, over a folder that holds the script under `first.umem`.
pub fn call<R: Threads + Wait + Sync>(
    rt: &R,
    alloc: Global,
    words: &[&[u8]],
    script: &[u8],
    failing: Failing,
) -> Result<Outcome, Fail> {
    call_with(rt, alloc, Ok(texts(alloc, words)?), script, failing)
}

/// The words as a system gives them.
pub fn texts(alloc: Global, words: &[&[u8]]) -> Result<Vec<Text>, NoMemory> {
    let mut given = Vec::new(alloc);
    for word in words {
        given.push(Text::from_slice(alloc, word)?)?;
    }
    Ok(given)
}

/// Calls the command with words that were taken from the system, or were not.
pub fn call_with<R: Threads + Wait + Sync>(
    rt: &R,
    alloc: Global,
    words: Result<Vec<Text>, NoMemory>,
    script: &[u8],
    failing: Failing,
) -> Result<Outcome, Fail> {
    let outside = Outside {
        name: b"first.umem",
        file: script,
        input: b"",
    };
    call_over(rt, alloc, words, outside, failing)
}

/// Answers commands over a core, which stands in the file `core`.
pub fn call_mdb<R: Threads + Wait + Sync>(
    rt: &R,
    alloc: Global,
    core: &[u8],
    commands: &[u8],
    failing: Failing,
) -> Result<Outcome, Fail> {
    let outside = Outside {
        name: b"core",
        file: core,
        input: commands,
    };
    let words = texts(alloc, &[b"mdb".as_slice(), b"core"])?;
    call_over(rt, alloc, Ok(words), outside, failing)
}

fn call_over<R: Threads + Wait + Sync>(
    rt: &R,
    alloc: Global,
    words: Result<Vec<Text>, NoMemory>,
    outside: Outside,
    failing: Failing,
) -> Result<Outcome, Fail> {
    let mut files = MemFolder::new(alloc, vec![in alloc; failing.files]?);
    files.put(&Text::from_slice(alloc, outside.name)?, outside.file, 0)?;
    let commands = Vec::from_slice(alloc, outside.input)?;
    let mut input = MemSource::new(commands, vec![in alloc; failing.input]?);
    let mut out = MemSink::new(alloc, PIECE, ROOM, vec![in alloc; failing.out]?)?;
    let mut err = MemSink::new(alloc, PIECE, ROOM, vec![in alloc; failing.err]?)?;
    let status = match command_words(alloc, words, &mut err) {
        Ok(words) => umem(
            rt, alloc, &words, &mut input, &mut out, &mut err, &mut files, &NoGate,
        ),
        Err(status) => status,
    };
    let number = status.code();
    Ok(Outcome { number, out, err })
}
