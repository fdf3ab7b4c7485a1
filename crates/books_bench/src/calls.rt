//! As many calls as there may be, made by books, of buffers of 1 to 512 bytes, of which 64 live.

ghost use Rattle.script.specs.Plan.{plan_of};
ghost use Rattle.script.specs.Rules.{IsPlan};

use case_table::CLASS_COUNT;
use heap_accounts::{Asked, Freed, Grown, Tried};
use heap_books::Books;
use script::{MOST_CALLS_2, Script, read_script};
use slab_layer::Round;
use std::alloc::Global;
use umem_base::{NoMemory, Text, put_decimal};
use umem_options::{read_debug, read_logging};

/// How many buffers live.
const LIVE: u32 = 64;

/// The size of the buffer of that number.
fn size_of(number: u32) -> u64 {
    u64::from(number) * 16_807 % 2_147_483_647 % 512 + 1
}

/// Appends a call of the slot of a buffer, with its size.
fn put_call(text: &mut Text, op: &str, number: u32) -> Result<(), NoMemory> {
    text.push_slice(b"0 ")?;
    text.push_slice(op.as_bytes())?;
    text.push_slice(b" $")?;
    put_decimal(text, u64::from(number % LIVE), 0)?;
    text.push_slice(b" ")?;
    put_decimal(text, size_of(number), 0)?;
    text.push_slice(b"\n")
}

/// A script of version 2 with as many calls as there may be: each buffer is freed before the next one of its slot is
/// allocated.
fn calls_text(alloc: Global) -> Result<Text, NoMemory> {
    let mut text = Text::from_slice(alloc, b"umem 2 cpus 1 threads 1\nphase\n")?;
    for number in 0..LIVE {
        put_call(&mut text, "alloc", number)?;
    }
    for number in LIVE..(MOST_CALLS_2 + LIVE) / 2 {
        put_call(&mut text, "free", number - LIVE)?;
        put_call(&mut text, "alloc", number)?;
    }
    Ok(text)
}

/// No round for each size class.
fn no_rounds(alloc: Global) -> Result<Vec<Vec<Round>>, NoMemory> {
    let mut rounds = Vec::new(alloc);
    for _class in 0..CLASS_COUNT {
        rounds.push(Vec::new(alloc))?;
    }
    Ok(rounds)
}

/// Makes an allocation with the newest of these rounds, and else with a new slab, whose other rounds are kept.
fn hand_out(
    alloc: Global,
    books: &mut Books,
    rounds: &mut Vec<Round>,
    call: u32,
) -> Result<bool, NoMemory> {
    if let Some(round) = rounds.pop() {
        return Ok(matches!(books.commit_alloc(0, call, round), Tried::Made(_)));
    }
    let Grown::Made { fresh, .. } = books.commit_grow(alloc, 0, call)? else {
        return Ok(false);
    };
    for round in fresh.rounds.as_slice().iter().skip(1) {
        rounds.push(Round::new(round.chunk()))?;
    }
    Ok(true)
}

/// Makes a free, and keeps the round that comes back.
fn give_back(books: &mut Books, rounds: &mut [Vec<Round>], call: u32) -> Result<bool, NoMemory> {
    let Freed::Made {
        round: Some(round),
        ..
    } = books.commit_free(0, call)
    else {
        return Ok(false);
    };
    let cache = books.cache_of(round.chunk()).unwrap_or(0);
    if let Some(kept) = rounds.get_mut(cache as usize) {
        kept.push(round)?;
    }
    Ok(true)
}

/// Makes the call of that number, and tells whether it was made.
fn make_call(
    alloc: Global,
    books: &mut Books,
    rounds: &mut [Vec<Round>],
    call: u32,
) -> Result<bool, NoMemory> {
    match books.asked(0, call) {
        Some(Asked::Chunk { cache }) => match rounds.get_mut(cache as usize) {
            Some(kept) => hand_out(alloc, books, kept, call),
            None => Ok(false),
        },
        Some(Asked::Free) => give_back(books, rounds, call),
        _ => Ok(false),
    }
}

/// Makes all calls of the script, and counts those that were made.
fn make_calls(alloc: Global, script: &Script) -> Result<usize, NoMemory>
    requires { IsPlan (plan_of script.now) }
{
    let mut books = Books::start(alloc, script, &read_debug(b"default"), &read_logging(b""))?;
    let mut rounds = no_rounds(alloc)?;
    let mut made: usize = 0;
    for call in 0..MOST_CALLS_2 {
        if make_call(alloc, &mut books, &mut rounds, call)? {
            made = made.saturating_add(1);
        }
    }
    Ok(made)
}

/// Reads the script, and counts its phases.
pub fn read_calls(alloc: Global) -> Result<usize, NoMemory> {
    let text = calls_text(alloc)?;
    match read_script(alloc, text.as_slice()) {
        Ok(script) => Ok(script.phases.as_slice().len()),
        Err(_) => Ok(0),
    }
}

/// Reads the script and makes its calls so many times, and counts those of the last time that were made.
pub fn make_often(alloc: Global, times: u32) -> Result<usize, NoMemory> {
    let text = calls_text(alloc)?;
    let Ok(script) = read_script(alloc, text.as_slice()) else {
        return Ok(0);
    };
    let mut made = 0;
    for _time in 0..times {
        made = make_calls(alloc, &script)?;
    }
    Ok(made)
}
