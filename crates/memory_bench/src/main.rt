//! What the benches time: words stored and loaded over many runs, large runs mapped and unmapped, spans taken
//! and given back, and rounds put into many slabs and taken again.
#![tactic(auto)]

use addr_space::Space;
use slab_layer::{Round, Slabs, rounds_from};
use span_arena::Arena;
use std::alloc::Global;
use std::{env, io};
use umem_base::{ARENA_BASE, NoMemory, PAGE_BYTES};

const RUNS: u64 = 1024;

const WORDS: u64 = 1_000_000;

/// How often a run of `RUNS` pages is mapped by the word `maps`, and by `few_maps`.
const MAPS: u64 = 32_768;

const FEW_MAPS: u64 = 256;

const SPANS: u64 = 100_000;

const SLABS: u32 = 1024;

/// The rounds of each slab.
const ROUNDS: u32 = 512;

const MOVES: u64 = 1_000_000;

fn main(rt: HostRuntime) -> io::Result<()> {
    for word in env::args(&rt)?.skip(1) {
        let done = match word.as_str() {
            "space" => store_and_load(rt.alloc()),
            "maps" => map_and_unmap(rt.alloc(), MAPS),
            "few_maps" => map_and_unmap(rt.alloc(), FEW_MAPS),
            "arena" => take_and_give_back(rt.alloc()),
            "slabs" => put_and_take(rt.alloc()).unwrap_or(0),
            _ => 0,
        };
        println!(rt; "{word} {done}")?;
    }
    Ok(())
}

/// Stores and loads words in every second page, and counts those that were loaded as they were stored.
fn store_and_load(alloc: Global) -> u64 {
    let mut space = Space::new(alloc);
    for run in 0..RUNS {
        if space.map(2 * PAGE_BYTES * run, 1).is_err() {
            return 0;
        }
    }
    let mut right = 0;
    for word in 0..WORDS {
        let at = 2 * PAGE_BYTES * (word % RUNS) + 8 * (word % 512);
        if space.store_word(at, word).is_ok() && space.load_word(at) == Ok(word) {
            right += 1;
        }
    }
    right
}

/// Maps a run of pages and takes it away again, so many times, and counts the runs that began with a zero.
fn map_and_unmap(alloc: Global, times: u64) -> u64 {
    let mut space = Space::new(alloc);
    let mut right = 0;
    for _time in 0..times {
        let Ok(()) = space.map(ARENA_BASE, RUNS) else {
            return right;
        };
        if space.load_word(ARENA_BASE) == Ok(0) {
            right += 1;
        }
        space.unmap(ARENA_BASE, RUNS);
    }
    right
}

/// Gives spans of a full arena back and takes them again, and counts those that came back at their place.
fn take_and_give_back(alloc: Global) -> u64 {
    let mut arena = Arena::new(alloc, 0, RUNS);
    for _ in 0..RUNS {
        if arena.take(1).is_err() {
            return 0;
        }
    }
    let mut right = 0;
    for span in 0..SPANS {
        let base = PAGE_BYTES * (span % RUNS);
        if arena.give_back(base).is_ok() && arena.take(1) == Ok(Some(base)) {
            right += 1;
        }
    }
    right
}

/// Slabs whose rounds are all in their lists.
fn full_slabs(alloc: Global) -> Result<Slabs, NoMemory> {
    let mut slabs = Slabs::new(alloc, 0);
    for slab in 0..SLABS {
        slabs.make_room(ROUNDS)?;
        let rounds = rounds_from(alloc, slab * ROUNDS, ROUNDS)?;
        slabs.add_slab(PAGE_BYTES * u64::from(slab), rounds);
    }
    Ok(slabs)
}

/// Puts a round that was drawn from those taken, and takes the lowest one, in turn, with half of the rounds
/// taken at the start. Counts what was done.
fn put_and_take(alloc: Global) -> Result<u64, NoMemory> {
    let mut slabs = full_slabs(alloc)?;
    let mut held: Vec<Round> = Vec::new(alloc);
    for _ in 0..SLABS * ROUNDS / 2 {
        if let Some(round) = slabs.take() {
            held.push(round)?;
        }
    }
    let mut draw = 1u64;
    let mut right = 0;
    for step in 0..MOVES {
        draw = draw
            .wrapping_mul(6_364_136_223_846_793_005)
            .wrapping_add(1_442_695_040_888_963_407);
        let number = (draw / 4_294_967_296) as usize;
        if step % 2 == 0 && !held.is_empty() {
            let round = held.swap_remove(number % held.len());
            if slabs.put(round).is_ok() {
                right += 1;
            }
        } else if let Some(round) = slabs.take() {
            held.push(round)?;
            right += 1;
        }
    }
    Ok(right)
}
