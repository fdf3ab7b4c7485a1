ghost use Rattle.std.specs.Prelude.{◌≡◌, None, IfOk, OnErr};
ghost use Rattle.heap_ledger.specs.Ledger.{run_setting};
ghost use Rattle.shelf.specs.Steps.{taken_from};
ghost use Rattle.heap_accounts.specs.Places.{cpu_of};
ghost use Rattle.heap_accounts.specs.Turns.{HasNoRunFor};
ghost use Rattle.heap_core.specs.ChunkCalls.{CanHandRound, GivesChunk, GivesNothing, GivesRound, HasNothing, IsChunkDue, IsAskedOf};
ghost use Rattle.heap_core.specs.Heap.{IsHeap};
ghost use Rattle.heap_core.specs.Performs.{PerformsTurn};

use crate::shelves::cpu_of;
use heap_accounts::{Fresh, Grown, Last, Tried, Turn};
use heap_books::Books;
use shelf::Shelf;
use slab_layer::Round;
use std::alloc::Global;
use umem_base::NoMemory;

/// The most rounds of a slab.
const MOST_ROUNDS: u32 = 512;

/// Performs an allocation of a thread from a cache. All memory is taken before the entries are made.
pub fn perform_chunk(
    alloc: Global,
    books: &mut Books,
    shelves: &mut [Shelf],
    thread: u32,
    call: u32,
    cache: u32,
) -> Result<Turn, NoMemory>
    requires heap { IsHeap books.old shelves.old }
    requires due { IsChunkDue books.old thread call cache }
    ensures ok { IfOk result (PerformsTurn books.old books.new thread call) }
    ensures err { OnErr result (books.new ≡ books.old) }
    ensures heap { IsHeap books.new shelves.new }
{
    let turn = perform_on(alloc, books, &mut shelves[cache as usize], thread, call)?;
    // Says that the chunks have numbers of 32 bits still.
    let _ = books.history();
    Ok(turn)
}

/// Performs it over the shelf of the cache: with a round within reach of the thread's CPU, else anyhow.
fn perform_on(
    alloc: Global,
    books: &mut Books,
    shelf: &mut Shelf,
    thread: u32,
    call: u32,
) -> Result<Turn, NoMemory>
    requires { IsAskedOf books.old thread call shelf.old.stock }
    ensures ok { IfOk result (GivesChunk books.old books.new thread call shelf.new.stock) }
    ensures err { OnErr result (books.new ≡ books.old) }
    ensures kept { OnErr result (shelf.new.stock ≡ shelf.old.stock) }
{
    let cpu = cpu_of(shelf, thread);
    let Some(round) = shelf.find(cpu) else {
        return grow_on(alloc, books, shelf, thread, call, cpu);
    };
    Ok(hand(books, thread, call, round))
}

/// Performs it where no round is within reach of the CPU: with a slab that is made for it, else with any round.
fn grow_on(
    alloc: Global,
    books: &mut Books,
    shelf: &mut Shelf,
    thread: u32,
    call: u32,
    cpu: u32,
) -> Result<Turn, NoMemory>
    requires asked { IsAskedOf books.old thread call shelf.old.stock }
    requires cpu { cpu ≡ cpu_of (run_setting books.old) thread }
    requires bare { taken_from shelf.old.stock cpu ≡ None }
    ensures ok { IfOk result (GivesChunk books.old books.new thread call shelf.new.stock) }
    ensures err { OnErr result (books.new ≡ books.old) }
    ensures kept { OnErr result (shelf.new.stock ≡ shelf.old.stock) }
{
    shelf.make_room(MOST_ROUNDS)?;
    match books.commit_grow(alloc, thread, call)? {
        Grown::Made { reply, fresh } => {
            let Fresh { base, rounds } = fresh;
            // The call was answered with the chunk of this round, which is given up.
            let _first = shelf.add_slab(base, rounds);
            Ok(Turn::Made(reply))
        }
        Grown::NoRun => hand_any(alloc, books, shelf, thread, call, cpu),
        Grown::Behind => Ok(Turn::Behind),
    }
}

/// Performs it where no slab can be made either: with a round from anywhere, else there is no space.
fn hand_any(
    alloc: Global,
    books: &mut Books,
    shelf: &mut Shelf,
    thread: u32,
    call: u32,
    cpu: u32,
) -> Result<Turn, NoMemory>
    requires asked { IsAskedOf books.old thread call shelf.old.stock }
    requires cpu { cpu ≡ cpu_of (run_setting books.old) thread }
    requires bare { taken_from shelf.old.stock cpu ≡ None }
    requires no_run { HasNoRunFor books.old books.old thread call }
    ensures ok { IfOk result (GivesChunk books.old books.new thread call shelf.new.stock) }
    ensures err { OnErr result (books.new ≡ books.old) }
    ensures kept { OnErr result (shelf.new.stock ≡ shelf.old.stock) }
{
    let Some(round) = shelf.find_any(cpu) else {
        return refuse(alloc, books, thread, call);
    };
    Ok(hand(books, thread, call, round))
}

/// Answers it with the chunk of a free round.
fn hand(books: &mut Books, thread: u32, call: u32, round: Round) -> Turn
    requires { CanHandRound books.old thread call round }
    ensures { GivesRound books.old books.new thread call round result }
{
    match books.commit_alloc(thread, call, round) {
        Tried::Made(reply) => Turn::Made(reply),
        Tried::Taken | Tried::Behind => Turn::Behind,
    }
}

/// Answers it with no space.
fn refuse(alloc: Global, books: &mut Books, thread: u32, call: u32) -> Result<Turn, NoMemory>
    requires { HasNothing books.old thread call }
    ensures ok { IfOk result (GivesNothing books.old books.new thread call) }
    ensures err { OnErr result (books.new ≡ books.old) }
{
    match books.commit_last(alloc, thread, call)? {
        Last::Made { reply, .. } => Ok(Turn::Made(reply)),
        Last::Behind => Ok(Turn::Behind),
    }
}
