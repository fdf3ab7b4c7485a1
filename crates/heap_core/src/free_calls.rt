ghost use Rattle.std.specs.Prelude.{IsSome};
ghost use Rattle.heap_accounts.specs.Kinds.{is_free};
ghost use Rattle.heap_accounts.specs.Turns.{due_of};
ghost use Rattle.heap_core.specs.Heap.{IsHeap};
ghost use Rattle.heap_core.specs.Performs.{PerformsTurn};

use crate::shelves::put_back;
use heap_accounts::{Freed, Turn};
use heap_books::Books;
use shelf::Shelf;

/// Performs a free: the round of a chunk that was given back goes on the shelf of its cache. It takes no memory.
pub fn perform_free(books: &mut Books, shelves: &mut [Shelf], thread: u32, call: u32) -> Turn
    requires heap { IsHeap books.old shelves.old }
    requires due { IsSome (due_of is_free books.old thread call) }
    ensures performs { PerformsTurn books.old books.new thread call result }
    ensures heap { IsHeap books.new shelves.new }
{
    let freed = books.commit_free(thread, call);
    // Says what is known of the entries now.
    let _ = books.history();
    let Freed::Made { reply, round } = freed else {
        return Turn::Behind;
    };
    let Some(round) = round else {
        return Turn::Made(reply);
    };
    let Some(cache) = books.cache_of(round.chunk()) else {
        return Turn::Made(reply);
    };
    put_back(shelves, cache, thread, round);
    Turn::Made(reply)
}
