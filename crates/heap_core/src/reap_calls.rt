ghost use Rattle.std.specs.Prelude.{IsSome};
ghost use Rattle.heap_accounts.specs.Kinds.{is_reap_call};
ghost use Rattle.heap_accounts.specs.Turns.{due_of};
ghost use Rattle.heap_core.specs.Heap.{IsHeap};
ghost use Rattle.heap_core.specs.Performs.{PerformsTurn};

use crate::shelves::reap_shelves;
use heap_accounts::Turn;
use heap_books::Books;
use shelf::Shelf;

/// Performs a reap: the slabs of which no chunk lives are given back, and leave their shelves. It takes no memory.
pub fn perform_reap(books: &mut Books, shelves: &mut [Shelf], thread: u32, call: u32) -> Turn
    requires heap { IsHeap books.old shelves.old }
    requires due { IsSome (due_of is_reap_call books.old thread call) }
    ensures performs { PerformsTurn books.old books.new thread call result }
    ensures heap { IsHeap books.new shelves.new }
{
    let turn = books.commit_reap(thread, call);
    // Says what is known of the entries now.
    let _ = books.history();
    reap_shelves(shelves);
    turn
}
