ghost use Rattle.std.specs.Prelude.{◌≡◌, IfOk, IsSome, OnErr};
ghost use Rattle.heap_accounts.specs.Kinds.{is_large, is_plain_call};
ghost use Rattle.heap_accounts.specs.Turns.{due_of};
ghost use Rattle.heap_core.specs.Performs.{PerformsTurn};
ghost use Rattle.heap_core.specs.Shelves.{KeepsHeap};

use heap_accounts::Turn;
use heap_books::Books;
use umem_base::NoMemory;

/// Performs a call that hands nothing out and gives nothing back; no shelf changes. It takes no memory.
pub fn perform_plain(books: &mut Books, thread: u32, call: u32) -> Turn
    requires due { IsSome (due_of is_plain_call books.old thread call) }
    ensures performs { PerformsTurn books.old books.new thread call result }
    ensures heap { KeepsHeap books.old books.new }
{
    let turn = books.commit_plain(thread, call);
    // Says what is known of the entries now.
    let _ = books.history();
    turn
}

/// Performs an allocation of whole pages; no shelf changes.
pub fn perform_large(books: &mut Books, thread: u32, call: u32) -> Result<Turn, NoMemory>
    requires due { IsSome (due_of is_large books.old thread call) }
    ensures ok { IfOk result (PerformsTurn books.old books.new thread call) }
    ensures err { OnErr result (books.new ≡ books.old) }
    ensures heap { KeepsHeap books.old books.new }
{
    let turn = books.commit_large(thread, call)?;
    // Says what is known of the entries now.
    let _ = books.history();
    Ok(turn)
}
