ghost use Rattle.std.specs.Prelude.{◌≡◌, ◌≤◌, IfSome, length};
ghost use Rattle.umem_options.specs.Flags.{has_audit};
ghost use Rattle.heap_ledger.specs.Ledger.{run_setting, run_state};
ghost use Rattle.heap_slabs.specs.Chunks.{IsAtItsPlace};
ghost use Rattle.heap_accounts.specs.Turns.{TakesFree};
ghost use Rattle.heap_books.specs.Books.{AreBooks};
ghost use Rattle.heap_books.specs.Freed.{IsFreed, IsNoted, chunk_back, saved_if};

use crate::journal::Journal;
use heap_accounts::{Accounts, Freed};
use heap_logs::laws::first_bytes_stand;
use heap_logs::{Act, saved_piece};
use heap_slabs::Placed;
use heap_slabs::laws::found_chunks_are_placed;
use plain_heap::Reply;

/// Makes a free, and gives the round of the chunk back that was freed, if one was. Of the chunk the contents log keeps
/// the first bytes that stood there before. It takes no memory.
pub fn commit_free(accounts: &mut Accounts, journal: &mut Journal, thread: u32, call: u32) -> Freed
    requires { AreBooks accounts.old journal.old }
    ensures given { TakesFree accounts.old accounts.new thread call result }
    ensures kept { AreBooks accounts.new journal.new }
{
    // A law that says that the chunk which is found is at its place.
    found_chunks_are_placed();
    let time = accounts.history().as_slice().len() as u64;
    let placed = accounts.freed_next(thread, call);
    let count = note_freed(accounts, journal, placed);
    let freed = accounts.commit_free(thread, call);
    if let Freed::Made { reply, .. } = &freed {
        enter_freed(accounts, journal, time, *reply, placed, count);
    }
    freed
}

/// Notes the first bytes of the chunk that may be freed next, if one may, and tells how many.
fn note_freed(accounts: &Accounts, journal: &mut Journal, placed: Option<Placed>) -> usize
    requires books { AreBooks accounts.now journal.old }
    requires there { IfSome placed (IsAtItsPlace (run_setting accounts.now) (run_state accounts.now)) }
    ensures noted { IfSome placed (λ its. IsNoted accounts.now journal.new its result) }
    ensures kept { AreBooks accounts.now journal.new }
{
    match placed {
        Some(placed) => note_chunk(accounts, journal, &placed),
        None => 0,
    }
}

/// Notes the first bytes of a chunk, as many as the contents log keeps of it, and tells how many.
fn note_chunk(accounts: &Accounts, journal: &mut Journal, placed: &Placed) -> usize
    requires books { AreBooks accounts.now journal.old }
    requires there { IsAtItsPlace (run_setting accounts.now) (run_state accounts.now) placed.now }
    ensures noted { IsNoted accounts.now journal.new placed.now result }
    ensures kept { AreBooks accounts.now journal.new }
{
    // A law that says that the first bytes of a chunk are those of its object.
    first_bytes_stand();
    // Says that its cache is one.
    let _ = accounts.history();
    let bytes = accounts.chunk_bytes(placed);
    let piece = saved_piece(
        accounts.options(),
        accounts.object_bytes(placed.cache),
        bytes,
    );
    journal.note(piece);
    piece.len()
}

/// The chunk that a free with that answer gave back, if one began at its word.
fn chunk_back(reply: Reply, placed: Option<Placed>) -> Option<Placed>
    ensures { result ≡ chunk_back reply placed }
{
    match reply {
        Reply::Ok => placed,
        _ => None,
    }
}

/// Enters the free that was made last with its act, and what is kept of the chunk that it gave back.
fn enter_freed(
    accounts: &Accounts,
    journal: &mut Journal,
    time: u64,
    reply: Reply,
    placed: Option<Placed>,
    count: usize,
)
    requires { IsFreed accounts.now journal.old time reply placed count }
    ensures { AreBooks accounts.now journal.new }
{
    // Says that the entries are legal.
    let _ = accounts.history();
    let Some(placed) = chunk_back(reply, placed) else {
        journal.enter(0, None);
        return;
    };
    save_freed(accounts, journal, time, &placed, count);
    journal.enter(
        0,
        Some(Act {
            chunk: placed.chunk.number,
            address: placed.chunk.address,
        }),
    );
}

/// With audit, enters the bytes that were noted of a chunk in the contents log.
fn save_freed(accounts: &Accounts, journal: &mut Journal, time: u64, placed: &Placed, count: usize)
    requires there { count ≤ length journal.old.piece }
    requires few { count ≤ journal.old.saved.count }
    ensures { journal.new ≡ saved_if (has_audit accounts.now.options) journal.old time placed.now.chunk.number count }
{
    if accounts.options().has_audit() {
        journal.save(time, placed.chunk.number, count);
    }
}
