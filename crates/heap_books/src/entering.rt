ghost use Rattle.std.specs.Prelude.{◌≡◌};
ghost use Rattle.heap_ledger.specs.Ledger.{run_setting, run_state};
ghost use Rattle.heap_logs.specs.Acts.{act_of_alloc};
ghost use Rattle.heap_books.specs.Books.{AreBooks};
ghost use Rattle.heap_books.specs.Made.{IsLastMade};

use crate::journal::Journal;
use heap_accounts::Accounts;
use heap_logs::Act;
use plain_heap::Reply;

/// The act of an allocation that was answered so last: on the chunk that begins at its address, if one does.
pub fn act_of_reply(accounts: &Accounts, reply: Reply) -> Option<Act>
    ensures { result ≡ act_of_alloc (run_setting accounts.now) (run_state accounts.now) reply }
{
    let Reply::At { address, .. } = reply else {
        return None;
    };
    let placed = accounts.placed_at(address)?;
    Some(Act {
        chunk: placed.chunk.number,
        address: placed.chunk.address,
    })
}

/// Enters the call that was made last with its act, behind its inner entries: `before` entries stood before it. It
/// takes no memory.
pub fn enter_made(accounts: &Accounts, journal: &mut Journal, before: usize, act: Option<Act>)
    requires { IsLastMade accounts.now journal.old before act }
    ensures { AreBooks accounts.now journal.new }
{
    let entries = accounts.history().as_slice();
    journal.enter(entries.len() - before - 1, act);
}
