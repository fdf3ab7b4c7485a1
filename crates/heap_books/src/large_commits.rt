ghost use Rattle.std.specs.Prelude.{◌≡◌, IfOk, OnErr};
ghost use Rattle.heap_accounts.specs.Kinds.{is_large};
ghost use Rattle.heap_accounts.specs.Turns.{TakesTurn};
ghost use Rattle.heap_books.specs.Books.{AreBooks};

use crate::entering::{act_of_reply, enter_made};
use crate::journal::Journal;
use heap_accounts::{Accounts, Turn};
use umem_base::NoMemory;

/// Makes an allocation of whole pages: at the lowest run that fits.
pub fn commit_large(
    accounts: &mut Accounts,
    journal: &mut Journal,
    thread: u32,
    call: u32,
) -> Result<Turn, NoMemory>
    requires { AreBooks accounts.old journal.old }
    ensures given { IfOk result (TakesTurn is_large accounts.old accounts.new thread call) }
    ensures err { OnErr result (accounts.new ≡ accounts.old) }
    ensures kept { AreBooks accounts.new journal.new }
{
    let before = accounts.history().as_slice().len();
    let turn = accounts.commit_large(thread, call)?;
    if let Turn::Made(reply) = turn {
        let act = act_of_reply(accounts, reply);
        enter_made(accounts, journal, before, act);
    }
    Ok(turn)
}
