ghost use Rattle.heap_accounts.specs.Kinds.{is_plain_call};
ghost use Rattle.heap_accounts.specs.Turns.{TakesReap, TakesTurn};
ghost use Rattle.heap_books.specs.Books.{AreBooks};

use crate::entering::enter_made;
use crate::journal::Journal;
use heap_accounts::{Accounts, Turn};

/// Makes a call that hands nothing out and gives nothing back. It takes no memory.
pub fn commit_plain(accounts: &mut Accounts, journal: &mut Journal, thread: u32, call: u32) -> Turn
    requires { AreBooks accounts.old journal.old }
    ensures given { TakesTurn is_plain_call accounts.old accounts.new thread call result }
    ensures kept { AreBooks accounts.new journal.new }
{
    let before = accounts.history().as_slice().len();
    let turn = accounts.commit_plain(thread, call);
    if let Turn::Made(_) = turn {
        enter_made(accounts, journal, before, None);
    }
    turn
}

/// Makes a reap: the slabs of which no chunk lives are given back. It takes no memory.
pub fn commit_reap(accounts: &mut Accounts, journal: &mut Journal, thread: u32, call: u32) -> Turn
    requires { AreBooks accounts.old journal.old }
    ensures given { TakesReap accounts.old accounts.new thread call result }
    ensures kept { AreBooks accounts.new journal.new }
{
    let before = accounts.history().as_slice().len();
    let turn = accounts.commit_reap(thread, call);
    if let Turn::Made(_) = turn {
        enter_made(accounts, journal, before, None);
    }
    turn
}
