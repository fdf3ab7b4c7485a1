ghost use Rattle.std.specs.Prelude.{◌≡◌, IfOk, OnErr};
ghost use Rattle.heap_accounts.specs.Turns.{TakesGrow, TakesLast, TakesRound};
ghost use Rattle.heap_books.specs.Books.{AreBooks};

use crate::entering::{act_of_reply, enter_made};
use crate::journal::Journal;
use heap_accounts::{Accounts, Grown, Last, Tried};
use slab_layer::Round;
use std::alloc::Global;
use umem_base::NoMemory;

/// Makes an allocation from a cache with the chunk of a round, which is given up where that chunk is no free one of the
/// cache. It takes no memory.
pub fn commit_alloc(
    accounts: &mut Accounts,
    journal: &mut Journal,
    thread: u32,
    call: u32,
    round: Round,
) -> Tried
    requires { AreBooks accounts.old journal.old }
    ensures given { TakesRound accounts.old accounts.new thread call round result }
    ensures kept { AreBooks accounts.new journal.new }
{
    let before = accounts.history().as_slice().len();
    let tried = accounts.commit_alloc(thread, call, round);
    if let Tried::Made(reply) = tried {
        let act = act_of_reply(accounts, reply);
        enter_made(accounts, journal, before, act);
    }
    tried
}

/// Makes an allocation from a cache with the first chunk of a slab that is made for it.
pub fn commit_grow(
    alloc: Global,
    accounts: &mut Accounts,
    journal: &mut Journal,
    thread: u32,
    call: u32,
) -> Result<Grown, NoMemory>
    requires { AreBooks accounts.old journal.old }
    ensures given { IfOk result (TakesGrow accounts.old accounts.new thread call) }
    ensures err { OnErr result (accounts.new ≡ accounts.old) }
    ensures kept { AreBooks accounts.new journal.new }
{
    let before = accounts.history().as_slice().len();
    let grown = accounts.commit_grow(alloc, thread, call)?;
    if let Grown::Made { reply, .. } = &grown {
        let act = act_of_reply(accounts, *reply);
        enter_made(accounts, journal, before, act);
    }
    Ok(grown)
}

/// Makes an allocation from a cache with what is left of it: its free chunk that has the lowest number; else the first
/// chunk of a slab that is made for it; else there is no space.
pub fn commit_last(
    alloc: Global,
    accounts: &mut Accounts,
    journal: &mut Journal,
    thread: u32,
    call: u32,
) -> Result<Last, NoMemory>
    requires { AreBooks accounts.old journal.old }
    ensures given { IfOk result (TakesLast accounts.old accounts.new thread call) }
    ensures err { OnErr result (accounts.new ≡ accounts.old) }
    ensures kept { AreBooks accounts.new journal.new }
{
    let before = accounts.history().as_slice().len();
    let last = accounts.commit_last(alloc, thread, call)?;
    if let Last::Made { reply, .. } = &last {
        let act = act_of_reply(accounts, *reply);
        enter_made(accounts, journal, before, act);
    }
    Ok(last)
}
