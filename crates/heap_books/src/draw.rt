ghost use Rattle.std.specs.Prelude.{◌≡◌, IfOk};
ghost use Rattle.umem_options.specs.Limits.{IsLogging, IsOptions};
ghost use Rattle.heap_ledger.specs.Ledger.{run_setting, run_state};
ghost use Rattle.heap_logs.specs.Saved.{saved_capacity};
ghost use Rattle.heap_books.specs.Books.{AreBooks};
ghost use Rattle.heap_pictures.specs.Drawn.{AreListsOf};
ghost use Rattle.heap_pictures.specs.Pictures.{DrawnWith};

use crate::journal::Journal;
use crate::logs::{audits, fails, saved, transactions};
use core_format::Core;
use heap_accounts::Accounts;
use heap_pictures::{FreePlaces, caches_of, large_items, own_items, shared_words, slab_items};
use std::alloc::Global;
use umem_base::{NoMemory, Sequence};
use umem_options::{contents_records, fail_records, transaction_records};

/// How many freed buffers the contents log of a run holds, which version 1 has not.
pub fn saved_records(accounts: &Accounts) -> u32
    requires options { IsOptions accounts.now.options }
    requires logging { IsLogging accounts.now.logging }
    ensures { result ≡ saved_capacity accounts.now.options accounts.now.logging (run_setting accounts.now) }
{
    if accounts.header().version == 2 {
        contents_records(accounts.logging(), accounts.options())
    } else {
        0
    }
}

/// Makes the core of a run, with its free chunks at these places.
pub fn draw(
    alloc: Global,
    accounts: &Accounts,
    journal: &Journal,
    places: FreePlaces,
) -> Result<Core, NoMemory>
    requires books { AreBooks accounts.now journal.now }
    requires lists { AreListsOf (run_state accounts.now) places.lists }
    ensures { IfOk result (DrawnWith accounts.now places) }
{
    let options = accounts.options();
    let logging = accounts.logging();
    Ok(Core {
        version: accounts.header().version,
        flags: options.flags,
        frames: options.frames,
        contents: options.contents,
        cpus: accounts.header().cpus,
        trans_capacity: transaction_records(logging, options),
        fail_capacity: fail_records(logging),
        contents_capacity: saved_records(accounts),
        next_chunk: accounts.next_chunk(),
        entries: accounts.history().as_slice().len() as u64,
        root: shared_words(alloc, accounts)?,
        own: Sequence::new(own_items(alloc, accounts)?),
        caches: Sequence::new(caches_of(alloc, accounts)?),
        slabs: Sequence::new(slab_items(alloc, accounts, places.lists.as_slice())?),
        large: Sequence::new(large_items(alloc, accounts)?),
        cpu_places: places.cpu_places,
        depots: places.depots,
        audits: Sequence::new(audits(alloc, accounts, journal)?),
        trans: Sequence::new(transactions(alloc, accounts, journal)?),
        fails: Sequence::new(fails(alloc, accounts, journal)?),
        saved: Sequence::new(saved(alloc, accounts, journal)?),
    })
}
