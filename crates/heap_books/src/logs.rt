ghost use Rattle.std.specs.Prelude.{◌≡◌, ◌+◌, ◌^◌, ◌<◌, All, IfOk};
ghost use Rattle.heap_ledger.specs.Ledger.{run_setting, run_state};
ghost use Rattle.heap_logs.specs.Audits.{audits_of, standing_chunks};
ghost use Rattle.heap_logs.specs.Fails.{fail_log};
ghost use Rattle.heap_logs.specs.Saved.{saved_log};
ghost use Rattle.heap_logs.specs.Transactions.{transaction_log};
ghost use Rattle.heap_books.specs.Books.{AreBooks};

use crate::journal::Journal;
use core_format::AuditItem;
use heap_accounts::Accounts;
use heap_logs::ChunkRange;
use heap_logs::laws::{acts_are_one_an_entry, standing_chunks_rise};
use std::alloc::Global;
use trans_log::{Fail, Saved, Trans};
use umem_base::NoMemory;
use umem_options::{fail_records, transaction_records};

/// The last transaction of each chunk of a slab that stands, if it has one, by rising chunk.
pub fn audits(
    alloc: Global,
    accounts: &Accounts,
    journal: &Journal,
) -> Result<Vec<AuditItem>, NoMemory>
    requires { AreBooks accounts.now journal.now }
    ensures { IfOk result (λ items. items.items
        ≡ audits_of accounts.now.options (run_setting accounts.now) accounts.now.entries) }
{
    // A law that says why there is an act for each entry.
    acts_are_one_an_entry();
    let ranges = standing_ranges(alloc, accounts)?;
    let entries = accounts.history().as_slice();
    heap_logs::audits(
        alloc,
        accounts.options(),
        accounts.header().cpus,
        entries,
        journal.acts(),
        &ranges,
    )
}

/// The chunks of the slabs that stand, by rising number.
fn standing_ranges(alloc: Global, accounts: &Accounts) -> Result<Vec<ChunkRange>, NoMemory>
    ensures ranges { IfOk result (λ ranges.
        ranges.items ≡ standing_chunks (run_setting accounts.now) (run_state accounts.now)) }
    ensures numbers { IfOk result (λ ranges. All (λ range. range.first + range.count < 2 ^ 32) ranges.items) }
{
    // A law that says in which order the slabs of a run have their chunks.
    standing_chunks_rise();
    let mut ranges = Vec::new(alloc);
    for slab in accounts.standing() {
        ranges.push(ChunkRange {
            first: slab.first,
            count: slab.rounds,
        })?;
    }
    ranges.sort_by_key(|range| range.first)?;
    Ok(ranges)
}

/// The transaction log, oldest first.
pub fn transactions(
    alloc: Global,
    accounts: &Accounts,
    journal: &Journal,
) -> Result<Vec<Trans>, NoMemory>
    requires { AreBooks accounts.now journal.now }
    ensures { IfOk result (λ items. items.items ≡ transaction_log accounts.now.options accounts.now.logging
        (run_setting accounts.now) accounts.now.entries) }
{
    // A law that says why there is an act for each entry.
    acts_are_one_an_entry();
    let entries = accounts.history().as_slice();
    heap_logs::transactions(
        alloc,
        accounts.options(),
        accounts.header().cpus,
        transaction_records(accounts.logging(), accounts.options()),
        entries,
        journal.acts(),
    )
}

/// The fail log, oldest first.
pub fn fails(alloc: Global, accounts: &Accounts, journal: &Journal) -> Result<Vec<Fail>, NoMemory>
    requires { AreBooks accounts.now journal.now }
    ensures { IfOk result (λ items. items.items ≡ fail_log accounts.now.logging accounts.now.plan.header.caches
        accounts.now.entries) }
{
    let entries = accounts.history().as_slice();
    heap_logs::fails(
        alloc,
        accounts.header().caches.as_slice(),
        fail_records(accounts.logging()),
        entries,
    )
}

/// The contents log, oldest first, which version 1 has not.
pub fn saved(alloc: Global, accounts: &Accounts, journal: &Journal) -> Result<Vec<Saved>, NoMemory>
    requires { AreBooks accounts.now journal.now }
    ensures { IfOk result (λ items. items.items ≡ saved_log accounts.now.options accounts.now.logging
        (run_setting accounts.now) accounts.now.entries) }
{
    journal.saved(alloc)
}
