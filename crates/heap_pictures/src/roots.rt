ghost use Rattle.std.specs.Prelude.{◌≡◌, ◌<◌, IfOk};
ghost use Rattle.umem_base.specs.declared.roots.TheConstants.{SHARED_ROOT};
ghost use Rattle.heap_ledger.specs.Ledger.{run_setting, run_state};
ghost use Rattle.heap_pictures.specs.Items.{own_item, own_items, page_words};

use core_format::OwnRoot;
use heap_accounts::Accounts;
use script::FIRST_OWN_SLOT;
use std::alloc::Global;
use umem_base::{NoMemory, Sequence};

/// The words of the root page that all threads share.
pub fn shared_words(alloc: Global, accounts: &Accounts) -> Result<Sequence<u64>, NoMemory>
    ensures { IfOk result (λ words. words ≡ page_words (run_state accounts.now).bytes SHARED_ROOT) }
{
    // Says that there is a thread.
    let _ = accounts.history();
    let mut words = Vec::new(alloc);
    for slot in 0..FIRST_OWN_SLOT {
        words.push(accounts.slot(0, slot))?;
    }
    Ok(Sequence::new(words))
}

/// The own root page of a thread.
fn own_item(alloc: Global, accounts: &Accounts, thread: u32) -> Result<OwnRoot, NoMemory>
    requires version { accounts.now.plan.header.version ≡ 2 }
    requires thread { thread < accounts.now.plan.header.threads }
    ensures { IfOk result (λ root. root ≡ own_item (run_state accounts.now).bytes thread) }
{
    let mut words = Vec::new(alloc);
    for slot in 0..FIRST_OWN_SLOT {
        words.push(accounts.slot(thread, FIRST_OWN_SLOT + slot))?;
    }
    Ok(OwnRoot {
        words: Sequence::new(words),
    })
}

/// The own root pages of the threads, which version 1 has not.
pub fn own_items(alloc: Global, accounts: &Accounts) -> Result<Vec<OwnRoot>, NoMemory>
    ensures { IfOk result (λ roots.
        roots.items ≡ own_items (run_setting accounts.now) (run_state accounts.now)) }
{
    let mut roots = Vec::new(alloc);
    let header = accounts.header();
    if header.version != 2 {
        return Ok(roots);
    }
    for thread in 0..header.threads {
        roots.push(own_item(alloc, accounts, thread)?)?;
    }
    Ok(roots)
}
