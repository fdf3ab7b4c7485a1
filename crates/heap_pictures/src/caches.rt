ghost use Rattle.std.specs.Prelude.{◌≡◌, IfOk};
ghost use Rattle.core_rules.specs.Pieces.{cache_items_of};
ghost use Rattle.heap_ledger.specs.Ledger.{run_setting, run_state};
ghost use Rattle.heap_pictures.specs.Items.{grows_by_cache};

use case_table::CLASS_COUNT;
use core_format::CacheItem;
use core_rules::cache_items;
use heap_accounts::Accounts;
use std::alloc::Global;
use umem_base::NoMemory;

/// How many slabs each cache made, by its number.
fn grows_by_cache(alloc: Global, accounts: &Accounts) -> Result<Vec<u32>, NoMemory>
    ensures { IfOk result (λ grows.
        grows.items ≡ grows_by_cache (run_setting accounts.now) (run_state accounts.now)) }
{
    // Says that few caches are declared.
    let _ = accounts.history();
    let count = CLASS_COUNT + accounts.header().caches.as_slice().len() as u32;
    let mut grows = Vec::new(alloc);
    for cache in 0..count {
        grows.push(accounts.made(cache))?;
    }
    Ok(grows)
}

/// The caches, each with how many slabs it made.
pub fn caches_of(alloc: Global, accounts: &Accounts) -> Result<Vec<CacheItem>, NoMemory>
    ensures { IfOk result (λ items. items.items ≡ cache_items_of accounts.now.plan.header.caches
        (grows_by_cache (run_setting accounts.now) (run_state accounts.now))) }
{
    let grows = grows_by_cache(alloc, accounts)?;
    cache_items(alloc, accounts.header().caches.as_slice(), &grows)
}
