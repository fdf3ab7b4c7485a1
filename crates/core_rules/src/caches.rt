ghost use Rattle.std.specs.Prelude.{◌≡◌, ◌<◌, IfOk, length};
ghost use Rattle.core_rules.specs.Pieces.{cache_items_of, count_of_caches, numbered_def};

use case_table::{CLASS_COUNT, CacheDef, class_def};
use core_format::CacheItem;
use std::alloc::Global;
use umem_base::NoMemory;

fn numbered_def(alloc: Global, declared: &[CacheDef], cache: usize) -> Result<CacheDef, NoMemory>
    requires { cache < count_of_caches declared.now }
    ensures { IfOk result (λ def. def ≡ numbered_def declared.now cache) }
{
    if cache < CLASS_COUNT as usize {
        return class_def(alloc, cache as u32);
    }
    Ok(declared[cache - CLASS_COUNT as usize].clone()?)
}

/// The caches of a core: the size classes and behind them the declared ones, each with how many slabs it made.
pub fn cache_items(
    alloc: Global,
    declared: &[CacheDef],
    grows: &[u32],
) -> Result<Vec<CacheItem>, NoMemory>
    requires { length grows.now ≡ count_of_caches declared.now }
    ensures { IfOk result (λ items. items.items ≡ cache_items_of declared.now grows.now) }
{
    let mut items = Vec::new(alloc);
    for cache in 0..grows.len() {
        let def = numbered_def(alloc, declared, cache)?;
        let item = CacheItem {
            def,
            grows: grows[cache],
        };
        items.push(item)?;
    }
    Ok(items)
}
