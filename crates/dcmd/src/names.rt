ghost use Rattle.std.specs.Prelude.{◌≡◌};
ghost use Rattle.heap_view.specs.Whatis.{name_in};
ghost use Rattle.dcmd.specs.Names.{cache_with_address, own_cache, source_name};

use case_table::{OVERSIZE_NAME, cache_at};
use core_format::Core;

/// The name of a cache, by its index; nothing where the core has none of that index.
pub(crate) fn name_of(core: &Core, cache: u32) -> &[u8]
    ensures { result.now ≡ name_in core.now cache }
{
    match core.caches.as_slice().get(cache as usize) {
        Some(item) => item.def.name.as_slice(),
        None => &[],
    }
}

/// The name of what a buffer was allocated from.
pub(crate) fn source_name(core: &Core, cache: Option<u32>) -> &[u8]
    ensures { result.now ≡ source_name core.now cache }
{
    match cache {
        Some(cache) => name_of(core, cache),
        None => OVERSIZE_NAME,
    }
}

fn own_cache(core: &Core, cache: u32) -> Option<u32>
    ensures { result ≡ own_cache core.now cache }
{
    if (cache as usize) < core.caches.as_slice().len() {
        Some(cache)
    } else {
        None
    }
}

/// The index of the cache that has the address.
pub(crate) fn cache_with_address(core: &Core, address: u64) -> Option<u32>
    ensures { result ≡ cache_with_address core.now address }
{
    let cache = cache_at(address)?;
    own_cache(core, cache)
}
