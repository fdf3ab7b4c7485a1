ghost use Rattle.std.specs.Prelude.{◌≡◌};
ghost use Rattle.heap_slabs.specs.Standing.{as_slab_at};

use crate::standing::Standing;
use heap_ledger::SlabAt;

/// The slab by its cache and its base alone.
pub fn as_slab_at(slab: &Standing) -> SlabAt
    ensures { result ≡ as_slab_at slab.now }
{
    SlabAt {
        cache: slab.cache,
        base: slab.base,
    }
}
