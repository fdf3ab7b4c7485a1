ghost use Rattle.std.specs.Prelude.{◌≡◌};
ghost use Rattle.heap_slabs.specs.Standing.{one_live_less, one_live_more};

use crate::standing::Standing;

/// The slab with one live chunk more. No more live than it has.
pub fn one_live_more(slab: Standing) -> Standing
    ensures { result ≡ one_live_more slab }
{
    let mut more = slab;
    if slab.live < slab.rounds {
        more.live = slab.live + 1;
    }
    more
}

/// The slab with one live chunk less.
pub fn one_live_less(slab: Standing) -> Standing
    ensures { result ≡ one_live_less slab }
{
    let mut less = slab;
    less.live = slab.live.saturating_sub(1);
    less
}
