ghost use Rattle.std.specs.Prelude.{◌≡◌};
ghost use Rattle.plain_heap.specs.Setting.{slot_address};

use script::FIRST_OWN_SLOT;
use umem_base::{SHARED_ROOT, own_root};

/// Where the word of a slot stands for a thread.
pub fn slot_address(thread: u32, slot: u32) -> u64
    ensures { result ≡ slot_address thread slot }
{
    if slot < FIRST_OWN_SLOT {
        SHARED_ROOT + 8 * u64::from(slot)
    } else {
        own_root(thread) + 8 * u64::from(slot - FIRST_OWN_SLOT)
    }
}
