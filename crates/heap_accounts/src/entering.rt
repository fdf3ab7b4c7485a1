ghost use Rattle.std.specs.Prelude.{◌≡◌, ◌+◌, ◌≤◌};
ghost use Rattle.heap_accounts.specs.Entering.{EntersTable, MayEnter, entered_held};

use heap_slabs::HeapSlabs;
use plain_heap::{Held, Live, Reply};

/// Enters the buffer that an allocation was answered with, if it was, in the book of live buffers and in the table of
/// slabs.
pub fn enter(live: &mut Live, slabs: &mut HeapSlabs, held: Held, answer: Reply)
    requires { MayEnter live.old answer }
    ensures buffers { live.new.buffers ≡ entered_held live.old.buffers held answer }
    ensures slabs { EntersTable answer slabs.old slabs.new }
    ensures room { live.old.spare ≤ live.new.spare + 1 }
{
    if let Reply::At { address, .. } = answer {
        live.allocated(address, held.size, held.cache);
        slabs.took(address);
    }
}
