ghost use Rattle.std.specs.Prelude.{◌≡◌};

use plain_heap::Held;
use std::marker::Model;

/// A live buffer: its address, and its requested size and cache. Contracts see it as that of a history's state.
#[derive(Clone, Copy, Debug, PartialEq, Eq)]
pub struct LiveBuffer {
    address: u64,
    held: Held,
}

impl Model for LiveBuffer {
    ghost use Rattle.plain_heap.specs.State.{LiveBuffer};
    ghost use Rattle.yardstick.specs.Codes.{buffer_code};

    ghost Value = { LiveBuffer };

    ghost coded = { buffer_code };

    ghost view = { λ b. record { address = b.address; held = b.held } };

    ghost inverse = { λ b. record { address = b.address; held = b.held } };
}

impl LiveBuffer {
    pub fn new(address: u64, held: Held) -> LiveBuffer
        ensures { result ≡ record { address = address; held = held } }
    {
        LiveBuffer { address, held }
    }

    pub fn address(&self) -> u64
        ensures { result ≡ self.now.address }
    {
        self.address
    }

    pub fn held(&self) -> Held
        ensures { result ≡ self.now.held }
    {
        self.held
    }
}
