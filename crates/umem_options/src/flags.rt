ghost use Rattle.std.specs.Prelude.{⊤, [], ◌∷◌, codes};

use bitflags::{Flag, Flags, bitflag_items};

/// Which checks and records of umem_debug(3MALLOC) are on, a bit each. Contracts see its bits.
#[derive(Clone, Copy, PartialEq, Eq, Debug)]
pub struct DebugFlags(u8);

bitflag_items! {
    impl DebugFlags: u8 {
        /// Each chunk has the record of its last transaction.
        const AUDIT = 1;
        /// The contents of freed buffers are logged.
        const CONTENTS = 2;
        /// Each chunk has its redzone, and free chunks are filled with a pattern.
        const GUARDS = 4;
    }
}

impl Flags for DebugFlags {
    type Bits = u8;

    ghost exact = { ⊤ };

    ghost table = { (codes "AUDIT", 1) ∷ (codes "CONTENTS", 2) ∷ (codes "GUARDS", 4) ∷ [] };

    ghost set_of = { λ f. f.0 };

    fn flags<'a>() -> &'a [Flag<DebugFlags>] {
        DebugFlags::FLAGS
    }

    fn bits(&self) -> u8 {
        self.0
    }

    fn from_bits_retain(bits: u8) -> DebugFlags {
        DebugFlags(bits)
    }
}
