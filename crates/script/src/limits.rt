ghost use Rattle.std.specs.Prelude.{◌≡◌};
ghost use Rattle.script.specs.Limits.{most_calls};

use umem_base::LAST_SLOT;

/// The bytes of the longest script file.
pub const MOST_BYTES: usize = 4_194_304;

/// The calls of the longest script of version 1.
pub const MOST_CALLS_1: u32 = 65_536;

/// The calls of the longest script of version 2.
pub const MOST_CALLS_2: u32 = 131_072;

/// The first slot that is a root word of the calling thread's own.
pub const FIRST_OWN_SLOT: u32 = LAST_SLOT + 1;

pub const MOST_PHASES: u32 = 4096;

/// The frames of the deepest stack that a line can tell.
pub const MOST_FRAMES: u32 = 64;

/// The bytes that a `store` can write at once.
pub const MOST_STORED: u32 = 16;

pub const MOST_OFFSET: u32 = 65_535;

/// The calls of the longest script of the version.
pub fn most_calls(version: u32) -> u32
    ensures { result ≡ most_calls version }
{
    if version == 2 {
        MOST_CALLS_2
    } else {
        MOST_CALLS_1
    }
}
