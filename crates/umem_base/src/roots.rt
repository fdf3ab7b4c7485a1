ghost use Rattle.std.specs.Prelude.{◌≡◌};
ghost use Rattle.umem_base.specs.Roots.{own_root};

use crate::pages::PAGE_BYTES;

/// Where the page of the words stands that all threads share.
pub const SHARED_ROOT: u64 = 0x1000;

/// Where the own page of the first thread stands; those of the others follow.
pub const OWN_ROOTS: u64 = 0x2000;

/// How many words of eight bytes a root page has.
pub const ROOT_WORDS: u64 = PAGE_BYTES / 8;

/// The last of the slots that name a shared word. Those above name words of the calling thread.
pub const LAST_SLOT: u32 = ROOT_WORDS as u32 - 1;

/// Where the own page of a thread stands.
pub fn own_root(thread: u32) -> u64
    ensures { result ≡ own_root thread }
{
    OWN_ROOTS + PAGE_BYTES * u64::from(thread)
}
