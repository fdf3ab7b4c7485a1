ghost use Rattle.std.specs.Prelude.{◌≡◌};
ghost use Rattle.umem_base.specs.Pages.{pages_for};

/// The bytes of a page.
pub const PAGE_BYTES: u64 = 4096;

/// How many pages hold so many bytes.
pub fn pages_for(bytes: u64) -> u64
    ensures { result ≡ pages_for bytes }
{
    bytes.div_ceil(PAGE_BYTES)
}
