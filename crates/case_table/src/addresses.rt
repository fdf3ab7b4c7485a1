ghost use Rattle.std.specs.Prelude.{◌≡◌, ◌+◌, ◌*◌, ◌^◌, ◌<◌, ◌≤◌};
ghost use Rattle.case_table.specs.Addresses.{bufctl_address, bufctl_chunk, cache_address, cache_at, number_at};

/// Where cache 0 stands. The addresses of caches and bufctls are this project's own: commands tell and take
/// them, and nothing is mapped there.
pub const CACHES_BASE: u64 = 0x3000_0000;

/// The bytes from one cache to the next.
pub const CACHE_STEP: u64 = 0x400;

/// Where the bufctl of chunk 0 stands.
pub const BUFCTLS_BASE: u64 = 0x4000_0000;

/// The bytes from one bufctl to the next.
pub const BUFCTL_STEP: u64 = 64;

/// The address of a cache, by its number.
pub fn cache_address(cache: u32) -> u64
    ensures { result ≡ cache_address cache }
{
    CACHES_BASE + CACHE_STEP * u64::from(cache)
}

/// The number of the cache that has the address, where there is one.
pub fn cache_at(address: u64) -> Option<u32>
    ensures { result ≡ cache_at address }
{
    number_at(CACHES_BASE, CACHE_STEP, address)
}

/// The address of a bufctl, by the number of its chunk.
pub fn bufctl_address(chunk: u32) -> u64
    ensures { result ≡ bufctl_address chunk }
{
    BUFCTLS_BASE + BUFCTL_STEP * u64::from(chunk)
}

/// The number of the chunk whose bufctl has the address, where there is one.
pub fn bufctl_chunk(address: u64) -> Option<u32>
    ensures { result ≡ bufctl_chunk address }
{
    number_at(BUFCTLS_BASE, BUFCTL_STEP, address)
}

fn number_at(base: u64, step: u64, address: u64) -> Option<u32>
    requires some { 0 < step }
    requires fits { base + step * 2 ^ 32 < 2 ^ 64 }
    ensures { result ≡ number_at base step address }
{
    let number = u32::try_from(address.saturating_sub(base) / step).ok()?;
    (base + step * u64::from(number) == address).then_some(number)
}
