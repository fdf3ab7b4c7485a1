ghost use Rattle.std.specs.Prelude.{◌≡◌, ◌≤◌};
ghost use Rattle.buftag.specs.Codes.{IsCoded, code_of, coded_size};

use crate::patterns::SIZE_FACTOR;
use case_table::MOST_CACHE_BYTES;

/// The code by which the redzone word tells a requested size, after umem_debug(3MALLOC).
pub fn encode_size(size: u32) -> u32
    requires { size ≤ MOST_CACHE_BYTES }
    ensures { result ≡ code_of size }
{
    SIZE_FACTOR * size + 1
}

/// The size that a code tells, or `None` where it is the code of no size up to 4,096.
pub fn decode_size(code: u32) -> Option<u32>
    ensures value { result ≡ coded_size code }
    ensures relation { IsCoded code result }
{
    let size = code.checked_sub(1)? / SIZE_FACTOR;
    (size <= MOST_CACHE_BYTES && encode_size(size) == code).then_some(size)
}
