ghost use Rattle.std.specs.Prelude.{◌≡◌, ◌↔◌, ◌≤◌, All, IfSome, IsNone, length};
ghost use Rattle.buftag.specs.Unconstructed.{IsFirstOther, unconstructed_at};

use case_table::MOST_CACHE_BYTES;

/// Where a buffer first differs from what its constructor wrote, in bytes from its front, or `None` where
/// each byte is still `value`. A constructor that writes one value over a whole buffer is this project's own.
pub fn first_unconstructed(bytes: &[u8], value: u8) -> Option<u32>
    requires { length bytes.now ≤ MOST_CACHE_BYTES }
    ensures value { result ≡ unconstructed_at bytes.now value }
    ensures first { IfSome result (IsFirstOther bytes.now value) }
    ensures none { IsNone result ↔ All (λ byte. byte ≡ value) bytes.now }
{
    let at = first_other(bytes, value)?;
    Some(at as u32)
}

fn first_other(bytes: &[u8], value: u8) -> Option<usize>
    ensures first { IfSome result (IsFirstOther bytes.now value) }
    ensures none { IsNone result ↔ All (λ byte. byte ≡ value) bytes.now }
{
    bytes.iter().position(|byte| *byte != value)
}
