ghost use Rattle.std.specs.Prelude.{◌≡◌, [], ◌∷◌, ◌++◌, IfSome, MatchOption};
ghost use Rattle.umem_base.specs.Cut.{cut};

/// The bytes before the first separator and those behind it, if there is one. It takes no memory.
#[inline]
pub fn split_once(bytes: &[u8], separator: u8) -> Option<(&[u8], &[u8])>
    ensures parts { MatchOption result (cut separator bytes.now ≡ bytes.now ∷ [])
        (λ parts. cut separator bytes.now ≡ parts.0.now ∷ cut separator parts.1.now) }
    ensures joined { IfSome result (λ parts. bytes.now ≡ parts.0.now ++ separator ∷ parts.1.now) }
{
    for (place, byte) in bytes.iter().enumerate() {
        if *byte == separator {
            return Some((&bytes[..place], &bytes[place + 1..]));
        }
    }
    None
}
