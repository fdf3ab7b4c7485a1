ghost use Rattle.std.specs.Prelude.{◌≡◌, length};
ghost use Rattle.umem_base.specs.Words.{repeated};

const WORD_BYTES: usize = 8;

/// Writes one word again and again, its lowest byte first. The last one is cut off where the bytes end.
pub fn fill_words(bytes: &mut [u8], value: u64)
    ensures { bytes.new ≡ repeated (length bytes.old) value }
{
    let word = value.to_le_bytes();
    let mut at = 0;
    while bytes.len() - at >= WORD_BYTES {
        bytes[at..at + WORD_BYTES].copy_from_slice(&word);
        at += WORD_BYTES;
    }
    let rest = bytes.len() - at;
    bytes[at..].copy_from_slice(&word[..rest]);
}
