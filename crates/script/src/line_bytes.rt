ghost use Rattle.std.specs.Prelude.{◌≡◌};
ghost use Rattle.std.specs.List.{list_all};
ghost use Rattle.script.specs.Lines.{is_line_byte};

use umem_base::is_blank;

/// Tells whether each byte is one that a line may hold.
pub(crate) fn is_line(bytes: &[u8]) -> bool
    ensures { result ≡ list_all is_line_byte bytes.now }
{
    // It looks at each byte, whatever the ones before are: so the compiler takes many at once.
    let mut fine = true;
    for byte in bytes {
        fine &= is_line_byte(*byte);
    }
    fine
}

fn is_line_byte(byte: u8) -> bool
    ensures { result ≡ is_line_byte byte }
{
    (b' ' <= byte && byte <= b'~') || is_blank(byte)
}
