ghost use Rattle.std.specs.Prelude.{◌≡◌, ◌==◌, ◌+◌, ◌<◌, ◌≤◌, [], ◌∷◌, length, not, MatchOption, IfSome, position};
ghost use Rattle.umem_base.specs.Lines.{BeginsWord, SplitsWord, is_blank, lines_of, words_of};

/// The first line, without its end, and what stands behind it. A line ends at byte 10; the last one may have no
/// end. It takes no memory.
#[inline]
pub fn split_line(bytes: &[u8]) -> (&[u8], &[u8])
    requires { 0 < length bytes.now }
    ensures lines { lines_of bytes.now ≡ result.0.now ∷ lines_of result.1.now }
    ensures shorter { length result.1.now < length bytes.now }
{
    match find_line_end(bytes) {
        Some(end) => (&bytes[..end], &bytes[end + 1..]),
        None => (bytes, &bytes[bytes.len()..]),
    }
}

/// The first word of a line, and what stands behind it, if there is a word. Blanks separate words, and what stands
/// behind a word begins with one. It takes no memory.
#[inline]
pub fn split_word(line: &[u8]) -> Option<(&[u8], &[u8])>
    ensures words { SplitsWord result line.now }
{
    match find_word(line) {
        Some(start) => Some(split_at_blank(&line[start..])),
        None => None,
    }
}

// A word, and what stands behind it.
#[inline(always)]
fn split_at_blank(line: &[u8]) -> (&[u8], &[u8])
    requires { BeginsWord line.now }
    ensures words { words_of line.now ≡ result.0.now ∷ words_of result.1.now }
{
    match find_blank(line) {
        Some(end) => (&line[..end], &line[end..]),
        None => (line, &line[line.len()..]),
    }
}

fn find_line_end(bytes: &[u8]) -> Option<usize>
    ensures { result ≡ position (λ byte. byte == 10) bytes.now }
{
    bytes.iter().position(|byte| *byte == b'\n')
}

fn find_blank(line: &[u8]) -> Option<usize>
    ensures { result ≡ position is_blank line.now }
{
    line.iter().position(|byte| is_blank(*byte))
}

fn find_word(line: &[u8]) -> Option<usize>
    ensures { result ≡ position (λ byte. not (is_blank byte)) line.now }
{
    line.iter().position(|byte| !is_blank(*byte))
}

/// Tells whether a byte separates words: a space, a tab or a carriage return.
pub fn is_blank(byte: u8) -> bool
    ensures { result ≡ is_blank byte }
{
    byte == b' ' || byte == b'\t' || byte == b'\r'
}
