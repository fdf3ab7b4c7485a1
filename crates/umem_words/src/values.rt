ghost use Rattle.std.specs.Prelude.{◌≡◌, IfOk};
ghost use Rattle.umem_words.specs.Texts.{text_told};
ghost use Rattle.umem_words.specs.Values.{logging_given, number_up_to, ops_given, options_given, seed_given};

use crate::limits::MOST_OPS;
use std::alloc::Global;
use umem_base::{NoMemory, Text, read_decimal};
use umem_options::{Logging, Options, read_debug, read_logging};

/// The options that the text gives, and none where it is left out.
pub fn options_given(text: Option<&str>) -> Options
    ensures { result ≡ options_given (text_told text.entry) }
{
    match text {
        None => read_debug(b""),
        Some(text) => read_debug(text.as_bytes()),
    }
}

/// The sizes of the logs that the text gives, and no log where it is left out.
pub fn logging_given(text: Option<&str>) -> Logging
    ensures { result ≡ logging_given (text_told text.entry) }
{
    match text {
        None => read_logging(b""),
        Some(text) => read_logging(text.as_bytes()),
    }
}

/// The seed, where the text is a number of 64 bits.
pub fn seed_given(text: Option<&str>) -> Option<u64>
    ensures { result ≡ seed_given (text_told text.entry) }
{
    number_up_to(u64::MAX, text?)
}

/// The number of operations, where the text is a number and no larger than the limit.
pub fn ops_given(text: Option<&str>) -> Option<u32>
    ensures { result ≡ ops_given (text_told text.entry) }
{
    let number = number_up_to(u64::from(MOST_OPS), text?)?;
    Some(number as u32)
}

// The number that decimal digits without a leading zero spell, where it is at most `most`.
fn number_up_to(most: u64, text: &str) -> Option<u64>
    ensures { result ≡ number_up_to most text.now }
{
    let digits = text.as_bytes();
    if digits.len() > 1 && digits[0] == b'0' {
        return None;
    }
    match read_decimal(digits) {
        Ok(number) if number <= most => Some(number),
        _ => None,
    }
}

/// The text as it stands on the command line.
pub fn text_of(alloc: Global, text: &str) -> Result<Text, NoMemory>
    ensures { IfOk result (λ made. made ≡ text.now) }
{
    Text::from_slice(alloc, text.as_bytes())
}

/// The same of a text that may be left out.
pub fn text_given(alloc: Global, text: Option<&str>) -> Result<Option<Text>, NoMemory>
    ensures { IfOk result (λ made. made ≡ text_told text.entry) }
{
    match text {
        None => Ok(None),
        Some(text) => Ok(Some(text_of(alloc, text)?)),
    }
}
