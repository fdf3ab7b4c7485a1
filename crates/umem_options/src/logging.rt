ghost use Rattle.std.specs.Prelude.{◌≡◌};
ghost use Rattle.umem_options.specs.Logging.{unit_of, unit_at_end, before_unit, bytes_in, size_of, log_named, logging_item, no_logging, logging_after, logging_of};
ghost use Rattle.umem_options.specs.Limits.{IsLogging};

use crate::item::LoggingItem;
use crate::limits::{DEFAULT_LOG_BYTES, MOST_LOG_BYTES};
use crate::options::Logging;
use umem_base::{read_decimal, split_once};

/// The sizes of the logs that the text of UMEM_LOGGING gives, as in umem_debug(3MALLOC): items between
/// commas, taken from left to right, so that a later one wins. A size is decimal digits, and at most one of
/// the letters k, m, g and t in either case behind them. Any other value is 0, and so is a size above 64
/// MiB. Items that it does not know mean nothing. Names are matched exactly. It takes no memory.
pub fn read_logging(text: &[u8]) -> Logging
    ensures logging { result ≡ logging_of text.now }
    ensures limits { IsLogging result }
{
    text.split(|byte| *byte == b',').fold(
        no_logging(),
        |logging, item| after(logging, logging_item(item)),
    )
}

fn no_logging() -> Logging
    ensures { result ≡ no_logging }
{
    Logging {
        transaction: 0,
        contents: 0,
        fail: 0,
    }
}

fn after(logging: Logging, item: LoggingItem) -> Logging
    ensures { result ≡ logging_after logging item }
{
    let mut after = logging;
    match item {
        LoggingItem::Transaction(size) => after.transaction = size,
        LoggingItem::Contents(size) => after.contents = size,
        LoggingItem::Fail(size) => after.fail = size,
        LoggingItem::Unknown => {}
    }
    after
}

fn logging_item(item: &[u8]) -> LoggingItem
    ensures { result ≡ logging_item item.now }
{
    match split_once(item, b'=') {
        None => log_named(item, DEFAULT_LOG_BYTES),
        Some((name, value)) => log_named(name, size_of(value)),
    }
}

fn log_named(name: &[u8], size: u64) -> LoggingItem
    ensures { result ≡ log_named name.now size }
{
    if name == b"transaction".as_slice() {
        LoggingItem::Transaction(size)
    } else if name == b"contents".as_slice() {
        LoggingItem::Contents(size)
    } else if name == b"fail".as_slice() {
        LoggingItem::Fail(size)
    } else {
        LoggingItem::Unknown
    }
}

fn size_of(value: &[u8]) -> u64
    ensures { result ≡ size_of value.now }
{
    let (digits, unit) = split_unit(value);
    match read_decimal(digits) {
        Ok(count) => bytes_in(count, unit),
        Err(_) => 0,
    }
}

fn bytes_in(count: u64, unit: u64) -> u64
    ensures { result ≡ bytes_in count unit }
{
    match count.checked_mul(unit) {
        Some(size) if size <= MOST_LOG_BYTES => size,
        _ => 0,
    }
}

// What stands before the unit at the end of a value, and the unit.
fn split_unit(value: &[u8]) -> (&[u8], u64)
    ensures digits { result.0.now ≡ before_unit value.now }
    ensures unit { result.1 ≡ unit_at_end value.now }
{
    match value.split_last() {
        Some((letter, digits)) => match unit_of(*letter) {
            1 => (value, 1),
            unit => (digits, unit),
        },
        None => (value, 1),
    }
}

fn unit_of(letter: u8) -> u64
    ensures { result ≡ unit_of letter }
{
    match letter {
        b'k' | b'K' => 1 << 10,
        b'm' | b'M' => 1 << 20,
        b'g' | b'G' => 1 << 30,
        b't' | b'T' => 1 << 40,
        _ => 1,
    }
}
