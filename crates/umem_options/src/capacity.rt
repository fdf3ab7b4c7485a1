ghost use Rattle.std.specs.Prelude.{◌≡◌, ◌/◌, ◌<◌, ◌≤◌, if◌then◌else◌};
ghost use Rattle.umem_options.specs.Flags.{has_audit};
ghost use Rattle.umem_options.specs.Limits.{IsOptions, IsLogging};
ghost use Rattle.umem_options.specs.Capacity.{contents_capacity, contents_count, fail_capacity, transaction_capacity};

use crate::limits::{
    DEFAULT_CONTENTS, FAIL_BYTES, FRAME_BYTES, MOST_CONTENTS, MOST_FAILS, MOST_LOG_BYTES,
    MOST_SAVED, MOST_TRANSACTIONS, SAVED_BYTES, TRANSACTION_BYTES,
};
use crate::options::{Logging, Options};

/// How many transactions the transaction log holds: each takes 64 bytes, and 8 for each frame. Without
/// audit there are none. At 0 the log is disabled.
pub fn transaction_records(logging: &Logging, options: &Options) -> u32
    requires logging { IsLogging logging.now }
    requires options { IsOptions options.now }
    ensures value { result ≡ transaction_capacity logging.now options.now }
    ensures most { result ≤ MOST_TRANSACTIONS }
{
    let each = TRANSACTION_BYTES + FRAME_BYTES * u64::from(options.frames);
    audited_records(options, logging.transaction, each)
}

/// How many failed allocations the fail log holds: each takes 24 bytes. At 0 the log is disabled.
pub fn fail_records(logging: &Logging) -> u32
    requires { IsLogging logging.now }
    ensures value { result ≡ fail_capacity logging.now }
    ensures most { result ≤ MOST_FAILS }
{
    (logging.fail / FAIL_BYTES) as u32
}

/// How many bytes the contents log keeps of a freed buffer: as many as the option contents says, and 256
/// without that option. That the log has its bytes without the option is this project's own rule.
pub fn contents_count(options: &Options) -> u32
    requires { IsOptions options.now }
    ensures value { result ≡ contents_count options.now }
    ensures most { result ≤ MOST_CONTENTS }
{
    if options.has_contents() {
        options.contents
    } else {
        DEFAULT_CONTENTS
    }
}

/// How many freed buffers the contents log holds: each takes 24 bytes, and those that are kept of it.
/// Without audit there are none. At 0 the log is disabled.
pub fn contents_records(logging: &Logging, options: &Options) -> u32
    requires logging { IsLogging logging.now }
    requires options { IsOptions options.now }
    ensures value { result ≡ contents_capacity logging.now options.now }
    ensures most { result ≤ MOST_SAVED }
{
    let each = SAVED_BYTES + u64::from(contents_count(options));
    audited_records(options, logging.contents, each)
}

// How many records of a length fit into a log that needs audit.
fn audited_records(options: &Options, bytes: u64, each: u64) -> u32
    requires small { bytes ≤ MOST_LOG_BYTES }
    requires some { 0 < each }
    ensures { result ≡ (if has_audit options.now then bytes / each else 0) }
{
    if options.has_audit() {
        (bytes / each) as u32
    } else {
        0
    }
}
