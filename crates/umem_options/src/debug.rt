ghost use Rattle.std.specs.Prelude.{◌≡◌};
ghost use Rattle.umem_options.specs.Debug.{no_options, audited, with_contents, guarded, count_of, debug_name, debug_setting, debug_item, debug_after, options_of};
ghost use Rattle.umem_options.specs.Limits.{IsOptions};

use crate::flags::DebugFlags;
use crate::item::DebugItem;
use crate::limits::{DEFAULT_CONTENTS, DEFAULT_FRAMES, MOST_CONTENTS, MOST_FRAMES};
use crate::options::Options;
use bitflags::Flags;
use umem_base::{BadNumber, read_decimal, split_once};

/// The options that the text of UMEM_DEBUG gives, as in umem_debug(3MALLOC): items between commas, taken
/// from left to right, so that a later one wins. Items that it does not know mean nothing, a value that is
/// no number counts as left out, and one above the limit as the limit: 32 frames, 4,096 bytes of contents.
/// Names are matched exactly. It takes no memory.
pub fn read_debug(text: &[u8]) -> Options
    ensures options { result ≡ options_of text.now }
    ensures limits { IsOptions result }
{
    text.split(|byte| *byte == b',').fold(
        no_options(),
        |options, item| after(options, debug_item(item)),
    )
}

fn no_options() -> Options
    ensures { result ≡ no_options }
{
    Options {
        flags: DebugFlags::empty(),
        frames: DEFAULT_FRAMES,
        contents: DEFAULT_CONTENTS,
    }
}

fn after(options: Options, item: DebugItem) -> Options
    ensures { result ≡ debug_after options item }
{
    match item {
        DebugItem::Audit(frames) => audited(options, frames),
        DebugItem::Contents(count) => with_contents(options, count),
        DebugItem::Guards => guarded(options),
        DebugItem::Default => {
            let options = audited(options, DEFAULT_FRAMES);
            guarded(with_contents(options, DEFAULT_CONTENTS))
        }
        DebugItem::Unknown => options,
    }
}

fn audited(options: Options, frames: u32) -> Options
    ensures { result ≡ audited options frames }
{
    let audited = Options {
        flags: options.flags.union(DebugFlags::AUDIT),
        frames,
        ..options
    };
    guarded(audited)
}

fn with_contents(options: Options, count: u32) -> Options
    ensures { result ≡ with_contents options count }
{
    Options {
        flags: options.flags.union(DebugFlags::CONTENTS),
        contents: count,
        ..options
    }
}

fn guarded(options: Options) -> Options
    ensures { result ≡ guarded options }
{
    Options {
        flags: options.flags.union(DebugFlags::GUARDS),
        ..options
    }
}

fn debug_item(item: &[u8]) -> DebugItem
    ensures { result ≡ debug_item item.now }
{
    match split_once(item, b'=') {
        None => debug_name(item),
        Some((name, value)) => debug_setting(name, value),
    }
}

fn debug_name(name: &[u8]) -> DebugItem
    ensures { result ≡ debug_name name.now }
{
    if name == b"audit".as_slice() {
        DebugItem::Audit(DEFAULT_FRAMES)
    } else if name == b"contents".as_slice() {
        DebugItem::Contents(DEFAULT_CONTENTS)
    } else if name == b"guards".as_slice() {
        DebugItem::Guards
    } else if name == b"default".as_slice() {
        DebugItem::Default
    } else {
        DebugItem::Unknown
    }
}

fn debug_setting(name: &[u8], value: &[u8]) -> DebugItem
    ensures { result ≡ debug_setting name.now value.now }
{
    if name == b"audit".as_slice() {
        DebugItem::Audit(count_of(DEFAULT_FRAMES, MOST_FRAMES, value))
    } else if name == b"contents".as_slice() {
        DebugItem::Contents(count_of(DEFAULT_CONTENTS, MOST_CONTENTS, value))
    } else {
        DebugItem::Unknown
    }
}

fn count_of(otherwise: u32, most: u32, value: &[u8]) -> u32
    ensures { result ≡ count_of otherwise most value.now }
{
    match read_decimal(value) {
        Ok(count) => count.min(u64::from(most)) as u32,
        Err(BadNumber::TooLarge) => most,
        Err(BadNumber::NotDigits) => otherwise,
    }
}
