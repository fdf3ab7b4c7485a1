ghost use Rattle.std.specs.Prelude.{◌≡◌, ◌≤◌, IfOk, MatchOption, length, take};
ghost use Rattle.script.specs.Rules.{IsHeader};
ghost use Rattle.plain_heap.specs.Legal.{IsFirstIllegal, IsLegal};
ghost use Rattle.plain_heap.specs.State.{image, state_of};
ghost use Rattle.yardstick.specs.Kept.{state_kept};
ghost use Rattle.yardstick.specs.Setting.{setting_from};

use crate::bytes::byte_left;
use crate::kept::{Kept, MOST_ENTRIES};
use crate::legal::is_legal_entry;
use crate::live_buffer::LiveBuffer;
use crate::pages::is_mapped;
use crate::setting::Setting;
use plain_heap::Entry;
use script::Header;
use std::alloc::Global;
use umem_base::NoMemory;

/// What entries leave.
fn kept_after(alloc: Global, setting: &Setting, entries: &[Entry]) -> Result<Kept, NoMemory>
    requires { length entries.now ≤ MOST_ENTRIES }
    ensures { IfOk result (λ kept. state_kept setting.now kept ≡ state_of setting.now entries.now) }
{
    let mut kept = Kept::start(alloc);
    for entry in entries {
        kept.after_entry(alloc, setting, entry)?;
    }
    Ok(kept)
}

/// The number of the first entry that is not legal in a setting, and none where each is.
fn first_illegal_in(
    alloc: Global,
    setting: &Setting,
    entries: &[Entry],
) -> Result<Option<usize>, NoMemory>
    requires { length entries.now ≤ MOST_ENTRIES }
    ensures { IfOk result (λ first. MatchOption first (IsLegal setting.now entries.now)
        (IsFirstIllegal setting.now entries.now)) }
{
    let mut kept = Kept::start(alloc);
    for n in 0..entries.len() {
        if !is_legal_entry(alloc, setting, &kept, entries, n)? {
            return Ok(Some(n));
        }
        kept.after_entry(alloc, setting, &entries[n])?;
    }
    Ok(None)
}

/// The number of the first entry of a history that is not legal, and none where each is. What it asks of an entry is
/// what a plain allocator without magazines may answer, by the entries before it and the next one of its thread.
pub fn first_illegal(
    alloc: Global,
    header: &Header,
    guards: bool,
    entries: &[Entry],
) -> Result<Option<usize>, NoMemory>
    requires rules { IsHeader header.now }
    requires few { length entries.now ≤ MOST_ENTRIES }
    ensures { let setting = setting_from header.now guards in
        IfOk result (λ first. MatchOption first (IsLegal setting entries.now) (IsFirstIllegal setting entries.now)) }
{
    let setting = Setting::new(header, guards)?;
    first_illegal_in(alloc, &setting, entries)
}

/// The buffers that live after a history, the newest first.
pub fn live_buffers(
    alloc: Global,
    header: &Header,
    guards: bool,
    entries: &[Entry],
) -> Result<Vec<LiveBuffer>, NoMemory>
    requires rules { IsHeader header.now }
    requires few { length entries.now ≤ MOST_ENTRIES }
    ensures { IfOk result (λ buffers. buffers.items ≡ (state_of (setting_from header.now guards) entries.now).live) }
{
    let setting = Setting::new(header, guards)?;
    Ok(kept_after(alloc, &setting, entries)?.live)
}

/// The byte at an address after the first `n` entries of a history, or after all where it has no more. There is none
/// where the address is not mapped.
pub fn byte_at(
    alloc: Global,
    header: &Header,
    guards: bool,
    entries: &[Entry],
    address: u64,
    n: usize,
) -> Result<Option<u8>, NoMemory>
    requires rules { IsHeader header.now }
    requires few { length entries.now ≤ MOST_ENTRIES }
    ensures { let setting = setting_from header.now guards in
        IfOk result (λ byte. byte ≡ image setting (state_of setting (take n entries.now)) address) }
{
    let setting = Setting::new(header, guards)?;
    let kept = kept_after(alloc, &setting, &entries[..n.min(entries.len())])?;
    let at = u128::from(address);
    if is_mapped(&setting, &kept, at) {
        Ok(Some(byte_left(&setting, &kept.writes, at)))
    } else {
        Ok(None)
    }
}
