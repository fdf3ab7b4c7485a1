//! One trial: a script that a heap runs, with its history and its core compared with plain walks.

ghost use Rattle.std.specs.Prelude.{◌≤◌, length};
ghost use Rattle.script.specs.Rules.{IsHeader};
ghost use Rattle.yardstick.specs.declared.kept.TheConstants.{MOST_ENTRIES};

use crate::trials::cases::Cases;
use crate::trials::core_walk::{allocated, compare_core, core_byte};
use crate::trials::fault::{TrialFault, holds};
use crate::trials::plain_run::{PlainBuffer, PlainRun};
use crate::trials::steps::walk;
use crate::{Heap, run_alone};
use core_format::Core;
use plain_heap::Entry;
use script::{Header, Script, read_script};
use std::alloc::Global;
use umem_base::{NoMemory, SHARED_ROOT};
use umem_options::{read_debug, read_logging};
use yardstick::{LiveBuffer, MOST_ENTRIES, byte_at, first_illegal, live_buffers};

/// A script with the options that it runs with.
#[derive(Clone, Copy)]
pub struct Told<'a> {
    pub text: &'a [u8],
    pub debug: &'a [u8],
    pub logging: &'a [u8],
}

/// What of a live buffer both walks tell.
fn is_buffer(told: &LiveBuffer, plain: &PlainBuffer) -> bool {
    let held = told.held();
    told.address() == plain.address && held.size == plain.size && held.cache == plain.cache
}

/// Compares the live buffers: those of the yardstick, those of the plain heap, and the allocated ones of the core.
fn compare_live(
    alloc: Global,
    told: &[LiveBuffer],
    run: &PlainRun,
    core: &Core,
) -> Result<(), TrialFault> {
    let mut addresses = Vec::new(alloc);
    for buffer in told {
        addresses.push(buffer.address())?;
        let known = run.live.iter().any(|plain| is_buffer(buffer, plain));
        holds("a live buffer", addresses.len(), known)?;
    }
    addresses.sort()?;
    holds("the live buffers", told.len(), told.len() == run.live.len())?;
    let same = allocated(alloc, core, run)?.as_slice() == addresses.as_slice();
    holds("the allocated buffers of the core", told.len(), same)
}

/// The byte that a history left.
fn byte_left(
    alloc: Global,
    header: &Header,
    guards: bool,
    entries: &[Entry],
    address: u64,
) -> Result<Option<u8>, NoMemory>
    requires rules { IsHeader header.now }
    requires few { length entries.now ≤ MOST_ENTRIES }
{
    byte_at(alloc, header, guards, entries, address, entries.len())
}

/// Compares the first and the last byte of each live buffer.
fn compare_bytes(
    alloc: Global,
    header: &Header,
    guards: bool,
    entries: &[Entry],
    told: &[LiveBuffer],
    core: &Core,
) -> Result<(), TrialFault>
    requires rules { IsHeader header.now }
    requires few { length entries.now ≤ MOST_ENTRIES }
{
    for (number, buffer) in told.iter().enumerate() {
        let first = buffer.address();
        let last = first.wrapping_add(u64::from(buffer.held().size.saturating_sub(1)));
        let byte = byte_left(alloc, header, guards, entries, first)?;
        holds(
            "the first byte of the buffer",
            number,
            byte == core_byte(core, first),
        )?;
        let byte = byte_left(alloc, header, guards, entries, last)?;
        holds(
            "the last byte of the buffer",
            number,
            byte == core_byte(core, last),
        )?;
    }
    Ok(())
}

/// Compares a byte of each root word that is not zero, the lowest ones in turn.
fn compare_root_bytes(
    alloc: Global,
    header: &Header,
    guards: bool,
    entries: &[Entry],
    words: &[u64],
) -> Result<(), TrialFault>
    requires rules { IsHeader header.now }
    requires few { length entries.now ≤ MOST_ENTRIES }
{
    let mut address = SHARED_ROOT;
    for (number, word) in words.iter().enumerate() {
        if *word != 0 {
            let offset = number % 3;
            let at = address.wrapping_add(offset as u64);
            let told = byte_left(alloc, header, guards, entries, at)?;
            let byte = word.to_le_bytes()[offset];
            holds("a byte of the root word", number, told == Some(byte))?;
        }
        address = address.wrapping_add(8);
    }
    Ok(())
}

/// Compares the history of a run and its core with the yardstick and the plain heap, and tells what was met.
fn compare_run(
    alloc: Global,
    script: &Script,
    guards: bool,
    entries: &[Entry],
    core: &Core,
) -> Result<Cases, TrialFault>
    requires rules { IsHeader script.now.header }
    requires few { length entries.now ≤ MOST_ENTRIES }
{
    let header = &script.header;
    let illegal = first_illegal(alloc, header, guards, entries)?;
    holds(
        "an entry that is not legal",
        illegal.unwrap_or(0),
        illegal.is_none(),
    )?;
    let run = walk(alloc, script, guards, entries)?;
    compare_core(alloc, core, &run)?;
    let live = live_buffers(alloc, header, guards, entries)?;
    compare_live(alloc, &live, &run, core)?;
    compare_bytes(alloc, header, guards, entries, &live, core)?;
    compare_root_bytes(alloc, header, guards, entries, run.roots.words())?;
    Ok(run.met())
}

/// A run that was compared: the heap and its core, and what was met.
#[derive(Drop)]
pub struct Compared {
    pub heap: Heap,
    pub core: Core,
    pub met: Cases,
}

/// Runs a script by one owner, and compares what it did.
pub fn run_and_compare(alloc: Global, told: Told) -> Result<Compared, TrialFault> {
    let Ok(script) = read_script(alloc, told.text) else {
        return Err(TrialFault::Differs("no script", 0));
    };
    let options = read_debug(told.debug);
    let heap = run_alone(alloc, &script, &options, &read_logging(told.logging))?;
    let core = heap.snapshot(alloc)?;
    let entries = heap.history().as_slice();
    if entries.len() > MOST_ENTRIES {
        return Err(TrialFault::Differs("too many entries", entries.len()));
    }
    let count = core.entries as usize;
    holds("the entries", count, count == entries.len())?;
    let met = compare_run(alloc, &script, options.has_guards(), entries, &core)?;
    Ok(Compared { heap, core, met })
}
