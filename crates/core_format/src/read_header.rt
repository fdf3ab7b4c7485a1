ghost use Rattle.std.specs.Prelude.{◌≡◌, ◌<◌, ◌≤◌, ◌^◌, IfOk, IsTrue, OnOk};
ghost use Rattle.core_format.specs.Header.{HasFewCaches, has_audits, has_bit, has_known_flags, has_contents_log, header_at, header_rules, header_widths, headers_at, is_count, is_core_version, second_header_at, second_widths};
ghost use Rattle.core_format.specs.Sections.{ReadsItem};
ghost use Rattle.core_format.specs.Reader.{ReadsAs};

use crate::core_fault::CoreFault;
use crate::fault::Fault;
use crate::header::{Header, SecondHeader};
use crate::limits::{ALL_FLAGS, MOST_AUDITS};
use crate::reader::{Reader, rule};
use bitflags::Flags;
use case_table::{CLASS_COUNT, Layout, MOST_CACHES, MOST_CPUS, MOST_THREADS, take_fields};
use umem_base::arena_pages;
use umem_options::{
    DebugFlags, MOST_CONTENTS, MOST_FAILS, MOST_FRAMES, MOST_SAVED, MOST_TRANSACTIONS,
};

/// The bytes `UMEMCORE`, the lowest first.
pub const MAGIC: u64 = 0x4552_4f43_4d45_4d55;

fn header_layout() -> Layout<16>
    ensures { result ≡ header_widths }
{
    Layout::new([8, 4, 4, 4, 4, 4, 4, 4, 4, 4, 4, 4, 4, 4, 4, 8]).unwrap()
}

fn is_core_version(version: u32) -> bool
    ensures { result ≡ is_core_version version }
{
    version == 1 || version == 2
}

/// Tells whether a flag is among those of a header.
pub fn has_bit(bits: u32, flag: DebugFlags) -> bool
    ensures { result ≡ has_bit bits flag }
{
    let bit = u32::from(flag.bits());
    bits & bit == bit
}

fn has_known_flags(flags: u32) -> bool
    ensures value { result ≡ has_known_flags flags }
    ensures small { IsTrue result → flags ≤ ALL_FLAGS }
{
    flags <= ALL_FLAGS && (!has_bit(flags, DebugFlags::AUDIT) || has_bit(flags, DebugFlags::GUARDS))
}

fn is_count(least: u32, count: u32, most: u32) -> bool
    ensures value { result ≡ is_count least count most }
    ensures low { IsTrue result → least ≤ count }
    ensures high { IsTrue result → count ≤ most }
{
    least <= count && count <= most
}

fn has_audits(flags: u32, audits: u32) -> bool
    ensures { result ≡ has_audits flags audits }
{
    audits <= MOST_AUDITS && (audits == 0 || has_bit(flags, DebugFlags::AUDIT))
}

/// The first record of a core of either version.
#[tactic(auto, unfolding(crate::specs::Header::header_at))]
fn header(reader: &mut Reader) -> Result<Header, CoreFault>
    ensures read { ReadsItem result reader.new (header_at reader.old) }
    ensures few { IfOk result HasFewCaches }
{
    let start = reader.at();
    take_fields!(reader, &header_layout(), start =>
        magic, version, flags, frames, contents, cpus, caches, slabs, large, audits, trans_capacity, trans,
        fail_capacity, fails, next_chunk, entries);
    let header = Header {
        version: version as u32,
        flags: flags as u32,
        frames: frames as u32,
        contents: contents as u32,
        cpus: cpus as u32,
        caches: caches as u32,
        slabs: slabs as u32,
        large: large as u32,
        audits: audits as u32,
        trans_capacity: trans_capacity as u32,
        trans: trans as u32,
        fail_capacity: fail_capacity as u32,
        fails: fails as u32,
        next_chunk: next_chunk as u32,
        entries,
    };
    rule(magic == MAGIC, start, Fault::BadMagic)?;
    check_header(&header, start)?;
    Ok(header)
}

/// The rules of the fields behind the magic.
#[tactic(auto, unfolding(crate::specs::Header::header_rules))]
fn check_header(header: &Header, start: usize) -> Result<(), CoreFault>
    requires { start < 2 ^ 63 }
    ensures rules { ReadsAs (λ _. tt) result (header_rules header.now start) }
    ensures few { OnOk result (HasFewCaches header.now) }
{
    let pages = arena_pages(header.version) as u32;
    rule(
        is_core_version(header.version),
        start + 8,
        Fault::BadVersion,
    )?;
    rule(has_known_flags(header.flags), start + 12, Fault::BadFlags)?;
    rule(header.frames <= MOST_FRAMES, start + 16, Fault::BadLength)?;
    rule(
        header.contents <= MOST_CONTENTS,
        start + 20,
        Fault::BadLength,
    )?;
    rule(
        is_count(1, header.cpus, MOST_CPUS),
        start + 24,
        Fault::BadLength,
    )?;
    rule(
        is_count(CLASS_COUNT, header.caches, MOST_CACHES),
        start + 28,
        Fault::BadLength,
    )?;
    rule(header.slabs <= pages, start + 32, Fault::BadLength)?;
    rule(header.large <= pages, start + 36, Fault::BadLength)?;
    rule(
        has_audits(header.flags, header.audits),
        start + 40,
        Fault::BadLength,
    )?;
    rule(
        header.trans_capacity <= MOST_TRANSACTIONS,
        start + 44,
        Fault::BadLength,
    )?;
    rule(
        header.trans <= header.trans_capacity,
        start + 48,
        Fault::BadLength,
    )?;
    rule(
        header.fail_capacity <= MOST_FAILS,
        start + 52,
        Fault::BadLength,
    )?;
    rule(
        header.fails <= header.fail_capacity,
        start + 56,
        Fault::BadLength,
    )
}

fn second_layout() -> Layout<3>
    ensures { result ≡ second_widths }
{
    Layout::new([4, 4, 4]).unwrap()
}

fn has_contents_log(flags: u32, capacity: u32) -> bool
    ensures { result ≡ has_contents_log flags capacity }
{
    capacity <= MOST_SAVED && (capacity == 0 || has_bit(flags, DebugFlags::AUDIT))
}

#[tactic(auto, unfolding(crate::specs::Header::second_header_at))]
fn second_header(reader: &mut Reader, header: &Header) -> Result<SecondHeader, CoreFault>
    ensures { ReadsItem result reader.new (second_header_at header.now reader.old) }
{
    let start = reader.at();
    take_fields!(reader, &second_layout(), start => threads, contents_capacity, saved);
    let second = SecondHeader {
        threads: threads as u32,
        contents_capacity: contents_capacity as u32,
        saved: saved as u32,
    };
    rule(
        is_count(1, second.threads, MOST_THREADS),
        start,
        Fault::BadLength,
    )?;
    let has_log = has_contents_log(header.flags, second.contents_capacity);
    rule(has_log, start + 4, Fault::BadLength)?;
    rule(
        second.saved <= second.contents_capacity,
        start + 8,
        Fault::BadLength,
    )?;
    Ok(second)
}

/// Both records of the header. A core of version 1 has the first alone.
#[tactic(auto, unfolding(crate::specs::Header::headers_at))]
pub fn headers(reader: &mut Reader) -> Result<(Header, SecondHeader), CoreFault>
    ensures read { ReadsItem result reader.new (headers_at reader.old) }
    ensures few { IfOk result (λ headers. HasFewCaches headers.0) }
{
    let header = header(reader)?;
    if header.version == 1 {
        let none = SecondHeader {
            threads: 0,
            contents_capacity: 0,
            saved: 0,
        };
        return Ok((header, none));
    }
    let second = second_header(reader, &header)?;
    Ok((header, second))
}
