//! What `bench/core.sh` times: cores of version 2 that are made here, read and written. For `bench/views.sh` it prints
//! their bytes.
#![tactic(auto)]

ghost use Rattle.std.specs.Prelude.{◌≤◌};

use case_table::{CLASS_COUNT, class_def};
use core_format::{read_core, write_core};
use std::alloc::Global;
use std::{env, io};
use umem_base::{ARENA_BASE, NoMemory, PAGE_BYTES, Sink, StdSink, write_whole};

/// The slabs of a core, as many as the arena holds.
const SLABS: u32 = 4096;

/// How often a core is read or written by the words that end in `ten`.
const TIMES: u32 = 10;

/// What a core is like: with audit and guards, all chunks are allocated and most have an audit of six frames; without
/// them, all chunks stand in the slabs' lists, or all are allocated.
#[derive(Clone, Copy, PartialEq, Eq)]
enum Kind {
    Audited,
    Plain,
    Allocated,
}

fn main(rt: HostRuntime) -> io::Result<()> {
    let mut out = StdSink::new(rt.stdout());
    for word in env::args(&rt)?.skip(1) {
        match printed_kind(word.as_str()) {
            Some(kind) => print_core(&mut out, rt.alloc(), kind),
            None => println!(rt; "{word} {}", done_by(rt.alloc(), word.as_str()))?,
        }
    }
    Ok(())
}

/// The core whose bytes a word asks for.
fn printed_kind(word: &str) -> Option<Kind> {
    match word {
        "audited_bytes" => Some(Kind::Audited),
        "plain_bytes" => Some(Kind::Plain),
        "allocated_bytes" => Some(Kind::Allocated),
        _ => None,
    }
}

/// Does what any other word names, and tells how often it was done.
fn done_by(alloc: Global, word: &str) -> u32 {
    match word {
        "audited" => read_often(alloc, Kind::Audited, 1),
        "audited_ten" => read_often(alloc, Kind::Audited, TIMES),
        "plain" => read_often(alloc, Kind::Plain, 1),
        "plain_ten" => read_often(alloc, Kind::Plain, TIMES),
        "audited_write" => write_often(alloc, Kind::Audited, 1),
        "audited_write_ten" => write_often(alloc, Kind::Audited, TIMES),
        "plain_write" => write_often(alloc, Kind::Plain, 1),
        "plain_write_ten" => write_often(alloc, Kind::Plain, TIMES),
        _ => 0,
    }
}

/// Numbers in four bytes each.
fn put(out: &mut Vec<u8>, numbers: &[u32]) -> Result<(), NoMemory> {
    for number in numbers {
        out.extend_from_slice(&number.to_le_bytes())?;
    }
    Ok(())
}

/// A number in eight bytes.
fn put_long(out: &mut Vec<u8>, number: u64) -> Result<(), NoMemory> {
    out.extend_from_slice(&number.to_le_bytes())?;
    Ok(())
}

fn put_zeros(out: &mut Vec<u8>, count: u32) -> Result<(), NoMemory> {
    for _ in 0..count {
        out.push(0)?;
    }
    Ok(())
}

fn put_caches(alloc: Global, out: &mut Vec<u8>) -> Result<(), NoMemory> {
    for class in 0..CLASS_COUNT {
        let def = class_def(alloc, class)?;
        let name = def.name.as_slice();
        out.extend_from_slice(name)?;
        for _ in name.len()..32 {
            out.push(0)?;
        }
        put(out, &[def.size, def.align, 0, 256])?;
    }
    Ok(())
}

/// The page of a slab, in which each chunk begins with the address of the next one.
fn put_page(out: &mut Vec<u8>, slab: u32, is_audited: bool) -> Result<(), NoMemory> {
    let base = ARENA_BASE + PAGE_BYTES * u64::from(slab);
    let words: u64 = if is_audited { 4 } else { 1 };
    for index in 0..512 {
        let is_first = index % words == 0;
        put_long(
            out,
            if is_first {
                base + 8 * (index + words)
            } else {
                0
            },
        )?;
    }
    Ok(())
}

/// Slabs of so many chunks, of which none or all stand in the list.
fn put_slabs(out: &mut Vec<u8>, rounds: u32, is_listed: bool) -> Result<(), NoMemory>
    requires { rounds ≤ 512 }
{
    let listed = if is_listed { rounds } else { 0 };
    for slab in 0..SLABS {
        let first = slab * rounds;
        put_long(out, ARENA_BASE + PAGE_BYTES * u64::from(slab))?;
        put(out, &[0, 0, first, listed])?;
        for index in 0..listed {
            put(out, &[first + index])?;
        }
    }
    Ok(())
}

fn put_audits(out: &mut Vec<u8>, audits: u32) -> Result<(), NoMemory> {
    for audit in 0..audits {
        put(out, &[audit, 0, audit, 0, 6])?;
        for frame in 0..6 {
            put_long(out, 0x40_1000 + frame)?;
        }
    }
    Ok(())
}

/// A core of slabs of the smallest class, where a root word points to the first chunk and each chunk to the next one.
fn make_core(alloc: Global, kind: Kind) -> Result<Vec<u8>, NoMemory> {
    let is_audited = kind == Kind::Audited;
    let flags = if is_audited { 5 } else { 0 };
    let rounds: u32 = if is_audited { 128 } else { 512 };
    let audits = if is_audited { 500_000 } else { 0 };
    let mut out = Vec::new(alloc);
    out.extend_from_slice(b"UMEMCORE")?;
    put(&mut out, &[2, flags, 15, 256, 1, CLASS_COUNT, SLABS, 0])?;
    put(&mut out, &[audits, 0, 0, 0, 0, SLABS * rounds])?;
    put_long(&mut out, 1_000_000)?;
    put(&mut out, &[1, 0, 0])?;
    put_long(&mut out, ARENA_BASE)?;
    put_zeros(&mut out, 2 * 4096 - 8)?;
    put_caches(alloc, &mut out)?;
    put_slabs(&mut out, rounds, kind == Kind::Plain)?;
    put_zeros(&mut out, 32 * 12)?;
    put_audits(&mut out, audits)?;
    for slab in 0..SLABS {
        put_page(&mut out, slab, is_audited)?;
    }
    Ok(out)
}

/// Prints the bytes of a core, as far as they are taken.
fn print_core<K: Sink>(out: &mut K, alloc: Global, kind: Kind) {
    if let Ok(bytes) = make_core(alloc, kind) {
        let _ = write_whole(out, &bytes);
    }
}

/// Makes a core and reads it so many times, and tells how often it was one.
fn read_often(alloc: Global, kind: Kind, times: u32) -> u32 {
    let Ok(bytes) = make_core(alloc, kind) else {
        return 0;
    };
    let mut read = 0;
    for time in 0..times {
        if read_core(alloc, &bytes).is_err() {
            return read;
        }
        read = time + 1;
    }
    read
}

/// Makes a core, reads it once and writes it so many times, and tells how often as many bytes came again.
fn write_often(alloc: Global, kind: Kind, times: u32) -> u32 {
    let Ok(bytes) = make_core(alloc, kind) else {
        return 0;
    };
    let Ok(core) = read_core(alloc, &bytes) else {
        return 0;
    };
    let mut written = 0;
    for time in 0..times {
        let Ok(again) = write_core(alloc, &core) else {
            return written;
        };
        if again.len() == bytes.len() {
            written = time + 1;
        }
    }
    written
}
