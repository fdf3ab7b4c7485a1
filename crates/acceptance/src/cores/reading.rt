//! Cores that are read and written, and the first fault of bytes that are none.

use crate::cores::changes::{changed, row};
use crate::cores::sample::core_bytes;
use crate::cores::samples::{
    ALL_FREED, ALL_SLABS, CONSTRUCTED, CONTENTS, CROWD, CYCLE, FULL, GUARDED, HALF_USED, LARGEST,
    MIXED, NEW_FIRST, NEW_SECOND, ONE_BUFFER, ONE_FREED, PLAIN, RETURNED, SAVED, SESSION, TIES,
    TWO_CPUS, TWO_LARGE, TWO_THREADS,
};
use core_format::{Core, CoreFault, Fault, read_core, write_core};
use std::alloc::Global;
use std::process::Abort;
use std::test::Fail;
use umem_base::{NoMemory, Text, put_decimal};

// Each rule of the format broken alone, in the core that has something in each section.
const HEADER: &str = ": core
0=58 : 0 bad-magic
8=03 : 8 bad-version
12=08 : 12 bad-flags
12=01 : 12 bad-flags
16=21 : 16 bad-length
20=0110 : 20 bad-length
24=11 : 24 bad-length
24=00 : 24 bad-length
28=1f : 28 bad-length
28=61 : 28 bad-length
32=0110 : 32 bad-length
36=0110 : 36 bad-length
40=010008 : 40 bad-length
12=06 : 40 bad-length
44=010010 : 44 bad-length
48=05 : 48 bad-length
52=abaa2a : 52 bad-length
56=05 : 56 bad-length
72=00 : 72 bad-length
72=21 : 72 bad-length
76=abaa2a : 76 bad-length
80=05 : 80 bad-length";

const CACHES: &str = "8276=58 : 8276 bad-cache
8307=01 : 8276 bad-cache
8308=09 : 8308 bad-cache
8312=10 : 8312 bad-cache
8320=0000 : 8320 bad-cache
9812=436f6e6e : 9812 bad-cache
9812=00 : 9812 bad-cache
9817=01 : 9812 bad-cache
9812=756d656d5f616c6c6f635f78 : 9812 bad-cache
9812=756d656d5f6f76657273697a65 : 9812 bad-cache
9860=636f6e6e : 9860 bad-cache
9844=00 : 9844 bad-cache
9844=0110 : 9844 bad-cache
9848=18 : 9848 bad-cache
9856=0101 : 9856 bad-cache";

const SLABS: &str = "9909=08 : 9908 bad-slab
9910=00 : 9908 bad-slab
9911=01 : 9908 bad-slab
9941=00 : 9940 unsorted
9916=1f : 9940 overlap
9916=22 : 9916 bad-slab
9940=00f00f01 9948=1f : 9948 bad-slab
9920=04 : 9920 bad-slab
9920=18 : 9920 bad-slab
9956=c8 : 9956 bad-slab
9956=54 : 9956 bad-slab
9928=56 : 9928 bad-length
9932=55 : 9932 bad-round
9936=03 : 9936 round-twice
9936=02 : 9936 unsorted
9969=08 : 9968 bad-span
9970=00 : 9968 bad-span
9976=0010 : 9976 bad-span
9979=01 : 9976 bad-span
9969=10 : 9968 overlap";

const PLACES: &str = "10000=10 : 10000 bad-length
10004=56 : 10004 bad-round
10004=03 : 10004 round-twice
10012=01 : 10012 round-twice
10392=09 : 10392 bad-length
10396=00 : 10396 bad-round
10396=5a : 10396 round-twice
10400=5b : 10400 round-twice";

const RECORDS: &str = "10460=c7 : 10460 bad-audit
10488=00 : 10488 bad-audit
10464=20 : 10464 bad-audit
10468=32 : 10468 bad-audit
10476=03 : 10476 bad-audit
10524=03 : 10524 bad-log
10524=00 : 10524 bad-log
10528=01 : 10528 bad-log
10532=20 : 10532 bad-log
10536=c8 : 10536 bad-log
10542=00 : 10540 bad-log
10543=01 : 10540 bad-log
10548=32 : 10548 bad-log
10592=01 : 10592 bad-log
10556=03 : 10556 bad-log
10604=20 : 10604 bad-log
10608=22 : 10608 bad-log
10612=00 : 10612 bad-log
10613=11 : 10612 bad-log
10620=32 : 10620 bad-log
10644=03 : 10644 bad-log
10652=32 : 10652 bad-log
10670=05 : 10670 bad-log
10660=c8 : 10660 bad-log
10664=05 : 10664 bad-log
12=05 10664=0101 : 10664 bad-log
12=05 10664=0001 : 10924 bad-log
add=00 : 27070 trailing-bytes";

// One buffer: cut in a slab's head, in its list, in a count and in the page, and with a byte more.
const OF_ONE: &str = ": core
cut=5590 : 5576 short
cut=5599 : 5576 short
cut=5602 : 5600 short
cut=5937 : 5936 short
cut=10415 : 6320 short
add=00 : 10416 trailing-bytes";

const OF_FREED: &str = ": core
5956=01 : 5956 round-twice
5952=02 : 5960 round-twice";

const OF_LARGE: &str = ": core
5592=00001000 : 5592 unsorted
5577=10 5592=00001000 : 5592 unsorted
5592=00101000 : 5592 overlap
5600=01f03f : 5600 bad-span";

const OF_SECOND: &str = ": core
cut=8300 : 8276 short
cut=80 : 72 short
72=00 : 72 bad-length
8=03 : 8 bad-version
76=01 : 76 bad-length
40=01 : 40 bad-length
36=0010 : 9812 bad-span
36=0110 : 36 bad-length";

// What a header may claim at most and one more, where the sections do not have it.
const OF_FIRST: &str = ": core
32=0004 : 5576 bad-slab
32=0104 : 32 bad-length
36=0004 : 5576 bad-span
36=0104 : 36 bad-length
12=05 40=000008 : 5960 short
12=05 40=010008 : 40 bad-length
44=000010 52=aaaa2a : core
44=010010 : 44 bad-length
52=abaa2a : 52 bad-length";

const OF_LARGEST: &str = ": core
16=21 : 16 bad-length
20=0110 : 20 bad-length
24=11 : 24 bad-length
28=61 : 28 bad-length
44=010010 : 44 bad-length
52=abaa2a : 52 bad-length
72=21 : 72 bad-length
76=abaa2a : 76 bad-length";

const OF_ALL_SLABS: &str = ": 108500 short
32=0110 : 32 bad-length
108108=01 : 108108 bad-slab";

// A depot's round that stands in a list, in the loaded and in the previous magazine, and in the depot itself.
const OF_ALL_FREED: &str = ": core
6148=20 : 6148 round-twice
6204=1e : 6204 round-twice
6148=0f : 6148 round-twice
6204=0d : 6204 round-twice
6148=55 : 6148 bad-round
5832=20 : 5832 round-twice
5844=1e : 5844 round-twice";

const OF_TWO_CPUS: &str = ": core
6212=00 : 6212 round-twice";

const OF_SAVED: &str = ": core
12=04 : 76 bad-length
cut=10211 : 10196 short
cut=10213 : 10212 short
10196=05 : 10196 bad-log
10204=01 : 10204 bad-log
10208=0101 : 10208 bad-log";

// A header that claims all audits that a core may have, with nothing behind it.
const ALONE: &str = "text UMEMCORE
u32 1 5 15 256 1 32 0 0 524288 0 0 0 0 0
u64 0";

/// Puts an offset and the word of a fault.
fn put_fault(out: &mut Text, offset: u64, fault: Fault) -> Result<(), NoMemory> {
    put_decimal(out, offset, 0)?;
    out.push_slice(b" ")?;
    out.push_slice(fault.word())
}

/// Puts whether the core is written as the bytes that it was read from.
fn put_core(out: &mut Text, core: &Core, bytes: &Vec<u8>) -> Result<(), NoMemory> {
    let written = write_core(*bytes.allocator(), core)?;
    out.push_slice(if written == *bytes {
        b"core".as_slice()
    } else {
        b"other bytes"
    })
}

/// What is told of bytes: `core` where they are one that is written as they stand, and else the first fault.
fn told(alloc: Global, bytes: &Vec<u8>) -> Result<Text, NoMemory> {
    let mut out = Text::new(alloc);
    let put = match read_core(alloc, bytes) {
        Ok(core) => put_core(&mut out, &core, bytes),
        Err(CoreFault::Bad { offset, fault }) => put_fault(&mut out, offset, fault),
        Err(CoreFault::NoMemory) => Err(NoMemory),
    };
    put?;
    Ok(out)
}

/// Compares what is told of the bytes after each row's changes.
fn tells(rt: &impl Abort, alloc: Global, good: &Vec<u8>, table: &str) -> Result<(), Fail> {
    for line in table.lines() {
        let (changes, want) = row(line)?;
        let said = told(alloc, &changed(good, changes)?)?;
        assert!(rt; said.as_slice() == want.as_bytes(), "{line}");
    }
    Ok(())
}

#[test]
fn tells_each_broken_rule(rt: HostRuntime) -> Result<(), Fail> {
    let good = core_bytes(rt.alloc(), FULL)?;
    for table in [HEADER, CACHES, SLABS, PLACES, RECORDS] {
        tells(&rt, rt.alloc(), &good, table)?;
    }
    Ok(())
}

#[test]
fn tells_of_small_cores(rt: HostRuntime) -> Result<(), Fail> {
    for (text, table) in [
        (ONE_BUFFER, OF_ONE),
        (ONE_FREED, OF_FREED),
        (TWO_LARGE, OF_LARGE),
        (NEW_FIRST, OF_FIRST),
        (NEW_SECOND, OF_SECOND),
        (LARGEST, OF_LARGEST),
        (ALL_SLABS, OF_ALL_SLABS),
        (ALL_FREED, OF_ALL_FREED),
        (TWO_CPUS, OF_TWO_CPUS),
        (SAVED, OF_SAVED),
        (ALONE, ": 72 short"),
        ("", ": 0 short"),
    ] {
        tells(&rt, rt.alloc(), &core_bytes(rt.alloc(), text)?, table)?;
    }
    Ok(())
}

#[test]
fn reads_what_it_writes(rt: HostRuntime) -> Result<(), Fail> {
    for (text, length) in [
        (ONE_BUFFER, 10_416),
        (ONE_FREED, 10_420),
        (NEW_FIRST, 5960),
        (NEW_SECOND, 10_196),
        (FULL, 27_070),
    ] {
        let bytes = core_bytes(rt.alloc(), text)?;
        assert_eq!(rt; bytes.len(), length);
    }
    for text in [
        NEW_FIRST,
        SESSION,
        CYCLE,
        TWO_THREADS,
        MIXED,
        PLAIN,
        GUARDED,
        CONSTRUCTED,
        HALF_USED,
        CROWD,
        TIES,
        CONTENTS,
        RETURNED,
    ] {
        tells(&rt, rt.alloc(), &core_bytes(rt.alloc(), text)?, ": core")?;
    }
    Ok(())
}

/// Tells whether bytes that are cut at each fourth place of a range end too early.
fn are_short(alloc: Global, bytes: &[u8], first: usize, past: usize) -> bool {
    for count in (first..past).step_by(4) {
        let Some(part) = bytes.get(..count) else {
            return false;
        };
        if !matches!(
            read_core(alloc, part),
            Err(CoreFault::Bad {
                fault: Fault::Short,
                ..
            })
        ) {
            return false;
        }
    }
    true
}

// All but the insides of the root segment and of the page, which are one record each.
#[test]
fn tells_where_bytes_end(rt: HostRuntime) -> Result<(), Fail> {
    let freed = core_bytes(rt.alloc(), ONE_FREED)?;
    for (first, past) in [(0, 76), (4164, 6328), (10_412, 10_420)] {
        assert!(rt; are_short(rt.alloc(), &freed, first, past), "from {first}");
    }
    Ok(())
}
