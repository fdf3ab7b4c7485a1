//! Worked histories: the yardstick finds them legal, and tells the buffers and bytes that they leave.

ghost use Rattle.std.specs.Prelude.{◌≤◌, IfOk, length};
ghost use Rattle.script.specs.Rules.{IsHeader};
ghost use Rattle.yardstick.specs.declared.kept.TheConstants.{MOST_ENTRIES};

use crate::fault::SampleFault;
use crate::told_entries::{Changed, script_of, told_entries};
use plain_heap::Entry;
use script::{Header, read_script};
use std::alloc::Global;
use std::process::Abort;
use std::str::from_utf8;
use std::test::Fail;
use umem_base::{NoMemory, Text, put_decimal, put_hex, read_decimal, read_hex};
use yardstick::{LiveBuffer, MOST_ENTRIES, byte_at, first_illegal, live_buffers};

/// The calls of a history and a line for each entry; the buffers that live after it, the newest first, each with its
/// address, requested size and cache; bytes from an address on after so many entries, where `--` is one that is not
/// mapped.
struct Row {
    guards: bool,
    calls: &'static str,
    lines: &'static str,
    live: &'static str,
    bytes: &'static str,
}

const ROWS: [Row; 13] = [
    Row {
        guards: true,
        calls: "0 alloc $1 24",
        lines: "grow umem_alloc_24 100000
ok 100000",
        live: "100000 24 2
",
        bytes: "0 1000 0000000000000000
0 100000 ----
1 100000 efbeaddeefbeaddeefbeaddeefbeaddeefbeaddeefbeadde
2 1008 0000100000000000
2 100000 fecaddbafecaddbafecaddbafecaddbafecaddbafecaddba
2 100018 bbfaedfe891700000000004000000000edc810e100000000
2 100030 efbeaddeefbeaddeefbeaddeefbeaddeefbeaddeefbeadde
2 100048 cefaedfecefaedfe4000004000000000aef4eeb400000000
2 100ff0 00000000000000000000000000000000--",
    },
    Row {
        guards: true,
        calls: "0 alloc $1 24
0 free $1 24",
        lines: "grow umem_alloc_24 100000
ok 100000
ok",
        live: "",
        bytes: "3 1008 0000000000000000
3 100000 efbeaddeefbeaddeefbeaddeefbeaddeefbeaddeefbeadde
3 100018 cefaedfecefaedfe0000004000000000eef4eeb400000000",
    },
    Row {
        guards: true,
        calls: "0 alloc $1 20",
        lines: "grow umem_alloc_24 100000
ok 100000",
        live: "100000 20 2
",
        bytes: "2 100010 fecaddbabbcaddbacefaedfe9d130000",
    },
    Row {
        guards: true,
        calls: "0 alloc $1 4096
0 alloc $2 4097",
        lines: "grow umem_alloc_4096 100000
ok 100000
ok 109000",
        live: "109000 4097 -
100000 4096 31
",
        bytes: "3 100ffc fecaddbabbfaedfe01b00f00
3 108ffe 000000
2 109000 --
3 109000 00
3 10afff 00--",
    },
    Row {
        guards: true,
        calls: "0 alloc $1 0
0 free $1 0",
        lines: "null
null",
        live: "",
        bytes: "2 1008 0000000000000000
2 100000 --",
    },
    Row {
        guards: true,
        calls: COPIED,
        lines: OF_COPIED,
        live: "",
        bytes: "3 1010 0000100000000000
6 1018 0000100000000000
7 1010 0000000000000000
8 1018 0000100000000000",
    },
    Row {
        guards: true,
        calls: "0 alloc $1 24
0 free $1 16
0 free $1 24",
        lines: "grow umem_alloc_24 100000
ok 100000
badsize
ok",
        live: "",
        bytes: "3 1008 0000100000000000",
    },
    Row {
        guards: true,
        calls: "0 alloc $1 24
0 store $1 24 41
0 free $1 24",
        lines: "grow umem_alloc_24 100000
ok 100000
ok
redzone",
        live: "100000 24 2
",
        bytes: "4 1008 0000100000000000
4 100014 fecaddba41faedfe",
    },
    Row {
        guards: true,
        calls: "0 alloc $1 20
0 store $1 24 41
0 free $1 20",
        lines: "grow umem_alloc_24 100000
ok 100000
ok
redzone",
        live: "100000 20 2
",
        bytes: "4 100014 bbcaddba41faedfe",
    },
    Row {
        guards: true,
        calls: "0 alloc $1 24
0 copy $2 $1
0 free $1 24
0 store $2 8 41
0 alloc $3 24",
        lines: "grow umem_alloc_24 100000
ok 100000
ok
ok
ok
ok 100000 modified 8",
        live: "100000 24 2
",
        bytes: "5 100000 efbeaddeefbeadde41beaddeefbeaddeefbeaddeefbeadde
6 100000 fecaddbafecaddbafecaddbafecaddbafecaddbafecaddba",
    },
    Row {
        guards: true,
        calls: REAPED,
        lines: OF_REAPED,
        live: "100000 8 0
",
        bytes: "5 100000 --
6 100000 --
8 100000 fecaddbafecaddbabbfaedfed90700004015004000000000addd10e100000000
9 1018 0000100000000000",
    },
    Row {
        guards: true,
        calls: "0 alloc $1 24
0 link $1 8 $1
0 load $2 $1 8
0 load $3 $1 65535
0 load $4 $5 0
0 clear $1",
        lines: "grow umem_alloc_24 100000
ok 100000
ok
word 100000
fault
null
ok",
        live: "100000 24 2
",
        bytes: "7 100008 0000100000000000
7 1008 00000000000000000000100000000000",
    },
    Row {
        guards: false,
        calls: "0 alloc $1 24
0 store $1 24 41
0 zalloc $2 20
0 free $1 24",
        lines: "grow umem_alloc_24 100000
ok 100000
ok
ok 100018
ok",
        live: "100018 20 2
",
        bytes: "2 100000 0000000000000000
3 100017 004100
4 100017 000000",
    },
];

// A buffer is freed through a copy of its address, and handed out again.
const COPIED: &str = "0 alloc $1 24
0 copy $2 $1
0 free $1 24
0 free $2 24
0 alloc $3 24
0 free $2 24
0 free $3 24";

const OF_COPIED: &str = "grow umem_alloc_24 100000
ok 100000
ok
ok
dup
ok 100000
ok
dup";

// Lines in place of those with these numbers, each of which makes its own entry the first that is not legal.
const NOT_COPIED: &str = "0 grow umem_alloc_24 101000
0 grow umem_alloc_24 100800
0 shrink umem_alloc_24 100000
1 ok 100000 redzone
1 ok 100000 modified 0
2 null
3 dup
3 badsize
4 ok
4 badaddr
5 ok 100000 modified 0
5 ok 100018
5 nospace
6 badaddr
6 dup
7 ok
7 null";

// A buffer is freed, its slab given back, and the pages taken for another class.
const REAPED: &str = "0 alloc $1 24
0 copy $3 $1
0 free $1 24
0 reap
0 alloc $2 8
0 free $3 24";

const OF_REAPED: &str = "grow umem_alloc_24 100000
ok 100000
ok
ok
shrink umem_alloc_24 100000
ok
grow umem_alloc_8 100000
ok 100000
badsize";

const NOT_REAPED: &str = "0 grow umem_alloc_24 ff000
0 grow umem_alloc_24 500000
1 ok 100000 redzone
1 ok 100000 modified 16
2 fault
3 redzone
3 null
4 shrink umem_alloc_24 101000
4 shrink umem_alloc_32 100000
4 grow umem_alloc_24 100000
5 null
6 grow umem_alloc_8 101000
6 shrink umem_alloc_24 100000
7 ok 100000 modified 0
7 ok 100000 redzone
8 dup
8 ok";

fn rows() -> &'static [Row] {
    &ROWS
}

/// The calls of a history, and a line for each entry.
#[derive(Clone, Copy)]
struct Told<'a> {
    guards: bool,
    calls: &'a str,
    lines: &'a str,
}

fn told_by(row: &Row) -> Told<'static> {
    Told {
        guards: row.guards,
        calls: row.calls,
        lines: row.lines,
    }
}

/// A header that keeps the rules, and entries.
#[derive(Drop)]
struct Worked {
    header: Header,
    entries: Vec<Entry>,
}

/// The history that is told, with one line changed.
fn history_of(alloc: Global, told: Told, change: Option<Changed>) -> Result<Worked, SampleFault>
    ensures rules { IfOk result (λ worked. IsHeader worked.header) }
    ensures few { IfOk result (λ worked. length worked.entries.items ≤ MOST_ENTRIES) }
{
    let text = script_of(alloc, told.calls)?;
    let Ok(script) = read_script(alloc, text.as_slice()) else {
        return Err(SampleFault::BadLine);
    };
    let entries = told_entries(alloc, &script, told.lines, change)?;
    if entries.len() > MOST_ENTRIES {
        return Err(SampleFault::BadLine);
    }
    Ok(Worked {
        header: script.header,
        entries,
    })
}

/// The number of the first entry that is not legal.
fn illegal_of(
    alloc: Global,
    told: Told,
    change: Option<Changed>,
) -> Result<Option<usize>, SampleFault> {
    let history = history_of(alloc, told, change)?;
    Ok(first_illegal(alloc, &history.header, told.guards, &history.entries)?)
}

fn put_live(out: &mut Text, buffer: &LiveBuffer) -> Result<(), NoMemory> {
    put_hex(out, buffer.address(), 0)?;
    out.push_slice(b" ")?;
    put_decimal(out, u64::from(buffer.held().size), 0)?;
    match buffer.held().cache {
        Some(cache) => {
            out.push_slice(b" ")?;
            put_decimal(out, u64::from(cache), 0)?;
        }
        None => out.push_slice(b" -")?,
    }
    out.push_slice(b"\n")
}

/// The live buffers, each in a line.
fn put_all_live(out: &mut Text, buffers: &[LiveBuffer]) -> Result<(), NoMemory> {
    for buffer in buffers {
        put_live(out, buffer)?;
    }
    Ok(())
}

fn live_of(alloc: Global, told: Told) -> Result<Text, SampleFault> {
    let history = history_of(alloc, told, None)?;
    let buffers = live_buffers(alloc, &history.header, told.guards, &history.entries)?;
    let mut out = Text::new(alloc);
    put_all_live(&mut out, &buffers)?;
    Ok(out)
}

/// Appends the two digits of a byte.
fn put_byte(out: &mut Text, byte: Option<u8>) -> Result<(), NoMemory> {
    match byte {
        None => out.push_slice(b"--"),
        Some(byte) => {
            put_hex(out, u64::from(byte >> 4), 0)?;
            put_hex(out, u64::from(byte & 15), 0)
        }
    }
}

/// A line of bytes: after how many entries, from which address on, and how many.
#[derive(Clone, Copy)]
struct Range {
    count: usize,
    address: u64,
    length: u64,
}

/// The range of a line, and the digits of its bytes.
fn bounds(line: &str) -> Result<(Range, &str), SampleFault> {
    let (count, rest) = line.split_once(' ').ok_or(SampleFault::BadLine)?;
    let (address, digits) = rest.split_once(' ').ok_or(SampleFault::BadLine)?;
    let count = usize::try_from(read_decimal(count.as_bytes())?)
        .ok()
        .ok_or(SampleFault::BadLine)?;
    let range = Range {
        count,
        address: read_hex(address.as_bytes())?,
        length: digits.len() as u64 / 2,
    };
    Ok((range, digits))
}

/// Appends the bytes of a range.
fn put_range(
    out: &mut Text,
    header: &Header,
    guards: bool,
    entries: &[Entry],
    range: Range,
) -> Result<(), NoMemory>
    requires rules { IsHeader header.now }
    requires few { length entries.now ≤ MOST_ENTRIES }
{
    let alloc = out.allocator();
    for index in 0..range.length {
        let address = range.address.wrapping_add(index);
        let byte = byte_at(alloc, header, guards, entries, address, range.count)?;
        put_byte(out, byte)?;
    }
    Ok(())
}

fn bytes_of(alloc: Global, told: Told, range: Range) -> Result<Text, SampleFault> {
    let history = history_of(alloc, told, None)?;
    let mut out = Text::new(alloc);
    put_range(
        &mut out,
        &history.header,
        told.guards,
        &history.entries,
        range,
    )?;
    Ok(out)
}

#[test]
fn finds_histories_legal(rt: HostRuntime) -> Result<(), Fail> {
    for row in rows() {
        let first = illegal_of(rt.alloc(), told_by(row), None)?;
        assert!(rt; first.is_none(), "{}", row.lines);
        let live = live_of(rt.alloc(), told_by(row))?;
        assert!(rt; live.as_slice() == row.live.as_bytes(), "{}", row.lines);
    }
    Ok(())
}

/// Compares the bytes that a history leaves.
fn are_left(rt: &impl Abort, alloc: Global, told: Told, table: &str) -> Result<(), Fail> {
    for line in table.lines() {
        let (range, digits) = bounds(line)?;
        let said = bytes_of(alloc, told, range)?;
        assert!(rt; said.as_slice() == digits.as_bytes(), "{line}");
    }
    Ok(())
}

#[test]
fn tells_bytes(rt: HostRuntime) -> Result<(), Fail> {
    for row in rows() {
        are_left(&rt, rt.alloc(), told_by(row), row.bytes)?;
    }
    Ok(())
}

/// The row of those calls with one line changed, as a table's line says it.
fn changed(line: &str) -> Result<Changed, SampleFault> {
    let (number, line) = line.split_once(' ').ok_or(SampleFault::BadLine)?;
    let number = usize::try_from(read_decimal(number.as_bytes())?)
        .ok()
        .ok_or(SampleFault::BadLine)?;
    Ok(Changed { number, line })
}

/// Compares the first entry that is not legal after each change.
fn are_illegal(rt: &impl Abort, alloc: Global, told: Told, table: &str) -> Result<(), Fail> {
    for line in table.lines() {
        let change = changed(line)?;
        let first = illegal_of(alloc, told, Some(change))?;
        assert!(rt; first == Some(change.number), "{line}");
    }
    Ok(())
}

#[test]
fn finds_the_first_illegal_entry(rt: HostRuntime) -> Result<(), Fail> {
    for (index, table) in [(5, NOT_COPIED), (10, NOT_REAPED)] {
        let row = rows().get(index).ok_or("a row")?;
        are_illegal(&rt, rt.alloc(), told_by(row), table)?;
    }
    Ok(())
}

/// Appends so many allocations of 24 bytes, each to a slot of its own.
fn put_calls(out: &mut Text, count: u64) -> Result<(), NoMemory> {
    for slot in 1..=count {
        out.push_slice(b"0 alloc $")?;
        put_decimal(out, slot, 0)?;
        out.push_slice(b" 24\n")?;
    }
    Ok(())
}

/// Appends the answers of a slab whose chunks are handed out by rising address.
fn put_answers(out: &mut Text, count: u64) -> Result<(), NoMemory> {
    for chunk in 0..count {
        out.push_slice(b"ok ")?;
        put_hex(out, 0x10_0000_u64.wrapping_add(chunk.wrapping_mul(48)), 0)?;
        out.push_slice(b"\n")?;
    }
    Ok(())
}

// The chunks of a second slab begin 8 bytes behind its base.
const SECOND_SLAB: &str = "grow umem_alloc_24 101000
ok 101008
";

const SECOND_BYTES: &str = "87 101000 0000000000000000efbeadde
88 101000 0000000000000000fecaddba
88 100ff0 0000";

const NOT_SECOND: &str = "85 ok 100ff0
86 grow umem_alloc_24 102000
87 ok 101008 redzone";

#[test]
fn tells_of_a_second_slab(rt: HostRuntime) -> Result<(), Fail> {
    let mut calls = Text::new(rt.alloc());
    put_calls(&mut calls, 86)?;
    let mut lines = Text::from_slice(rt.alloc(), b"grow umem_alloc_24 100000\n")?;
    put_answers(&mut lines, 85)?;
    lines.push_slice(SECOND_SLAB.as_bytes())?;
    let told = Told {
        guards: true,
        calls: from_utf8(calls.as_slice()).ok().ok_or("a text")?,
        lines: from_utf8(lines.as_slice()).ok().ok_or("a text")?,
    };
    assert_eq!(rt; illegal_of(rt.alloc(), told, None)?, None);
    are_illegal(&rt, rt.alloc(), told, NOT_SECOND)?;
    are_left(&rt, rt.alloc(), told, SECOND_BYTES)
}
