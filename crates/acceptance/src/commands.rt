//! What commands over cores answer: each table has command lines behind `> `, and the lines of its answer below each.

use crate::cores::sample::core_bytes;
use crate::cores::samples::{
    CONSTRUCTED, CONTENTS, CROWD, CYCLE, FULL, NEW_SECOND, ONE_BUFFER, PLAIN, RETURNED, SAVED,
    SESSION, TWO_THREADS,
};
use crate::cores::scene::{Sample, overwrite, view_of};
use crate::fault::SampleFault;
use dcmd::{Dcmd, answer};
use heap_view::View;
use std::alloc::Global;
use std::test::Fail;
use umem_base::{Text, read_hex};

const OF_ONE: &str = "> ::umem_verify
findings 0
> ::walk umem
100000
> 1008::whatis
1008 is in the root segment, word 1
> 100060::whatis
100060 is 100060+0, bufctl 40000080 freed from umem_alloc_24
> 5::walk umem
5: no such cache
> 30000400::walk freemem
> ::umem_log
CPU     ADDR  BUFADDR TIMESTAMP THREAD
> ::umem_contents
> ::umausers
> ::umausers -e
> ::findleaks
reached 1 leaked 0 bytes 0
> ::umem_cache
    ADDR NAME                      FLAG  CFLAG  BUFSIZE  BUFTOTL
30000000 umem_alloc_8              0004 000001        8        0
30000400 umem_alloc_16             0004 000001       16        0
30000800 umem_alloc_24             0004 000001       24       85
30000c00 umem_alloc_32             0004 000001       32        0
30001000 umem_alloc_40             0004 000001       40        0
30001400 umem_alloc_48             0004 000001       48        0
30001800 umem_alloc_56             0004 000001       56        0
30001c00 umem_alloc_64             0004 000001       64        0
30002000 umem_alloc_80             0004 000001       80        0
30002400 umem_alloc_96             0004 000001       96        0
30002800 umem_alloc_112            0004 000001      112        0
30002c00 umem_alloc_128            0004 000001      128        0
30003000 umem_alloc_160            0004 000001      160        0
30003400 umem_alloc_192            0004 000001      192        0
30003800 umem_alloc_224            0004 000001      224        0
30003c00 umem_alloc_256            0004 000001      256        0
30004000 umem_alloc_320            0004 000001      320        0
30004400 umem_alloc_384            0004 000001      384        0
30004800 umem_alloc_448            0004 000001      448        0
30004c00 umem_alloc_512            0004 000001      512        0
30005000 umem_alloc_640            0004 000001      640        0
30005400 umem_alloc_768            0004 000001      768        0
30005800 umem_alloc_896            0004 000001      896        0
30005c00 umem_alloc_1024           0004 000001     1024        0
30006000 umem_alloc_1280           0004 000001     1280        0
30006400 umem_alloc_1536           0004 000001     1536        0
30006800 umem_alloc_1792           0004 000001     1792        0
30006c00 umem_alloc_2048           0004 000001     2048        0
30007000 umem_alloc_2560           0004 000001     2560        0
30007400 umem_alloc_3072           0004 000001     3072        0
30007800 umem_alloc_3584           0004 000001     3584        0
30007c00 umem_alloc_4096           0004 000001     4096        0
";

// A byte behind the requested size, of 24 and of 20 bytes.
const OF_GUARD: &str = "> ::umem_verify
100000 allocated umem_alloc_24 guard
findings 1
";

const OF_REDZONE: &str = "> ::umem_verify
100000 allocated umem_alloc_24 redzone
findings 1
";

const OF_CYCLE: &str = "> ::findleaks
100000 umem_alloc_24 24 40000000
100030 umem_alloc_24 24 40000040
100090 umem_alloc_24 24 400000c0
reached 1 leaked 3 bytes 72
";

const OF_SESSION: &str = "> ::umem_verify
102000 allocated umem_alloc_40 guard
findings 1
> ::findleaks
100060 conn 72 40000040
101000 umem_alloc_112 112 40000a80
reached 1 leaked 2 bytes 184
> ::umausers
> ::umausers -e
112 bytes for 1 allocations with data size 112:
    401300
    401000
72 bytes for 1 allocations with data size 72:
    401200
    401000
40 bytes for 1 allocations with data size 40:
    401310
    401000
> ::umem_log
CPU     ADDR  BUFADDR TIMESTAMP THREAD
  0 40000000   100000        12      0
  0 40001200   102000         6      0
  0 40000a80   101000         4      0
  0 40000040   100060         2      0
  0 40000000   100000         1      0
> 101010::whatis
101010 is 101000+10, bufctl 40000a80 allocated from umem_alloc_112
";

const OF_CROWD: &str = "> ::umausers
8192 bytes for 2 allocations with data size 4096:
    5
800 bytes for 100 allocations with data size 8:
    1
    3
";

const OF_NEW: &str = "> 2018::whatis
2018 is in the root segment of thread 0, word 3
> ::umem_contents
> ::walk umem
> ::walk freemem
> ::findleaks
reached 0 leaked 0 bytes 0
";

const OF_THREADS: &str = "> ::findleaks
100000 umem_alloc_24 24 40000000
reached 1 leaked 1 bytes 24
> ::walk umem
100000
100030
";

const OF_SAVED: &str = "> ::umem_contents
4 40000000 2 4142
";

const OF_CONTENTS: &str = "> ::umem_contents
3 40000000 24 4142ddbafecaddbafecaddbafecaddbafecaddbafecaddba
> ::umem_verify
findings 0
> ::umausers -e
";

const OF_CONSTRUCTED: &str = "> ::umem_verify
100000 free conn unconstructed 3
findings 1
";

const OF_RETURNED: &str = "> ::umem_verify
findings 0
";

const OF_PLAIN: &str = "> ::findleaks
100000 umem_alloc_24 24 40000000
100030 umem_alloc_24 24 40000040
100060 umem_alloc_24 24 40000080
100090 umem_alloc_24 24 400000c0
1000c0 umem_alloc_24 24 40000100
101000 umem_oversize 4101 -
103000 odd 20 40001540
reached 0 leaked 7 bytes 4241
> ::walk umem
100000
100030
100060
100090
1000c0
101000
103000
> 30008000::walk umem
103000
> 30000800::walk umem
100000
100030
100060
100090
1000c0
";

// All commands over one core of version 2 but `::umem_verify`, `::findleaks` and `::walk umem`, which are long there.
const OF_FULL: &str = "> ::umem_cache
    ADDR NAME                      FLAG  CFLAG  BUFSIZE  BUFTOTL
30000000 umem_alloc_8              0007 000001        8        0
30000400 umem_alloc_16             0007 000001       16        0
30000800 umem_alloc_24             0007 000001       24       85
30000c00 umem_alloc_32             0007 000001       32        0
30001000 umem_alloc_40             0007 000001       40        0
30001400 umem_alloc_48             0007 000001       48        0
30001800 umem_alloc_56             0007 000001       56        0
30001c00 umem_alloc_64             0007 000001       64        0
30002000 umem_alloc_80             0007 000001       80        0
30002400 umem_alloc_96             0007 000001       96        0
30002800 umem_alloc_112            0007 000001      112        0
30002c00 umem_alloc_128            0007 000001      128        0
30003000 umem_alloc_160            0007 000001      160        0
30003400 umem_alloc_192            0007 000001      192        0
30003800 umem_alloc_224            0007 000001      224        0
30003c00 umem_alloc_256            0007 000001      256        0
30004000 umem_alloc_320            0007 000001      320        0
30004400 umem_alloc_384            0007 000001      384        0
30004800 umem_alloc_448            0007 000001      448        0
30004c00 umem_alloc_512            0007 000001      512        0
30005000 umem_alloc_640            0007 000001      640        0
30005400 umem_alloc_768            0007 000001      768        0
30005800 umem_alloc_896            0007 000001      896        0
30005c00 umem_alloc_1024           0007 000001     1024        0
30006000 umem_alloc_1280           0007 000001     1280        0
30006400 umem_alloc_1536           0007 000001     1536        0
30006800 umem_alloc_1792           0007 000001     1792        0
30006c00 umem_alloc_2048           0007 000001     2048        0
30007000 umem_alloc_2560           0007 000001     2560        0
30007400 umem_alloc_3072           0007 000001     3072        0
30007800 umem_alloc_3584           0007 000001     3584        0
30007c00 umem_alloc_4096           0007 000001     4096        0
30008000 conn                      0007 000000       72       42
30008400 temp                      0007 000000        8        0
> ::umem_log
CPU     ADDR  BUFADDR TIMESTAMP THREAD
  0 40000140   1000f0         2     31
  0 40000000   100000         1      0
> ::umem_contents
6 40000180 0 -
5 40000140 2 4142
> ::umausers -e
24 bytes for 1 allocations with data size 24:
    401000
24 bytes for 1 allocations with data size 24:
    401000
    401005
> ::umausers
> 30000800::walk freemem
100030
100060
100090
1000c0
> 30008000::walk freemem
1011f0
101250
1012b0
101310
101370
1013d0
101430
101490
1014f0
101550
1015b0
101610
101670
1016d0
101730
101790
> ::walk freemem
100030
100060
100090
1000c0
1011f0
101250
1012b0
101310
101370
1013d0
101430
101490
1014f0
101550
1015b0
101610
101670
1016d0
101730
101790
> 30008400::walk umem
> 30008400::walk freemem
> 30008800::walk freemem
30008800: no such cache
> 30008001::walk umem
30008001: no such cache
> 1ff8::whatis
1ff8 is in the root segment, word 511
> 2ff8::whatis
2ff8 is in the root segment of thread 0, word 511
> 3000::whatis
3000 is unknown
> 100060::whatis
100060 is 100060+0, bufctl 40000080 freed from umem_alloc_24
> 10005f::whatis
10005f is in a slab of umem_alloc_24
> 10100f::whatis
10100f is in a slab of conn
> 101057::whatis
101057 is 101010+47, bufctl 40001540 allocated from conn
> 103387::whatis
103387 is 102000+1387, 5000 bytes allocated from umem_oversize
> 103388::whatis
103388 is past the end of 102000
> 104000::whatis
104000 is unknown
";

/// A core, the bytes before its root segments, its pages, what is stored in it, and what is answered over it.
type Session = (&'static str, u64, u64, &'static str, &'static str);

const SESSIONS: [Session; 14] = [
    (ONE_BUFFER, 72, 1, "", OF_ONE),
    (ONE_BUFFER, 72, 1, "100018=41", OF_GUARD),
    (
        ONE_BUFFER,
        72,
        1,
        "100014=bb 100018=41faedfe9d130000",
        OF_REDZONE,
    ),
    (CYCLE, 72, 1, "", OF_CYCLE),
    (SESSION, 72, 3, "", OF_SESSION),
    (CROWD, 84, 20, "", OF_CROWD),
    (NEW_SECOND, 84, 0, "", OF_NEW),
    (TWO_THREADS, 84, 1, "", OF_THREADS),
    (SAVED, 84, 0, "", OF_SAVED),
    (CONTENTS, 84, 1, "", OF_CONTENTS),
    (CONSTRUCTED, 84, 1, "", OF_CONSTRUCTED),
    (RETURNED, 84, 1, "", OF_RETURNED),
    (PLAIN, 84, 4, "", OF_PLAIN),
    (FULL, 84, 4, "", OF_FULL),
];

fn sessions() -> &'static [Session] {
    &SESSIONS
}

/// The address before a command, if there is one.
fn address_of(word: &str) -> Result<Option<u64>, SampleFault> {
    if word.is_empty() {
        return Ok(None);
    }
    Ok(Some(read_hex(word.as_bytes())?))
}

/// The command of a line.
fn command(line: &str) -> Result<Dcmd, SampleFault> {
    let (address, words) = line.split_once("::").ok_or(SampleFault::BadLine)?;
    let cache = address_of(address)?;
    match words {
        "umem_cache" => Ok(Dcmd::UmemCache),
        "umem_verify" => Ok(Dcmd::UmemVerify),
        "umem_log" => Ok(Dcmd::UmemLog),
        "umem_contents" => Ok(Dcmd::UmemContents),
        "umausers" => Ok(Dcmd::Umausers { every: false }),
        "umausers -e" => Ok(Dcmd::Umausers { every: true }),
        "whatis" => Ok(Dcmd::Whatis {
            address: cache.ok_or(SampleFault::BadLine)?,
        }),
        "findleaks" => Ok(Dcmd::Findleaks),
        "walk umem" => Ok(Dcmd::WalkUmem { cache }),
        "walk freemem" => Ok(Dcmd::WalkFreemem { cache }),
        _ => Err(SampleFault::BadLine),
    }
}

/// Appends a command's line, and the answer to it.
fn put_answer(out: &mut Text, view: &View, line: &str) -> Result<(), SampleFault> {
    let alloc = out.allocator();
    out.push_slice(b"> ")?;
    out.push_slice(line.as_bytes())?;
    out.push_slice(b"\n")?;
    let text = answer(alloc, view, &command(line)?)?;
    out.push_slice(text.as_slice())?;
    Ok(())
}

/// The command lines of a table, each with its answer.
fn answers(alloc: Global, view: &View, table: &str) -> Result<Text, SampleFault> {
    let mut out = Text::new(alloc);
    for line in table.lines() {
        if let Some(line) = line.strip_prefix("> ") {
            put_answer(&mut out, view, line)?;
        }
    }
    Ok(out)
}

/// The view of a core in which bytes are stored.
fn view_with(alloc: Global, sample: &Sample, stores: &str) -> Result<Option<View>, SampleFault> {
    let mut bytes = core_bytes(alloc, sample.text)?;
    overwrite(&mut bytes, sample, stores)?;
    Ok(view_of(alloc, &bytes))
}

#[test]
fn answers_commands(rt: HostRuntime) -> Result<(), Fail> {
    for (text, header, pages, stores, table) in sessions() {
        let sample = Sample {
            text: *text,
            header: *header,
            pages: *pages,
        };
        let view = view_with(rt.alloc(), &sample, *stores)?.ok_or("a view")?;
        let said = answers(rt.alloc(), &view, *table)?;
        assert!(rt; said.as_slice() == table.as_bytes(), "{table}");
    }
    Ok(())
}
