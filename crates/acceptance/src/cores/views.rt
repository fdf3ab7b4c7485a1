//! What views of cores tell.

ghost use Rattle.std.specs.Prelude.{◌≡◌, ◌<◌};

use crate::cores::samples::{CYCLE, MIXED, NEW_SECOND, ONE_BUFFER, ONE_FREED, SESSION};
use crate::cores::scene::{put_address, view_of_text};
use crate::fault::SampleFault;
use buftag::State;
use heap_view::{Buffer, Hit, View, whatis_text};
use std::alloc::Global;
use std::marker::Brand;
use std::sync::ledger::{Blank, Ledger};
use std::test::Fail;
use umem_base::{NoMemory, Steps, Text, read_hex};

// The lines that are told of addresses, each of which is its line's first word.
const OF_MIXED: &str = "fff is unknown
1000 is in the root segment, word 0
1fff is in the root segment, word 511
2018 is in the root segment of thread 0, word 3
3000 is unknown
fffff is unknown
100000 is 100000+0, bufctl 40000000 allocated from umem_alloc_24
100017 is 100000+17, bufctl 40000000 allocated from umem_alloc_24
100018 is in a slab of umem_alloc_24
100060 is 100060+0, bufctl 40000080 freed from umem_alloc_24
100fff is in a slab of umem_alloc_24
101000 is unknown
10200f is in a slab of conn
102010 is 102010+0, bufctl 40001540 allocated from conn
102250 is 102250+0, bufctl 400016c0 freed from conn
103000 is 103000+0, 5000 bytes allocated from umem_oversize
104387 is 103000+1387, 5000 bytes allocated from umem_oversize
104388 is past the end of 103000
105000 is unknown
ffffffffffffffff is unknown";

const OF_ONE: &str = "1008 is in the root segment, word 1
2018 is unknown
100000 is 100000+0, bufctl 40000000 allocated from umem_alloc_24
100060 is 100060+0, bufctl 40000080 freed from umem_alloc_24
101000 is unknown";

const OF_SESSION: &str = "101010 is 101000+10, bufctl 40000a80 allocated from umem_alloc_112
10005f is in a slab of conn
102027 is 102000+27, bufctl 40001200 allocated from umem_alloc_40";

/// Compares the lines that are told with those of a table.
fn are_told(alloc: Global, view: &View, table: &str) -> Result<bool, SampleFault> {
    for line in table.lines() {
        let (word, _) = line.split_once(' ').ok_or(SampleFault::BadLine)?;
        let told = whatis_text(alloc, view, read_hex(word.as_bytes())?)?;
        if told.as_slice().strip_suffix(b"\n") != Some(line.as_bytes()) {
            return Ok(false);
        }
    }
    Ok(true)
}

#[test]
fn tells_what_stands_at_an_address(rt: HostRuntime) -> Result<(), Fail> {
    for (text, table) in [
        (MIXED, OF_MIXED),
        (ONE_BUFFER, OF_ONE),
        (SESSION, OF_SESSION),
        (
            NEW_SECOND,
            "2018 is in the root segment of thread 0, word 3",
        ),
    ] {
        let view = view_of_text(rt.alloc(), text).ok_or("a view")?;
        assert!(rt; are_told(rt.alloc(), &view, table)?, "{table}");
    }
    Ok(())
}

/// The addresses of buffers, each behind a space.
fn addresses(alloc: Global, buffers: &[Buffer]) -> Result<Text, NoMemory> {
    let mut out = Text::new(alloc);
    for buffer in buffers {
        put_address(&mut out, buffer.address)?;
    }
    Ok(out)
}

#[test]
fn lists_buffers_by_address(rt: HostRuntime) -> Result<(), Fail> {
    for (text, allocated, free) in [
        (ONE_BUFFER, " 100000", 84),
        (ONE_FREED, "", 85),
        (SESSION, " 100060 101000 102000", 41 + 29 + 63),
        (CYCLE, " 100000 100030 100060 100090", 81),
        (NEW_SECOND, "", 0),
    ] {
        let view = view_of_text(rt.alloc(), text).ok_or("a view")?;
        let told = addresses(rt.alloc(), view.buffers())?;
        assert!(rt; told.as_slice() == allocated.as_bytes(), "{allocated}");
        assert_eq!(rt; view.free_chunks().len(), free);
    }
    Ok(())
}

/// Where a word points, by a counter of its own.
fn counted_place<L: Ledger>(blank: Blank, view: &View, word: u64) -> Option<usize>
    requires name { blank.name ≡ L.name }
    requires parts { blank.parts ≡ L.parts }
    requires some { 0 < blank.parts }
{
    let mut steps = Steps::<L>::new(blank);
    view.buffer_at(word, &mut steps)
}

fn place(view: &View, word: u64) -> Option<usize> {
    counted_place::<Brand>(Blank::new(1), view, word)
}

#[test]
fn looks_up_addresses(rt: HostRuntime) -> Result<(), Fail> {
    let view = view_of_text(rt.alloc(), MIXED).ok_or("a view")?;
    assert_eq!(rt; view.buffers().len(), 81 + 26 + 1);
    assert_eq!(rt; view.free_chunks().len(), 4 + 16);
    for (word, index) in [
        (0xf_ffff, None),
        (0x10_0017, Some(0)),
        (0x10_0018, None),
        (0x10_4387, Some(107)),
        (0x10_4388, None),
    ] {
        assert_eq!(rt; place(&view, word), index);
    }
    let large = view
        .buffers()
        .last()
        .map(|buffer| (buffer.size, buffer.cache, buffer.chunk));
    assert_eq!(rt; large, Some((5000, None, None)));
    assert_eq!(rt; view.core().large.as_slice().len(), 1);
    assert_eq!(rt; view.bytes_from(0x10_3ff8).len(), 4096 + 8);
    Ok(())
}

#[test]
fn tells_states_and_hits(rt: HostRuntime) -> Result<(), Fail> {
    let view = view_of_text(rt.alloc(), MIXED).ok_or("a view")?;
    for (chunk, state) in [
        (0, Some(State::Allocated)),
        (4, Some(State::Free)),
        (105, Some(State::Free)),
        (127, None),
    ] {
        assert_eq!(rt; view.state(chunk), state);
    }
    let hit = view.find(0x10_0017);
    assert_eq!(rt;
        hit,
        Some(Hit::Chunk {
            chunk: 0,
            offset: 23
        })
    );
    Ok(())
}
