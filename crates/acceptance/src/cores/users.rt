//! Who holds the memory of sample cores.

use crate::cores::samples::{CROWD, SESSION, TIES};
use crate::cores::scene::{put_address, view_of_text};
use heap_view::View;
use std::alloc::Global;
use std::test::Fail;
use umausers::{Group, groups};
use umem_base::{NoMemory, Text, put_decimal};

// Groups: their bytes, their count, the size of each buffer, and the frames.
const OF_CROWD: &str = "8192 2 4096 5
8190 2 4095 5
800 100 8 1 3
792 99 8 1 2
8 1 8 8 7
8 1 8 9
8 1 8 9 1
";

// Those that are listed without asking for every one.
const LARGE_ONES: &str = "8192 2 4096 5
800 100 8 1 3
";

const OF_TIES: &str = "16 2 8 7
16 1 16 3
";

const OF_SESSION: &str = "112 1 112 401300 401000
72 1 72 401200 401000
40 1 40 401310 401000
";

fn put_numbers(out: &mut Text, group: &Group) -> Result<(), NoMemory> {
    put_decimal(out, group.total, 0)?;
    out.push_slice(b" ")?;
    put_decimal(out, group.count, 0)?;
    out.push_slice(b" ")?;
    put_decimal(out, group.size, 0)
}

fn put_group(out: &mut Text, group: &Group) -> Result<(), NoMemory> {
    put_numbers(out, group)?;
    for frame in group.stack.as_slice() {
        put_address(out, *frame)?;
    }
    out.push_slice(b"\n")
}

fn told(alloc: Global, view: &View, every: bool) -> Result<Text, NoMemory> {
    let mut out = Text::new(alloc);
    for group in groups(alloc, view, every)?.iter() {
        put_group(&mut out, group)?;
    }
    Ok(out)
}

#[test]
fn groups_by_size_and_stack(rt: HostRuntime) -> Result<(), Fail> {
    for (text, every, want) in [
        (CROWD, true, OF_CROWD),
        (CROWD, false, LARGE_ONES),
        (TIES, true, OF_TIES),
        (SESSION, true, OF_SESSION),
        (SESSION, false, ""),
    ] {
        let view = view_of_text(rt.alloc(), text).ok_or("a view")?;
        let said = told(rt.alloc(), &view, every)?;
        assert!(rt; said.as_slice() == want.as_bytes(), "{want}");
    }
    Ok(())
}
