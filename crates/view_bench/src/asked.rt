ghost use Rattle.std.specs.Prelude.{◌≡◌, ◌<◌};

use crate::viewed::view_of;
use core_format::read_core;
use findleaks::classes;
use heap_view::{Hit, View};
use std::alloc::Global;
use std::marker::Brand;
use std::sync::ledger::{Blank, Ledger};
use umausers::groups;
use umem_base::{ARENA_BASE, Steps};
use verify::findings;

/// How often the words that end in `ten` do what they name.
const TIMES: u32 = 10;

/// How many addresses are looked up.
const LOOK_UPS: u64 = 1_000_000;

/// Does what the word names, and tells how much came of it.
pub fn asked_often(alloc: Global, bytes: &[u8], word: &str) -> usize {
    match word {
        "read" => read_often(alloc, bytes, 1),
        "read_ten" => read_often(alloc, bytes, TIMES),
        "buffers" => buffers_often(alloc, bytes, 1),
        "buffers_ten" => buffers_often(alloc, bytes, TIMES),
        _ => match view_of(alloc, bytes) {
            Some(view) => asked_of(alloc, &view, word),
            None => 0,
        },
    }
}

fn asked_of(alloc: Global, view: &View, word: &str) -> usize {
    match word {
        "find" => found_often(view, 1),
        "find_ten" => found_often(view, TIMES),
        "classes" => reached_often(alloc, view, 1),
        "classes_ten" => reached_often(alloc, view, TIMES),
        "findings" => findings_often(alloc, view, 1),
        "findings_ten" => findings_often(alloc, view, TIMES),
        "groups" => groups_often(alloc, view, 1),
        "groups_ten" => groups_often(alloc, view, TIMES),
        _ => 0,
    }
}

/// Reads the core, and tells how many slabs it has.
fn read_often(alloc: Global, bytes: &[u8], times: u32) -> usize {
    let mut done = 0;
    for _ in 0..times {
        done = match read_core(alloc, bytes) {
            Ok(core) => core.slabs.as_slice().len(),
            Err(_) => 0,
        };
    }
    done
}

/// Reads the core and makes a view of it, and tells how many buffers are allocated.
fn buffers_often(alloc: Global, bytes: &[u8], times: u32) -> usize {
    let mut done = 0;
    for _ in 0..times {
        done = match view_of(alloc, bytes) {
            Some(view) => view.buffers().len(),
            None => 0,
        };
    }
    done
}

/// How many of the addresses stand in a chunk.
fn found(view: &View) -> usize {
    let mut count: usize = 0;
    for index in 0..LOOK_UPS {
        let address = ARENA_BASE + index * 16_661 % (4096 * 4096);
        if let Some(Hit::Chunk { .. }) = view.find(address) {
            count = count.saturating_add(1);
        }
    }
    count
}

fn found_often(view: &View, times: u32) -> usize {
    let mut done = 0;
    for _ in 0..times {
        done = found(view);
    }
    done
}

fn reached_counted<L: Ledger>(alloc: Global, view: &View, blank: Blank) -> usize
    requires name { blank.name ≡ L.name }
    requires parts { blank.parts ≡ L.parts }
    requires some { 0 < L.parts }
{
    let mut steps = Steps::<L>::new(blank);
    match classes(alloc, view, &mut steps) {
        Ok(classes) => classes.reached.as_slice().len(),
        Err(_) => 0,
    }
}

/// How many buffers are reached.
fn reached_often(alloc: Global, view: &View, times: u32) -> usize {
    let mut done = 0;
    for _ in 0..times {
        done = reached_counted::<Brand>(alloc, view, Blank::new(1));
    }
    done
}

/// How many chunks break a rule.
fn findings_often(alloc: Global, view: &View, times: u32) -> usize {
    let mut done = 0;
    for _ in 0..times {
        done = match findings(alloc, view) {
            Ok(lines) => lines.len(),
            Err(_) => 0,
        };
    }
    done
}

/// How many groups of allocated chunks there are.
fn groups_often(alloc: Global, view: &View, times: u32) -> usize {
    let mut done = 0;
    for _ in 0..times {
        done = match groups(alloc, view, true) {
            Ok(groups) => groups.len(),
            Err(_) => 0,
        };
    }
    done
}
