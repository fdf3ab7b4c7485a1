//! The parts of a heap, each called once with enough memory.

ghost use Rattle.std.specs.Prelude.{[]};
ghost use Rattle.plain_heap.specs.Texts.{HasItsCache};
ghost use Rattle.heap_memory.specs.Chunks.{HasNumbers, IsKind, IsRequested};

use crate::fault::SampleFault;
use crate::told_entries::{script_of, told_entries};
use core_format::AuditItem;
use heap_logs::{Act, ChunkRange, audits, fails, transactions};
use heap_memory::{Chunk, ChunkKind, Memory, NewSlab};
use plain_heap::{Body, Entry, Reply, Report};
use script::{Op, read_script};
use shelf::Shelf;
use slab_layer::rounds_from;
use std::alloc::Global;
use std::test::Fail;
use trans_log::Trans;
use umem_base::{NoMemory, Sequence};
use umem_options::read_debug;

const BASE: u64 = 0x10_0000;

/// A shelf of two CPUs, whose magazines have one round each, and of one slab, of which the first round was freed.
fn new_shelf(alloc: Global) -> Result<Shelf, NoMemory> {
    let mut shelf = Shelf::new(alloc, 2, 1, 2)?;
    shelf.make_room(4)?;
    let rounds = rounds_from(alloc, 0, 4)?;
    let round = shelf.add_slab(BASE, rounds);
    shelf.put(0, round);
    Ok(shelf)
}

/// The number of the chunk that a CPU finds.
fn found(shelf: &mut Shelf, cpu: u32) -> Option<u32> {
    if shelf.cpus().len() <= cpu as usize {
        return None;
    }
    shelf.find(cpu).map(|round| round.chunk())
}

/// How many rounds stand in the list of a slab.
fn listed(shelf: &Shelf, base: u64) -> Option<usize> {
    shelf.list(base).map(|list| list.len())
}

#[test]
fn finds_rounds_on_a_shelf(rt: HostRuntime) -> Result<(), Fail> {
    let mut shelf = new_shelf(rt.alloc())?;
    assert_eq!(rt; listed(&shelf, BASE), Some(3));
    assert_eq!(rt; listed(&shelf, 0), None);
    assert_eq!(rt; found(&mut shelf, 1), Some(1));
    assert_eq!(rt; found(&mut shelf, 0), Some(0));
    assert_eq!(rt; found(&mut shelf, 0), Some(2));
    assert_eq!(rt; found(&mut shelf, 1), Some(3));
    assert_eq!(rt; found(&mut shelf, 0), None);
    Ok(())
}

/// The memory of a heap of version 1.
fn new_memory(alloc: Global) -> Result<Option<Memory>, NoMemory> {
    let Ok(script) = read_script(alloc, b"umem 1 cpus 1 threads 1\n") else {
        return Ok(None);
    };
    Ok(Some(Memory::start(alloc, &script.header)?))
}

fn open_large(memory: &mut Memory) -> Result<Option<u64>, NoMemory> {
    memory.open_large(5000)
}

fn store(memory: &mut Memory, word: u64) -> Reply {
    memory.store(word, 8, b"ab")
}

fn load(memory: &Memory, word: u64) -> Reply {
    memory.load(word, 8)
}

/// The kind of the chunks of 24 bytes, with guards.
fn kind() -> ChunkKind
    ensures kind { IsKind result }
    ensures request { IsRequested result 24 }
    ensures numbers { HasNumbers (record { kind = result; align = 8; made = 0; first = 0 }) }
{
    ChunkKind {
        cache: 2,
        size: 24,
        ctor: None,
        guards: true,
    }
}

fn open_slab(memory: &mut Memory) -> Result<Option<u64>, NoMemory> {
    memory.open_slab(&NewSlab {
        kind: kind(),
        align: 8,
        made: 0,
        first: 0,
    })
}

/// Hands out a chunk, if a slab holds it.
fn hand_chunk(memory: &mut Memory, address: u64, number: u32) -> Option<Report> {
    let kind = kind();
    let chunk = Chunk { address, number };
    if !memory.holds_chunk(chunk, &kind) {
        return None;
    }
    Some(memory.hand_chunk(chunk, &kind, 24, false))
}

#[test]
fn keeps_the_memory_of_a_heap(rt: HostRuntime) -> Result<(), Fail> {
    let mut memory = new_memory(rt.alloc())?.ok_or("a script")?;
    assert_eq!(rt; load(&memory, 0x1000), Reply::Word(0));
    assert_eq!(rt; load(&memory, 0), Reply::Null);
    assert_eq!(rt; load(&memory, BASE), Reply::Fault);
    assert_eq!(rt; open_large(&mut memory)?, Some(BASE));
    assert_eq!(rt; store(&mut memory, BASE), Reply::Ok);
    assert_eq!(rt; store(&mut memory, 0), Reply::Null);
    assert_eq!(rt; store(&mut memory, 0x10_2000), Reply::Fault);
    assert_eq!(rt; load(&memory, BASE), Reply::Word(0x6261));
    Ok(())
}

#[test]
fn hands_chunks_out(rt: HostRuntime) -> Result<(), Fail> {
    let mut memory = new_memory(rt.alloc())?.ok_or("a script")?;
    assert_eq!(rt; open_slab(&mut memory)?, Some(BASE));
    assert_eq!(rt; load(&memory, BASE), Reply::Word(0xdead_beef_dead_beef));
    assert_eq!(rt;
        load(&memory, 0x10_0010),
        Reply::Word(0xfeed_face_feed_face)
    );
    assert_eq!(rt; store(&mut memory, 0x10_0030), Reply::Ok);
    assert_eq!(rt;
        hand_chunk(&mut memory, 0x10_0030, 1),
        Some(Report::Modified(8))
    );
    assert_eq!(rt; hand_chunk(&mut memory, BASE, 0), Some(Report::Clean));
    assert_eq!(rt; hand_chunk(&mut memory, 0x10_1000, 85), None);
    assert_eq!(rt; load(&memory, BASE), Reply::Word(0xbadd_cafe_badd_cafe));
    assert_eq!(rt; load(&memory, 0x10_0010), Reply::Word(0x1789_feed_fabb));
    Ok(())
}

const CALLS: &str = "0 alloc $1 24 @ 401200,401000
0 free $1 24 @ 401280";

const LINES: &str = "grow umem_alloc_24 100000
ok 100000
ok";

fn entries(alloc: Global) -> Result<Vec<Entry>, SampleFault> {
    let text = script_of(alloc, CALLS)?;
    let Ok(script) = read_script(alloc, text.as_slice()) else {
        return Err(SampleFault::BadLine);
    };
    told_entries(alloc, &script, LINES, None)
}

/// Which chunk each entry acted on.
fn acts(alloc: Global) -> Result<Vec<Option<Act>>, NoMemory> {
    let act = Act {
        chunk: 0,
        address: BASE,
    };
    Ok(Vec::from_slice(alloc, &[None, Some(act), Some(act)])?)
}

/// The last transactions with these options, as many as a log holds.
fn transactions_with(
    alloc: Global,
    debug: &[u8],
    capacity: u32,
) -> Result<Vec<Trans>, SampleFault> {
    let (entries, acts) = (entries(alloc)?, acts(alloc)?);
    if entries.len() != acts.len() {
        return Err(SampleFault::BadLine);
    }
    Ok(transactions(alloc, &read_debug(debug), 1, capacity, &entries, &acts)?)
}

fn all_audits(alloc: Global) -> Result<Vec<AuditItem>, SampleFault> {
    let (entries, acts) = (entries(alloc)?, acts(alloc)?);
    if entries.len() != acts.len() {
        return Err(SampleFault::BadLine);
    }
    let standing = [ChunkRange {
        first: 0,
        count: 85,
    }];
    Ok(audits(alloc, &read_debug(b"audit"), 1, &entries, &acts, &standing)?)
}

fn numbers(item: &Trans) -> [u64; 6] {
    [
        u64::from(item.kind),
        u64::from(item.cpu),
        u64::from(item.thread),
        u64::from(item.chunk),
        item.address,
        item.time,
    ]
}

#[test]
fn keeps_the_last_transactions(rt: HostRuntime) -> Result<(), Fail> {
    let all = transactions_with(rt.alloc(), b"audit", 5)?;
    assert_eq!(rt; all.len(), 2);
    assert_eq!(rt; numbers(&all[0]), [1, 0, 0, 0, BASE, 1]);
    assert_eq!(rt; all[0].stack.as_slice(), [0x40_1200, 0x40_1000].as_slice());
    assert_eq!(rt; numbers(&all[1]), [2, 0, 0, 0, BASE, 2]);
    let last = transactions_with(rt.alloc(), b"audit=0", 1)?;
    assert_eq!(rt; last.len(), 1);
    assert_eq!(rt; numbers(&last[0]), [2, 0, 0, 0, BASE, 2]);
    assert!(rt; last[0].stack.as_slice().is_empty());
    assert!(rt; transactions_with(rt.alloc(), b"guards", 5)?.is_empty());
    Ok(())
}

#[test]
fn keeps_the_last_transaction_of_a_chunk(rt: HostRuntime) -> Result<(), Fail> {
    let items = all_audits(rt.alloc())?;
    assert_eq!(rt; items.len(), 1);
    assert_eq!(rt; (items[0].chunk, items[0].thread, items[0].time), (0, 0, 2));
    assert_eq!(rt; items[0].stack.as_slice(), [0x40_1280].as_slice());
    Ok(())
}

/// A request that found no chunk.
fn refused(alloc: Global, size: u32, number: u32) -> Entry
    ensures { HasItsCache [] result.body }
{
    Entry {
        number,
        thread: 3,
        body: Body::Call {
            op: Op::Alloc { slot: 1, size },
            frames: Sequence::new(Vec::new(alloc)),
            reply: Reply::NoSpace,
        },
    }
}

/// The thread, cache, size and time of each fail that a log of that capacity keeps.
fn fail_numbers(alloc: Global, capacity: u32) -> Result<Vec<[u64; 4]>, NoMemory> {
    let entries = [
        refused(alloc, 20, 7),
        refused(alloc, 8192, 8),
        refused(alloc, 4096, 9),
    ];
    let mut numbers = Vec::new(alloc);
    for item in fails(alloc, &[], capacity, &entries)?.iter() {
        numbers.push([
            u64::from(item.thread),
            u64::from(item.cache),
            item.size,
            item.time,
        ])?;
    }
    Ok(numbers)
}

#[test]
fn keeps_the_last_fails(rt: HostRuntime) -> Result<(), Fail> {
    let all = fail_numbers(rt.alloc(), 4)?;
    assert_eq!(rt;
        all.as_slice(),
        [[3, 2, 20, 7], [3, 31, 4096, 9]].as_slice()
    );
    let last = fail_numbers(rt.alloc(), 1)?;
    assert_eq!(rt; last.as_slice(), [[3, 31, 4096, 9]].as_slice());
    Ok(())
}
