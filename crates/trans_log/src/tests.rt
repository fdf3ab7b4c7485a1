ghost use Rattle.std.specs.Prelude.{◌≡◌, IfOk};

use super::*;
use std::alloc::{AllocError, Global};
use std::process::Abort;
use std::test::Fail as Failed;
use umem_base::{NoMemory, Sequence};
use umem_options::{read_debug, read_logging};

fn check(rt: &impl Abort, alloc: Global, capacity: u32, left: &[u64]) -> Result<(), Failed> {
    let mut log = Log::<u64>::new(alloc, capacity)?;
    for item in [7, 8, 9] {
        log.enter(item);
    }
    let entries = log.entries(alloc)?;
    assert_eq!(rt; entries.len(), left.len());
    for (entry, item) in entries.iter().zip(left) {
        assert_eq!(rt; **entry, *item);
    }
    Ok(())
}

#[test]
fn keeps_the_last(rt: HostRuntime) -> Result<(), Failed> {
    check(&rt, rt.alloc(), 0, &[])?;
    check(&rt, rt.alloc(), 1, &[9])?;
    check(&rt, rt.alloc(), 2, &[8, 9])?;
    check(&rt, rt.alloc(), 3, &[7, 8, 9])?;
    check(&rt, rt.alloc(), 100, &[7, 8, 9])
}

fn transaction(alloc: Global, time: u64, frame: u64) -> Result<Trans, NoMemory> {
    let stack = Sequence::new(Vec::from_array(alloc, [frame])?);
    Ok(Trans {
        kind: 1,
        cpu: 0,
        thread: 0,
        chunk: 0,
        address: 0x100000,
        time,
        stack,
    })
}

#[test]
fn keeps_transactions(rt: HostRuntime) -> Result<(), Failed> {
    let mut log = Log::<Trans>::new(rt.alloc(), 1)?;
    log.enter(transaction(rt.alloc(), 4, 0x401000)?);
    log.enter(transaction(rt.alloc(), 5, 0x401005)?);
    let entries = log.entries(rt.alloc())?;
    assert_eq!(rt; entries.len(), 1);
    assert_eq!(rt; entries[0].time, 5);
    assert_eq!(rt; entries[0].stack.as_slice(), [0x401005].as_slice());
    assert!(rt; same_transaction(entries[0])? == *entries[0]);
    Ok(())
}

fn same_transaction(transaction: &Trans) -> Result<Trans, AllocError>
    ensures { IfOk result (λ same. same ≡ transaction.now) }
{
    transaction.clone()
}

fn same_saved(saved: &Saved) -> Result<Saved, AllocError>
    ensures { IfOk result (λ same. same ≡ saved.now) }
{
    saved.clone()
}

/// What a contents log has after three buffers, of 3, 0 and 5 bytes, were freed.
fn check_saved(
    rt: &impl Abort,
    alloc: Global,
    capacity: u32,
    left: &[(u64, u32, &[u8])],
) -> Result<(), Failed> {
    let mut log = SavedLog::new(alloc, capacity, 5)?;
    log.enter(3, 0, b"abc");
    log.enter(7, 4, b"");
    log.enter(8, 0, b"defgh");
    let entries = log.entries(alloc)?;
    assert_eq!(rt; entries.len(), left.len());
    for (entry, (time, chunk, bytes)) in entries.iter().zip(left) {
        assert_eq!(rt; entry.time, *time);
        assert_eq!(rt; entry.chunk, *chunk);
        assert_eq!(rt; entry.bytes.as_slice(), *bytes);
        assert!(rt; same_saved(entry)? == *entry);
    }
    Ok(())
}

#[test]
fn keeps_the_last_bytes(rt: HostRuntime) -> Result<(), Failed> {
    check_saved(&rt, rt.alloc(), 0, &[])?;
    check_saved(&rt, rt.alloc(), 1, &[(8, 0, b"defgh")])?;
    check_saved(&rt, rt.alloc(), 2, &[(7, 4, b""), (8, 0, b"defgh")])?;
    check_saved(
        &rt,
        rt.alloc(),
        3,
        &[(3, 0, b"abc"), (7, 4, b""), (8, 0, b"defgh")],
    )
}

/// A log of the most items that options give.
#[test]
fn holds_what_the_options_give(rt: HostRuntime) -> Result<(), Failed> {
    let options = read_debug(b"audit,contents=0");
    let logging = read_logging(b"contents=64m");
    let capacity = contents_records(&logging, &options);
    let mut log = SavedLog::new(rt.alloc(), capacity, contents_count(&options))?;
    log.enter(1, 2, b"");
    assert_eq!(rt; log.entries(rt.alloc())?.len(), 1);
    Ok(())
}
