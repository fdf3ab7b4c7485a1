//! Scripts that are read, and the first bad line of bytes that are none.

use script::{Reason, Script, ScriptFault, read_script};
use std::alloc::Global;
use std::process::Abort;
use std::test::Fail;

/// Bytes, and their first bad line with its reason where they are no script.
type Case = (&'static [u8], Option<(u32, Reason)>);

// Good scripts, with blanks of each kind, skipped lines and a last line without its end.
const GOOD: [Case; 11] = [
    (b"umem 1 cpus 1 threads 1\nphase\n", None),
    (b"umem 1 cpus 1 threads 1\n", None),
    (
        b"umem 1 cpus 1 threads 1\nphase\n0 alloc $1 24\n0 free $1 24\n",
        None,
    ),
    (b"umem 1 cpus 1 threads 1\nphase\n0 reap", None),
    (
        b"# first\n \t\r\n  umem\t1 cpus  1\rthreads 1 \n#\nphase \n \t 0\talloc $01 0024\r\n",
        None,
    ),
    (
        b"umem 1 cpus 0016 threads 032\nphase\n031 clear $0511",
        None,
    ),
    (
        b"umem 1 cpus 1 threads 1\nphase\n0 store $1 65535 00ff\n0 link $1 0 $2\n0 load $3 $1 8\n",
        None,
    ),
    (
        b"umem 1 cpus 1 threads 1\nphase\n0 copy $4 $3\n0 zalloc $5 4294967295\n",
        None,
    ),
    (
        b"umem 1 cpus 1 threads 1\ncache a 1 8\ncache b_9 8 64\nphase\n0 cache_alloc $1 b_9 @ 401200,401000\n",
        None,
    ),
    (
        b"umem 1 cpus 1 threads 1\ncache a 1 8\nphase\n0 cache_alloc $1 a\n0 cache_free $1 a @ 4f,4F\n",
        None,
    ),
    (
        b"umem 2 cpus 2 threads 2\ncache conn 16 8 a5\nphase\n1 alloc %511 24\n",
        None,
    ),
];

// A byte that no line may hold, in a skipped line and in a second header too.
const TEXT: [Case; 5] = [
    (b"\x00", Some((1, Reason::Text))),
    (
        b"umem 1 cpus 1 threads 1\nphase\n0 reap\x7f\n",
        Some((3, Reason::Text)),
    ),
    (
        b"umem 1 cpus 1 threads 1\nphase\n# \x01\n",
        Some((3, Reason::Text)),
    ),
    (
        b"umem 1 cpus 1 threads 1\numem \x1f\n",
        Some((2, Reason::Text)),
    ),
    (b"nothing\xff", Some((1, Reason::Text))),
];

// No header, at its own line or behind the last.
const HEADER: [Case; 7] = [
    (b"", Some((1, Reason::Header))),
    (b"\n# none\n", Some((3, Reason::Header))),
    (b"cache a 8 8\n", Some((1, Reason::Header))),
    (b"umem 3 cpus 1 threads 1\n", Some((1, Reason::Header))),
    (b"umem 01 cpus 1 threads 1\n", Some((1, Reason::Header))),
    (b"umem 1 cpus 1 threads 1 1\n", Some((1, Reason::Header))),
    (b"# a\numem 1 cpus x\n", Some((2, Reason::Header))),
];

// The numbers of the header.
const HEADER_NUMBERS: [Case; 6] = [
    (b"umem 1 cpus x threads 0\n", Some((1, Reason::Number))),
    (b"umem 1 cpus 17 threads 1\n", Some((1, Reason::Range))),
    (b"umem 2 cpus 1 threads 33\n", Some((1, Reason::Range))),
    (b"umem 1 cpus 0 threads -1\n", Some((1, Reason::Number))),
    (
        b"umem 1 cpus 11111111111111111111 threads 1\n",
        Some((1, Reason::Range)),
    ),
    (
        b"umem 2 cpus 1 threads 11111111111111111111\n",
        Some((1, Reason::Range)),
    ),
];

// The first word, or the operation.
const WORD: [Case; 6] = [
    (
        b"umem 1 cpus 1 threads 1\nphase\n0 aloc $1 24\n",
        Some((3, Reason::Word)),
    ),
    (
        b"umem 1 cpus 1 threads 1\nphase\n0\n",
        Some((3, Reason::Word)),
    ),
    (
        b"umem 1 cpus 1 threads 1\nphase\n-1 reap\n",
        Some((3, Reason::Word)),
    ),
    (
        b"umem 1 cpus 1 threads 1\nphases\n",
        Some((2, Reason::Word)),
    ),
    (
        b"umem 1 cpus 1 threads 1\nCache a 8 8\n",
        Some((2, Reason::Word)),
    ),
    (
        b"umem 1 cpus 1 threads 1\nphase\n9 aloc\n",
        Some((3, Reason::Word)),
    ),
];

// The number of words.
const COUNT: [Case; 10] = [
    (
        b"umem 1 cpus 1 threads 1\nphase\n0 alloc $1\n",
        Some((3, Reason::Count)),
    ),
    (
        b"umem 1 cpus 1 threads 1\nphase\n0 alloc $1 24 @\n",
        Some((3, Reason::Count)),
    ),
    (
        b"umem 1 cpus 1 threads 1\nphase\n0 alloc $1 24 at 40\n",
        Some((3, Reason::Count)),
    ),
    (
        b"umem 1 cpus 1 threads 1\nphase\n0 alloc $1 24 @ 40 41\n",
        Some((3, Reason::Count)),
    ),
    (
        b"umem 1 cpus 1 threads 1\nphase\n0 reap now\n",
        Some((3, Reason::Count)),
    ),
    (
        b"umem 1 cpus 1 threads 1\nphase 1\n",
        Some((2, Reason::Count)),
    ),
    (
        b"umem 1 cpus 1 threads 1\ncache a 8\n",
        Some((2, Reason::Count)),
    ),
    (
        b"umem 1 cpus 1 threads 1\ncache a 8 8 00\n",
        Some((2, Reason::Count)),
    ),
    (
        b"umem 2 cpus 2 threads 2\ncache a 8 8 00 0\n",
        Some((2, Reason::Count)),
    ),
    (
        b"umem 1 cpus 1 threads 1\nphase\n7 clear\n",
        Some((3, Reason::Count)),
    ),
];

// The thread.
const THREAD: [Case; 4] = [
    (
        b"umem 1 cpus 1 threads 1\nphase\n1 reap\n",
        Some((3, Reason::Thread)),
    ),
    (
        b"umem 1 cpus 1 threads 1\nphase\n11111111111111111111 reap\n",
        Some((3, Reason::Thread)),
    ),
    (
        b"umem 1 cpus 1 threads 1\nphase\n1 clear 1\n",
        Some((3, Reason::Thread)),
    ),
    (
        b"umem 1 cpus 1 threads 1\nphase\n2 alloc $1 x\n",
        Some((3, Reason::Thread)),
    ),
];

// The slot.
const SLOT: [Case; 9] = [
    (
        b"umem 1 cpus 1 threads 1\nphase\n0 alloc @ 40\n",
        Some((3, Reason::Slot)),
    ),
    (
        b"umem 1 cpus 1 threads 1\nphase\n0 clear $\n",
        Some((3, Reason::Slot)),
    ),
    (
        b"umem 1 cpus 1 threads 1\nphase\n0 clear $512\n",
        Some((3, Reason::Slot)),
    ),
    (
        b"umem 1 cpus 1 threads 1\nphase\n0 clear $11111111111111111111\n",
        Some((3, Reason::Slot)),
    ),
    (
        b"umem 1 cpus 1 threads 1\nphase\n0 clear %1\n",
        Some((3, Reason::Slot)),
    ),
    (
        b"umem 2 cpus 2 threads 2\nphase\n0 clear %512\n",
        Some((3, Reason::Slot)),
    ),
    (
        b"umem 1 cpus 1 threads 1\nphase\n0 clear $1x\n",
        Some((3, Reason::Slot)),
    ),
    (
        b"umem 1 cpus 1 threads 1\nphase\n0 cache_alloc 1 none\n",
        Some((3, Reason::Slot)),
    ),
    (
        b"umem 1 cpus 1 threads 1\nphase\n0 link $1 x 2\n",
        Some((3, Reason::Slot)),
    ),
];

// The declared cache.
const UNKNOWN: [Case; 3] = [
    (
        b"umem 1 cpus 1 threads 1\nphase\n0 cache_alloc $1 conn\n",
        Some((3, Reason::Unknown)),
    ),
    (
        b"umem 1 cpus 1 threads 1\nphase\n0 cache_free $1 conn @ x\n",
        Some((3, Reason::Unknown)),
    ),
    (
        b"umem 1 cpus 1 threads 1\n0 cache_free $1 conn\ncache conn 8 8\n",
        Some((2, Reason::Unknown)),
    ),
];

// Digits.
const NUMBER: [Case; 9] = [
    (
        b"umem 1 cpus 1 threads 1\nphase\n0 alloc $1 0x10\n",
        Some((3, Reason::Number)),
    ),
    (
        b"umem 1 cpus 1 threads 1\nphase\n0 alloc $1 11111111111111111111 @ zz\n",
        Some((3, Reason::Number)),
    ),
    (
        b"umem 1 cpus 1 threads 1\nphase\n0 store $1 0 abc\n",
        Some((3, Reason::Number)),
    ),
    (
        b"umem 1 cpus 1 threads 1\nphase\n0 store $1 70000 0g\n",
        Some((3, Reason::Number)),
    ),
    (
        b"umem 1 cpus 1 threads 1\nphase\n0 reap @ 1,,2\n",
        Some((3, Reason::Number)),
    ),
    (
        b"umem 1 cpus 1 threads 1\nphase\n0 reap @ 10000000000000000\n",
        Some((3, Reason::Number)),
    ),
    (
        b"umem 1 cpus 1 threads 1\ncache 9 x 7\n",
        Some((2, Reason::Number)),
    ),
    (
        b"umem 2 cpus 2 threads 2\ncache a 8 8 a\n",
        Some((2, Reason::Number)),
    ),
    (
        b"umem 2 cpus 2 threads 2\ncache a 8 8 a5a\n",
        Some((2, Reason::Number)),
    ),
];

// Limits.
const RANGE: [Case; 11] = [
    (
        b"umem 1 cpus 1 threads 1\nphase\n0 alloc $1 4294967296\n",
        Some((3, Reason::Range)),
    ),
    (
        b"umem 1 cpus 1 threads 1\nphase\n0 free $1 11111111111111111111\n",
        Some((3, Reason::Range)),
    ),
    (
        b"umem 1 cpus 1 threads 1\nphase\n0 load $1 $2 65536\n",
        Some((3, Reason::Range)),
    ),
    (
        b"umem 1 cpus 1 threads 1\nphase\n0 store $1 11111111111111111111 00\n",
        Some((3, Reason::Range)),
    ),
    (
        b"umem 1 cpus 1 threads 1\nphase\n0 store $1 0 0000000000000000000000000000000000\n",
        Some((3, Reason::Range)),
    ),
    (
        b"umem 1 cpus 1 threads 1\ncache a 0 8\n",
        Some((2, Reason::Range)),
    ),
    (
        b"umem 1 cpus 1 threads 1\ncache 9 4097 8\n",
        Some((2, Reason::Range)),
    ),
    (
        b"umem 1 cpus 1 threads 1\ncache a 8 24\n",
        Some((2, Reason::Range)),
    ),
    (
        b"umem 1 cpus 1 threads 1\ncache a 8 11111111111111111111\n",
        Some((2, Reason::Range)),
    ),
    (
        b"umem 1 cpus 1 threads 1\ncache a 11111111111111111111 8\n",
        Some((2, Reason::Range)),
    ),
    (
        b"umem 1 cpus 1 threads 1\nphase\n0 store $1 0 00000000000000000000000000000000\n",
        None,
    ),
];

// Names.
const NAME: [Case; 9] = [
    (
        b"umem 1 cpus 1 threads 1\ncache 9a 8 8\n",
        Some((2, Reason::Name)),
    ),
    (
        b"umem 1 cpus 1 threads 1\ncache aB 8 8\n",
        Some((2, Reason::Name)),
    ),
    (
        b"umem 1 cpus 1 threads 1\ncache aaaaaaaaaaaaaaaaaaaaaaaaaaaaaaaa 8 8\n",
        Some((2, Reason::Name)),
    ),
    (
        b"umem 1 cpus 1 threads 1\ncache a 8 8\ncache a 16 8\n",
        Some((3, Reason::Name)),
    ),
    (
        b"umem 1 cpus 1 threads 1\ncache umem_alloc_x 8 8\n",
        Some((2, Reason::Name)),
    ),
    (
        b"umem 1 cpus 1 threads 1\ncache umem_oversize 8 8\n",
        Some((2, Reason::Name)),
    ),
    (
        b"umem 1 cpus 1 threads 1\nphase\ncache 9a 8 8\n",
        Some((3, Reason::Name)),
    ),
    (
        b"umem 1 cpus 1 threads 1\ncache aaaaaaaaaaaaaaaaaaaaaaaaaaaaaaa 8 8\n",
        None,
    ),
    (
        b"umem 1 cpus 1 threads 1\ncache umem_oversizes 8 8\ncache umem 8 8\n",
        None,
    ),
];

// Places.
const ORDER: [Case; 5] = [
    (
        b"umem 1 cpus 1 threads 1\nphase\ncache a 8 8\n",
        Some((3, Reason::Order)),
    ),
    (
        b"umem 1 cpus 1 threads 1\n0 reap\n",
        Some((2, Reason::Order)),
    ),
    (b"umem 1 cpus 1 threads 1\numem\n", Some((2, Reason::Order))),
    (
        b"umem 1 cpus 1 threads 1\numem 1 cpus 1 threads 1\n",
        Some((2, Reason::Order)),
    ),
    (
        b"umem 1 cpus 1 threads 1\n\numem 3 x\n",
        Some((3, Reason::Order)),
    ),
];

fn check(rt: &impl Abort, alloc: Global, cases: &[Case]) -> Result<(), Fail> {
    for (bytes, want) in cases {
        let told = match read_script(alloc, bytes) {
            Ok(_) => None,
            Err(ScriptFault::Bad { line, reason }) => Some((line, reason)),
            Err(ScriptFault::NoMemory) => return Err(Fail::from("no memory")),
        };
        assert_eq!(rt; told, *want);
    }
    Ok(())
}

#[test]
fn tells_the_first_bad_line(rt: HostRuntime) -> Result<(), Fail> {
    let alloc = rt.alloc();
    check(&rt, alloc, &GOOD)?;
    check(&rt, alloc, &TEXT)?;
    check(&rt, alloc, &HEADER)?;
    check(&rt, alloc, &HEADER_NUMBERS)?;
    check(&rt, alloc, &WORD)?;
    check(&rt, alloc, &COUNT)?;
    check(&rt, alloc, &THREAD)?;
    check(&rt, alloc, &SLOT)?;
    check(&rt, alloc, &UNKNOWN)?;
    check(&rt, alloc, &NUMBER)?;
    check(&rt, alloc, &RANGE)?;
    check(&rt, alloc, &NAME)?;
    check(&rt, alloc, &ORDER)?;
    Ok(())
}

// The lines, each so many times as it says.
fn repeated(alloc: Global, lines: &[(&[u8], u32)]) -> Result<Vec<u8>, Fail> {
    let mut bytes = Vec::new(alloc);
    for (line, times) in lines {
        for _ in 0..*times {
            bytes.extend_from_slice(line)?;
        }
    }
    Ok(bytes)
}

fn told(alloc: Global, lines: &[(&[u8], u32)]) -> Result<Option<(u32, Reason)>, Fail> {
    let bytes = repeated(alloc, lines)?;
    match read_script(alloc, &bytes) {
        Ok(_) => Ok(None),
        Err(ScriptFault::Bad { line, reason }) => Ok(Some((line, reason))),
        Err(ScriptFault::NoMemory) => Err(Fail::from("no memory")),
    }
}

#[test]
fn tells_the_line_that_is_one_too_many(rt: HostRuntime) -> Result<(), Fail> {
    let alloc = rt.alloc();
    let first: (&[u8], u32) = (b"umem 1 cpus 1 threads 1\n", 1);
    let second: (&[u8], u32) = (b"umem 2 cpus 1 threads 1\n", 1);
    let phase: &[u8] = b"phase\n";
    let step: &[u8] = b"0 reap\n";
    assert_eq!(rt; told(alloc, &[first, (phase, 4096)])?, None);
    let many = told(alloc, &[first, (phase, 4097)])?;
    assert_eq!(rt; many, Some((4098, Reason::Limit)));
    assert_eq!(rt; told(alloc, &[first, (phase, 1), (step, 65_536)])?, None);
    let many = told(alloc, &[first, (phase, 1), (step, 65_537)])?;
    assert_eq!(rt; many, Some((65_539, Reason::Limit)));
    assert_eq!(rt; told(alloc, &[second, (phase, 1), (step, 131_072)])?, None);
    let many = told(alloc, &[second, (phase, 1), (step, 131_073)])?;
    assert_eq!(rt; many, Some((131_075, Reason::Limit)));
    Ok(())
}

#[test]
fn tells_the_frame_that_is_one_too_many(rt: HostRuntime) -> Result<(), Fail> {
    let alloc = rt.alloc();
    let start: (&[u8], u32) = (b"umem 1 cpus 1 threads 1\nphase\n0 reap @ ", 1);
    let frame: &[u8] = b"ffffffffffffffff,";
    let last: (&[u8], u32) = (b"0\n", 1);
    assert_eq!(rt; told(alloc, &[start, (frame, 63), last])?, None);
    let many = told(alloc, &[start, (frame, 64), last])?;
    assert_eq!(rt; many, Some((3, Reason::Range)));
    Ok(())
}

#[test]
fn tells_the_cache_that_is_one_too_many(rt: HostRuntime) -> Result<(), Fail> {
    let alloc = rt.alloc();
    let mut bytes = Vec::from_slice(alloc, b"umem 1 cpus 1 threads 1\n")?;
    for cache in 0..64u8 {
        bytes.extend_from_slice(b"cache c")?;
        bytes.extend_from_slice(&[b'a' + cache / 8, b'a' + cache % 8])?;
        bytes.extend_from_slice(b" 8 8\n")?;
    }
    assert_eq!(rt; read_script(alloc, &bytes).is_ok(), true);
    bytes.extend_from_slice(b"cache d 8 8\n")?;
    let many = read_script(alloc, &bytes).err();
    let limit = ScriptFault::Bad {
        line: 66,
        reason: Reason::Limit,
    };
    assert_eq!(rt; many, Some(limit));
    bytes.truncate(bytes.len().saturating_sub(12));
    bytes.extend_from_slice(b"phase\ncache d 8 8\n")?;
    let late = read_script(alloc, &bytes).err();
    let order = ScriptFault::Bad {
        line: 67,
        reason: Reason::Order,
    };
    assert_eq!(rt; late, Some(order));
    Ok(())
}

#[test]
fn tells_a_file_that_is_too_long(rt: HostRuntime) -> Result<(), Fail> {
    let alloc = rt.alloc();
    let header: (&[u8], u32) = (b"umem 1 cpus 1 threads 1\n", 1);
    let blank: &[u8] = b"\n";
    assert_eq!(rt; told(alloc, &[header, (blank, 4_194_280)])?, None);
    let long = told(alloc, &[header, (blank, 4_194_281)])?;
    assert_eq!(rt; long, Some((0, Reason::Limit)));
    Ok(())
}

#[test]
fn copies_are_equal(rt: HostRuntime) -> Result<(), Fail> {
    let alloc = rt.alloc();
    let bytes =
        b"umem 2 cpus 2 threads 1\ncache conn 72 16 a5\nphase\n0 store $1 0 0a @ 40,41\nphase\n";
    let script: Script = read_script(alloc, bytes).ok().ok_or("no script")?;
    let copy = script.clone()?;
    assert_eq!(rt; script == copy, true);
    let other =
        b"umem 2 cpus 2 threads 1\ncache conn 72 16 a5\nphase\n0 store $1 0 0a @ 40,42\nphase\n";
    let other = read_script(alloc, other).ok().ok_or("no script")?;
    assert_eq!(rt; script == other, false);
    Ok(())
}

#[test]
fn prints_reasons(rt: HostRuntime) -> Result<(), Fail> {
    let printed = format!(in rt.alloc(); "{} {}", Reason::Text, Reason::Limit)?;
    assert_eq!(rt; printed.as_str(), "text limit");
    assert_eq!(rt; Reason::Order.word(), b"order".as_slice());
    Ok(())
}
