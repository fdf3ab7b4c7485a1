//! Histories: their printed lines, how they compare, and what frees are answered.

ghost use Rattle.std.specs.Prelude.{◌≡◌, [], ◌∷◌, length, IfOk};
ghost use Rattle.plain_heap.specs.declared.entry.Body.TheVariants as body;
ghost use Rattle.plain_heap.specs.Texts.{HasItsCache};

use case_table::CacheDef;
use plain_heap::{Body, Entry, History, Live, Reply, Report, transcript};
use script::{Header, Op};
use std::alloc::Global;
use std::process::Abort;
use std::test::Fail;
use umem_base::{NoMemory, Sequence, Text};

fn cache(
    alloc: Global,
    name: &[u8],
    size: u32,
    align: u32,
    ctor: Option<u8>,
) -> Result<CacheDef, NoMemory> {
    Ok(CacheDef {
        name: Text::from_slice(alloc, name)?,
        size,
        align,
        ctor,
    })
}

// A header with the declared caches `node`, which has the number 32, and `conn`, which has a constructor.
fn header(alloc: Global, threads: u32) -> Result<Header, NoMemory>
    ensures { IfOk result (λ header. length header.caches ≡ 2) }
{
    let node = cache(alloc, b"node", 48, 16, None)?;
    let conn = cache(alloc, b"conn", 16, 8, Some(0xa5))?;
    Ok(Header {
        version: 2,
        cpus: 1,
        threads,
        caches: Sequence::new(Vec::from_array(alloc, [node, conn])?),
    })
}

// A call with a stack, which no line tells.
fn call(alloc: Global, op: Op, reply: Reply) -> Result<Body, NoMemory>
    ensures { IfOk result (λ made. made ≡ body.Call op (4198400 ∷ []) reply) }
{
    Ok(Body::Call {
        op,
        frames: Sequence::new(Vec::from_slice(alloc, &[0x40_1000])?),
        reply,
    })
}

fn entry(number: u32, thread: u32, body: Body) -> Entry
    ensures number { result.number ≡ number }
    ensures body { result.body ≡ body }
{
    Entry {
        number,
        thread,
        body,
    }
}

// A header without declared caches.
fn plain_header(alloc: Global) -> Header
    ensures { result.caches ≡ [] }
{
    Header {
        version: 1,
        cpus: 2,
        threads: 3,
        caches: Sequence::new(Vec::new(alloc)),
    }
}

fn check_line(
    rt: &impl Abort,
    alloc: Global,
    header: &Header,
    body: Body,
    line: &[u8],
) -> Result<(), Fail>
    requires { HasItsCache header.now.caches body }
{
    let text = entry(12, 3, body).text(alloc, header)?;
    assert_eq!(rt; text.as_slice(), line);
    Ok(())
}

#[test]
fn prints_replies(rt: HostRuntime) -> Result<(), Fail> {
    let alloc = rt.alloc();
    let header = header(alloc, 4)?;
    let address = 0x10_00c0;
    let at = |report| Reply::At { address, report };
    for (reply, line) in [
        (Reply::Ok, b"12 3 clear $1 -> ok\n".as_slice()),
        (Reply::Null, b"12 3 clear $1 -> null\n"),
        (Reply::NoSpace, b"12 3 clear $1 -> nospace\n"),
        (at(Report::Clean), b"12 3 clear $1 -> ok 1000c0\n"),
        (
            at(Report::Modified(16)),
            b"12 3 clear $1 -> ok 1000c0 modified 16\n",
        ),
        (at(Report::Redzone), b"12 3 clear $1 -> ok 1000c0 redzone\n"),
        (Reply::Dup, b"12 3 clear $1 -> dup\n"),
        (Reply::BadAddr, b"12 3 clear $1 -> badaddr\n"),
        (Reply::BadCache, b"12 3 clear $1 -> badcache\n"),
        (Reply::BadSize, b"12 3 clear $1 -> badsize\n"),
        (Reply::Redzone, b"12 3 clear $1 -> redzone\n"),
        (Reply::Fault, b"12 3 clear $1 -> fault\n"),
        (Reply::Word(0), b"12 3 clear $1 -> word 0\n"),
        (
            Reply::Word(0xbadd_cafe),
            b"12 3 clear $1 -> word baddcafe\n",
        ),
    ] {
        let body = call(alloc, Op::Clear { slot: 1 }, reply)?;
        check_line(&rt, alloc, &header, body, line)?;
    }
    Ok(())
}

#[test]
fn prints_operations(rt: HostRuntime) -> Result<(), Fail> {
    let alloc = rt.alloc();
    let header = header(alloc, 4)?;
    let body = call(alloc, Op::Alloc { slot: 1, size: 24 }, Reply::Ok)?;
    check_line(&rt, alloc, &header, body, b"12 3 alloc $1 24 -> ok\n")?;
    let body = call(alloc, Op::Zalloc { slot: 511, size: 0 }, Reply::Ok)?;
    check_line(&rt, alloc, &header, body, b"12 3 zalloc $511 0 -> ok\n")?;
    let body = call(alloc, Op::Free { slot: 512, size: 7 }, Reply::Ok)?;
    check_line(&rt, alloc, &header, body, b"12 3 free %0 7 -> ok\n")?;
    let body = call(alloc, Op::CacheAlloc { slot: 2, cache: 32 }, Reply::Ok)?;
    check_line(
        &rt,
        alloc,
        &header,
        body,
        b"12 3 cache_alloc $2 node -> ok\n",
    )?;
    let body = call(
        alloc,
        Op::CacheFree {
            slot: 513,
            cache: 33,
        },
        Reply::Ok,
    )?;
    check_line(
        &rt,
        alloc,
        &header,
        body,
        b"12 3 cache_free %1 conn -> ok\n",
    )?;
    let body = call(alloc, Op::Copy { to: 1023, from: 0 }, Reply::Ok)?;
    check_line(&rt, alloc, &header, body, b"12 3 copy %511 $0 -> ok\n")?;
    let body = call(alloc, Op::Clear { slot: 9 }, Reply::Ok)?;
    check_line(&rt, alloc, &header, body, b"12 3 clear $9 -> ok\n")?;
    let body = call(
        alloc,
        Op::Store {
            slot: 1,
            offset: 24,
            bytes: Text::from_slice(alloc, b"\x00\xff\x1a")?,
        },
        Reply::Ok,
    )?;
    check_line(
        &rt,
        alloc,
        &header,
        body,
        b"12 3 store $1 24 00ff1a -> ok\n",
    )?;
    let body = call(
        alloc,
        Op::Link {
            slot: 5,
            offset: 8,
            value: 6,
        },
        Reply::Ok,
    )?;
    check_line(&rt, alloc, &header, body, b"12 3 link $5 8 $6 -> ok\n")?;
    let body = call(
        alloc,
        Op::Load {
            to: 3,
            slot: 4,
            offset: 65_535,
        },
        Reply::Ok,
    )?;
    check_line(&rt, alloc, &header, body, b"12 3 load $3 $4 65535 -> ok\n")?;
    let body = call(alloc, Op::Reap, Reply::Ok)?;
    check_line(&rt, alloc, &header, body, b"12 3 reap -> ok\n")?;
    Ok(())
}

#[test]
fn prints_slabs(rt: HostRuntime) -> Result<(), Fail> {
    let alloc = rt.alloc();
    let header = header(alloc, 4)?;
    let base = 0x10_2000;
    for (cache, grow, shrink) in [
        (
            2,
            b"12 3 grow umem_alloc_24 102000 -> ok\n".as_slice(),
            b"12 3 shrink umem_alloc_24 102000 -> ok\n".as_slice(),
        ),
        (
            31,
            b"12 3 grow umem_alloc_4096 102000 -> ok\n",
            b"12 3 shrink umem_alloc_4096 102000 -> ok\n",
        ),
        (
            32,
            b"12 3 grow node 102000 -> ok\n",
            b"12 3 shrink node 102000 -> ok\n",
        ),
        (
            33,
            b"12 3 grow conn 102000 -> ok\n",
            b"12 3 shrink conn 102000 -> ok\n",
        ),
    ] {
        check_line(&rt, alloc, &header, Body::Grow { cache, base }, grow)?;
        check_line(&rt, alloc, &header, Body::Shrink { cache, base }, shrink)?;
    }
    Ok(())
}

#[test]
fn prints_histories(rt: HostRuntime) -> Result<(), Fail> {
    let alloc = rt.alloc();
    let mut history = History::with_room(alloc, 3)?;
    let text = transcript(alloc, &header(alloc, 2)?, true, &history)?;
    assert_eq!(rt;
        text.as_slice(),
        b"transcript 2 cpus 1 threads 2 guards on\n\
        cache node 48 16\n\
        cache conn 16 8 a5\n\
        end 0\n"
            .as_slice()
    );
    let grow = Body::Grow {
        cache: 2,
        base: 0x10_0000,
    };
    history.push(entry(0, 0, grow));
    let reply = Reply::At {
        address: 0x10_0000,
        report: Report::Clean,
    };
    let taken = call(
        alloc,
        Op::Alloc {
            slot: 513,
            size: 24,
        },
        reply,
    )?;
    history.push(entry(1, 1, taken));
    let cleared = call(alloc, Op::Clear { slot: 513 }, Reply::Ok)?;
    history.push(entry(2, 0, cleared));
    let text = transcript(alloc, &plain_header(alloc), false, &history)?;
    assert_eq!(rt;
        text.as_slice(),
        b"transcript 1 cpus 2 threads 3 guards off\n\
        0 0 grow umem_alloc_24 100000 -> ok\n\
        1 1 alloc %1 24 -> ok 100000\n\
        2 0 clear %1 -> ok\n\
        end 3\n"
            .as_slice()
    );
    Ok(())
}

#[test]
fn compares_histories(rt: HostRuntime) -> Result<(), Fail> {
    let alloc = rt.alloc();
    let mut history = History::with_room(alloc, 1)?;
    let empty = history.clone()?;
    assert!(rt; empty == history);
    let reaped = call(alloc, Op::Reap, Reply::Ok)?;
    history.push(entry(0, 0, reaped));
    assert!(rt; empty != history);
    let copy = history.clone()?;
    assert!(rt; copy == history);
    assert!(rt; history.pop().is_some());
    assert!(rt; empty == history);
    assert!(rt; history.pop().is_none());
    Ok(())
}

#[test]
fn judges_frees(rt: HostRuntime) -> Result<(), Fail> {
    let mut live = Live::with_room(rt.alloc(), 3)?;
    assert_eq!(rt; live.held(0x1000), None);
    live.allocated(0x1000, 24, None);
    assert_eq!(rt; live.held(0x2000), None);
    live.allocated(0x2000, 24, Some(31));
    assert_eq!(rt; live.held(0x3000), None);
    live.allocated(0x3000, 24, Some(32));
    assert!(rt; live.held(0x2000).is_some());
    live.freed(0x2000);
    for (word, size, finding, reply) in [
        (0, 24, true, Reply::Null),
        (0x1000, 24, false, Reply::Ok),
        (0x1000, 24, true, Reply::Redzone),
        (0x1000, 25, true, Reply::BadSize),
        (0x2000, 25, true, Reply::Dup),
        (0x3000, 25, true, Reply::BadCache),
        (0x1001, 24, true, Reply::BadAddr),
    ] {
        let op = Op::Free { slot: 1, size };
        assert_eq!(rt; live.judge(&op, word, finding), reply);
    }
    for (word, cache, finding, reply) in [
        (0, 32, true, Reply::Null),
        (0x3000, 32, false, Reply::Ok),
        (0x3000, 32, true, Reply::Redzone),
        (0x3000, 33, true, Reply::BadCache),
        (0x1000, 32, true, Reply::BadCache),
        (0x2000, 32, true, Reply::Dup),
        (0x1001, 32, true, Reply::BadAddr),
    ] {
        let op = Op::CacheFree { slot: 1, cache };
        assert_eq!(rt; live.judge(&op, word, finding), reply);
    }
    Ok(())
}
