//! Scripts that are written, and drawn from a seed.

ghost use Rattle.std.specs.Prelude.{◌≤◌, [], ◌∷◌, IfOk};
ghost use Rattle.script.specs.Plan.{plan_of};
ghost use Rattle.script.specs.PlanText.{HasAllCaches, HasCache};

use case_table::CacheDef;
use script::laws::plans_have_their_caches;
use script::{Header, MOST_CALLS_1, Op, Phase, Script, Step, make_script, put_op, script_text};
use std::alloc::Global;
use std::process::Abort;
use std::test::Fail;
use umem_base::{NoMemory, Sequence, Stack, Text};

fn check_op(rt: &impl Abort, alloc: Global, op: &Op, words: &[u8]) -> Result<(), Fail>
    requires { HasCache [] op.now }
{
    let mut out = Text::new(alloc);
    put_op(&mut out, &[], op)?;
    assert_eq!(rt; out.as_slice(), words);
    Ok(())
}

#[test]
fn prints_operations(rt: HostRuntime) -> Result<(), Fail> {
    let alloc = rt.alloc();
    check_op(&rt, alloc, &Op::Alloc { slot: 1, size: 24 }, b"alloc $1 24")?;
    check_op(
        &rt,
        alloc,
        &Op::Zalloc { slot: 511, size: 0 },
        b"zalloc $511 0",
    )?;
    check_op(&rt, alloc, &Op::Free { slot: 512, size: 7 }, b"free %0 7")?;
    check_op(&rt, alloc, &Op::Copy { to: 1023, from: 0 }, b"copy %511 $0")?;
    check_op(&rt, alloc, &Op::Clear { slot: 9 }, b"clear $9")?;
    let load = Op::Load {
        to: 3,
        slot: 4,
        offset: 65_535,
    };
    check_op(&rt, alloc, &load, b"load $3 $4 65535")?;
    let link = Op::Link {
        slot: 5,
        offset: 8,
        value: 6,
    };
    check_op(&rt, alloc, &link, b"link $5 8 $6")?;
    let store = Op::Store {
        slot: 1,
        offset: 0,
        bytes: Text::from_slice(alloc, b"\x00\xff\x1a")?,
    };
    check_op(&rt, alloc, &store, b"store $1 0 00ff1a")?;
    check_op(&rt, alloc, &Op::Reap, b"reap")
}

#[test]
fn prints_caches_by_name(rt: HostRuntime) -> Result<(), Fail> {
    let caches = [CacheDef {
        name: Text::from_slice(rt.alloc(), b"point")?,
        size: 24,
        align: 8,
        ctor: None,
    }];
    let mut out = Text::new(rt.alloc());
    put_op(&mut out, &caches, &Op::CacheAlloc { slot: 1, cache: 32 })?;
    put_op(
        &mut out,
        &caches,
        &Op::CacheFree {
            slot: 513,
            cache: 32,
        },
    )?;
    assert_eq!(rt;
        out.as_slice(),
        b"cache_alloc $1 pointcache_free %1 point".as_slice()
    );
    Ok(())
}

fn check_drawn(
    rt: &impl Abort,
    alloc: Global,
    seed: u64,
    ops: u32,
    wanted: &[u8],
) -> Result<(), Fail>
    requires { ops ≤ MOST_CALLS_1 }
{
    plans_have_their_caches();
    let script = make_script(alloc, seed, ops)?;
    let text = script_text(alloc, &script)?;
    assert_eq!(rt; text.as_slice(), wanted);
    Ok(())
}

#[test]
fn draws_scripts(rt: HostRuntime) -> Result<(), Fail> {
    let alloc = rt.alloc();
    check_drawn(&rt, alloc, 0, 0, b"umem 1 cpus 1 threads 1\nphase\n")?;
    check_drawn(
        &rt,
        alloc,
        0,
        10,
        b"umem 1 cpus 1 threads 1\nphase\n0 alloc $64 247\n0 alloc $9 477\n0 alloc $18 241\n\
0 alloc $53 54\n0 alloc $46 154\n0 alloc $28 255\n0 alloc $57 295\n0 alloc $8 240\n\
0 alloc $33 184\n0 free $28 255\n",
    )?;
    check_drawn(
        &rt,
        alloc,
        1,
        1,
        b"umem 1 cpus 1 threads 1\nphase\n0 alloc $23 224\n",
    )
}

// A script of one cache and one call.
fn one_call(alloc: Global, def: CacheDef, step: Step) -> Result<Script, NoMemory>
    requires { HasCache (def ∷ []) step.op }
    ensures { IfOk result (λ script. HasAllCaches (plan_of script)) }
{
    let caches = Vec::from_array(alloc, [def])?;
    let steps = Vec::from_array(alloc, [step])?;
    let phases = Vec::from_array(alloc, [Phase::from_vec(steps)])?;
    let header = Header {
        version: 2,
        cpus: 4,
        threads: 12,
        caches: Sequence::new(caches),
    };
    Ok(Script {
        header,
        phases: Sequence::new(phases),
    })
}

#[test]
fn writes_every_kind_of_line(rt: HostRuntime) -> Result<(), Fail> {
    let def = CacheDef {
        name: Text::from_slice(rt.alloc(), b"point")?,
        size: 24,
        align: 8,
        ctor: Some(0xab),
    };
    let step = Step {
        thread: 11,
        op: Op::CacheAlloc {
            slot: 515,
            cache: 32,
        },
        stack: Stack::from_vec(Vec::from_array(rt.alloc(), [0x40, 0xff0])?),
    };
    let script = one_call(rt.alloc(), def, step)?;
    let text = script_text(rt.alloc(), &script)?;
    let wanted =
        b"umem 2 cpus 4 threads 12\ncache point 24 8 ab\nphase\n11 cache_alloc %3 point @ 40,ff0\n";
    assert_eq!(rt; text.as_slice(), wanted.as_slice());
    Ok(())
}
