//! Scripts that are run with guards: what the replies tell of broken buffers, and where chunks come from.

use crate::Status;
use crate::tests::scene::{NOTHING, call};
use std::test::Fail;

/// The lines behind the header and the first phase of a script, and those behind the first of its transcript.
type Row = (&'static str, &'static str);

const ROWS: [Row; 7] = [
    (
        "0 alloc $1 4096\n0 alloc $2 4097\n",
        "0 0 grow umem_alloc_4096 100000 -> ok\n\
        1 0 alloc $1 4096 -> ok 100000\n\
        2 0 alloc $2 4097 -> ok 109000\n\
        end 3\n",
    ),
    (
        "0 alloc $1 0\n0 free $1 0\n",
        "0 0 alloc $1 0 -> null\n\
        1 0 free $1 0 -> null\n\
        end 2\n",
    ),
    (
        "0 alloc $1 24\n0 copy $2 $1\n0 free $1 24\n0 free $2 24\n0 alloc $3 24\n0 free $2 24\n0 free $3 24\n",
        "0 0 grow umem_alloc_24 100000 -> ok\n\
        1 0 alloc $1 24 -> ok 100000\n\
        2 0 copy $2 $1 -> ok\n\
        3 0 free $1 24 -> ok\n\
        4 0 free $2 24 -> dup\n\
        5 0 alloc $3 24 -> ok 100000\n\
        6 0 free $2 24 -> ok\n\
        7 0 free $3 24 -> dup\n\
        end 8\n",
    ),
    (
        "0 alloc $1 24\n0 free $1 16\n0 free $1 24\n",
        "0 0 grow umem_alloc_24 100000 -> ok\n\
        1 0 alloc $1 24 -> ok 100000\n\
        2 0 free $1 16 -> badsize\n\
        3 0 free $1 24 -> ok\n\
        end 4\n",
    ),
    (
        "0 alloc $1 20\n0 store $1 24 41\n0 free $1 20\n",
        "0 0 grow umem_alloc_24 100000 -> ok\n\
        1 0 alloc $1 20 -> ok 100000\n\
        2 0 store $1 24 41 -> ok\n\
        3 0 free $1 20 -> redzone\n\
        end 4\n",
    ),
    (
        "0 alloc $1 24\n0 copy $2 $1\n0 free $1 24\n0 store $2 8 41\n0 alloc $3 24\n",
        "0 0 grow umem_alloc_24 100000 -> ok\n\
        1 0 alloc $1 24 -> ok 100000\n\
        2 0 copy $2 $1 -> ok\n\
        3 0 free $1 24 -> ok\n\
        4 0 store $2 8 41 -> ok\n\
        5 0 alloc $3 24 -> ok 100000 modified 8\n\
        end 6\n",
    ),
    (
        "0 alloc $1 24\n0 copy $3 $1\n0 free $1 24\n0 reap\n0 alloc $2 8\n0 free $3 24\n",
        "0 0 grow umem_alloc_24 100000 -> ok\n\
        1 0 alloc $1 24 -> ok 100000\n\
        2 0 copy $3 $1 -> ok\n\
        3 0 free $1 24 -> ok\n\
        4 0 shrink umem_alloc_24 100000 -> ok\n\
        5 0 reap -> ok\n\
        6 0 grow umem_alloc_8 100000 -> ok\n\
        7 0 alloc $2 8 -> ok 100000\n\
        8 0 free $3 24 -> badsize\n\
        end 9\n",
    ),
];

// The last chunk is one that another CPU freed, found where neither a round of the own CPU nor a run of pages is left.
const OTHER_CPU: &[u8] =
    b"umem 1 cpus 2 threads 2\nphase\n1 alloc $1 4096\n1 alloc $2 4096\n1 alloc $3 4096\n\
    1 alloc $4 4096\n1 alloc $5 4096\n1 alloc $6 4096\n1 alloc $7 4096\n1 alloc $8 4096\n1 free $8 4096\n\
    phase\n0 alloc $9 4157440\n0 alloc $10 4096\n0 alloc $11 4096\n";

const OTHER_CPU_TRANSCRIPT: &[u8] = b"transcript 1 cpus 2 threads 2 guards on\n\
    0 1 grow umem_alloc_4096 100000 -> ok\n\
    1 1 alloc $1 4096 -> ok 100000\n\
    2 1 alloc $2 4096 -> ok 101018\n\
    3 1 alloc $3 4096 -> ok 102030\n\
    4 1 alloc $4 4096 -> ok 103048\n\
    5 1 alloc $5 4096 -> ok 104060\n\
    6 1 alloc $6 4096 -> ok 105078\n\
    7 1 alloc $7 4096 -> ok 106090\n\
    8 1 alloc $8 4096 -> ok 1070a8\n\
    9 1 free $8 4096 -> ok\n\
    10 0 alloc $9 4157440 -> ok 109000\n\
    11 0 alloc $10 4096 -> ok 1070a8\n\
    12 0 alloc $11 4096 -> nospace\n\
    end 13\n";

const GUARDED: [&[u8]; 4] = [b"run", b"--debug", b"guards", b"first.umem"];

fn rows() -> &'static [Row] {
    &ROWS
}

#[test]
fn tells_broken_buffers(rt: HostRuntime) -> Result<(), Fail> {
    let alloc = rt.alloc();
    for (lines, told) in rows() {
        let script = format!(in alloc; "umem 1 cpus 1 threads 1\nphase\n{lines}")?;
        let transcript = format!(in alloc; "transcript 1 cpus 1 threads 1 guards on\n{told}")?;
        let outcome = call(&rt, alloc, &GUARDED, script.as_bytes(), NOTHING)?;
        assert_eq!(rt; outcome.number, Status::Done.code());
        assert_eq!(rt; outcome.out.bytes(), transcript.as_bytes());
    }
    Ok(())
}

#[test]
fn looks_at_all_cpus(rt: HostRuntime) -> Result<(), Fail> {
    let outcome = call(&rt, rt.alloc(), &GUARDED, OTHER_CPU, NOTHING)?;
    assert_eq!(rt; outcome.number, Status::Done.code());
    assert_eq!(rt; outcome.out.bytes(), OTHER_CPU_TRANSCRIPT);
    Ok(())
}
