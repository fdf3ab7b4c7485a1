//! Scripts that are drawn from a seed, and run.

use crate::Status;
use crate::tests::scene::{Failing, NOTHING, call};
use std::test::Fail;

const GUARDED: [&[u8]; 7] = [
    b"make", b"--seed", b"0", b"--ops", b"1", b"--debug", b"guards",
];

const NO_OPS: [&[u8]; 5] = [b"make", b"--seed", b"5", b"--ops", b"0"];

// One call, none, and a first write that fails.
#[test]
fn prints_drawn_scripts(rt: HostRuntime) -> Result<(), Fail> {
    let failing = Failing { out: 0, ..NOTHING };
    for (words, failing, status, text) in [
        (
            GUARDED.as_slice(),
            NOTHING,
            Status::Done,
            b"umem 1 cpus 1 threads 1\nphase\n0 alloc $64 247\n\
            # summary allocs 1 frees 0 live 1 bytes 247 grows 1\n"
                .as_slice(),
        ),
        (
            &NO_OPS,
            NOTHING,
            Status::Done,
            b"umem 1 cpus 1 threads 1\nphase\n\
            # summary allocs 0 frees 0 live 0 bytes 0 grows 0\n",
        ),
        (&NO_OPS, failing, Status::WriteFault, b""),
    ] {
        let outcome = call(&rt, rt.alloc(), words, b"", failing)?;
        assert_eq!(rt; outcome.number, status.code());
        assert_eq!(rt; outcome.out.bytes(), text);
        assert_eq!(rt; outcome.err.bytes(), b"".as_slice());
    }
    Ok(())
}
