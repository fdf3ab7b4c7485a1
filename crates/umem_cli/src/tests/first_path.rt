//! The first scripts, and each fault that may meet them.

use crate::Status;
use crate::tests::scene::{Failing, NEVER, NOTHING, call};
use std::test::Fail;

const FIRST: &[u8] = b"umem 1 cpus 1 threads 1\nphase\n0 alloc $1 24\n0 free $1 24\n";

const FIRST_TRANSCRIPT: &[u8] = b"transcript 1 cpus 1 threads 1 guards off\n\
    0 0 grow umem_alloc_24 100000 -> ok\n\
    1 0 alloc $1 24 -> ok 100000\n\
    2 0 free $1 24 -> ok\n\
    end 3\n";

const USAGE: &[u8] = b"usage: umem run SCRIPT [--core FILE] [--debug LIST] [--logging LIST]\n\
    usage: umem mdb CORE\n\
    usage: umem make --seed N --ops N [--debug LIST] [--logging LIST]\n";

const RUN: [&[u8]; 2] = [b"run", b"first.umem"];

// The first script, an arena that is full, frees of a wrong size and of nothing, and no call at all.
#[test]
fn runs_scripts(rt: HostRuntime) -> Result<(), Fail> {
    for (script, transcript) in [
        (FIRST, FIRST_TRANSCRIPT),
        (
            b"umem 1 cpus 1 threads 1\nphase\n0 alloc $1 4194304\n0 alloc $2 1\n",
            b"transcript 1 cpus 1 threads 1 guards off\n\
            0 0 alloc $1 4194304 -> ok 100000\n\
            1 0 alloc $2 1 -> nospace\n\
            end 2\n",
        ),
        (
            b"umem 1 cpus 1 threads 1\nphase\n0 alloc $0 4097\n0 alloc $1 1\n0 free $0 4096\n\
            0 free $0 4097\n0 free $0 4097\n0 alloc $511 0\n0 alloc $2 8192\n0 alloc $3 8193\n",
            b"transcript 1 cpus 1 threads 1 guards off\n\
            0 0 alloc $0 4097 -> ok 100000\n\
            1 0 grow umem_alloc_8 102000 -> ok\n\
            2 0 alloc $1 1 -> ok 102000\n\
            3 0 free $0 4096 -> badsize\n\
            4 0 free $0 4097 -> ok\n\
            5 0 free $0 4097 -> null\n\
            6 0 alloc $511 0 -> null\n\
            7 0 alloc $2 8192 -> ok 100000\n\
            8 0 alloc $3 8193 -> ok 103000\n\
            end 9\n",
        ),
        (
            b"# comments, blanks, phases and a stack\n\numem 1  cpus 2 threads 1\nphase\n\
            0 alloc $1 24 @ 1f,2a\n phase\n\t# more\n0 free $1 24\nphase",
            b"transcript 1 cpus 2 threads 1 guards off\n\
            0 0 grow umem_alloc_24 100000 -> ok\n\
            1 0 alloc $1 24 -> ok 100000\n\
            2 0 free $1 24 -> ok\n\
            end 3\n",
        ),
        (
            b"umem 1 cpus 2 threads 2\ncache conn 72 16\nphase\n0 cache_alloc $1 conn\n\
            1 cache_alloc $2 conn\nphase\n1 cache_free $1 conn\n0 cache_free $2 conn\n",
            b"transcript 1 cpus 2 threads 2 guards off\ncache conn 72 16\n\
            0 0 grow conn 100000 -> ok\n\
            1 0 cache_alloc $1 conn -> ok 100000\n\
            2 1 cache_alloc $2 conn -> ok 100050\n\
            3 0 cache_free $2 conn -> ok\n\
            4 1 cache_free $1 conn -> ok\n\
            end 5\n",
        ),
        (
            b"umem 1 cpus 1 threads 1\nphase\n",
            b"transcript 1 cpus 1 threads 1 guards off\nend 0\n",
        ),
    ] {
        let outcome = call(&rt, rt.alloc(), &RUN, script, NOTHING)?;
        assert_eq!(rt; outcome.number, Status::Done.code());
        assert_eq!(rt; outcome.out.bytes(), transcript);
        assert_eq!(rt; outcome.err.bytes(), b"".as_slice());
    }
    Ok(())
}

#[test]
fn refuses_words_files_and_scripts(rt: HostRuntime) -> Result<(), Fail> {
    for (words, script, status, line) in [
        (
            RUN.as_slice(),
            b"".as_slice(),
            Status::BadScript,
            b"umem: first.umem: line 1: header\n".as_slice(),
        ),
        (
            &RUN,
            b"umem 1 cpus 1 threads 1\nphase\n0 aloc $1 24\n",
            Status::BadScript,
            b"umem: first.umem: line 3: word\n",
        ),
        (
            &[b"run", b"other"],
            FIRST,
            Status::NoFile,
            b"umem: other: no such file\n",
        ),
        (&[], FIRST, Status::Usage, USAGE),
        (&[b"run"], FIRST, Status::Usage, USAGE),
        (&[b"ru", b"first.umem"], FIRST, Status::Usage, USAGE),
        (
            &[b"run", b"first.umem", b"more"],
            FIRST,
            Status::Usage,
            USAGE,
        ),
        (
            &[b"run", b"first.umem", b"--core"],
            FIRST,
            Status::Usage,
            USAGE,
        ),
        (
            &[b"run", b"first.umem", b"--debug"],
            FIRST,
            Status::Usage,
            USAGE,
        ),
        (
            &[b"make", b"--seed", b"0", b"--debug", b"guards"],
            FIRST,
            Status::Usage,
            USAGE,
        ),
        (&[b"\xff"], FIRST, Status::Usage, USAGE),
        (&[b"\xff", b"first.umem"], FIRST, Status::Usage, USAGE),
        (&[b"run", b"first\xff.umem"], FIRST, Status::Usage, USAGE),
        (
            &[b"run", b"first.umem", b"\xc3"],
            FIRST,
            Status::Usage,
            USAGE,
        ),
    ] {
        let outcome = call(&rt, rt.alloc(), words, script, NOTHING)?;
        assert_eq!(rt; outcome.number, status.code());
        assert_eq!(rt; outcome.out.bytes(), b"".as_slice());
        assert_eq!(rt; outcome.err.bytes(), line);
    }
    Ok(())
}

// The folder is called three times, for the opening, the bytes and their end. The line of a refusal takes
// three writes.
#[test]
fn ends_at_each_fault(rt: HostRuntime) -> Result<(), Fail> {
    let line = b"umem: first.umem: read failed\n".as_slice();
    for (files, out, err, status, taken, said) in [
        (0, NEVER, NEVER, Status::ReadFault, 0, 30),
        (1, NEVER, NEVER, Status::ReadFault, 0, 30),
        (2, NEVER, NEVER, Status::ReadFault, 0, 30),
        (3, NEVER, NEVER, Status::Done, 133, 0),
        (NEVER, 9, NEVER, Status::Done, 133, 0),
        (0, NEVER, 0, Status::WriteFault, 0, 0),
        (0, NEVER, 1, Status::WriteFault, 0, 6),
        (0, NEVER, 2, Status::WriteFault, 0, 16),
        (0, NEVER, 3, Status::ReadFault, 0, 30),
        (0, 0, NEVER, Status::ReadFault, 0, 30),
    ] {
        let failing = Failing {
            files,
            out,
            err,
            ..NOTHING
        };
        let outcome = call(&rt, rt.alloc(), &RUN, FIRST, failing)?;
        assert_eq!(rt; outcome.number, status.code());
        assert_eq!(rt; outcome.out.bytes(), &FIRST_TRANSCRIPT[..taken]);
        assert_eq!(rt; outcome.err.bytes(), &line[..said]);
    }
    Ok(())
}

// The output takes 16 bytes a write, and the transcript 9 writes.
#[test]
fn ends_at_each_write(rt: HostRuntime) -> Result<(), Fail> {
    for write in 0..9 {
        let failing = Failing {
            out: write,
            ..NOTHING
        };
        let outcome = call(&rt, rt.alloc(), &RUN, FIRST, failing)?;
        let taken = 16 * write as usize;
        assert_eq!(rt; outcome.number, Status::WriteFault.code());
        assert_eq!(rt; outcome.out.bytes(), &FIRST_TRANSCRIPT[..taken]);
        assert_eq!(rt; outcome.err.bytes(), b"".as_slice());
    }
    Ok(())
}
