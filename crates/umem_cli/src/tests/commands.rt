//! Commands over a small core, and each fault that may meet them.

use crate::tests::scene::{Failing, NOTHING, call, call_mdb};
use crate::tests::small_core::two_large;
use crate::{MOST_COMMAND_BYTES, Status};
use std::test::Fail;

// The third line has a bad number, the seventh a word too many, and the last one no colons.
const COMMANDS: &[u8] = b"::walk umem\n\
    \t \r\n\
    zz::umem_cache\n\
    100000::whatis\n\
    ::findleaks\n\
    ::walk freemem\n\
    ::umausers -e -e\n\
    umem";

const ANSWERS: &[u8] = b"100000\n102000\n\
    100000 is 100000+0, 4097 bytes allocated from umem_oversize\n\
    100000 umem_oversize 4097 -\nreached 1 leaked 1 bytes 4097\n";

const REFUSALS: &[u8] = b"umem: line 3: bad number\n\
    umem: line 7: extra words\n\
    umem: line 8: unknown dcmd\n";

#[test]
fn answers_lines(rt: HostRuntime) -> Result<(), Fail> {
    let core = two_large(rt.alloc())?;
    for (commands, status, answers, refusals) in [
        (COMMANDS, Status::Refused, ANSWERS, REFUSALS),
        (b"".as_slice(), Status::Done, b"".as_slice(), b"".as_slice()),
        (b"\n \n\t", Status::Done, b"", b""),
        (
            b"::umem_verify\n\n::walk freemem\n0x102000 :: whatis",
            Status::Done,
            b"findings 0\n102000 is 102000+0, 8192 bytes allocated from umem_oversize\n",
            b"",
        ),
        (
            b"::whatis\n5::walk umem\n::walk\n",
            Status::Refused,
            b"5: no such cache\n",
            b"umem: line 1: needs an address\numem: line 3: unknown walker\n",
        ),
        (
            b"5::findleaks",
            Status::Refused,
            b"",
            b"umem: line 1: takes no address\n",
        ),
    ] {
        let outcome = call_mdb(&rt, rt.alloc(), &core, commands, NOTHING)?;
        assert_eq!(rt; outcome.number, status.code());
        assert_eq!(rt; outcome.out.bytes(), answers);
        assert_eq!(rt; outcome.err.bytes(), refusals);
    }
    Ok(())
}

#[test]
fn refuses_files_that_are_no_core(rt: HostRuntime) -> Result<(), Fail> {
    let core = two_large(rt.alloc())?;
    let (_, front) = core.split_last().ok_or("a core")?;
    for (file, line) in [
        (b"".as_slice(), b"umem: core: offset 0: short\n".as_slice()),
        (front, b"umem: core: offset 14184: short\n"),
        (b"UMEMCORA", b"umem: core: offset 0: short\n"),
    ] {
        let outcome = call_mdb(&rt, rt.alloc(), file, COMMANDS, NOTHING)?;
        assert_eq!(rt; outcome.number, Status::BadCore.code());
        assert_eq!(rt; outcome.out.bytes(), b"".as_slice());
        assert_eq!(rt; outcome.err.bytes(), line);
    }
    let words = [b"mdb".as_slice(), b"core"];
    let outcome = call(&rt, rt.alloc(), &words, b"", NOTHING)?;
    assert_eq!(rt; outcome.number, Status::NoFile.code());
    assert_eq!(rt;
        outcome.err.bytes(),
        b"umem: core: no such file\n".as_slice()
    );
    Ok(())
}

#[test]
fn reads_no_more_commands_than_may_be(rt: HostRuntime) -> Result<(), Fail> {
    let alloc = rt.alloc();
    let core = two_large(alloc)?;
    let mut commands = vec![in alloc; b'\n'; MOST_COMMAND_BYTES]?;
    let outcome = call_mdb(&rt, alloc, &core, &commands, NOTHING)?;
    assert_eq!(rt; outcome.number, Status::Done.code());
    assert_eq!(rt; outcome.err.bytes(), b"".as_slice());
    commands.push(b'\n')?;
    let outcome = call_mdb(&rt, alloc, &core, &commands, NOTHING)?;
    assert_eq!(rt; outcome.number, Status::Refused.code());
    assert_eq!(rt; outcome.out.bytes(), b"".as_slice());
    assert_eq!(rt;
        outcome.err.bytes(),
        b"umem: commands: too long\n".as_slice()
    );
    Ok(())
}

// A write takes 16 bytes. The answers take one write, four and four; a refused line takes five.
#[test]
fn ends_at_each_fault(rt: HostRuntime) -> Result<(), Fail> {
    let core = two_large(rt.alloc())?;
    let commands = b"umem: commands: read failed\n".as_slice();
    let file = b"umem: core: read failed\n".as_slice();
    for (failing, status, taken, said) in [
        (
            Failing {
                files: 0,
                ..NOTHING
            },
            Status::ReadFault,
            0,
            file,
        ),
        (
            Failing {
                files: 1,
                ..NOTHING
            },
            Status::ReadFault,
            0,
            file,
        ),
        (
            Failing {
                input: 0,
                ..NOTHING
            },
            Status::ReadFault,
            0,
            commands,
        ),
        (
            Failing {
                input: 1,
                ..NOTHING
            },
            Status::ReadFault,
            0,
            commands,
        ),
        (Failing { out: 0, ..NOTHING }, Status::WriteFault, 0, b""),
        (
            Failing { out: 1, ..NOTHING },
            Status::WriteFault,
            14,
            &REFUSALS[..25],
        ),
        (
            Failing { out: 2, ..NOTHING },
            Status::WriteFault,
            30,
            &REFUSALS[..25],
        ),
        (
            Failing { out: 5, ..NOTHING },
            Status::WriteFault,
            74,
            &REFUSALS[..25],
        ),
        (
            Failing { out: 9, ..NOTHING },
            Status::Refused,
            132,
            REFUSALS,
        ),
        (Failing { err: 0, ..NOTHING }, Status::WriteFault, 14, b""),
        (
            Failing { err: 2, ..NOTHING },
            Status::WriteFault,
            14,
            &REFUSALS[..12],
        ),
        (
            Failing { err: 5, ..NOTHING },
            Status::WriteFault,
            132,
            &REFUSALS[..25],
        ),
        (
            Failing {
                files: 0,
                err: 1,
                ..NOTHING
            },
            Status::WriteFault,
            0,
            &file[..6],
        ),
    ] {
        let outcome = call_mdb(&rt, rt.alloc(), &core, COMMANDS, failing)?;
        assert_eq!(rt; outcome.number, status.code());
        assert_eq!(rt; outcome.out.bytes().len(), taken);
        assert!(rt; ANSWERS.starts_with(outcome.out.bytes()));
        assert_eq!(rt; outcome.err.bytes(), said);
    }
    Ok(())
}
