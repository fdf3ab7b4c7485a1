use crate::dcmd::Dcmd;
use crate::fault::DcmdFault;
use crate::read_dcmd;
use std::test::Fail;

/// A line, and the command that it is or why it is none.
type Row = (&'static [u8], Result<Dcmd, DcmdFault>);

const ROWS: [Row; 36] = [
    (b"::umem_cache", Ok(Dcmd::UmemCache)),
    (b" \t:: umem_verify\r", Ok(Dcmd::UmemVerify)),
    (b"::umem_log ", Ok(Dcmd::UmemLog)),
    (b"::umem_contents", Ok(Dcmd::UmemContents)),
    (b"::findleaks", Ok(Dcmd::Findleaks)),
    (b"::umausers", Ok(Dcmd::Umausers { every: false })),
    (b"::umausers  -e", Ok(Dcmd::Umausers { every: true })),
    (b"100060::whatis", Ok(Dcmd::Whatis { address: 0x100060 })),
    (b"\t0x00aBcD ::whatis", Ok(Dcmd::Whatis { address: 0xabcd })),
    (
        b"ffffffffffffffff::whatis",
        Ok(Dcmd::Whatis { address: u64::MAX }),
    ),
    (b"::walk umem", Ok(Dcmd::WalkUmem { cache: None })),
    (
        b"0x30000400::walk\tfreemem",
        Ok(Dcmd::WalkFreemem {
            cache: Some(0x30000400),
        }),
    ),
    (b"", Err(DcmdFault::Unknown)),
    (b"umem_cache", Err(DcmdFault::Unknown)),
    (b":umem_cache", Err(DcmdFault::Unknown)),
    (b"zz::", Err(DcmdFault::Unknown)),
    (b"zz::umem", Err(DcmdFault::Unknown)),
    (b"::Umem_cache", Err(DcmdFault::Unknown)),
    (b":::umem_cache", Err(DcmdFault::Unknown)),
    (b"zz::walk", Err(DcmdFault::UnknownWalker)),
    (b"::walk umem_cache", Err(DcmdFault::UnknownWalker)),
    (b"::walk freemem umem", Err(DcmdFault::ExtraWords)),
    (b"zz::umem_cache", Err(DcmdFault::BadNumber)),
    (b"0x::whatis", Err(DcmdFault::BadNumber)),
    (b"0X5::whatis", Err(DcmdFault::BadNumber)),
    (b"1 2::walk umem", Err(DcmdFault::BadNumber)),
    (b"1:2::walk umem", Err(DcmdFault::BadNumber)),
    (b"-1::walk umem x", Err(DcmdFault::BadNumber)),
    (b"10000000000000000::whatis", Err(DcmdFault::BadNumber)),
    (b"::whatis", Err(DcmdFault::NeedsAddress)),
    (b"::whatis x", Err(DcmdFault::NeedsAddress)),
    (b"5::umem_log x", Err(DcmdFault::TakesNoAddress)),
    (b"5::umausers -e", Err(DcmdFault::TakesNoAddress)),
    (b"::umausers -e -e", Err(DcmdFault::ExtraWords)),
    (b"::umausers e", Err(DcmdFault::ExtraWords)),
    (b"5::whatis ::whatis", Err(DcmdFault::ExtraWords)),
];

const TEXTS: [(DcmdFault, &str); 6] = [
    (DcmdFault::Unknown, "unknown dcmd"),
    (DcmdFault::UnknownWalker, "unknown walker"),
    (DcmdFault::BadNumber, "bad number"),
    (DcmdFault::NeedsAddress, "needs an address"),
    (DcmdFault::TakesNoAddress, "takes no address"),
    (DcmdFault::ExtraWords, "extra words"),
];

fn rows() -> &'static [Row] {
    &ROWS
}

fn texts() -> &'static [(DcmdFault, &'static str)] {
    &TEXTS
}

#[test]
fn reads_commands(rt: HostRuntime) -> Result<(), Fail> {
    for (line, command) in rows() {
        assert_eq!(rt; read_dcmd(*line), *command);
    }
    for (fault, text) in texts() {
        assert_eq!(rt; fault.text(), text.as_bytes());
    }
    Ok(())
}
