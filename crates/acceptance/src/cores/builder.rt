//! What each kind of line gives.

use crate::cores::pieces::put_hex;
use crate::cores::sample::core_bytes;
use crate::fault::SampleFault;
use std::test::Fail;

// Lines, and the bytes that they give, in hexadecimal.
const LINES: &str = "text AB : 4142
hex 00fF : 00ff
repeat 3 0a1b : 0a1b0a1b0a1b
zeros 3 : 000000
u32 1 0x102 4294967295 : 0100000002010000ffffffff
u64 258 0xfeedfacefeedface : 0201000000000000cefaedfecefaedfe
rising 255 257 : ff00000000010000
cache conn 72 16 : 636f6e6e000000000000000000000000000000000000000000000000000000004800000010000000
classes 2 3 9 : 756d656d5f616c6c6f635f3234000000000000000000000000000000000000001800000008000000\
09000000
caches 40 41 9 : 63616368655f3430000000000000000000000000000000000000000000000000\
09000000
slabs 2 3 7 85 : 0020100000000000\
0700000000000000aa00000000000000
free 1 2 8 : efbeaddeefbeaddecefaedfecefaedfe4000004000000000aef4eeb400000000
audits 3 4 5 258 : 030000000000000001000000000000000200000005000000000000000201000000000000
# words : ";

const NO_PIECES: &str = "text
nothing 1
hex 0
hex 0g
repeat x 00
zeros -1
u32 4294967296
u64 0x
rising 1
classes 31 33
caches 1
slabs 1 2 3
free 0 1
audits 0";

#[test]
fn gives_bytes(rt: HostRuntime) -> Result<(), Fail> {
    for line in LINES.lines() {
        let (piece, digits) = line.split_once(" : ").ok_or("a piece")?;
        let mut bytes = Vec::new(rt.alloc());
        put_hex(&mut bytes, digits)?;
        let given = core_bytes(rt.alloc(), piece)?;
        assert!(rt; given == bytes, "{piece}");
    }
    Ok(())
}

#[test]
fn refuses_lines(rt: HostRuntime) {
    for line in NO_PIECES.lines() {
        let given = core_bytes(rt.alloc(), line);
        assert!(rt; given == Err(SampleFault::BadLine), "{line}");
    }
}
