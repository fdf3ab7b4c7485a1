//! A text has a piece a line: a word for its kind, and words behind it. Lines that are empty or begin with `#` are
//! none. Numbers are decimal, or hexadecimal behind `0x`.
//!
//! - `text WORD`: its bytes
//! - `hex BYTES`: the bytes that hexadecimal digits spell, two each
//! - `repeat COUNT BYTES`: such bytes again and again
//! - `zeros COUNT`: bytes that are zero
//! - `u32 N..`, `u64 N..`: numbers of four bytes, and of eight
//! - `rising FIRST PAST`: the numbers from one up to another, of four bytes
//! - `cache NAME N..`: a name with the zeros behind it, and numbers of four bytes
//! - `classes FIRST PAST N..`: size classes, each with its name, its size and its alignment, and these numbers
//! - `caches FIRST PAST N..`: declared caches that are named after their numbers, each with these numbers
//! - `slabs FIRST PAST CACHE ROUNDS`: the heads of slabs of one page and so many chunks, which are all allocated
//! - `free FIRST PAST CONTENT`: free chunks of so many bytes, from one number up to another, with their tags
//! - `audits FIRST PAST FRAME..`: audits of such chunks, each of thread 0 at time 1 with this stack

use crate::cores::pieces::{
    put_audits, put_cache, put_caches, put_classes, put_free, put_hex, put_long, put_repeated,
    put_rising, put_short, put_slabs, put_zeros,
};
use crate::fault::SampleFault;
use std::alloc::Global;

/// The bytes that a text of pieces gives.
pub fn core_bytes(alloc: Global, text: &str) -> Result<Vec<u8>, SampleFault> {
    let mut out = Vec::new(alloc);
    for line in text.lines() {
        put_line(&mut out, line)?;
    }
    Ok(out)
}

/// Appends what a line gives.
fn put_line(out: &mut Vec<u8>, line: &str) -> Result<(), SampleFault> {
    if line.is_empty() || line.starts_with('#') {
        return Ok(());
    }
    let (kind, rest) = line.split_once(' ').ok_or(SampleFault::BadLine)?;
    put_piece(out, kind, rest)
}

fn put_piece(out: &mut Vec<u8>, kind: &str, rest: &str) -> Result<(), SampleFault> {
    match kind {
        "text" => {
            out.extend_from_slice(rest.as_bytes())?;
            Ok(())
        }
        "hex" => put_hex(out, rest),
        "repeat" => put_repeated(out, rest),
        "zeros" => put_zeros(out, rest),
        "u32" => put_short(out, rest),
        "u64" => put_long(out, rest),
        "rising" => put_rising(out, rest),
        "cache" => put_cache(out, rest),
        "classes" => put_classes(out, rest),
        "caches" => put_caches(out, rest),
        "slabs" => put_slabs(out, rest),
        "free" => put_free(out, rest),
        "audits" => put_audits(out, rest),
        _ => Err(SampleFault::BadLine),
    }
}
