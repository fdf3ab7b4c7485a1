ghost use Rattle.std.specs.Prelude.{◌<◌};
ghost use Rattle.case_table.specs.declared.limits.TheConstants.{CLASS_COUNT};

use crate::fault::SampleFault;
use case_table::{CLASS_COUNT, bufctl_address, class_def};
use umem_base::{ARENA_BASE, PAGE_BYTES, Text, put_decimal, read_decimal, read_hex};

// What a cache's name takes, with the zeros behind it.
const NAME_BYTES: usize = 32;

/// A number in decimal digits, or in hexadecimal ones behind `0x`.
pub fn number(word: &str) -> Result<u64, SampleFault> {
    let read = match word.strip_prefix("0x") {
        Some(digits) => read_hex(digits.as_bytes()),
        None => read_decimal(word.as_bytes()),
    };
    Ok(read?)
}

/// A number of four bytes.
fn short(word: &str) -> Result<u32, SampleFault> {
    u32::try_from(number(word)?)
        .ok()
        .ok_or(SampleFault::BadLine)
}

/// The first word, and those behind it.
fn first(words: &str) -> (&str, &str) {
    words.split_once(' ').unwrap_or((words, ""))
}

/// Two numbers, and the words behind them.
fn bounds(words: &str) -> Result<(u32, u32, &str), SampleFault> {
    let (from, words) = first(words);
    let (to, words) = first(words);
    Ok((short(from)?, short(to)?, words))
}

/// Appends the bytes that hexadecimal digits spell.
pub fn put_hex(out: &mut Vec<u8>, digits: &str) -> Result<(), SampleFault> {
    for pair in digits.as_bytes().chunks(2) {
        if pair.len() < 2 {
            return Err(SampleFault::BadLine);
        }
        out.push(
            u8::try_from(read_hex(pair)?)
                .ok()
                .ok_or(SampleFault::BadLine)?,
        )?;
    }
    Ok(())
}

pub fn put_repeated(out: &mut Vec<u8>, words: &str) -> Result<(), SampleFault> {
    let (count, digits) = first(words);
    for _ in 0..number(count)? {
        put_hex(out, digits)?;
    }
    Ok(())
}

pub fn put_zeros(out: &mut Vec<u8>, words: &str) -> Result<(), SampleFault> {
    for _ in 0..number(words)? {
        out.push(0)?;
    }
    Ok(())
}

pub fn put_short(out: &mut Vec<u8>, words: &str) -> Result<(), SampleFault> {
    for word in words.split_whitespace() {
        out.extend_from_slice(&short(word)?.to_le_bytes())?;
    }
    Ok(())
}

pub fn put_long(out: &mut Vec<u8>, words: &str) -> Result<(), SampleFault> {
    for word in words.split_whitespace() {
        out.extend_from_slice(&number(word)?.to_le_bytes())?;
    }
    Ok(())
}

pub fn put_rising(out: &mut Vec<u8>, words: &str) -> Result<(), SampleFault> {
    let (from, to, _) = bounds(words)?;
    for number in from..to {
        out.extend_from_slice(&number.to_le_bytes())?;
    }
    Ok(())
}

/// Appends a name with the zeros behind it.
fn put_name(out: &mut Vec<u8>, name: &[u8]) -> Result<(), SampleFault> {
    out.extend_from_slice(name)?;
    for _ in name.len()..NAME_BYTES {
        out.push(0)?;
    }
    Ok(())
}

pub fn put_cache(out: &mut Vec<u8>, words: &str) -> Result<(), SampleFault> {
    let (name, numbers) = first(words);
    put_name(out, name.as_bytes())?;
    put_short(out, numbers)
}

fn put_class(out: &mut Vec<u8>, class: u32) -> Result<(), SampleFault>
    requires { class < CLASS_COUNT }
{
    let def = class_def(*out.allocator(), class)?;
    put_name(out, def.name.as_slice())?;
    out.extend_from_slice(&def.size.to_le_bytes())?;
    out.extend_from_slice(&def.align.to_le_bytes())?;
    Ok(())
}

pub fn put_classes(out: &mut Vec<u8>, words: &str) -> Result<(), SampleFault> {
    let (from, to, numbers) = bounds(words)?;
    if to > CLASS_COUNT {
        return Err(SampleFault::BadLine);
    }
    for class in from..to {
        put_class(out, class)?;
        put_short(out, numbers)?;
    }
    Ok(())
}

/// Appends a declared cache that is named after its number.
fn put_numbered(out: &mut Vec<u8>, cache: u32, numbers: &str) -> Result<(), SampleFault> {
    let mut name = Text::from_slice(*out.allocator(), b"cache_")?;
    put_decimal(&mut name, u64::from(cache), 0)?;
    put_name(out, name.as_slice())?;
    put_short(out, numbers)
}

pub fn put_caches(out: &mut Vec<u8>, words: &str) -> Result<(), SampleFault> {
    let (from, to, numbers) = bounds(words)?;
    for cache in from..to {
        put_numbered(out, cache, numbers)?;
    }
    Ok(())
}

/// Appends the head of a slab of one page, whose chunks are all allocated.
fn put_slab(out: &mut Vec<u8>, slab: u32, cache: u32, rounds: u32) -> Result<(), SampleFault> {
    let base = ARENA_BASE + PAGE_BYTES * u64::from(slab);
    out.extend_from_slice(&base.to_le_bytes())?;
    for number in [cache, 0, slab.wrapping_mul(rounds), 0] {
        out.extend_from_slice(&number.to_le_bytes())?;
    }
    Ok(())
}

pub fn put_slabs(out: &mut Vec<u8>, words: &str) -> Result<(), SampleFault> {
    let (from, to, numbers) = bounds(words)?;
    let (cache, rounds) = first(numbers);
    let (cache, rounds) = (short(cache)?, short(rounds)?);
    for slab in from..to {
        put_slab(out, slab, cache, rounds)?;
    }
    Ok(())
}

/// Appends the tag of a free chunk.
fn put_free_tag(out: &mut Vec<u8>, chunk: u32) -> Result<(), SampleFault> {
    let bufctl = 0x4000_0000 + 64 * u64::from(chunk);
    for word in [0xfeed_face_feed_face, bufctl, bufctl ^ 0xf4ee_f4ee] {
        out.extend_from_slice(&word.to_le_bytes())?;
    }
    Ok(())
}

pub fn put_free(out: &mut Vec<u8>, words: &str) -> Result<(), SampleFault> {
    let (from, to, content) = bounds(words)?;
    let words = number(content)? / 8;
    for chunk in from..to {
        for _ in 0..words {
            out.extend_from_slice(&0xdead_beef_dead_beef_u64.to_le_bytes())?;
        }
        put_free_tag(out, chunk)?;
    }
    Ok(())
}

/// Appends an audit.
fn put_audit(out: &mut Vec<u8>, chunk: u32, frames: &str) -> Result<(), SampleFault> {
    let depth = frames.split_whitespace().count();
    let depth = u32::try_from(depth).ok().ok_or(SampleFault::BadLine)?;
    for number in [chunk, 0, 1, 0, depth] {
        out.extend_from_slice(&number.to_le_bytes())?;
    }
    put_long(out, frames)
}

pub fn put_audits(out: &mut Vec<u8>, words: &str) -> Result<(), SampleFault> {
    let (from, to, frames) = bounds(words)?;
    for chunk in from..to {
        put_audit(out, chunk, frames)?;
    }
    Ok(())
}
