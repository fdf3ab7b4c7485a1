//! Bytes with changes, and the words by which tables name those.

use crate::cores::pieces::{number, put_hex};
use crate::fault::SampleFault;

/// The two sides of a row: what is changed, and what is told then.
pub fn row(line: &str) -> Result<(&str, &str), SampleFault> {
    let (changes, want) = line.split_once(':').ok_or(SampleFault::BadLine)?;
    Ok((changes, want.trim()))
}

/// The parts of a word with one `=` in it.
pub fn sides(word: &str) -> Result<(&str, &str), SampleFault> {
    word.split_once('=').ok_or(SampleFault::BadLine)
}

/// Writes over the bytes from a place on.
pub fn write_at(bytes: &mut [u8], at: u64, new: &[u8]) -> Result<(), SampleFault> {
    let at = usize::try_from(at).ok().ok_or(SampleFault::BadLine)?;
    let place = bytes.get_mut(at..).ok_or(SampleFault::BadLine)?;
    if place.len() < new.len() {
        return Err(SampleFault::BadLine);
    }
    for (slot, byte) in place.iter_mut().zip(new) {
        *slot = *byte;
    }
    Ok(())
}

/// Makes a change: `cut=COUNT` keeps the first bytes alone, `add=BYTES` puts some behind the last, and `AT=BYTES`
/// writes them at an offset.
fn change(bytes: &mut Vec<u8>, word: &str) -> Result<(), SampleFault> {
    let (place, value) = sides(word)?;
    match place {
        "cut" => {
            let count = usize::try_from(number(value)?)
                .ok()
                .ok_or(SampleFault::BadLine)?;
            bytes.truncate(count);
            Ok(())
        }
        "add" => put_hex(bytes, value),
        _ => {
            let mut new = Vec::new(*bytes.allocator());
            put_hex(&mut new, value)?;
            write_at(bytes, number(place)?, &new)
        }
    }
}

/// The bytes after the changes.
pub fn changed(bytes: &Vec<u8>, words: &str) -> Result<Vec<u8>, SampleFault> {
    let mut out = bytes.clone()?;
    for word in words.split_whitespace() {
        change(&mut out, word)?;
    }
    Ok(out)
}
