ghost use Rattle.std.specs.Prelude.{◌≡◌, ◌<◌, ◌^◌, ◌+◌, IsTrue, ◌&&◌, nat_lt, Option, Some, None, if◌then◌else◌};
ghost use Rattle.std.specs.List.{list_all};
ghost use Rattle.umem_base.specs.Numbers.{is_decimal};
ghost use Rattle.script.specs.Fields.{number_in, slot_in, paired_bytes, paired_byte, frames_in, thread_fault, slot_fault, place_fault, frame_fault, frame_in, frame_words, is_frame, is_alignment, decimal_fault, alignment_fault, stored_fault, constructor_fault, frames_fault};
ghost use Rattle.script.specs.Reading.{Gives, too_many_fault};

use crate::limits::{FIRST_OWN_SLOT, MOST_FRAMES, MOST_STORED};
use crate::line_fault::LineFault;
use crate::reasons::Reason;
use case_table::ALIGNS;
use hex::FromHexError;
use std::alloc::Global;
use umem_base::{BadNumber, Stack, Text, read_decimal, read_hex, split_once};

/// Reads the number of a thread.
pub(crate) fn read_thread(word: &[u8], threads: u32) -> Result<u32, LineFault>
    requires { IsTrue (is_decimal word.now) }
    ensures { Gives (λ n. n) result (thread_fault threads word.now) (number_in word.now) }
{
    match read_decimal(word) {
        Ok(number) if number < u64::from(threads) => Ok(number as u32),
        _ => Err(LineFault::Refused(Reason::Thread)),
    }
}

/// Reads a decimal number within limits.
pub(crate) fn read_number(word: &[u8], least: u32, most: u32) -> Result<u32, LineFault>
    ensures { Gives (λ n. n) result (decimal_fault least most word.now) (number_in word.now) }
{
    match read_decimal(word) {
        Ok(number) if u64::from(least) <= number && number <= u64::from(most) => Ok(number as u32),
        Err(BadNumber::NotDigits) => Err(LineFault::Refused(Reason::Number)),
        _ => Err(LineFault::Refused(Reason::Range)),
    }
}

/// Reads an alignment.
pub(crate) fn read_alignment(word: &[u8]) -> Result<u32, LineFault>
    ensures { Gives (λ n. n) result (alignment_fault word.now) (number_in word.now) }
{
    match read_decimal(word) {
        Ok(number) if is_alignment(number) => Ok(number as u32),
        Err(BadNumber::NotDigits) => Err(LineFault::Refused(Reason::Number)),
        _ => Err(LineFault::Refused(Reason::Range)),
    }
}

fn is_alignment(align: u64) -> bool
    ensures { result ≡ is_alignment align }
{
    ALIGNS.contains(&align)
}

/// Reads a slot of the version.
pub(crate) fn read_slot(word: &[u8], version: u32) -> Result<u32, LineFault>
    ensures { Gives (λ n. n) result (slot_fault version word.now) (slot_in word.now) }
{
    match word {
        [b'$', digits @ ..] => read_place(digits, 0),
        [b'%', digits @ ..] if version == 2 => read_place(digits, FIRST_OWN_SLOT),
        _ => Err(LineFault::Refused(Reason::Slot)),
    }
}

// Reads the place of a root word among those of its page.
fn read_place(digits: &[u8], first: u32) -> Result<u32, LineFault>
    requires { first < 2 ^ 31 }
    ensures { Gives (λ n. n) result (place_fault digits.now) (first + number_in digits.now) }
{
    match read_decimal(digits) {
        Ok(number) if number < u64::from(FIRST_OWN_SLOT) => Ok(first + number as u32),
        _ => Err(LineFault::Refused(Reason::Slot)),
    }
}

/// Reads the bytes that a `store` writes.
pub(crate) fn read_stored(alloc: Global, word: &[u8]) -> Result<Text, LineFault>
    ensures { Gives (λ t. t) result (stored_fault word.now) (paired_bytes word.now) }
{
    match hex::decode(alloc, word) {
        Ok(bytes) if bytes.len() <= MOST_STORED as usize => Ok(Text::from_slice(alloc, &bytes)?),
        Ok(_) => Err(LineFault::Refused(Reason::Range)),
        Err(FromHexError::OutOfMemory) => Err(LineFault::NoMemory),
        Err(_) => Err(LineFault::Refused(Reason::Number)),
    }
}

/// Reads the byte of a constructor.
pub(crate) fn read_constructor(word: &[u8]) -> Result<u8, LineFault>
    ensures { Gives (λ n. n) result (constructor_fault word.now) (paired_byte word.now) }
{
    let mut byte = [0];
    match hex::decode_to_slice(word, &mut byte) {
        Ok(()) => Ok(byte[0]),
        Err(_) => Err(LineFault::Refused(Reason::Number)),
    }
}

/// Reads the frames of a stack. No more are kept than there may be.
pub(crate) fn read_frames(alloc: Global, word: &[u8]) -> Result<Stack, LineFault>
    ensures { Gives (λ s. s.items) result (frames_fault word.now) (frames_in word.now) }
{
    let mut frames = Vec::new(alloc);
    let mut rest = word;
    while let Some((part, behind)) = split_once(rest, b',') {
        frames.push(read_frame(part)?)?;
        rest = behind;
        if frames.len() == MOST_FRAMES as usize {
            return Err(LineFault::Refused(too_many_fault(rest)));
        }
    }
    frames.push(read_frame(rest)?)?;
    Ok(Stack::from_vec(frames))
}

// Why a stack is refused that has too many frames, where those before the rest can be read.
fn too_many_fault(rest: &[u8]) -> Reason
    ensures { result ≡ too_many_fault rest.now }
{
    if are_frames(rest) {
        Reason::Range
    } else {
        Reason::Number
    }
}

// Tells whether each part is a frame. It keeps none.
fn are_frames(word: &[u8]) -> bool
    ensures { result ≡ list_all is_frame (frame_words word.now) }
{
    let mut rest = word;
    while let Some((part, behind)) = split_once(rest, b',') {
        if !is_frame(part) {
            return false;
        }
        rest = behind;
    }
    is_frame(rest)
}

fn is_frame(part: &[u8]) -> bool
    ensures { result ≡ is_frame part.now }
{
    read_hex(part).is_ok()
}

#[inline(always)]
fn read_frame(part: &[u8]) -> Result<u64, LineFault>
    ensures { Gives (λ n. n) result (frame_fault part.now) (frame_in part.now) }
{
    match read_hex(part) {
        Ok(frame) => Ok(frame),
        Err(_) => Err(LineFault::Refused(Reason::Number)),
    }
}
