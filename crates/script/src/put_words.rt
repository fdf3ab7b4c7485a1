ghost use Rattle.std.specs.Prelude.{◌≡◌, [], ◌∷◌, ◌++◌, decimal, map, OnOk, OnErr};
ghost use Rattle.std.specs.List.{flat_map};
ghost use Rattle.hex.specs.Hex.{encode_lower};
ghost use Rattle.umem_base.specs.Numbers.{hexadecimal};
ghost use Rattle.script.specs.OpWords.{slot_text};
ghost use Rattle.script.specs.PlanText.{IsFront, frames_word, spaced, word_text};

use crate::limits::FIRST_OWN_SLOT;
use crate::text_word::TextWord;
use umem_base::{NoMemory, Text, put_decimal, put_hex};

/// Appends a word and more words, with one space between two. On refusal `out` is as before.
pub(crate) fn put_words(
    out: &mut Text,
    first: TextWord<'_>,
    more: &[TextWord<'_>],
) -> Result<(), NoMemory>
    ensures ok { OnOk result (out.new ≡ out.old ++ spaced (word_text first.entry ∷ map word_text more.now)) }
    ensures err { OnErr result (out.new ≡ out.old) }
{
    let before = out.as_slice().len();
    let put = put_each(out, first, more);
    if put.is_err() {
        out.truncate(before);
    }
    put
}

fn put_each(out: &mut Text, first: TextWord<'_>, more: &[TextWord<'_>]) -> Result<(), NoMemory>
    ensures ok { OnOk result (out.new ≡ out.old ++ spaced (word_text first.entry ∷ map word_text more.now)) }
    ensures front { IsFront out.old out.new }
{
    put_word(out, first)?;
    put_behind(out, more)
}

/// Appends each word behind a space.
pub(crate) fn put_behind(out: &mut Text, words: &[TextWord<'_>]) -> Result<(), NoMemory>
    ensures ok { OnOk result (out.new ≡ out.old ++ flat_map (λ word. 32 ∷ word_text word) words.now) }
    ensures front { IsFront out.old out.new }
{
    for word in words {
        out.push_slice(b" ")?;
        put_word(out, *word)?;
    }
    Ok(())
}

fn put_word(out: &mut Text, word: TextWord<'_>) -> Result<(), NoMemory>
    ensures ok { OnOk result (out.new ≡ out.old ++ word_text word.entry) }
    ensures front { IsFront out.old out.new }
{
    match word {
        TextWord::Bytes(bytes) => out.push_slice(bytes),
        TextWord::Slot(slot) => put_slot(out, slot),
        TextWord::Number(number) => put_number(out, number),
        TextWord::Hex(bytes) => put_pairs(out, bytes),
        TextWord::Frames(frames) => put_frames(out, frames),
    }
}

fn put_number(out: &mut Text, number: u32) -> Result<(), NoMemory>
    ensures ok { OnOk result (out.new ≡ out.old ++ decimal number) }
    ensures front { IsFront out.old out.new }
{
    put_decimal(out, u64::from(number), 0)
}

fn put_slot(out: &mut Text, slot: u32) -> Result<(), NoMemory>
    ensures ok { OnOk result (out.new ≡ out.old ++ slot_text slot) }
    ensures front { IsFront out.old out.new }
{
    if slot < FIRST_OWN_SLOT {
        put_signed(out, b"$", slot)
    } else {
        put_signed(out, b"%", slot - FIRST_OWN_SLOT)
    }
}

fn put_signed(out: &mut Text, sign: &[u8], number: u32) -> Result<(), NoMemory>
    ensures ok { OnOk result (out.new ≡ out.old ++ (sign.now ++ decimal number)) }
    ensures front { IsFront out.old out.new }
{
    out.push_slice(sign)?;
    put_number(out, number)
}

// Appends two hexadecimal digits for each byte.
fn put_pairs(out: &mut Text, bytes: &[u8]) -> Result<(), NoMemory>
    ensures ok { OnOk result (out.new ≡ out.old ++ encode_lower bytes.now) }
    ensures front { IsFront out.old out.new }
{
    for byte in bytes {
        out.push_slice(&digits_of(*byte))?;
    }
    Ok(())
}

fn digits_of(byte: u8) -> [u8; 2]
    ensures { result ≡ encode_lower (byte ∷ []) }
{
    let mut digits = [0; 2];
    hex::encode_to_slice(&[byte], &mut digits).unwrap();
    digits
}

// Appends numbers with a comma between two.
fn put_frames(out: &mut Text, frames: &[u64]) -> Result<(), NoMemory>
    ensures ok { OnOk result (out.new ≡ out.old ++ frames_word frames.now) }
    ensures front { IsFront out.old out.new }
{
    match frames {
        [] => Ok(()),
        [first, more @ ..] => {
            put_hex(out, *first, 0)?;
            put_frames_behind(out, more)
        }
    }
}

fn put_frames_behind(out: &mut Text, frames: &[u64]) -> Result<(), NoMemory>
    ensures ok { OnOk result (out.new ≡ out.old ++ flat_map (λ frame. 44 ∷ hexadecimal frame) frames.now) }
    ensures front { IsFront out.old out.new }
{
    for frame in frames {
        out.push_slice(b",")?;
        put_hex(out, *frame, 0)?;
    }
    Ok(())
}
