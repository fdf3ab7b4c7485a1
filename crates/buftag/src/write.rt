ghost use Rattle.std.specs.Prelude.{◌≡◌, ◌^◌, ◌<◌, ◌≤◌, None, length};
ghost use Rattle.byteorder.specs.Endian.{little_bytes};
ghost use Rattle.buftag.specs.Findings.{finding};
ghost use Rattle.buftag.specs.Shape.{IsChunk, IsRequest, IsShape};
ghost use Rattle.buftag.specs.Written.{allocated_chunk, bufctl_bytes, free_chunk, fresh_content, redzone_bytes};

use crate::patterns::{FREE_WORD, FRESH_WORD, GUARD_BYTE, REDZONE_HALF, REDZONE_WORD};
use crate::shape::Shape;
use crate::size_code::encode_size;
use crate::state::State;
use byteorder::{ByteOrder, LittleEndian};
use case_table::MOST_CACHE_BYTES;
use umem_base::fill_words;

/// Writes the state of a free chunk: the pattern in its content, and the tag of free chunks.
pub fn write_free(bytes: &mut [u8], shape: &Shape)
    requires shape { IsShape shape.now }
    requires chunk { IsChunk bytes.old shape.now }
    ensures written { bytes.new ≡ free_chunk shape.now }
    ensures whole { finding bytes.new shape.now State.Free ≡ None }
{
    let (content, tag) = bytes.split_at_mut(shape.content as usize);
    let (redzone, bufctl) = tag.split_at_mut(8);
    fill_words(content, FREE_WORD);
    write_word(redzone, REDZONE_WORD);
    write_bufctl(bufctl, shape, State::Free);
}

/// Writes the state of a chunk that was just allocated: the pattern in its content, zeros over the
/// requested bytes where they are wanted, the tag, and for a size class the guard byte behind the requested
/// bytes.
pub fn write_alloc(bytes: &mut [u8], shape: &Shape, requested: u32, zero: bool)
    requires shape { IsShape shape.now }
    requires chunk { IsChunk bytes.old shape.now }
    requires request { IsRequest shape.now requested }
    ensures written { bytes.new ≡ allocated_chunk shape.now requested zero }
    ensures whole { finding bytes.new shape.now State.Allocated ≡ None }
{
    let (content, tag) = bytes.split_at_mut(shape.content as usize);
    let (redzone, bufctl) = tag.split_at_mut(8);
    write_fresh(content, requested, zero);
    write_redzone(redzone, shape, requested);
    write_bufctl(bufctl, shape, State::Allocated);
    if shape.class.is_some() {
        bytes[requested as usize] = GUARD_BYTE;
    }
}

/// Writes the content of a chunk that was just allocated.
fn write_fresh(content: &mut [u8], requested: u32, zero: bool)
    requires { requested ≤ length content.old }
    ensures { content.new ≡ fresh_content (length content.old) requested zero }
{
    fill_words(content, FRESH_WORD);
    if zero {
        content[..requested as usize].fill(0);
    }
}

fn write_word(bytes: &mut [u8], word: u64)
    requires { length bytes.old ≡ 8 }
    ensures { bytes.new ≡ little_bytes 8 word }
{
    LittleEndian::write_u64(bytes, word);
}

fn write_redzone(redzone: &mut [u8], shape: &Shape, requested: u32)
    requires room { length redzone.old ≡ 8 }
    requires small { requested ≤ MOST_CACHE_BYTES }
    ensures { redzone.new ≡ redzone_bytes shape.now.class requested }
{
    if shape.class.is_some() {
        LittleEndian::write_u32(redzone, REDZONE_HALF);
        LittleEndian::write_u32(&mut redzone[4..], encode_size(requested));
    } else {
        write_word(redzone, REDZONE_WORD);
    }
}

/// Writes the bufctl word and bxstat.
fn write_bufctl(bufctl: &mut [u8], shape: &Shape, state: State)
    requires { length bufctl.old ≡ 16 }
    ensures written { bufctl.new ≡ bufctl_bytes shape.now state }
    ensures fits { shape.now.bufctl < 2 ^ 64 }
{
    LittleEndian::write_u64(bufctl, shape.bufctl);
    LittleEndian::write_u64(&mut bufctl[8..], shape.bufctl ^ state.mark());
}
