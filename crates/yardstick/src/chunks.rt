//! What the chunks of slabs hold when they are made, handed out and freed.

ghost use Rattle.std.specs.Prelude.{◌≡◌, ◌+◌, ◌≤◌, ◌++◌, ◌^◌, ◌<◌, IfOk, OnOk, drop, replicate, slice_index};
ghost use Rattle.byteorder.specs.Endian.{little_bytes};
ghost use Rattle.buftag.specs.Shape.{IsShape};
ghost use Rattle.buftag.specs.declared.state.State.TheVariants.{Allocated};
ghost use Rattle.buftag.specs.Written.{allocated_chunk, bufctl_bytes, free_chunk, fresh_content, redzone_bytes, with_guard};
ghost use Rattle.plain_heap.specs.State.{constructed, freed_chunk, handed_chunk, made_chunk};

use crate::caches::{rule_in, shape_of};
use crate::setting::Setting;
use buftag::{
    ALLOCATED_MARK, FREE_MARK, FREE_WORD, FRESH_WORD, GUARD_BYTE, REDZONE_HALF, REDZONE_WORD,
    Shape, encode_size, write_free,
};
use byteorder::{ByteOrder, LittleEndian};
use case_table::{MOST_CACHE_BYTES, TAG_BYTES};
use std::alloc::Global;
use umem_base::{NoMemory, Text, fill_words};

fn put_word(out: &mut Text, word: u64) -> Result<(), NoMemory>
    ensures { OnOk result (out.new ≡ out.old ++ little_bytes 8 word) }
{
    let mut bytes = [0u8; 8];
    LittleEndian::write_u64(&mut bytes, word);
    out.push_slice(&bytes)
}

fn put_half(out: &mut Text, half: u32) -> Result<(), NoMemory>
    ensures { OnOk result (out.new ≡ out.old ++ little_bytes 4 half) }
{
    let mut bytes = [0u8; 4];
    LittleEndian::write_u32(&mut bytes, half);
    out.push_slice(&bytes)
}

/// One byte so many times, and behind them the rest of the bytes, as they were.
fn laid_over(alloc: Global, byte: u8, count: u32, bytes: &[u8]) -> Result<Text, NoMemory>
    ensures { IfOk result (λ out. out ≡ replicate count byte ++ drop count bytes.now) }
{
    let front = vec![in alloc; byte; count as usize]?;
    let mut out = Text::from_slice(alloc, &front)?;
    let from = bytes.len().min(count as usize);
    out.push_slice(&bytes[from..])?;
    Ok(out)
}

fn free_bytes(alloc: Global, shape: &Shape) -> Result<Text, NoMemory>
    requires { IsShape shape.now }
    ensures { IfOk result (λ out. out ≡ free_chunk shape.now) }
{
    let mut bytes = vec![in alloc; 0u8; (shape.content + TAG_BYTES) as usize]?;
    write_free(&mut bytes, shape);
    Text::from_slice(alloc, &bytes)
}

fn fresh_bytes(alloc: Global, content: u32, size: u32, zero: bool) -> Result<Text, NoMemory>
    ensures { IfOk result (λ out. out ≡ fresh_content content size zero) }
{
    let mut bytes = vec![in alloc; 0u8; content as usize]?;
    fill_words(&mut bytes, FRESH_WORD);
    if zero {
        laid_over(alloc, 0, size, &bytes)
    } else {
        Text::from_slice(alloc, &bytes)
    }
}

fn put_redzone(out: &mut Text, shape: &Shape, size: u32) -> Result<(), NoMemory>
    requires { size ≤ MOST_CACHE_BYTES }
    ensures { OnOk result (out.new ≡ out.old ++ redzone_bytes shape.now.class size) }
{
    if shape.class.is_some() {
        put_half(out, REDZONE_HALF)?;
        put_half(out, encode_size(size))
    } else {
        put_word(out, REDZONE_WORD)
    }
}

fn put_bufctl(out: &mut Text, shape: &Shape) -> Result<(), NoMemory>
    ensures { OnOk result (out.new ≡ out.old ++ bufctl_bytes shape.now Allocated) }
{
    put_word(out, shape.bufctl)?;
    put_word(out, shape.bufctl ^ ALLOCATED_MARK)
}

fn guarded_bytes(alloc: Global, shape: &Shape, size: u32, bytes: Text) -> Result<Text, NoMemory>
    ensures { IfOk result (λ out. out ≡ with_guard shape.now.class size bytes) }
{
    let at = size as usize;
    if shape.class.is_none() || at >= bytes.as_slice().len() {
        return Ok(bytes);
    }
    let mut marked = Vec::from_slice(alloc, bytes.as_slice())?;
    marked[at] = GUARD_BYTE;
    Text::from_slice(alloc, &marked)
}

/// A chunk that was just allocated, byte by byte, also where its size is none of its class.
fn allocated_bytes(alloc: Global, shape: &Shape, size: u32, zero: bool) -> Result<Text, NoMemory>
    requires { size ≤ MOST_CACHE_BYTES }
    ensures { IfOk result (λ out. out ≡ allocated_chunk shape.now size zero) }
{
    let mut out = fresh_bytes(alloc, shape.content, size, zero)?;
    put_redzone(&mut out, shape, size)?;
    put_bufctl(&mut out, shape)?;
    guarded_bytes(alloc, shape, size, out)
}

fn constructed_bytes(
    alloc: Global,
    ctor: Option<u8>,
    size: u32,
    bytes: Text,
) -> Result<Text, NoMemory>
    ensures { IfOk result (λ out. out ≡ constructed ctor size bytes) }
{
    match ctor {
        None => Ok(bytes),
        Some(byte) => laid_over(alloc, byte, size, bytes.as_slice()),
    }
}

/// The byte at a place of a free chunk, and 0 behind its end.
fn free_byte(shape: &Shape, place: u64) -> u8
    requires { IsShape shape.now }
    ensures { result ≡ slice_index (free_chunk shape.now) place }
{
    let content = u64::from(shape.content);
    if place < content {
        return FREE_WORD.to_le_bytes()[(place % 8) as usize];
    }
    let behind = (place - content) as usize;
    if behind < 8 {
        REDZONE_WORD.to_le_bytes()[behind]
    } else if behind < 16 {
        shape.bufctl.to_le_bytes()[behind - 8]
    } else if behind < 24 {
        (shape.bufctl ^ FREE_MARK).to_le_bytes()[behind - 16]
    } else {
        0
    }
}

/// The byte at a place of what the front of a chunk gets when its slab is made, and 0 behind its end.
pub fn made_chunk_byte(setting: &Setting, cache: u32, number: u32, place: u64) -> u8
    ensures { result ≡ slice_index (made_chunk setting.now cache number) place }
{
    if setting.guards() {
        return free_byte(&shape_of(setting, cache, number), place);
    }
    let rule = rule_in(setting, cache);
    match rule.ctor {
        Some(byte) if place < u64::from(rule.size) => byte,
        _ => 0,
    }
}

/// What the front of a chunk gets when it is handed out.
pub fn handed_chunk(
    alloc: Global,
    setting: &Setting,
    cache: u32,
    number: u32,
    size: u32,
    zero: bool,
) -> Result<Text, NoMemory>
    requires { size ≤ MOST_CACHE_BYTES }
    ensures { IfOk result (λ out. out ≡ handed_chunk setting.now cache number size zero) }
{
    if setting.guards() {
        let rule = rule_in(setting, cache);
        let shape = shape_of(setting, cache, number);
        let bytes = allocated_bytes(alloc, &shape, size, zero)?;
        return constructed_bytes(alloc, rule.ctor, rule.size, bytes);
    }
    if zero {
        laid_over(alloc, 0, size, &[])
    } else {
        Ok(Text::new(alloc))
    }
}

/// What the front of a chunk gets when it is freed.
pub fn freed_chunk(
    alloc: Global,
    setting: &Setting,
    cache: u32,
    number: u32,
) -> Result<Text, NoMemory>
    ensures { IfOk result (λ out. out ≡ freed_chunk setting.now cache number) }
{
    if setting.guards() {
        free_bytes(alloc, &shape_of(setting, cache, number))
    } else {
        Ok(Text::new(alloc))
    }
}
