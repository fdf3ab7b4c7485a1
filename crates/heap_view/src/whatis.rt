ghost use Rattle.std.specs.Prelude.{◌≡◌, ◌++◌, IfOk, OnOk, codes, decimal};
ghost use Rattle.umem_base.specs.Numbers.{hexadecimal};
ghost use Rattle.heap_view.specs.Hits.{hit_of};
ghost use Rattle.heap_view.specs.Layout.{IsLaidOut};
ghost use Rattle.heap_view.specs.Whatis.{based_text, chunk_text, found_text, given_text, hit_text, large_size_at, large_text, name_at, name_in, own_text, root_text, beside_text, tail_text, whatis_line};

use crate::hit::Hit;
use crate::look_up::{large_at, slab_at};
use crate::view::View;
use case_table::{OVERSIZE_NAME, bufctl_address};
use core_format::Core;
use std::alloc::Global;
use umem_base::{NoMemory, Text, put_decimal, put_hex};

fn put_plain_hex(out: &mut Text, value: u64) -> Result<(), NoMemory>
    ensures { OnOk result (out.new ≡ out.old ++ hexadecimal value) }
{
    put_hex(out, value, 0)
}

fn put_plain_decimal(out: &mut Text, value: u64) -> Result<(), NoMemory>
    ensures { OnOk result (out.new ≡ out.old ++ decimal value) }
{
    put_decimal(out, value, 0)
}

/// Appends words and a number behind them.
fn put_numbered(out: &mut Text, words: &[u8], number: u64) -> Result<(), NoMemory>
    ensures { OnOk result (out.new ≡ out.old ++ (words.now ++ decimal number)) }
{
    out.push_slice(words)?;
    put_plain_decimal(out, number)
}

/// Appends the name of a cache.
fn put_name(out: &mut Text, core: &Core, cache: u32) -> Result<(), NoMemory>
    ensures { OnOk result (out.new ≡ out.old ++ name_in core.now cache) }
{
    match core.caches.as_slice().get(cache as usize) {
        Some(item) => out.push_slice(item.def.name.as_slice()),
        None => Ok(()),
    }
}

/// Appends the name of the cache of the slab that has the address.
fn put_name_at(out: &mut Text, core: &Core, address: u64) -> Result<(), NoMemory>
    requires { IsLaidOut core.now }
    ensures { OnOk result (out.new ≡ out.old ++ name_at core.now address) }
{
    match slab_at(core, address) {
        Some(index) => put_name(out, core, core.slabs.as_slice()[index].cache),
        None => Ok(()),
    }
}

/// The size of the large buffer that has the address.
fn large_size_at(core: &Core, address: u64) -> u64
    requires { IsLaidOut core.now }
    ensures { result ≡ large_size_at core.now address }
{
    match large_at(core, address) {
        Some(index) => core.large.as_slice()[index].size,
        None => 0,
    }
}

fn put_based(out: &mut Text, base: u64, offset: u64) -> Result<(), NoMemory>
    ensures { OnOk result (out.new ≡ out.old ++ based_text base offset) }
{
    put_plain_hex(out, base)?;
    out.push_slice(b"+")?;
    put_plain_hex(out, offset)
}

/// Tells whether a chunk was given or is back.
fn put_given(out: &mut Text, is_held: bool) -> Result<(), NoMemory>
    ensures { OnOk result (out.new ≡ out.old ++ given_text is_held) }
{
    if is_held {
        out.push_slice(b" freed from ")
    } else {
        out.push_slice(b" allocated from ")
    }
}

fn put_chunk(
    out: &mut Text,
    view: &View,
    address: u64,
    chunk: u32,
    offset: u64,
) -> Result<(), NoMemory>
    ensures { OnOk result (out.new ≡ out.old ++ chunk_text view.now address chunk offset) }
{
    put_based(out, address.saturating_sub(offset), offset)?;
    out.push_slice(b", bufctl ")?;
    put_plain_hex(out, bufctl_address(chunk))?;
    put_given(out, view.is_held(chunk))?;
    put_name_at(out, view.core(), address)?;
    Ok(())
}

fn put_large(
    out: &mut Text,
    view: &View,
    address: u64,
    base: u64,
    offset: u64,
) -> Result<(), NoMemory>
    ensures { OnOk result (out.new ≡ out.old ++ large_text view.now address base offset) }
{
    put_based(out, base, offset)?;
    put_numbered(out, b", ", large_size_at(view.core(), address))?;
    out.push_slice(b" bytes allocated from ")?;
    out.push_slice(OVERSIZE_NAME)?;
    Ok(())
}

fn put_tail(out: &mut Text, base: u64) -> Result<(), NoMemory>
    ensures { OnOk result (out.new ≡ out.old ++ tail_text base) }
{
    out.push_slice(b"past the end of ")?;
    put_plain_hex(out, base)?;
    Ok(())
}

fn put_gap(out: &mut Text, view: &View, cache: u32) -> Result<(), NoMemory>
    ensures { OnOk result (out.new ≡ out.old ++ beside_text view.now cache) }
{
    out.push_slice(b"in a slab of ")?;
    put_name(out, view.core(), cache)?;
    Ok(())
}

fn put_root(out: &mut Text, word: u32) -> Result<(), NoMemory>
    ensures { OnOk result (out.new ≡ out.old ++ root_text word) }
{
    put_numbered(out, b"in the root segment, word ", u64::from(word))?;
    Ok(())
}

fn put_own(out: &mut Text, thread: u32, word: u32) -> Result<(), NoMemory>
    ensures { OnOk result (out.new ≡ out.old ++ own_text thread word) }
{
    put_numbered(out, b"in the root segment of thread ", u64::from(thread))?;
    put_numbered(out, b", word ", u64::from(word))?;
    Ok(())
}

fn put_hit(out: &mut Text, view: &View, address: u64, hit: Hit) -> Result<(), NoMemory>
    ensures { OnOk result (out.new ≡ out.old ++ hit_text view.now address hit) }
{
    match hit {
        Hit::Chunk { chunk, offset } => put_chunk(out, view, address, chunk, offset),
        Hit::Large { base, offset } => put_large(out, view, address, base, offset),
        Hit::Tail { base } => put_tail(out, base),
        Hit::Slab { cache } => put_gap(out, view, cache),
        Hit::Root { word } => put_root(out, word),
        Hit::OwnRoot { thread, word } => put_own(out, thread, word),
    }
}

fn put_found(out: &mut Text, view: &View, address: u64, found: Option<Hit>) -> Result<(), NoMemory>
    ensures { OnOk result (out.new ≡ out.old ++ found_text view.now address found) }
{
    match found {
        Some(hit) => put_hit(out, view, address, hit),
        None => out.push_slice(b"unknown"),
    }
}

/// The line that tells what stands at an address, with its end. It is what `::whatis` of mdb(1) tells of libumem;
/// the words are this project's own.
pub fn whatis_text(alloc: Global, view: &View, address: u64) -> Result<Text, NoMemory>
    ensures { IfOk result (λ text. text ≡ whatis_line view.now address) }
{
    let mut out = Text::new(alloc);
    put_plain_hex(&mut out, address)?;
    out.push_slice(b" is ")?;
    put_found(&mut out, view, address, view.find(address))?;
    out.push_slice(b"\n")?;
    Ok(out)
}
