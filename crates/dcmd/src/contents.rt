ghost use Rattle.std.specs.Prelude.{◌≡◌, ◌++◌, IfOk, OnOk, reverse};
ghost use Rattle.std.specs.List.{flat_map};
ghost use Rattle.dcmd.specs.Contents.{bytes_word, contents_text, saved_line};

use crate::column::Column::{Decimal, Hex, Word};
use crate::lines::put_line;
use case_table::bufctl_address;
use heap_view::View;
use std::alloc::Global;
use trans_log::Saved;
use umem_base::{NoMemory, Text};

/// The bytes in hexadecimal, two digits each; a dash where there is none.
fn bytes_word(alloc: Global, bytes: &[u8]) -> Result<Vec<u8>, NoMemory>
    ensures { IfOk result (λ word. word.items ≡ bytes_word bytes.now) }
{
    if bytes.is_empty() {
        return Ok(Vec::from_slice(alloc, b"-")?);
    }
    Ok(hex::encode(alloc, bytes)?.into_bytes())
}

/// Appends the line of an item.
fn put_saved(out: &mut Text, saved: &Saved) -> Result<(), NoMemory>
    ensures { OnOk result (out.new ≡ out.old ++ saved_line saved.now) }
{
    let bytes = saved.bytes.as_slice();
    let word = bytes_word(out.allocator(), bytes)?;
    let bufctl = Hex(bufctl_address(saved.chunk));
    let length = Decimal(bytes.len() as u64);
    put_line(out, Decimal(saved.time), &[bufctl, length, Word(&word)])
}

/// Appends the lines of items, the last one first.
fn put_newest_first(out: &mut Text, log: &[Saved]) -> Result<(), NoMemory>
    ensures { OnOk result (out.new ≡ out.old ++ flat_map saved_line (reverse log.now)) }
{
    for index in (0..log.len()).rev() {
        put_saved(out, &log[index])?;
    }
    Ok(())
}

/// What `::umem_contents` answers.
#[tactic(auto, unfolding(crate::specs::Contents::contents_text))]
pub(crate) fn contents_text(alloc: Global, view: &View) -> Result<Text, NoMemory>
    ensures { IfOk result (λ text. text ≡ contents_text view.now) }
{
    let mut out = Text::new(alloc);
    put_newest_first(&mut out, view.core().saved.as_slice())?;
    Ok(out)
}
