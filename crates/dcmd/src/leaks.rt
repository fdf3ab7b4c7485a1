ghost use Rattle.std.specs.Prelude.{◌≡◌, ◌++◌, ◌<◌, ◌^◌, IfOk, OnOk};
ghost use Rattle.std.specs.List.{flat_map};
ghost use Rattle.heap_view.specs.Buffers.{buffers_of};
ghost use Rattle.findleaks.specs.Classes.{AreParted};
ghost use Rattle.dcmd.specs.Leaks.{TellsLeaks, sum_of_sizes, leak_line, leaks_count};

use crate::column::Column::{Decimal, Hex, Word};
use crate::lines::put_line;
use crate::names::source_name;
use case_table::bufctl_address;
use core_format::Core;
use findleaks::{Classes, classes};
use heap_view::{Buffer, View};
use std::alloc::Global;
use std::marker::Brand;
use std::sync::ledger::{Blank, Ledger};
use umem_base::{NoMemory, Steps, Text};

/// The two classes of buffers. The blank makes a counter of look-ups.
fn counted_classes<L: Ledger>(alloc: Global, view: &View, blank: Blank) -> Result<Classes, NoMemory>
    requires name { blank.name ≡ L.name }
    requires parts { blank.parts ≡ L.parts }
    requires some { 0 < L.parts }
    ensures { IfOk result
        (λ classes. AreParted view.now (buffers_of view.now) classes.reached classes.leaked) }
{
    let mut steps = Steps::<L>::new(blank);
    classes(alloc, view, &mut steps)
}

/// The same, where look-ups are counted for nobody.
fn classes_of(alloc: Global, view: &View) -> Result<Classes, NoMemory>
    ensures { IfOk result
        (λ classes. AreParted view.now (buffers_of view.now) classes.reached classes.leaked) }
{
    counted_classes::<Brand>(alloc, view, Blank::new(1))
}

/// Appends the line of a leaked buffer.
fn put_leak(out: &mut Text, core: &Core, buffer: &Buffer) -> Result<(), NoMemory>
    ensures { OnOk result (out.new ≡ out.old ++ leak_line core.now buffer.now) }
{
    let first = Hex(buffer.address);
    let name = Word(source_name(core, buffer.cache));
    let size = Decimal(buffer.size);
    match buffer.chunk {
        None => put_line(out, first, &[name, size, Word(b"-")]),
        Some(chunk) => put_line(out, first, &[name, size, Hex(bufctl_address(chunk))]),
    }
}

fn put_leaks(out: &mut Text, core: &Core, leaked: &[Buffer]) -> Result<(), NoMemory>
    ensures { OnOk result (out.new ≡ out.old ++ flat_map (leak_line core.now) leaked.now) }
{
    for buffer in leaked {
        put_leak(out, core, buffer)?;
    }
    Ok(())
}

fn sum_of_sizes(buffers: &[Buffer]) -> u64
    requires { sum_of_sizes buffers.now < 2 ^ 64 }
    ensures { result ≡ sum_of_sizes buffers.now }
{
    buffers.iter().map(|buffer| buffer.size).sum()
}

/// Appends how many buffers are in each class, and the bytes of the leaked ones.
fn put_count(out: &mut Text, reached: &[Buffer], leaked: &[Buffer]) -> Result<(), NoMemory>
    requires { sum_of_sizes leaked.now < 2 ^ 64 }
    ensures { OnOk result (out.new ≡ out.old ++ leaks_count reached.now leaked.now) }
{
    let reached = Decimal(reached.len() as u64);
    let count = Decimal(leaked.len() as u64);
    let bytes = Decimal(sum_of_sizes(leaked));
    let more = [reached, Word(b"leaked"), count, Word(b"bytes"), bytes];
    put_line(out, Word(b"reached"), &more)
}

/// What `::findleaks` answers.
pub(crate) fn leaks_text(alloc: Global, view: &View) -> Result<Text, NoMemory>
    ensures { IfOk result (TellsLeaks view.now) }
{
    let classes = classes_of(alloc, view)?;
    let leaked = classes.leaked.as_slice();
    let mut out = Text::new(alloc);
    put_leaks(&mut out, view.core(), leaked)?;
    put_count(&mut out, classes.reached.as_slice(), leaked)?;
    Ok(out)
}
