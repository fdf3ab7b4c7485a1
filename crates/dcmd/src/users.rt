ghost use Rattle.std.specs.Prelude.{◌≡◌, ◌++◌, IfOk, OnOk};
ghost use Rattle.std.specs.List.{flat_map};
ghost use Rattle.dcmd.specs.Users.{TellsUsers, frame_line, group_line, group_lines, number_and};

use heap_view::View;
use std::alloc::Global;
use umausers::{Group, groups};
use umem_base::{NoMemory, Text, put_decimal, put_hex};

#[inline(always)]
fn put_number_and(out: &mut Text, number: u64, words: &[u8]) -> Result<(), NoMemory>
    ensures { OnOk result (out.new ≡ out.old ++ number_and number words.now) }
{
    put_decimal(out, number, 0)?;
    out.push_slice(words)
}

fn put_group_line(out: &mut Text, group: &Group) -> Result<(), NoMemory>
    ensures { OnOk result (out.new ≡ out.old ++ group_line group.now) }
{
    put_number_and(out, group.total, b" bytes for ")?;
    put_number_and(out, group.count, b" allocations with data size ")?;
    put_number_and(out, group.size, b":\n")
}

#[inline(always)]
fn put_frame(out: &mut Text, frame: u64) -> Result<(), NoMemory>
    ensures { OnOk result (out.new ≡ out.old ++ frame_line frame) }
{
    out.push_slice(b"    ")?;
    put_hex(out, frame, 0)?;
    out.push_slice(b"\n")
}

fn put_frames(out: &mut Text, frames: &[u64]) -> Result<(), NoMemory>
    ensures { OnOk result (out.new ≡ out.old ++ flat_map frame_line frames.now) }
{
    for frame in frames {
        put_frame(out, *frame)?;
    }
    Ok(())
}

/// Appends the line of a group and those of its frames.
fn put_group(out: &mut Text, group: &Group) -> Result<(), NoMemory>
    ensures { OnOk result (out.new ≡ out.old ++ group_lines group.now) }
{
    put_group_line(out, group)?;
    put_frames(out, group.stack.as_slice())
}

fn put_groups(out: &mut Text, groups: &[Group]) -> Result<(), NoMemory>
    ensures { OnOk result (out.new ≡ out.old ++ flat_map group_lines groups.now) }
{
    for group in groups {
        put_group(out, group)?;
    }
    Ok(())
}

/// What `::umausers` answers.
pub(crate) fn users_text(alloc: Global, view: &View, every: bool) -> Result<Text, NoMemory>
    ensures { IfOk result (λ text. TellsUsers view.now every text) }
{
    let groups = groups(alloc, view, every)?;
    let mut out = Text::new(alloc);
    put_groups(&mut out, &groups)?;
    Ok(out)
}
