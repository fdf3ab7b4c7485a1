ghost use Rattle.std.specs.Prelude.{◌≡◌, ◌++◌, IfOk, OnOk, OnErr};
ghost use Rattle.heap_summary.specs.Texts.{named_number, summary_text};

use crate::summary::Summary;
use std::alloc::Global;
use umem_base::{NoMemory, Text, put_decimal};

/// Appends the line of a summary, with its end. On refusal `out` is as before.
pub fn put_summary(out: &mut Text, summary: &Summary) -> Result<(), NoMemory>
    ensures ok { OnOk result (out.new ≡ out.old ++ summary_text summary.now) }
    ensures err { OnErr result (out.new ≡ out.old) }
{
    let line = line_of(out.allocator(), summary)?;
    out.push_slice(line.as_slice())
}

/// The line of a summary.
fn line_of(alloc: Global, summary: &Summary) -> Result<Text, NoMemory>
    ensures { IfOk result (λ line. line ≡ summary_text summary.now) }
{
    let mut line = Text::new(alloc);
    put_named(&mut line, b"# summary allocs ", summary.allocs)?;
    put_named(&mut line, b" frees ", summary.frees)?;
    put_named(&mut line, b" live ", summary.live)?;
    put_named(&mut line, b" bytes ", summary.bytes)?;
    put_named(&mut line, b" grows ", summary.grows)?;
    line.push_slice(b"\n")?;
    Ok(line)
}

/// Appends a number behind its name.
fn put_named(out: &mut Text, name: &[u8], number: u64) -> Result<(), NoMemory>
    ensures { OnOk result (out.new ≡ out.old ++ named_number name.now number) }
{
    out.push_slice(name)?;
    put_decimal(out, number, 0)
}
