ghost use Rattle.std.specs.Prelude.{◌≡◌, ◌+◌, ◌<◌, ◌≤◌, ◌++◌, AllPairs, Contains, IfOk, OnOk, option_to_list};
ghost use Rattle.heap_view.specs.Layout.{IsShapeIn};
ghost use Rattle.verify.specs.Lines.{IsLineBelow, chunk_line, findings_of, slab_lines};

use crate::check::{can_break, finding_of};
use crate::line::Line;
use case_table::Geometry;
use core_format::SlabItem;
use heap_view::{View, geometry_in};
use std::alloc::Global;
use umem_base::NoMemory;

/// What is told of a chunk of a slab.
fn chunk_line(view: &View, slab: &SlabItem, geometry: &Geometry, index: u32) -> Option<Line>
    requires slab { Contains view.now.slabs slab.now }
    requires shape { IsShapeIn view.now slab.now.cache geometry.now }
    requires within { index < geometry.now.rounds }
    ensures { result ≡ chunk_line view.now slab.now (slab.now.first + index) }
{
    let core = view.core();
    if !can_break(core, slab.cache) {
        return None;
    }
    // The numbers of chunks are below it, so that each has 32 bits.
    let _next = core.next_chunk;
    let chunk = slab.first + index;
    let state = view.state_of(chunk);
    let finding = finding_of(core, slab, geometry, chunk, state)?;
    let offset = slab.colour + index * geometry.chunk;
    Some(Line {
        address: slab.base + u64::from(offset),
        state,
        cache: slab.cache,
        finding,
    })
}

/// Appends a line, if there is one.
fn put_line(out: &mut Vec<Line>, line: Option<Line>) -> Result<(), NoMemory>
    ensures { OnOk result (out.new.items ≡ out.old.items ++ option_to_list line) }
{
    if let Some(line) = line {
        out.push(line)?;
    }
    Ok(())
}

/// Appends what is told of the chunks of a slab.
fn put_slab(out: &mut Vec<Line>, view: &View, slab: &SlabItem) -> Result<(), NoMemory>
    requires { Contains view.now.slabs slab.now }
    ensures { OnOk result (out.new.items ≡ out.old.items ++ slab_lines view.now slab.now) }
{
    let geometry = geometry_in(view.core(), slab.cache);
    for index in 0..geometry.rounds {
        put_line(out, chunk_line(view, slab, &geometry, index))?;
    }
    Ok(())
}

/// Every chunk with a finding, each once, by rising address, as `::umem_verify` of mdb(1) tells them. Without
/// guards only a free chunk of a cache with a constructor can have one. One pass over the slabs finds them.
pub fn findings(alloc: Global, view: &View) -> Result<Vec<Line>, NoMemory>
    ensures value { IfOk result (λ lines. lines.items ≡ findings_of view.now) }
    ensures rise { IfOk result (λ lines. AllPairs IsLineBelow lines.items) }
{
    let mut out = Vec::new(alloc);
    let slabs = view.core().slabs.as_slice();
    for slab in slabs {
        put_slab(&mut out, view, slab)?;
    }
    Ok(out)
}
