ghost use Rattle.std.specs.Prelude.{◌≡◌, ◌+◌, ◌≤◌, IfOk};
ghost use Rattle.heap_view.specs.Buffers.{buffers_of};
ghost use Rattle.findleaks.specs.Classes.{AreParted, look_ups};

use crate::follow::{follow_roots, spread};
use crate::found::Found;
use crate::part::{Classes, part};
use heap_view::View;
use heap_view::laws::buffers_are_apart;
use std::alloc::Global;
use std::sync::ledger::Ledger;
use umem_base::{NoMemory, Steps};

/// The allocated buffers in their two classes, as `::findleaks` of mdb(1) tells them apart. A word keeps the buffer
/// that it points into; the address past its end does not. Words of the root segments count, and the whole words of
/// buffers that are reached. A step is one look-up of a word. It refuses for want of memory alone, and then leaves the
/// counter where it came to.
pub fn classes<L: Ledger>(
    alloc: Global,
    view: &View,
    steps: &mut Steps<L>,
) -> Result<Classes, NoMemory>
    ensures classes { IfOk result
        (λ classes. AreParted view.now (buffers_of view.now) classes.reached classes.leaked) }
    ensures looked_up { IfOk result (λ classes. steps.new ≡ steps.old + look_ups view.now classes.reached) }
    ensures bound { steps.new ≤ steps.old + look_ups view.now (buffers_of view.now) }
{
    // What a view knows of its core, and what follows for its buffers.
    let _ = view.core();
    buffers_are_apart();
    let mut found = Found::new(alloc, view.buffers().len())?;
    follow_roots(view, &mut found, steps)?;
    spread(view, &mut found, steps)?;
    part(alloc, view, &found)
}
