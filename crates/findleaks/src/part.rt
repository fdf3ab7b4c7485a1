ghost use Rattle.std.specs.Prelude.{◌≡◌, IfOk, length};
ghost use Rattle.heap_view.specs.Buffers.{buffers_of};
ghost use Rattle.findleaks.specs.Classes.{AreParted, IsSettled};
ghost use Rattle.findleaks.specs.Found.{IsConsistent};

use crate::found::Found;
use heap_view::{Buffer, View};
use std::alloc::Global;
use umem_base::{NoMemory, Sequence};

/// The allocated buffers of a core, each in one of two classes, by rising address.
#[derive(Debug, Drop)]
pub struct Classes {
    /// Those that a chain of pointers leads to from a root word.
    pub reached: Sequence<Buffer>,
    /// Those that none leads to.
    pub leaked: Sequence<Buffer>,
}

/// Parts the buffers by their marks.
pub fn part(alloc: Global, view: &View, found: &Found) -> Result<Classes, NoMemory>
    requires consistent { IsConsistent (length (buffers_of view.now)) found.now }
    requires settled { IsSettled view.now found.now }
    ensures { IfOk result (λ classes. AreParted view.now (buffers_of view.now) classes.reached classes.leaked) }
{
    let mut reached = Vec::new(alloc);
    let mut leaked = Vec::new(alloc);
    for (index, buffer) in view.buffers().iter().enumerate() {
        if found.is_marked(index) {
            reached.push(*buffer)?;
        } else {
            leaked.push(*buffer)?;
        }
    }
    Ok(Classes {
        reached: Sequence::new(reached),
        leaked: Sequence::new(leaked),
    })
}
