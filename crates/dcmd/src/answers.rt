ghost use Rattle.std.specs.Prelude.{IfOk};
ghost use Rattle.dcmd.specs.Answers.{IsAnswer};

use crate::cache_lines::cache_text;
use crate::contents::contents_text;
use crate::dcmd::Dcmd;
use crate::finding_lines::verify_text;
use crate::leaks::leaks_text;
use crate::transactions::log_text;
use crate::users::users_text;
use crate::walks::walk_text;
use heap_view::{View, whatis_text};
use std::alloc::Global;
use umem_base::{NoMemory, Text};

/// The answer to a command over the core of a view: whole lines, each with its end, or nothing where there is
/// nothing to tell. It refuses for want of memory alone.
pub fn answer(alloc: Global, view: &View, dcmd: &Dcmd) -> Result<Text, NoMemory>
    ensures { IfOk result (IsAnswer view.now dcmd.now) }
{
    match *dcmd {
        Dcmd::UmemCache => cache_text(alloc, view),
        Dcmd::UmemVerify => verify_text(alloc, view),
        Dcmd::UmemLog => log_text(alloc, view),
        Dcmd::UmemContents => contents_text(alloc, view),
        Dcmd::Umausers { every } => users_text(alloc, view, every),
        Dcmd::Whatis { address } => whatis_text(alloc, view, address),
        Dcmd::Findleaks => leaks_text(alloc, view),
        Dcmd::WalkUmem { cache } => walk_text(alloc, view, view.buffers(), cache),
        Dcmd::WalkFreemem { cache } => walk_text(alloc, view, view.free_chunks(), cache),
    }
}
