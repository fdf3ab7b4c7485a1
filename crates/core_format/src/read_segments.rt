ghost use Rattle.std.specs.Prelude.{◌≡◌, []};
ghost use Rattle.core_format.specs.Items.{items_at};
ghost use Rattle.core_format.specs.Sections.{ReadsItem};
ghost use Rattle.core_format.specs.Reader.{ReadsAs};
ghost use Rattle.core_format.specs.Segments.{one_own_root, own_root_at, segment_at};

use crate::core_fault::CoreFault;
use crate::items::OwnRoot;
use crate::read_words::words;
use crate::reader::Reader;
use std::alloc::Global;
use umem_base::{PAGE_BYTES, ROOT_WORDS, Sequence};

/// The words of a root segment.
#[tactic(auto, unfolding(crate::specs::Segments::segment_at))]
pub fn segment(alloc: Global, reader: &mut Reader) -> Result<Vec<u64>, CoreFault>
    ensures { ReadsAs (λ words. (words.items, reader.new)) result (segment_at reader.old) }
{
    reader.room(PAGE_BYTES as usize)?;
    words(alloc, reader, ROOT_WORDS as u32)
}

#[tactic(auto, unfolding(crate::specs::Segments::one_own_root))]
fn own_root(alloc: Global, reader: &mut Reader) -> Result<OwnRoot, CoreFault>
    ensures { ReadsItem result reader.new (one_own_root reader.old) }
{
    let words = segment(alloc, reader)?;
    Ok(OwnRoot {
        words: Sequence::new(words),
    })
}

/// The own segments of so many threads.
pub fn own_roots(alloc: Global, reader: &mut Reader, count: u32) -> Result<Vec<OwnRoot>, CoreFault>
    ensures { ReadsAs (λ roots. (roots.items, reader.new)) result (items_at own_root_at count [] reader.old) }
{
    let mut roots = Vec::new(alloc);
    for _ in 0..count {
        let root = own_root(alloc, reader)?;
        roots.push(root)?;
    }
    Ok(roots)
}
