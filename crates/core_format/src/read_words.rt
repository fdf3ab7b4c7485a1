ghost use Rattle.std.specs.Prelude.{◌≡◌, [], ◌∷◌};
ghost use Rattle.core_format.specs.Items.{one_word, words_at};
ghost use Rattle.core_format.specs.Sections.{ReadsItem};
ghost use Rattle.core_format.specs.Reader.{ReadsAs};

use crate::core_fault::CoreFault;
use crate::reader::Reader;
use case_table::{Layout, take_fields};
use std::alloc::Global;

fn word_layout() -> Layout<1>
    ensures { result ≡ 8 ∷ [] }
{
    Layout::new([8]).unwrap()
}

#[tactic(auto, unfolding(crate::specs::Items::one_word))]
fn word(reader: &mut Reader) -> Result<u64, CoreFault>
    ensures { ReadsItem result reader.new (one_word reader.old) }
{
    let start = reader.at();
    take_fields!(reader, &word_layout(), start => word);
    Ok(word)
}

/// So many words of eight bytes. It takes room for no more than are left.
pub fn words(alloc: Global, reader: &mut Reader, count: u32) -> Result<Vec<u64>, CoreFault>
    ensures { ReadsAs (λ words. (words.items, reader.new)) result (words_at count reader.old) }
{
    let most = reader.left() / 8;
    let mut words = Vec::with_capacity(alloc, most.min(count as usize))?;
    for _ in 0..count {
        let word = word(reader)?;
        words.push(word)?;
    }
    Ok(words)
}
