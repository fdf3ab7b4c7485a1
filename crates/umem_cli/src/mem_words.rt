ghost use Rattle.std.specs.Prelude.{Some};

use crate::given::Words;
use std::alloc::Global;
use umem_base::{NoMemory, Text};

/// Words in memory.
#[derive(Drop)]
pub struct MemWords {
    pub words: Vec<Text>,
}

impl Words for MemWords {
    ghost words = { λ m. Some m.words.items };

    fn word(&self, alloc: Global, index: usize) -> Result<Option<Text>, NoMemory> {
        let Some(word) = self.words.get(index) else {
            return Ok(None);
        };
        Ok(Some(Text::from_slice(alloc, word.as_slice())?))
    }
}
