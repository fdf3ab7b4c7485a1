ghost use Rattle.std.specs.Prelude.{ℕ, List, Option, IfOk};
ghost use Rattle.umem_cli.specs.Words.{AreTold, IsWordAt};

use std::alloc::Global;
use umem_base::{NoMemory, Text};

/// A device that has the words which a program was called with. They may be any bytes.
pub trait Words {
    /// The words behind the program's name, where the device tells them.
    ghost words: { Self → Option (List (List ℕ)) };

    /// The word of that number, counted from 0, or `None` where there are no more.
    fn word(&self, alloc: Global, index: usize) -> Result<Option<Text>, NoMemory>
        ensures { IfOk result (IsWordAt (words self.now) index) };
}

/// All words of the device, in order. It is refused where memory is short alone.
pub fn given_words<W: Words>(device: &W, alloc: Global) -> Result<Vec<Text>, NoMemory>
    ensures { IfOk result (λ given. AreTold (W.words device.now) given.items) }
{
    let mut given = Vec::new(alloc);
    for index in 0..usize::MAX {
        let Some(word) = device.word(alloc, index)? else {
            return Ok(given);
        };
        given.push(word)?;
    }
    Err(NoMemory)
}
