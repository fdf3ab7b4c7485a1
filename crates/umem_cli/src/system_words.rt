ghost use Rattle.std.specs.Prelude.{None};

use crate::given::Words;
use std::alloc::Global;
use std::env::{Env, FillError};
use umem_base::{NoMemory, Text};

// How many bytes a word may have at the first try; each further try takes twice as many.
const FIRST_ROOM: usize = 256;

/// The words of the system. It does not tell which they are.
#[derive(Drop)]
pub struct SystemWords<'a, V: Env> {
    system: &'a V,
}

impl<'a, V: Env> SystemWords<'a, V> {
    pub fn new(system: &'a V) -> SystemWords<'a, V> {
        SystemWords { system }
    }
}

impl<V: Env> Words for SystemWords<'_, V> {
    ghost words = { λ _. None };

    fn word(&self, alloc: Global, index: usize) -> Result<Option<Text>, NoMemory> {
        // The program's name stands before them.
        argument(self.system, alloc, index.saturating_add(1))
    }
}

// The argument of that number, if there is one.
fn argument<V: Env>(system: &V, alloc: Global, index: usize) -> Result<Option<Text>, NoMemory> {
    let mut room = FIRST_ROOM;
    for _ in 0..usize::BITS {
        let mut buffer = vec![in alloc; 0; room]?;
        match system.arg(index, &mut buffer) {
            Ok(count) => return Ok(Some(Text::from_slice(alloc, &buffer[..count])?)),
            Err(FillError::NotPresent) => return Ok(None),
            Err(FillError::TooLong) => room = room.saturating_add(room),
        }
    }
    Err(NoMemory)
}
