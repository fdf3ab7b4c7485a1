ghost use Rattle.std.specs.Prelude.{◌≡◌, ◌+◌, ◌^◌, ◌≤◌, IfOk, length};
ghost use Rattle.std.specs.List.{range_with_len};
ghost use Rattle.slab_layer.specs.Rounds.{AreConsecutive};

use std::alloc::Global;
use std::marker::Model;
use umem_base::{BoundedVec, NoMemory};

/// The number of a free chunk, in the hands of the place that holds it. It can't be copied: a round is moved
/// from place to place. Contracts see the number. The word is that of Bonwick and Adams 2001.
#[derive(Debug, PartialEq, Eq, Drop)]
pub struct Round {
    chunk: u32,
}

/// A list of rounds.
pub type Rounds = BoundedVec<Round>;

impl Model for Round {
    ghost use Rattle.std.specs.Prelude.{ℕ};

    ghost Value = { ℕ };

    ghost view = { λ r. r.chunk };

    ghost inverse = { λ chunk. record { chunk = chunk } };
}

impl Round {
    pub fn new(chunk: u32) -> Round
        ensures { result ≡ chunk }
    {
        Round { chunk }
    }

    pub fn chunk(&self) -> u32
        ensures { result ≡ self.now }
    {
        self.chunk
    }
}

/// So many rounds with the numbers from `first` on, by rising number.
pub fn rounds_from(alloc: Global, first: u32, count: u32) -> Result<Rounds, NoMemory>
    requires { first + count ≤ 2 ^ 32 }
    ensures items { IfOk result (λ rounds. rounds.items ≡ range_with_len first count) }
    ensures count { IfOk result (λ rounds. length rounds.items ≡ count) }
    ensures rising { IfOk result (λ rounds. AreConsecutive rounds.items) }
{
    let mut rounds = Rounds::with_room(alloc, count)?;
    for index in 0..count {
        rounds.push(Round::new(first + index));
    }
    Ok(rounds)
}
