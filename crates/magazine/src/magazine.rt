ghost use Rattle.std.specs.Prelude.{◌≡◌, ◌≤◌, ◌↔◌, [], ◌∷◌, ◌++◌, length, reverse, IfErr, IfOk, IsErr, IsNone, IsTrue, MatchOption, OnErr, OnOk};
ghost use Rattle.slab_layer.specs.Slabs.{AreSlabs, KeepsRounds, after_puts};
ghost use Rattle.magazine.specs.Magazine.{IsEmpty, IsFull, IsMagazine};

use slab_layer::{Round, Rounds, Slabs};
use std::alloc::Global;
use std::marker::Model;
use umem_base::NoMemory;

/// A stack of rounds of a fixed size (Bonwick and Adams 2001), whose memory was taken when it was made.
/// Contracts see its size and its rounds, oldest first.
#[derive(Debug, Drop)]
pub struct Magazine {
    size: u32,
    rounds: Rounds,
}

impl Model for Magazine {
    ghost use Rattle.std.specs.Prelude.{◌≡◌, ◌+◌, ◌≤◌, length};
    ghost use Rattle.magazine.specs.Magazine.{Magazine};

    ghost Value = { Magazine };

    ghost view = { λ m. record { size = m.size; rounds = m.rounds.items } };

    ghost invariant = { λ m. (1 ≤ m.size) × (length m.rounds.items + m.rounds.spare ≡ m.size) };
}

impl Magazine {
    /// An empty magazine for so many rounds.
    pub fn new(alloc: Global, size: u32) -> Result<Magazine, NoMemory>
        requires { 1 ≤ size }
        ensures { IfOk result (λ magazine. magazine ≡ record { size = size; rounds = [] }) }
    {
        Ok(Magazine {
            size,
            rounds: Rounds::with_room(alloc, size)?,
        })
    }

    /// How many rounds fit.
    pub fn size(&self) -> u32
        ensures { result ≡ self.now.size }
    {
        self.size
    }

    /// The rounds, oldest first.
    pub fn as_slice(&self) -> &[Round]
        ensures rounds { result.now ≡ self.now.rounds }
        ensures sound { IsMagazine self.now }
    {
        self.rounds.as_slice()
    }

    pub fn is_empty(&self) -> bool
        ensures { IsTrue result ↔ IsEmpty self.now }
    {
        self.rounds.as_slice().is_empty()
    }

    pub fn is_full(&self) -> bool
        ensures { IsTrue result ↔ IsFull self.now }
    {
        self.rounds.as_slice().len() == self.size as usize
    }

    /// Pushes a round as the newest. A full magazine hands it back and stays as it was. It takes no memory.
    pub fn push(&mut self, round: Round) -> Result<(), Round>
        ensures ok { OnOk result (self.new ≡ record self.old { rounds = self.old.rounds ++ round ∷ [] }) }
        ensures full { IsErr result ↔ IsFull self.old }
        ensures back { IfErr result (λ back. back ≡ round) }
        ensures err { OnErr result (self.new ≡ self.old) }
    {
        if self.is_full() {
            return Err(round);
        }
        self.rounds.push(round);
        Ok(())
    }

    /// Takes the newest round, or `None` where there is none. It takes no memory.
    pub fn pop(&mut self) -> Option<Round>
        ensures popped { MatchOption result (self.new ≡ self.old)
            (λ round. (self.old.rounds ≡ self.new.rounds ++ round ∷ []) × (self.new.size ≡ self.old.size)) }
        ensures empty { IsNone result ↔ IsEmpty self.old }
    {
        self.rounds.pop()
    }

    /// Puts every round into the slabs, the newest first. One that is handed back is given up.
    pub fn drain_into(&mut self, slabs: &mut Slabs)
        ensures emptied { self.new ≡ record self.old { rounds = [] } }

        // The slabs afterwards.
        ensures put { slabs.new ≡ record slabs.old { slabs = after_puts slabs.old.slabs (reverse self.old.rounds) } }
        ensures holds { KeepsRounds slabs.old.slabs slabs.new.slabs (reverse self.old.rounds) }
        ensures sound { AreSlabs slabs.new.slabs }
    {
        // Says that the slabs are sound, also where there is nothing to put.
        let _ = slabs.cache();
        while let Some(round) = self.pop() {
            let _given_up = slabs.put(round);
        }
    }
}
