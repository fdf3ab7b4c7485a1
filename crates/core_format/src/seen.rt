ghost use Rattle.std.specs.Prelude.{◌≡◌, [], ◌∷◌, ◌++◌, IfOk};
ghost use Rattle.core_format.specs.Items.{has_number};

use std::alloc::Global;
use std::collections::BTreeSet;
use std::marker::Model;
use umem_base::NoMemory;

/// The chunks of the magazines that were read so far, in their order.
#[derive(Drop)]
pub struct Seen {
    order: Vec<u32>,
    numbers: BTreeSet<u32>,
}

impl Model for Seen {
    ghost use Rattle.std.specs.Prelude.{◌≡◌, List, ℕ};
    ghost use Rattle.std.specs.Ordering.{nat_cmp};
    ghost use Rattle.std.specs.BTreeSet.{contains};
    ghost use Rattle.core_format.specs.Items.{has_number};

    ghost Value = { List ℕ };

    ghost view = { λ s. s.order.items };

    ghost invariant = { λ s. (n : ℕ) → contains nat_cmp s.numbers n ≡ has_number s.order.items n };
}

impl Seen {
    pub fn new(alloc: Global) -> Seen
        ensures { result ≡ [] }
    {
        Seen {
            order: Vec::new(alloc),
            numbers: BTreeSet::new(alloc),
        }
    }

    pub fn has(&self, chunk: u32) -> bool
        ensures { result ≡ has_number self.now chunk }
    {
        self.numbers.contains(&chunk)
    }

    /// The chunks with one more.
    pub fn with(self, chunk: u32) -> Result<Seen, NoMemory>
        ensures { IfOk result (λ seen. seen ≡ self ++ chunk ∷ []) }
    {
        let Seen {
            mut order,
            mut numbers,
        } = self;
        order.push(chunk)?;
        numbers.insert(chunk)?;
        Ok(Seen { order, numbers })
    }
}
