ghost use Rattle.std.specs.Prelude.{◌≡◌, ◌+◌, ◌^◌, ◌≤◌};

use std::marker::Model;

/// The chunks of the slab that has the most.
pub const MOST_ROUNDS: u32 = 512;

/// A slab that stands: its cache, where its pages begin, how many slabs its cache had made before, and the number of
/// its first chunk. The numbers of its chunks fit 32 bits. Contracts see it as that of a history's state.
#[derive(Clone, Copy)]
pub struct HeapSlab {
    cache: u32,
    base: u64,
    made: u32,
    first: u32,
}

impl Model for HeapSlab {
    ghost use Rattle.std.specs.Prelude.{◌+◌, ◌^◌, ◌≤◌};
    ghost use Rattle.plain_heap.specs.State.{HeapSlab};
    ghost use Rattle.yardstick.specs.Codes.{slab_code};

    ghost Value = { HeapSlab };

    ghost coded = { slab_code };

    ghost view = { λ s. record { cache = s.cache; base = s.base; made = s.made; first = s.first } };

    ghost invariant = { λ s. s.first + 512 ≤ 2 ^ 32 };

    ghost inverse = { λ s. record { cache = s.cache; base = s.base; made = s.made; first = s.first } };
}

impl HeapSlab {
    pub fn new(cache: u32, base: u64, made: u32, first: u32) -> HeapSlab
        requires { first + MOST_ROUNDS ≤ 2 ^ 32 }
        ensures { result ≡ record { cache = cache; base = base; made = made; first = first } }
    {
        HeapSlab {
            cache,
            base,
            made,
            first,
        }
    }

    pub fn cache(&self) -> u32
        ensures { result ≡ self.now.cache }
    {
        self.cache
    }

    pub fn base(&self) -> u64
        ensures { result ≡ self.now.base }
    {
        self.base
    }

    pub fn made(&self) -> u32
        ensures { result ≡ self.now.made }
    {
        self.made
    }

    pub fn first(&self) -> u32
        ensures value { result ≡ self.now.first }
        ensures fits { result + MOST_ROUNDS ≤ 2 ^ 32 }
    {
        self.first
    }
}
