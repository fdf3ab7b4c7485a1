ghost use Rattle.std.specs.Prelude.{◌≡◌, ◌≢◌, ◌+◌, ◌<◌, ◌≤◌, ◌++◌, not, length, filter, map, AllPairs, vec_capacity, vec_len};
ghost use Rattle.std.specs.List.Sorted.{IsPermutation};
ghost use Rattle.heap_ledger.specs.Commits.{GoesBefore};
ghost use Rattle.heap_slabs.specs.Standing.{AreStanding, has_base, is_idle, as_slab_at};

use crate::as_slab_at::as_slab_at;
use crate::numbered::Numbered;
use crate::search::count_to;
use crate::standing::Standing;
use heap_ledger::SlabAt;

/// Tells whether no chunk of the slab lives.
pub fn is_idle(slab: &Standing) -> bool
    ensures { result ≡ is_idle slab.now }
{
    slab.live == 0
}

/// Lists the slabs of which no chunk lives, by cache and then by base. It takes no memory.
pub fn list_unused(slabs: &[Standing], unused: &mut Vec<SlabAt>)
    requires bases { AllPairs (λ one other. one.base < other.base) slabs.now }
    requires room { length slabs.now ≤ vec_capacity unused.old }
    ensures those { IsPermutation (map as_slab_at (filter is_idle slabs.now)) unused.new.items }
    ensures in_order { AllPairs GoesBefore unused.new.items }
    ensures capacity { vec_capacity unused.old ≤ vec_capacity unused.new }
{
    unused.clear();
    for slab in slabs {
        if is_idle(slab) {
            unused.push(as_slab_at(slab)).unwrap();
        }
    }
    unused.sort_unstable();
}

/// Lists the slabs by their caches and bases alone. It takes no memory.
pub fn list_places(slabs: &[Standing], places: &mut Vec<SlabAt>)
    requires { length slabs.now ≤ vec_capacity places.old }
    ensures those { places.new.items ≡ map as_slab_at slabs.now }
    ensures capacity { vec_capacity places.old ≤ vec_capacity places.new }
{
    places.clear();
    for slab in slabs {
        places.push(as_slab_at(slab)).unwrap();
    }
}

/// Tells whether one of the slabs begins at the base.
pub fn has_base(slabs: &[Standing], base: u64) -> bool
    requires { AreStanding slabs.now }
    ensures { result ≡ has_base slabs.now base }
{
    let count = count_to(slabs, base);
    count > 0 && slabs[count - 1].base == base
}

/// Keeps the numbers of the slabs alone.
pub fn keep_numbered(numbers: &mut Vec<Numbered>, slabs: &[Standing])
    requires { AreStanding slabs.now }
    ensures kept { numbers.new.items ≡ filter (λ one. has_base slabs.now one.base) numbers.old.items }
    ensures capacity { vec_capacity numbers.new ≡ vec_capacity numbers.old }
    ensures fewer { vec_len numbers.new ≤ vec_len numbers.old }
{
    numbers.retain(|one| has_base(slabs, one.base));
}
