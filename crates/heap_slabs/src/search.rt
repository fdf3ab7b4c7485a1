ghost use Rattle.std.specs.Prelude.{◌≡◌, ◌<◌, ◌≤◌, ◌+◌, ◌^◌, false, All, AllPairs, MatchOption};
ghost use Rattle.umem_base.specs.Ordered.{SplitsBy};
ghost use Rattle.heap_slabs.specs.Standing.{AreNumbered, AreStanding, BeginsAt, HasNumber, HasNumberAt, IsPlaceOf, IsPlaceOfNumber, IsStanding, has_start};

use crate::numbered::Numbered;
use crate::place::Place;
use crate::standing::Standing;

/// The index of the chunk of a slab that begins at the address, or `None` where none does.
pub fn index_in(slab: &Standing, address: u64) -> Option<u32>
    requires { IsStanding slab.now }
    ensures { MatchOption result (has_start address slab.now ≡ false) (λ index. BeginsAt address index slab.now) }
{
    if address < slab.start {
        return None;
    }
    let offset = address - slab.start;
    let chunk = u64::from(slab.chunk);
    let index = offset / chunk;
    if index >= u64::from(slab.rounds) || offset % chunk != 0 {
        return None;
    }
    Some(index as u32)
}

/// Where the chunk of a number begins, by its index in its slab.
pub fn address_in(slab: &Standing, index: u32) -> u64
    requires slab { IsStanding slab.now }
    requires index { index < slab.now.rounds }
    ensures { BeginsAt result index slab.now }
{
    slab.start + u64::from(index) * u64::from(slab.chunk)
}

/// How many of the slabs begin at the address or below.
pub fn count_to(slabs: &[Standing], address: u64) -> usize
    requires { AreStanding slabs.now }
    ensures { SplitsBy (λ slab. slab.base ≤ address) (λ slab. address < slab.base) slabs.now result }
{
    slabs.partition_point(|slab| slab.base <= address)
}

/// Where the chunk stands that begins at the address. It looks among the slabs by halves.
pub fn place_of(slabs: &[Standing], address: u64) -> Option<Place>
    requires { AreStanding slabs.now }
    ensures { MatchOption result (All (λ slab. has_start address slab ≡ false) slabs.now)
        (IsPlaceOf address slabs.now) }
{
    let count = count_to(slabs, address);
    if count == 0 {
        return None;
    }
    let slab = count - 1;
    match index_in(&slabs[slab], address) {
        Some(index) => Some(Place { slab, index }),
        None => None,
    }
}

/// How many of the slabs have a first chunk of the number or below.
fn count_numbered(numbers: &[Numbered], number: u32) -> usize
    requires { AllPairs (λ one other. one.first < other.first) numbers.now }
    ensures { SplitsBy (λ one. one.first ≤ number) (λ one. number < one.first) numbers.now result }
{
    numbers.partition_point(|one| one.first <= number)
}

/// Where the chunk stands that has the number. It looks among the numbers and among the slabs by halves.
pub fn place_of_number(slabs: &[Standing], numbers: &[Numbered], number: u32) -> Option<Place>
    requires slabs { AreStanding slabs.now }
    requires numbers { AreNumbered slabs.now numbers.now }
    ensures { MatchOption result (All (λ slab. ¬ HasNumber number slab) slabs.now)
        (IsPlaceOfNumber number slabs.now) }
{
    let count = count_numbered(numbers, number);
    if count == 0 {
        return None;
    }
    let below = count_to(slabs, numbers[count - 1].base);
    if below == 0 {
        return None;
    }
    let slab = below - 1;
    let first = slabs[slab].first;
    if number < first || number - first >= slabs[slab].rounds {
        return None;
    }
    Some(Place {
        slab,
        index: number - first,
    })
}
