ghost use Rattle.std.specs.Prelude.{◌≡◌, ℕ, ◌+◌, ◌*◌, ◌<◌, ◌≤◌, ◌^◌, length, All, MatchOption, slice_index_or};
ghost use Rattle.std.specs.List.{HoldsAt};
ghost use Rattle.umem_base.specs.Ordered.{SplitsBy};
ghost use Rattle.addr_space.specs.MappedRun.{Holds, HoldsRange, Meets, bytes_end};
ghost use Rattle.addr_space.specs.Space.{IsSpace};

use crate::mapped_run::MappedRun;

/// A range of bytes: the run that holds it, and the offset of its first byte there.
#[derive(Clone, Copy)]
pub struct Place {
    pub index: usize,
    pub from: usize,
}

/// How many of the runs begin at the address or below.
fn count_from_below(runs: &[MappedRun], address: u64) -> usize
    requires { IsSpace runs.now }
    ensures { SplitsBy (λ run. run.base ≤ address) (λ run. address < run.base) runs.now result }
{
    runs.partition_point(|run| run.base() <= address)
}

/// The run that the address lies in.
pub fn index_of(runs: &[MappedRun], address: u64) -> Option<usize>
    requires { IsSpace runs.now }
    ensures { MatchOption result (All (λ run. ¬ Holds address run) runs.now)
        (λ i. (i < length runs.now) × HoldsAt (Holds address) runs.now i) }
{
    let count = count_from_below(runs, address);
    if count == 0 {
        return None;
    }
    let index = count - 1;
    let run = &runs[index];
    let within = address - run.base() < run.bytes().len() as u64;
    within.then_some(index)
}

/// The place of a range that is not empty and lies inside of one run.
pub fn place_of(runs: &[MappedRun], address: u64, count: usize) -> Option<Place>
    requires { IsSpace runs.now }
    ensures { MatchOption result
        (0 < count → All (λ run. (run.base ≤ address) → (address + count ≤ bytes_end run) → ⊥) runs.now)
        (λ p. (0 < count) × (p.index < length runs.now) × HoldsAt (HoldsRange address p.from count) runs.now p.index) }
{
    if count == 0 {
        return None;
    }
    let index = index_of(runs, address)?;
    let run = &runs[index];
    let from = (address - run.base()) as usize;
    if count > run.bytes().len() - from {
        return None;
    }
    Some(Place { index, from })
}

/// How many runs stand below a range that meets none of them.
pub fn gap_of(runs: &[MappedRun], from: u64, to: u64) -> Option<usize>
    requires space { IsSpace runs.now }
    requires some { from < to }
    ensures { MatchOption result
        ((k : ℕ) × (k < length runs.now) × HoldsAt (Meets from to) runs.now k)
        (SplitsBy (λ run. bytes_end run ≤ from) (λ run. to ≤ run.base) runs.now) }
{
    let index = count_from_below(runs, from);
    if index > 0 {
        let below = &runs[index - 1];
        if from - below.base() < below.bytes().len() as u64 {
            return None;
        }
    }
    if index < runs.len() && runs[index].base() < to {
        return None;
    }
    Some(index)
}
