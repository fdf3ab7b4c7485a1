ghost use Rattle.std.specs.Prelude.{◌≡◌, ◌<◌, All, length, map};
ghost use Rattle.std.specs.List.{flat_map};
ghost use Rattle.slab_layer.specs.Slabs.{IsMissing, after_puts, without_complete};
ghost use Rattle.magazine.specs.CpuCache.{AreEmpty, AreFull, drain_order};
ghost use Rattle.shelf.specs.Shelf.{KeepsSizes, cpu_stock, emptied, reach_in, stock_of};
ghost use Rattle.shelf.specs.Steps.{chunk_in, from_behind, from_cpus, left_in, put_behind, put_in, taken_any, taken_in};

use depot::Depot;
use magazine::{CpuCache, Need, Room};
use slab_layer::{Round, Slabs};

/// A round for an allocation of a CPU.
pub fn take(cpu: &mut CpuCache, depot: &mut Depot, slabs: &mut Slabs) -> Option<Round>
    requires { depot.old.size ≡ cpu.old.size }
    ensures round { result ≡ chunk_in (taken_in (reach_in cpu.old depot.old slabs.old)) }
    ensures left { let all = reach_in cpu.old depot.old slabs.old in
        reach_in cpu.new depot.new slabs.new ≡ left_in all (taken_in all) }
    ensures sizes { KeepsSizes cpu.old cpu.new depot.old depot.new slabs.old slabs.new }
{
    match cpu.alloc() {
        Need::Got(round) => Some(round),
        Need::WantFull => take_behind(cpu, depot, slabs),
    }
}

/// The same, for a CPU that has none.
fn take_behind(cpu: &mut CpuCache, depot: &mut Depot, slabs: &mut Slabs) -> Option<Round>
    requires empty { AreEmpty cpu.old }
    requires size { depot.old.size ≡ cpu.old.size }
    ensures round { result ≡ chunk_in (from_behind (reach_in cpu.old depot.old slabs.old)) }
    ensures left { let all = reach_in cpu.old depot.old slabs.old in
        reach_in cpu.new depot.new slabs.new ≡ left_in all (from_behind all) }
    ensures sizes { KeepsSizes cpu.old cpu.new depot.old depot.new slabs.old slabs.new }
{
    // Says that a full magazine has rounds.
    let _ = depot.full();
    if depot.trade_for_full(cpu) {
        return cpu.take_any();
    }
    slabs.take()
}

/// The newest round of the first CPU that has one.
fn take_first(cpus: &mut [CpuCache]) -> Option<Round>
    ensures round { result ≡ chunk_in (from_cpus (map cpu_stock cpus.old)) }
    ensures left { let all = map cpu_stock cpus.old in map cpu_stock cpus.new ≡ left_in all (from_cpus all) }
    ensures sizes { map (λ cpu. cpu.size) cpus.new ≡ map (λ cpu. cpu.size) cpus.old }
{
    for cpu in cpus {
        if let Some(round) = cpu.take_any() {
            return Some(round);
        }
    }
    None
}

/// A round from wherever one stands: from the first CPU that has one, else from behind the CPU of that number.
pub fn take_any(
    cpus: &mut [CpuCache],
    cpu: usize,
    depot: &mut Depot,
    slabs: &mut Slabs,
) -> Option<Round>
    requires cpu { cpu < length cpus.old }
    requires sizes { All (λ cpu. cpu.size ≡ depot.old.size) cpus.old }
    ensures round { result ≡ chunk_in (taken_any (stock_of cpus.old depot.old slabs.old.slabs) cpu) }
    ensures left { let all = stock_of cpus.old depot.old slabs.old.slabs in
        stock_of cpus.new depot.new slabs.new.slabs ≡ left_in all (taken_any all cpu) }
    ensures sizes { All (λ cpu. cpu.size ≡ depot.new.size) cpus.new }
    ensures slabs { slabs.new ≡ record slabs.old { slabs = slabs.new.slabs } }
{
    if let Some(round) = take_first(cpus) {
        return Some(round);
    }
    take_behind(&mut cpus[cpu], depot, slabs)
}

/// Puts a round after a free of a CPU.
pub fn put(cpu: &mut CpuCache, depot: &mut Depot, slabs: &mut Slabs, round: Round)
    requires size { depot.old.size ≡ cpu.old.size }
    requires missing { IsMissing slabs.old.slabs round }
    ensures left { reach_in cpu.new depot.new slabs.new
        ≡ put_in depot.old.size (reach_in cpu.old depot.old slabs.old) round }
    ensures sizes { KeepsSizes cpu.old cpu.new depot.old depot.new slabs.old slabs.new }
{
    if let Room::WantEmpty(round) = cpu.free(round) {
        put_further(cpu, depot, slabs, round);
    }
}

/// The same, for a CPU that has no room.
fn put_further(cpu: &mut CpuCache, depot: &mut Depot, slabs: &mut Slabs, round: Round)
    requires full { AreFull cpu.old }
    requires size { depot.old.size ≡ cpu.old.size }
    requires missing { IsMissing slabs.old.slabs round }
    ensures left { reach_in cpu.new depot.new slabs.new
        ≡ put_behind (reach_in cpu.old depot.old slabs.old) round }
    ensures sizes { KeepsSizes cpu.old cpu.new depot.old depot.new slabs.old slabs.new }
{
    if depot.trade_for_empty(cpu) {
        let _kept = cpu.free(round);
        return;
    }
    let _taken = slabs.put(round);
}

/// Empties the magazines of all CPUs into the slabs.
pub fn drain_cpus(cpus: &mut [CpuCache], slabs: &mut Slabs)
    ensures emptied { cpus.new ≡ map emptied cpus.old }
    ensures put { slabs.new ≡ record slabs.old {
      slabs = after_puts slabs.old.slabs (flat_map drain_order cpus.old);
    } }
{
    for cpu in cpus {
        cpu.drain_into(slabs);
    }
}

/// Drops the slabs whose rounds are all in their lists.
pub fn drop_complete(slabs: &mut Slabs)
    ensures { slabs.new ≡ record slabs.old { slabs = without_complete slabs.old.slabs } }
{
    // Says that the slabs are sound.
    let _ = slabs.cache();
    while let Some(_empty) = slabs.drop_empty() {}
}
