ghost use Rattle.std.specs.Prelude.{◌≡◌, ◌&&◌, ◌<◌, ◌^◌, ◌∷◌, ◌++◌, ◌*◌, [], length, not, IfOk};
ghost use Rattle.std.specs.List.{flat_map};
ghost use Rattle.core_format.specs.Items.{has_number, items_at};
ghost use Rattle.core_format.specs.Magazines.{all_rounds, count_at, cpu_place_at, depot_item_at, depot_rounds_of, full_at, is_listed, magazine_at, one_depot_at, one_place_at, one_round_at, place_rounds, rounds_at};
ghost use Rattle.core_format.specs.Sections.{ReadsItem, depot_in, depots_in, full_in, magazine_in, place_in, places_in, round_in, rounds_in};
ghost use Rattle.core_format.specs.Reader.{ReadsAs};

use crate::core_fault::CoreFault;
use crate::fault::Fault;
use crate::items::{CpuPlace, DepotItem};
use crate::limits::MOST_FULL;
use crate::reader::{Reader, rule};
use crate::seen::Seen;
use crate::slab_table::SlabTable;
use case_table::{Layout, take_fields};
use std::alloc::Global;
use umem_base::Sequence;

fn number_layout() -> Layout<1>
    ensures { result ≡ 4 ∷ [] }
{
    Layout::new([4]).unwrap()
}

fn is_new_round(table: &SlabTable, seen: &Seen, chunk: u32) -> bool
    ensures { result ≡ (not (is_listed table.now.slabs chunk) && not (has_number seen.now chunk)) }
{
    !table.is_listed(chunk) && !seen.has(chunk)
}

/// The next chunk of a magazine.
#[tactic(auto, unfolding(crate::specs::Magazines::one_round_at))]
fn round(reader: &mut Reader, table: &SlabTable, cache: u32, seen: &Seen) -> Result<u32, CoreFault>
    ensures { ReadsItem result reader.new (round_in table.now cache seen.now reader.old) }
{
    let start = reader.at();
    take_fields!(reader, &number_layout(), start => chunk);
    let chunk = chunk as u32;
    rule(table.is_chunk_of(cache, chunk), start, Fault::BadRound)?;
    rule(is_new_round(table, seen, chunk), start, Fault::RoundTwice)?;
    Ok(chunk)
}

/// So many chunks of a magazine, and those that were seen then.
fn rounds(
    alloc: Global,
    reader: &mut Reader,
    table: &SlabTable,
    cache: u32,
    seen: Seen,
    count: u32,
) -> Result<(Vec<u32>, Seen), CoreFault>
    ensures read { ReadsAs (λ r. (r.0.items, reader.new)) result (rounds_in table.now cache seen count reader.old) }
    ensures seen { IfOk result (λ r. r.1 ≡ seen ++ r.0.items) }
{
    let mut seen = seen;
    let mut rounds = Vec::new(alloc);
    for _ in 0..count {
        let chunk = round(reader, table, cache, &seen)?;
        let more = seen.with(chunk)?;
        seen = more;
        rounds.push(chunk)?;
    }
    Ok((rounds, seen))
}

/// A number of items up to a bound.
#[tactic(auto, unfolding(crate::specs::Magazines::count_at))]
fn count(reader: &mut Reader, most: u32) -> Result<u32, CoreFault>
    ensures { ReadsItem result reader.new (count_at most reader.old) }
{
    let start = reader.at();
    take_fields!(reader, &number_layout(), start => count);
    rule(count <= u64::from(most), start, Fault::BadLength)?;
    Ok(count as u32)
}

#[tactic(auto, unfolding(crate::specs::Magazines::magazine_at))]
fn magazine(
    alloc: Global,
    reader: &mut Reader,
    table: &SlabTable,
    cache: u32,
    seen: Seen,
) -> Result<(Vec<u32>, Seen), CoreFault>
    ensures read { ReadsAs (λ r. (r.0.items, reader.new)) result (magazine_in table.now cache seen reader.old) }
    ensures seen { IfOk result (λ r. r.1 ≡ seen ++ r.0.items) }
{
    let most = table.shape_at(cache).magazine;
    let count = count(reader, most)?;
    rounds(alloc, reader, table, cache, seen, count)
}

/// The magazines of a CPU for a cache.
#[tactic(auto, unfolding(crate::specs::Magazines::one_place_at))]
fn cpu_place(
    alloc: Global,
    reader: &mut Reader,
    table: &SlabTable,
    cpu: u32,
    cache: u32,
    seen: Seen,
) -> Result<(CpuPlace, Seen), CoreFault>
    ensures read { ReadsAs (λ r. (r.0, reader.new)) result (place_in table.now cpu cache seen reader.old) }
    ensures seen { IfOk result (λ r. r.1 ≡ (seen ++ r.0.loaded) ++ r.0.previous) }
{
    let (loaded, seen) = magazine(alloc, reader, table, cache, seen)?;
    let (previous, seen) = magazine(alloc, reader, table, cache, seen)?;
    let place = CpuPlace {
        cpu,
        cache,
        loaded: Sequence::new(loaded),
        previous: Sequence::new(previous),
    };
    Ok((place, seen))
}

/// The magazines of all CPUs, and the chunks in them.
pub fn cpu_places(
    alloc: Global,
    reader: &mut Reader,
    table: &SlabTable,
    count: u32,
    caches: u32,
) -> Result<(Vec<CpuPlace>, Seen), CoreFault>
    requires { 0 < caches }
    ensures read { ReadsAs (λ r. (r.0.items, reader.new)) result (places_in table.now caches count reader.old) }
    ensures seen { IfOk result (λ r. r.1 ≡ flat_map place_rounds r.0.items) }
{
    let mut seen = Seen::new(alloc);
    let mut places = Vec::new(alloc);
    for index in 0..count {
        let (place, after) = cpu_place(alloc, reader, table, index / caches, index % caches, seen)?;
        seen = after;
        places.push(place)?;
    }
    Ok((places, seen))
}

/// The full magazines of a depot, and the chunks that were seen then.
fn full_magazines(
    alloc: Global,
    reader: &mut Reader,
    table: &SlabTable,
    cache: u32,
    seen: Seen,
    count: u32,
) -> Result<(Vec<Sequence<u32>>, Seen), CoreFault>
    ensures read { ReadsAs (λ r. (r.0.items, reader.new)) result (full_in table.now cache seen count reader.old) }
    ensures seen { IfOk result (λ r. r.1 ≡ seen ++ all_rounds r.0.items) }
{
    let shape = table.shape_at(cache);
    let mut seen = seen;
    let mut full = Vec::new(alloc);
    for _ in 0..count {
        let (magazine, after) = rounds(alloc, reader, table, cache, seen, shape.magazine)?;
        seen = after;
        let sequence = Sequence::new(magazine);
        full.push(sequence)?;
    }
    Ok((full, seen))
}

/// The depot of a cache.
#[tactic(auto, unfolding(crate::specs::Magazines::one_depot_at))]
fn depot(
    alloc: Global,
    reader: &mut Reader,
    table: &SlabTable,
    cache: u32,
    seen: Seen,
) -> Result<(DepotItem, Seen), CoreFault>
    ensures read { ReadsAs (λ r. (r.0, reader.new)) result (depot_in table.now cache seen reader.old) }
    ensures seen { IfOk result (λ r. r.1 ≡ seen ++ depot_rounds_of r.0) }
{
    let count = count(reader, MOST_FULL)?;
    let (full, seen) = full_magazines(alloc, reader, table, cache, seen, count)?;
    let depot = DepotItem {
        full: Sequence::new(full),
    };
    Ok((depot, seen))
}

/// The depots of all caches, where the magazines of the CPUs hold the chunks that were seen.
pub fn depots(
    alloc: Global,
    reader: &mut Reader,
    table: &SlabTable,
    seen: Seen,
    caches: u32,
) -> Result<Vec<DepotItem>, CoreFault>
    ensures { ReadsAs (λ depots. (depots.items, reader.new)) result (depots_in table.now seen caches reader.old) }
{
    let mut seen = seen;
    let mut depots = Vec::new(alloc);
    for cache in 0..caches {
        let (depot, after) = depot(alloc, reader, table, cache, seen)?;
        seen = after;
        depots.push(depot)?;
    }
    Ok(depots)
}
