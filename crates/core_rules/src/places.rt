ghost use Rattle.std.specs.Prelude.{◌≡◌, ◌≤◌, [], IfOk};
ghost use Rattle.case_table.specs.declared.limits.TheConstants.{MOST_CACHES, MOST_CPUS};
ghost use Rattle.core_rules.specs.Pieces.{empty_depots_of, empty_places_of};

use core_format::{CpuPlace, DepotItem};
use std::alloc::Global;
use umem_base::{NoMemory, Sequence};

fn no_rounds(alloc: Global) -> Sequence<u32>
    ensures { result ≡ [] }
{
    let rounds = Vec::new(alloc);
    Sequence::new(rounds)
}

/// Two empty magazines for each CPU and cache, the caches of a CPU together.
pub fn empty_places(alloc: Global, cpus: u32, caches: u32) -> Result<Vec<CpuPlace>, NoMemory>
    requires cpus { cpus ≤ MOST_CPUS }
    requires caches { caches ≤ MOST_CACHES }
    ensures { IfOk result (λ places. places.items ≡ empty_places_of cpus caches) }
{
    let mut places = Vec::new(alloc);
    for index in 0..cpus * caches {
        let place = CpuPlace {
            cpu: index / caches,
            cache: index % caches,
            loaded: no_rounds(alloc),
            previous: no_rounds(alloc),
        };
        places.push(place)?;
    }
    Ok(places)
}

/// A depot with no full magazine for each cache.
pub fn empty_depots(alloc: Global, caches: u32) -> Result<Vec<DepotItem>, NoMemory>
    ensures { IfOk result (λ depots. depots.items ≡ empty_depots_of caches) }
{
    let mut depots = Vec::new(alloc);
    for _ in 0..caches {
        let depot = DepotItem {
            full: Sequence::new(Vec::new(alloc)),
        };
        depots.push(depot)?;
    }
    Ok(depots)
}
