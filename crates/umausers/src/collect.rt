ghost use Rattle.std.specs.Prelude.{◌≡◌, IfOk, filter, map};
ghost use Rattle.indexmap.specs.IndexMap.{IsUnique};
ghost use Rattle.umausers.specs.Tally.{is_same_usage};
ghost use Rattle.umausers.specs.Groups.{AreGroups, group_of, is_large_group, is_asked_for};
ghost use Rattle.umausers.specs.declared.sum.Sum.{Sum};
ghost use Rattle.umausers.specs.declared.usage.Usage.{Usage};

use crate::group::{Group, LARGE_COUNT, LARGE_TOTAL};
use crate::order::sort_groups;
use crate::sum::Sum;
use crate::tally::tally;
use crate::usage::Usage;
use heap_view::View;
use indexmap::IndexMap;
use std::alloc::Global;
use umem_base::NoMemory;

/// The group of a usage and of what its chunks come to.
fn group_of(usage: Usage, sum: Sum) -> Group
    ensures { result ≡ group_of (usage, sum) }
{
    Group {
        total: sum.total,
        count: sum.count,
        size: usage.size,
        stack: usage.stack,
    }
}

/// Whether a group is listed without leave.
fn is_large(group: &Group) -> bool
    ensures { result ≡ is_large_group group.now }
{
    group.total >= LARGE_TOTAL || group.count >= LARGE_COUNT
}

/// The groups of the usages: all of them, or the large ones.
fn collect_groups(
    alloc: Global,
    sums: IndexMap<Usage, Sum>,
    every: bool,
) -> Result<Vec<Group>, NoMemory>
    ensures value { IfOk result (λ groups. groups.items ≡ filter (is_asked_for every) (map group_of sums.entries)) }
    ensures unique { IsUnique is_same_usage sums }
{
    let groups = sums
        .into_iter()
        .map(|(usage, sum)| group_of(usage, sum))
        .filter(|group| every || is_large(group))
        .collect(alloc)?;
    Ok(groups)
}

/// The allocated chunks that have an audit, in groups of one size and one stack, as `::umausers` of mdb(1) tells
/// them: `every` group, or those of 8,192 bytes and those of 100 chunks or more. The group of more bytes stands
/// first, then that of smaller buffers, then that whose stack is first in the order of a dictionary.
pub fn groups(alloc: Global, view: &View, every: bool) -> Result<Vec<Group>, NoMemory>
    ensures { IfOk result (λ groups. AreGroups view.now every groups.items) }
{
    let sums = tally(alloc, view)?;
    let mut groups = collect_groups(alloc, sums, every)?;
    sort_groups(&mut groups)?;
    Ok(groups)
}
