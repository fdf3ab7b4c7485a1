ghost use Rattle.std.specs.Prelude.{◌≡◌, IsPermutation, IsSorted, OnOk};
ghost use Rattle.umausers.specs.Groups.{group_cmp};

use crate::group::Group;
use std::cmp::Ordering;
use umem_base::NoMemory;

/// Which of two groups is told first: the one of more bytes, then the one of smaller buffers, then the one whose
/// stack comes first in the order of a dictionary.
fn order(first: &Group, second: &Group) -> Ordering
    ensures { result ≡ group_cmp first.now second.now }
{
    let totals = second.total.cmp(&first.total);
    let sizes = first.size.cmp(&second.size);
    let stacks = first.stack.cmp(&second.stack);
    totals.then(sizes.then(stacks))
}

/// Brings groups into their order.
pub fn sort_groups(groups: &mut Vec<Group>) -> Result<(), NoMemory>
    ensures permutation { IsPermutation groups.old.items groups.new.items }
    ensures sorted { OnOk result (IsSorted group_cmp groups.new.items) }
{
    groups.sort_by(|first, second| order(first, second))?;
    Ok(())
}
