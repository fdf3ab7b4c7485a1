ghost use Rattle.std.specs.Prelude.{◌≡◌, IfOk};
ghost use Rattle.heap_ledger.specs.Ledger.{run_setting, run_state};
ghost use Rattle.heap_pictures.specs.Drawn.{AreListsOf, IsOneStanding, list_at, slab_drawn};
ghost use Rattle.heap_pictures.specs.Pictures.{AreSlabItems};

use crate::free_list::FreeList;
use core_format::SlabItem;
use heap_accounts::Accounts;
use heap_slabs::Standing;
use std::alloc::Global;
use umem_base::{NoMemory, Sequence, Span};

/// A slab that stands, with its list and the bytes of its pages.
fn slab_item(
    alloc: Global,
    accounts: &Accounts,
    slab: &Standing,
    list: &FreeList,
) -> Result<SlabItem, NoMemory>
    requires { IsOneStanding (run_setting accounts.now) (run_state accounts.now) slab.now }
    ensures { IfOk result (λ item.
        item ≡ slab_drawn (run_setting accounts.now) (run_state accounts.now) slab.now list.now) }
{
    // Says that its cache is one.
    let _ = accounts.history();
    let pages = accounts.quantities(slab.cache).pages;
    let span = Span {
        base: slab.base,
        pages: u64::from(pages),
    };
    let bytes = Vec::from_slice(alloc, accounts.span_bytes(span))?;
    let free = Vec::from_slice(alloc, list.chunks.as_slice())?;
    Ok(SlabItem {
        base: slab.base,
        cache: slab.cache,
        colour: (slab.start - slab.base) as u32,
        first: slab.first,
        free: Sequence::new(free),
        bytes: Sequence::new(bytes),
    })
}

/// The slabs that stand, by rising base, each with its list.
pub fn slab_items(
    alloc: Global,
    accounts: &Accounts,
    lists: &[FreeList],
) -> Result<Vec<SlabItem>, NoMemory>
    requires { AreListsOf (run_state accounts.now) lists.now }
    ensures { IfOk result (λ items. AreSlabItems (run_setting accounts.now) (run_state accounts.now)
        (λ slab. list_at lists.now slab.base) items.items) }
{
    let standing = accounts.standing();
    let mut items = Vec::new(alloc);
    for index in 0..standing.len() {
        items.push(slab_item(alloc, accounts, &standing[index], &lists[index])?)?;
    }
    Ok(items)
}
