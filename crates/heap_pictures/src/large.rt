ghost use Rattle.std.specs.Prelude.{◌≡◌, Contains, IfOk};
ghost use Rattle.plain_heap.specs.State.{spans_of};
ghost use Rattle.heap_ledger.specs.Ledger.{run_setting, run_state};
ghost use Rattle.heap_pictures.specs.Drawn.{large_drawn};
ghost use Rattle.heap_pictures.specs.Pictures.{AreLargeItems};

use core_format::LargeItem;
use heap_accounts::Accounts;
use std::alloc::Global;
use umem_base::{NoMemory, Sequence, Span};

/// The large buffer that has a run of pages, if one has it and no slab, with its bytes.
fn large_item(alloc: Global, accounts: &Accounts, span: Span) -> Result<Option<LargeItem>, NoMemory>
    requires { Contains (spans_of (run_setting accounts.now) (run_state accounts.now)) span }
    ensures { IfOk result (λ item. item ≡ large_drawn (run_state accounts.now) span) }
{
    let Some(held) = accounts.held(span.base) else {
        return Ok(None);
    };
    if held.cache.is_some() {
        return Ok(None);
    }
    let bytes = Vec::from_slice(alloc, accounts.span_bytes(span))?;
    Ok(Some(LargeItem {
        base: span.base,
        size: u64::from(held.size),
        bytes: Sequence::new(bytes),
    }))
}

/// The large buffers that live, by rising base.
pub fn large_items(alloc: Global, accounts: &Accounts) -> Result<Vec<LargeItem>, NoMemory>
    ensures { IfOk result (λ items. AreLargeItems (run_state accounts.now) items.items) }
{
    // Says that the entries are legal.
    let _ = accounts.history();
    let mut items = Vec::new(alloc);
    for span in accounts.spans() {
        if let Some(item) = large_item(alloc, accounts, *span)? {
            items.push(item)?;
        }
    }
    Ok(items)
}
