ghost use Rattle.std.specs.Prelude.{◌≡◌, IfOk, OnOk};
ghost use Rattle.std.specs.Option.{ForSome};
ghost use Rattle.heap_view.specs.Layout.{IsLaidOut};
ghost use Rattle.indexmap.specs.IndexMap.{get};
ghost use Rattle.umausers.specs.Tally.{HasRoom, HasSums, found_with, is_same_usage, one_more, sums_with};
ghost use Rattle.umausers.specs.Usages.{usage_of, usages_of};
ghost use Rattle.umausers.specs.declared.usage.Usage.{Usage};

use crate::audits::audit_of_chunk;
use crate::sum::Sum;
use crate::usage::Usage;
use core_format::Core;
use heap_view::{Buffer, View};
use indexmap::IndexMap;
use std::alloc::Global;
use umem_base::{NoMemory, Sequence};

/// The sum with one chunk more.
fn with_chunk(sum: Option<Sum>, size: u64) -> Sum
    requires { HasRoom sum size }
    ensures { result ≡ one_more sum size }
{
    match sum {
        None => Sum {
            total: size,
            count: 1,
        },
        Some(sum) => Sum {
            total: sum.total + size,
            count: sum.count + 1,
        },
    }
}

/// Counts a chunk of a usage.
fn count_usage(sums: &mut IndexMap<Usage, Sum>, usage: Usage) -> Result<(), NoMemory>
    requires { HasRoom (get is_same_usage sums.old usage) usage.size }
    ensures { OnOk result ((other : Usage) → get is_same_usage sums.new other
        ≡ sums_with (get is_same_usage sums.old) usage other) }
{
    let sum = with_chunk(sums.get(&usage).copied(), usage.size);
    sums.insert(usage, sum)?;
    Ok(())
}

/// What an allocated buffer is a usage of: none where it is large, or has no audit.
fn usage_of(alloc: Global, core: &Core, buffer: &Buffer) -> Result<Option<Usage>, NoMemory>
    requires { IsLaidOut core.now }
    ensures { IfOk result (λ usage. usage ≡ usage_of core.now buffer.now) }
{
    let Some(chunk) = buffer.chunk else {
        return Ok(None);
    };
    let Some(audit) = audit_of_chunk(core, chunk) else {
        return Ok(None);
    };
    let frames = Vec::from_slice(alloc, audit.stack.as_slice())?;
    Ok(Some(Usage {
        size: buffer.size,
        stack: Sequence::new(frames),
    }))
}

/// Counts a chunk, if there is one.
fn count_found(sums: &mut IndexMap<Usage, Sum>, usage: Option<Usage>) -> Result<(), NoMemory>
    requires { ForSome usage (λ usage. HasRoom (get is_same_usage sums.old usage) usage.size) }
    ensures { OnOk result ((other : Usage) → get is_same_usage sums.new other
        ≡ found_with (get is_same_usage sums.old) usage other) }
{
    match usage {
        Some(usage) => count_usage(sums, usage),
        None => Ok(()),
    }
}

/// What the allocated chunks with an audit come to, by their usages.
pub fn tally(alloc: Global, view: &View) -> Result<IndexMap<Usage, Sum>, NoMemory>
    ensures { IfOk result (λ sums. HasSums (usages_of view.now) (get is_same_usage sums)) }
{
    let core = view.core();
    let buffers = view.buffers();
    let mut sums = IndexMap::new(alloc);
    for buffer in buffers {
        let usage = usage_of(alloc, core, buffer)?;
        count_found(&mut sums, usage)?;
    }
    Ok(sums)
}
