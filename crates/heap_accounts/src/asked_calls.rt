ghost use Rattle.std.specs.Prelude.{◌≡◌};
ghost use Rattle.case_table.specs.Sizes.{class_for};
ghost use Rattle.heap_accounts.specs.Asked.{asked_of, asked_of_size};

use crate::asked::Asked;
use case_table::class_of;
use script::Op;

/// What an operation asks for.
pub fn asked_of(op: &Op) -> Asked
    ensures { result ≡ asked_of op.now }
{
    match op {
        Op::Alloc { size, .. } | Op::Zalloc { size, .. } => asked_of_size(*size),
        Op::CacheAlloc { cache, .. } => Asked::Chunk { cache: *cache },
        Op::Free { .. } | Op::CacheFree { .. } => Asked::Free,
        Op::Copy { .. } | Op::Clear { .. } | Op::Store { .. } | Op::Link { .. } | Op::Load { .. } =>
            Asked::Plain,
        Op::Reap => Asked::Reap,
    }
}

/// What an allocation of a size asks for.
fn asked_of_size(size: u32) -> Asked
    ensures { result ≡ asked_of_size size (class_for size) }
{
    if size == 0 {
        return Asked::Plain;
    }
    match class_of(u64::from(size)) {
        Some(cache) => Asked::Chunk { cache },
        None => Asked::Large,
    }
}
