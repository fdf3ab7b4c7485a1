ghost use Rattle.std.specs.Prelude.{◌≡◌, ℕ, ◌+◌, ◌*◌, ◌^◌, ◌<◌, ◌≤◌, None, IfOk, length};
ghost use Rattle.umem_base.specs.declared.pages.TheConstants.{PAGE_BYTES};
ghost use Rattle.case_table.specs.declared.limits.TheConstants.{CLASS_COUNT};
ghost use Rattle.case_table.specs.Geometry.{IsAlign};
ghost use Rattle.script.specs.declared.tree.Header.{Header};
ghost use Rattle.heap_memory.specs.Chunks.{IsKind};
ghost use Rattle.heap_slabs.specs.Standing.{IsStanding, chunks_end};
ghost use Rattle.heap_slabs.specs.HeapSlabs.{AreFirst, quantities_of, slab_made};

use crate::cache_slabs::CacheSlabs;
use crate::standing::Standing;
use case_table::{CLASS_ALIGN, CLASS_COUNT, class_size, colour, geometry};
use heap_memory::ChunkKind;
use script::Header;
use std::alloc::Global;
use umem_base::NoMemory;

/// The slabs of the size classes, of which none was made yet.
fn class_caches(alloc: Global, guards: bool) -> Result<Vec<CacheSlabs>, NoMemory>
    ensures count { IfOk result (λ caches. length caches.items ≡ CLASS_COUNT) }
    ensures those { IfOk result (λ caches. (header : Header) →
        AreFirst (record { header = header; guards = guards }) caches.items) }
{
    let mut caches = Vec::new(alloc);
    for class in 0..CLASS_COUNT {
        let kind = ChunkKind {
            cache: class,
            size: class_size(class),
            ctor: None,
            guards,
        };
        caches.push(CacheSlabs {
            kind,
            align: CLASS_ALIGN,
            made: 0,
        })?;
    }
    Ok(caches)
}

/// The slabs of all caches, of which none was made yet.
pub fn all_caches(alloc: Global, header: &Header, guards: bool) -> Result<Vec<CacheSlabs>, NoMemory>
    requires { CLASS_COUNT + length header.now.caches < 2 ^ 32 }
    ensures count { IfOk result (λ caches. length caches.items ≡ CLASS_COUNT + length header.now.caches) }
    ensures those { IfOk result (λ caches.
        AreFirst (record { header = header.now; guards = guards }) caches.items) }
{
    let mut caches = class_caches(alloc, guards)?;
    for def in header.caches.as_slice() {
        let kind = ChunkKind {
            cache: caches.len() as u32,
            size: def.size,
            ctor: def.ctor,
            guards,
        };
        caches.push(CacheSlabs {
            kind,
            align: def.align,
            made: 0,
        })?;
    }
    Ok(caches)
}

/// The slab that a cache makes next, at a base.
pub fn slab_made(its: &CacheSlabs, cache: u32, first: u32, base: u64) -> Standing
    requires kind { IsKind its.now.kind }
    requires align { IsAlign its.now.align }
    requires below { base + PAGE_BYTES * (quantities_of its.now).pages < 2 ^ 64 }
    requires numbers { first + (quantities_of its.now).rounds < 2 ^ 32 }
    ensures value { result ≡ slab_made its.now cache first base }
    ensures sound { IsStanding result }
    ensures within { chunks_end result ≤ base + PAGE_BYTES * (quantities_of its.now).pages }
{
    let quantities = geometry(its.kind.size, its.align, its.kind.guards);
    let colour = colour(its.align, quantities.leftover, its.made);
    Standing {
        cache,
        base,
        first,
        start: base + u64::from(colour),
        chunk: quantities.chunk,
        rounds: quantities.rounds,
        live: 0,
    }
}
