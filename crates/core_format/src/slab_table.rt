ghost use Rattle.std.specs.Prelude.{◌≡◌, ℕ, ◌<◌, ◌≤◌, [], ◌∷◌, ◌++◌, ◌&&◌, ◌==◌, length, slice_index, IfOk, IfSome, is_some, unwrap_or};
ghost use Rattle.std.specs.List.{list_any};
ghost use Rattle.std.specs.Option.{option_map};
ghost use Rattle.core_format.specs.Items.{has_number, last_of_list};
ghost use Rattle.core_format.specs.Magazines.{is_chunk_of, is_listed};
ghost use Rattle.core_format.specs.SlabTable.{FitsTable, OwnsChunk};
ghost use Rattle.core_format.specs.Slabs.{holds_chunk, meets_chunks, meets_slab, past_chunks, shape_at, slab_end};

use crate::cache_shape::CacheShape;
use crate::items::SlabItem;
use crate::range::Range;
use crate::ranges::Ranges;
use std::alloc::Global;
use std::marker::Model;
use umem_base::{NoMemory, PAGE_BYTES};

/// What no cache is like.
const NO_SHAPE: CacheShape = CacheShape {
    align: 0,
    chunk: 0,
    pages: 0,
    rounds: 0,
    leftover: 0,
    magazine: 0,
};

/// The slabs that were read so far, and where the number of a chunk is looked up among theirs. Contracts
/// see what the slabs of each cache are like, and the slabs.
#[derive(Drop)]
pub struct SlabTable {
    shapes: Vec<CacheShape>,
    slabs: Vec<SlabItem>,
    chunks: Ranges,
    pages: Ranges,
}

impl Model for SlabTable {
    ghost use Rattle.core_format.specs.SlabTable.{SlabTable as Seen, IsIndexed};

    ghost Value = { Seen };

    ghost view = { λ t. record { shapes = t.shapes.items; slabs = t.slabs.items } };

    ghost invariant = { λ t. IsIndexed t.shapes.items t.slabs.items t.chunks t.pages };
}

fn has_number(numbers: &[u32], number: u32) -> bool
    requires { (i j : ℕ) → i < j → j < length numbers.now → slice_index numbers.now i < slice_index numbers.now j }
    ensures { result ≡ has_number numbers.now number }
{
    numbers.binary_search(&number).is_ok()
}

/// What the slabs of a cache are like, by its number.
pub fn shape_in(shapes: &[CacheShape], cache: u32) -> CacheShape
    ensures { result ≡ shape_at shapes.now cache }
{
    match shapes.get(cache as usize) {
        Some(shape) => *shape,
        None => NO_SHAPE,
    }
}

impl SlabTable {
    pub fn new(alloc: Global, shapes: Vec<CacheShape>) -> SlabTable
        ensures { result ≡ record { shapes = shapes.items; slabs = [] } }
    {
        SlabTable {
            shapes,
            slabs: Vec::new(alloc),
            chunks: Ranges::new(alloc),
            pages: Ranges::new(alloc),
        }
    }

    pub fn shapes(&self) -> &[CacheShape]
        ensures { result.now ≡ self.now.shapes }
    {
        &self.shapes
    }

    pub fn slabs(&self) -> &[SlabItem]
        ensures { result.now ≡ self.now.slabs }
    {
        &self.slabs
    }

    /// What the slabs of a cache are like, by its number.
    pub fn shape_at(&self, cache: u32) -> CacheShape
        ensures { result ≡ shape_at self.now.shapes cache }
    {
        shape_in(&self.shapes, cache)
    }

    /// Tells whether a slab has one of the chunks from `first` to `past`.
    pub fn meets_chunks(&self, first: u64, past: u64) -> bool
        requires { first ≤ past }
        ensures { result ≡ list_any (meets_chunks self.now.shapes first past) self.now.slabs }
    {
        match self.chunks.place_of(first, past) {
            Some(_) => false,
            None => true,
        }
    }

    /// The address past the last slab.
    pub fn end(&self) -> u64
        ensures { result ≡ unwrap_or (option_map (slab_end self.now.shapes) (last_of_list self.now.slabs)) 0 }
    {
        self.pages.end()
    }

    /// Tells whether a slab has one of the pages from `base` to `past`.
    pub fn meets_pages(&self, base: u64, past: u64) -> bool
        requires { base ≤ past }
        ensures { result ≡ list_any (meets_slab self.now.shapes base past) self.now.slabs }
    {
        match self.pages.place_of(base, past) {
            Some(_) => false,
            None => true,
        }
    }

    /// The table with one slab more.
    pub fn with_slab(self, slab: SlabItem) -> Result<SlabTable, NoMemory>
        requires { FitsTable self slab }
        ensures { IfOk result (λ table. table ≡ record self { slabs = self.slabs ++ slab ∷ [] }) }
    {
        let SlabTable {
            shapes,
            mut slabs,
            mut chunks,
            mut pages,
        } = self;
        let shape = shape_in(&shapes, slab.cache);
        let first = u64::from(slab.first);
        let past = first + u64::from(shape.rounds);
        let end = slab.base + PAGE_BYTES * u64::from(shape.pages);
        let place = chunks.place_of(first, past).unwrap();
        let chunk_range = Range {
            low: first,
            past,
            owner: slabs.len(),
        };
        let page_range = Range {
            low: slab.base,
            past: end,
            owner: 0,
        };
        chunks.put(place, chunk_range)?;
        pages.push(page_range)?;
        slabs.push(slab)?;
        Ok(SlabTable {
            shapes,
            slabs,
            chunks,
            pages,
        })
    }

    /// The index of the slab that has the chunk.
    fn owner_of(&self, chunk: u32) -> Option<usize>
        ensures found { is_some result ≡ list_any (holds_chunk self.now.shapes chunk) self.now.slabs }
        ensures owner { IfSome result (OwnsChunk self.now chunk) }
    {
        self.chunks.owner_of(u64::from(chunk))
    }

    /// Tells whether a slab has the chunk.
    pub fn holds_chunk(&self, chunk: u32) -> bool
        ensures { result ≡ list_any (holds_chunk self.now.shapes chunk) self.now.slabs }
    {
        self.owner_of(chunk).is_some()
    }

    /// Tells whether a slab of the cache has the chunk.
    pub fn is_chunk_of(&self, cache: u32, chunk: u32) -> bool
        ensures { result ≡ is_chunk_of self.now.shapes self.now.slabs cache chunk }
    {
        match self.owner_of(chunk) {
            Some(index) => self.slabs[index].cache == cache,
            None => false,
        }
    }

    /// Tells whether the chunk stands in the list of a slab.
    pub fn is_listed(&self, chunk: u32) -> bool
        ensures { result ≡ is_listed self.now.slabs chunk }
    {
        match self.owner_of(chunk) {
            Some(index) => has_number(self.slabs[index].free.as_slice(), chunk),
            None => false,
        }
    }

    pub fn into_parts(self) -> (Vec<CacheShape>, Vec<SlabItem>)
        ensures shapes { result.0.items ≡ self.shapes }
        ensures slabs { result.1.items ≡ self.slabs }
    {
        (self.shapes, self.slabs)
    }
}
