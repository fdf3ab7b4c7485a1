ghost use Rattle.std.specs.Prelude.{◌≡◌, ℕ, ◌+◌, ◌*◌, ◌^◌, ◌<◌, ◌≤◌, Bool, length, replicate};
ghost use Rattle.case_table.specs.Geometry.{content_of};
ghost use Rattle.addr_space.specs.Space.{HasBytes, IsInRun, IsSound, Writes, runs_of};
ghost use Rattle.buftag.specs.Shape.{IsRequest, IsShape};
ghost use Rattle.buftag.specs.Written.{allocated_chunk, free_chunk};
ghost use Rattle.plain_heap.specs.Setting.{Setting};
ghost use Rattle.plain_heap.specs.State.{constructed, freed_chunk, handed_chunk, made_chunk};
ghost use Rattle.heap_memory.specs.Chunks.{IsKind, IsRequested, WritesAt, byte_of_chunks, bytes_of_kind, kind_in, shape_of_kind};

use crate::chunk::Chunk;
use crate::chunk_kind::ChunkKind;
use crate::new_slab::NewSlab;
use addr_space::Space;
use buftag::{Shape, write_alloc, write_free};
use case_table::{CLASS_COUNT, Geometry, TAG_BYTES, bufctl_address};

/// What the tag of a chunk depends on, by the chunk's number.
pub fn shape_of_kind(kind: &ChunkKind, number: u32) -> Shape
    requires { IsKind kind.now }
    ensures value { result ≡ shape_of_kind kind.now number }
    ensures sound { IsShape result }
    ensures content { result.content ≡ content_of kind.now.size }
    ensures requests { (requested : ℕ) → IsRequested kind.now requested → IsRequest result requested }
{
    let bufctl = bufctl_address(number);
    if kind.cache < CLASS_COUNT {
        Shape::of_class(kind.cache, bufctl)
    } else {
        Shape::of_cache(kind.size, bufctl)
    }
}

/// The bytes of a chunk of a kind, with its tag where there are guards.
pub fn bytes_of_kind(kind: &ChunkKind) -> usize
    requires { IsKind kind.now }
    ensures value { result ≡ bytes_of_kind kind.now }
    ensures some { 0 < result }
{
    let tag = if kind.guards { TAG_BYTES } else { 0 };
    (kind.size.next_multiple_of(8) + tag) as usize
}

/// Writes what the chunks of a slab get when it is made, from the first one on, where its pages hold zeros.
pub fn write_chunks(space: &mut Space, slab: &NewSlab, start: u64, layout: &Geometry)
    requires sound { IsSound space.old }
    requires kind { IsKind slab.now.kind }
    requires fits { bytes_of_kind slab.now.kind ≤ layout.now.chunk }
    requires few { layout.now.rounds * layout.now.chunk < 2 ^ 32 }
    requires numbers { slab.now.first + layout.now.rounds ≤ 2 ^ 32 }
    requires below { start + layout.now.rounds * layout.now.chunk ≤ 2 ^ 32 }
    requires inside { IsInRun (runs_of space.old) start (layout.now.rounds * layout.now.chunk) }
    requires zeros { HasBytes space.old start (layout.now.rounds * layout.now.chunk) (λ _. 0) }
    ensures written { (setting : Setting) → slab.now.kind ≡ kind_in setting slab.now.kind.cache →
        Writes space.old space.new start (layout.now.rounds * layout.now.chunk)
        (byte_of_chunks layout.now.chunk (λ index.
        made_chunk setting slab.now.kind.cache (slab.now.first + index))) }
    ensures runs { runs_of space.new ≡ runs_of space.old }
    ensures sound { IsSound space.new }
{
    for index in 0..layout.rounds {
        let chunk = Chunk {
            address: start + u64::from(index * layout.chunk),
            number: slab.first + index,
        };
        write_made(space, chunk, &slab.kind);
    }
}

/// Writes what the chunk gets when its slab is made, where its pages hold zeros.
pub fn write_made(space: &mut Space, chunk: Chunk, kind: &ChunkKind)
    requires sound { IsSound space.old }
    requires kind { IsKind kind.now }
    requires inside { IsInRun (runs_of space.old) chunk.address (bytes_of_kind kind.now) }
    ensures written { (setting : Setting) → kind.now ≡ kind_in setting kind.now.cache →
        WritesAt space.old space.new chunk.address (made_chunk setting kind.now.cache chunk.number) }
    ensures runs { runs_of space.new ≡ runs_of space.old }
    ensures sound { IsSound space.new }
{
    if kind.guards {
        put_free(space, chunk.address, &shape_of_kind(kind, chunk.number));
    } else if let Some(byte) = kind.ctor {
        put_same(space, chunk.address, kind.size, byte);
    }
}

/// Writes what the chunk gets when it is handed out.
pub fn write_handed(space: &mut Space, chunk: Chunk, kind: &ChunkKind, requested: u32, zero: bool)
    requires sound { IsSound space.old }
    requires kind { IsKind kind.now }
    requires request { IsRequested kind.now requested }
    requires inside { IsInRun (runs_of space.old) chunk.address (bytes_of_kind kind.now) }
    ensures written { (setting : Setting) → kind.now ≡ kind_in setting kind.now.cache →
        WritesAt space.old space.new chunk.address
        (handed_chunk setting kind.now.cache chunk.number requested zero) }
    ensures runs { runs_of space.new ≡ runs_of space.old }
    ensures sound { IsSound space.new }
{
    if kind.guards {
        let shape = shape_of_kind(kind, chunk.number);
        put_allocated(space, chunk.address, &shape, kind, requested, zero);
    } else if zero {
        put_same(space, chunk.address, requested, 0);
    }
}

/// Writes what the chunk gets when it is freed.
pub fn write_freed(space: &mut Space, chunk: Chunk, kind: &ChunkKind)
    requires sound { IsSound space.old }
    requires kind { IsKind kind.now }
    requires inside { IsInRun (runs_of space.old) chunk.address (bytes_of_kind kind.now) }
    ensures written { (setting : Setting) → kind.now ≡ kind_in setting kind.now.cache →
        WritesAt space.old space.new chunk.address (freed_chunk setting kind.now.cache chunk.number) }
    ensures runs { runs_of space.new ≡ runs_of space.old }
    ensures sound { IsSound space.new }
{
    if kind.guards {
        put_free(space, chunk.address, &shape_of_kind(kind, chunk.number));
    }
}

fn put_free(space: &mut Space, at: u64, shape: &Shape)
    requires shape { IsShape shape.now }
    requires inside { IsInRun (runs_of space.old) at (shape.now.content + TAG_BYTES) }
    ensures written { WritesAt space.old space.new at (free_chunk shape.now) }
    ensures sound { IsSound space.new }
{
    let count = (shape.content + TAG_BYTES) as usize;
    write_free(space.bytes_mut_in_run(at, count), shape);
}

fn put_allocated(
    space: &mut Space,
    at: u64,
    shape: &Shape,
    kind: &ChunkKind,
    requested: u32,
    zero: bool,
)
    requires shape { IsShape shape.now }
    requires request { IsRequest shape.now requested }
    requires size { kind.now.size ≤ shape.now.content }
    requires inside { IsInRun (runs_of space.old) at (shape.now.content + TAG_BYTES) }
    ensures written { WritesAt space.old space.new at
        (constructed kind.now.ctor kind.now.size (allocated_chunk shape.now requested zero)) }
    ensures sound { IsSound space.new }
{
    let count = (shape.content + TAG_BYTES) as usize;
    let bytes = space.bytes_mut_in_run(at, count);
    write_alloc(bytes, shape, requested, zero);
    construct(bytes, kind);
}

/// Writes one byte so many times.
fn put_same(space: &mut Space, at: u64, count: u32, byte: u8)
    requires some { 0 < count }
    requires inside { IsInRun (runs_of space.old) at count }
    ensures written { WritesAt space.old space.new at (replicate count byte) }
    ensures sound { IsSound space.new }
{
    space.bytes_mut_in_run(at, count as usize).fill(byte);
}

/// Writes what the constructor leaves over the front of a chunk.
fn construct(bytes: &mut [u8], kind: &ChunkKind)
    requires { kind.now.size ≤ length bytes.old }
    ensures { bytes.new ≡ constructed kind.now.ctor kind.now.size bytes.old }
{
    if let Some(byte) = kind.ctor {
        bytes[..kind.size as usize].fill(byte);
    }
}
