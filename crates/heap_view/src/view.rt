ghost use Rattle.std.specs.Prelude.{◌≡◌, ◌-◌, ◌*◌, ◌+◌, ◌^◌, ◌≤◌, IfOk, IsTrue, Some, length};
ghost use Rattle.core_format.specs.Chunks.{chunk_state, is_chunk_in, is_held};
ghost use Rattle.core_format.specs.Cores.{MeetsTheRules};
ghost use Rattle.heap_view.specs.Buffers.{buffers_of, free_buffers_of};
ghost use Rattle.heap_view.specs.Hits.{hit_of};
ghost use Rattle.heap_view.specs.Layout.{IsLaidOut};
ghost use Rattle.heap_view.specs.Memory.{core_bytes_from};
ghost use Rattle.heap_view.specs.Points.{place_of_word};

use crate::buffer::Buffer;
use crate::build::{all_chunks, allocated_by_address, free_by_address, geometries_of};
use crate::hit::Hit;
use crate::laws::cores_are_laid_out;
use crate::look_up::{bytes_from, hit_at};
use crate::numbers::{has_number, held_chunks};
use crate::search::place_of;
use buftag::State;
use case_table::Geometry;
use core_format::Core;
use std::alloc::Global;
use std::marker::Model;
use std::sync::ledger::Ledger;
use umem_base::{NoMemory, Steps};

/// A core, where its buffers, its chunks and its addresses are looked up. Contracts see the core, since all
/// that a view tells follows from it.
#[derive(Drop)]
pub struct View {
    core: Core,
    buffers: Vec<Buffer>,
    free_chunks: Vec<Buffer>,
    chunks: Vec<u32>,
    held: Vec<u32>,
    geometries: Vec<Geometry>,
}

impl Model for View {
    ghost use Rattle.core_format.specs.declared.whole.Core.{Core};
    ghost use Rattle.heap_view.specs.View.{IsView};

    ghost Value = { Core };

    ghost view = { λ v. v.core };

    ghost invariant = { λ v. IsView v.core v.buffers.items v.free_chunks.items v.chunks.items v.held.items
        v.geometries.items };
}

impl View {
    /// A view of a core that meets the rules of its format, as one that was read does. It takes the memory for
    /// all that the other calls look up; a refusal drops the core.
    pub fn new(alloc: Global, core: Core) -> Result<View, NoMemory>
        requires { MeetsTheRules core }
        ensures { IfOk result (λ view. view ≡ core) }
    {
        cores_are_laid_out();
        let held = held_chunks(alloc, &core)?;
        let chunks = all_chunks(alloc, &core)?;
        let buffers = allocated_by_address(alloc, &core, &held)?;
        let free_chunks = free_by_address(alloc, &core, &held)?;
        let geometries = geometries_of(alloc, &core)?;
        Ok(View {
            core,
            buffers,
            free_chunks,
            chunks,
            held,
            geometries,
        })
    }

    pub fn core(&self) -> &Core
        ensures value { result.now ≡ self.now }
        ensures rules { MeetsTheRules self.now }
        ensures laid_out { IsLaidOut self.now }
    {
        &self.core
    }

    /// The allocated buffers by rising address: the allocated chunks and the large buffers.
    pub fn buffers(&self) -> &[Buffer]
        ensures { result.now ≡ buffers_of self.now }
    {
        &self.buffers
    }

    /// The free chunks by rising address.
    pub fn free_chunks(&self) -> &[Buffer]
        ensures { result.now ≡ free_buffers_of self.now }
    {
        &self.free_chunks
    }

    /// The state of a chunk, by its number; none exactly where no slab has the chunk. It looks among the
    /// numbers by halves.
    pub fn state(&self, chunk: u32) -> Option<State>
        ensures { result ≡ chunk_state self.now chunk }
    {
        if !has_number(&self.chunks, chunk) {
            return None;
        }
        Some(self.state_of(chunk))
    }

    /// The state of a chunk that a slab of the core has, by its number. It looks among the numbers of those that
    /// stand in a list or a magazine by halves.
    pub fn state_of(&self, chunk: u32) -> State
        requires { IsTrue (is_chunk_in self.now chunk) }
        ensures { chunk_state self.now chunk ≡ Some result }
    {
        if self.is_held(chunk) {
            State::Free
        } else {
            State::Allocated
        }
    }

    /// Tells whether the chunk stands in a list or a magazine.
    pub(crate) fn is_held(&self, chunk: u32) -> bool
        ensures { result ≡ is_held self.now chunk }
    {
        has_number(&self.held, chunk)
    }

    /// What stands at an address; none exactly where no page of the core has it. It looks among slabs and among
    /// large buffers by halves.
    pub fn find(&self, address: u64) -> Option<Hit>
        ensures { result ≡ hit_of self.now address }
    {
        hit_at(&self.core, &self.geometries, address)
    }

    /// The bytes from the address on, to the end of its slab or of its large buffer's pages; none where the
    /// address is in no slab and in no large buffer's page.
    pub fn bytes_from(&self, address: u64) -> &[u8]
        ensures { result.now ≡ core_bytes_from self.now address }
    {
        bytes_from(&self.core, address)
    }

    /// The index of the allocated buffer that has the address; none exactly where there is none. A step is one
    /// comparison of the address with a buffer's bounds.
    pub fn buffer_at<L: Ledger>(&self, address: u64, steps: &mut Steps<L>) -> Option<usize>
        ensures value { result ≡ place_of_word address (buffers_of self.now) }
        ensures rises { steps.old ≤ steps.new }
        ensures bound { 2 ^ (steps.new - steps.old) ≤ 2 * length (buffers_of self.now) + 1 }
    {
        place_of(&self.buffers, address, steps)
    }
}
