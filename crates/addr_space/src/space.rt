ghost use Rattle.std.specs.Prelude.{◌≡◌, ℕ, ◌+◌, ◌*◌, ◌%◌, ◌<◌, ◌≤◌, ◌^◌, ◌↔◌, List, [], None, length, MatchOption, MatchResult, MatchBool, IfSome, IfNone, OnOk, OnErr, IfOk, Contains, IsTrue, slice_index, slice_index_or};
ghost use Rattle.std.specs.Bool.{OnTrue};
ghost use Rattle.std.specs.List.{HoldsAt, slice_range};
ghost use Rattle.std.specs.Int as int;
ghost use Rattle.std.specs.Int.{to_le_bytes};
ghost use Rattle.std.specs.Borrow.{sem};
ghost use Rattle.umem_base.specs.declared.pages.TheConstants.{PAGE_BYTES};
ghost use Rattle.umem_base.specs.Pages.{IsPage};
ghost use Rattle.addr_space.specs.MappedRun.{Holds, HoldsRange};
ghost use Rattle.addr_space.specs.Space.{byte_at, runs_of, byte_of_word, HasBytes, AreBytesAt, Writes, Maps, Unmaps, HasMapped, IsMappedRange, HasUnmapped, IsInRun, IsSound, with_bytes};
ghost use Rattle.addr_space.specs.SpaceLoan.{LendsPartAt, LendsBytesIf, LendsBytes};

use crate::fault::{MapFault, Unmapped};
use crate::mapped_run::MappedRun;
use crate::place::{Place, gap_of, index_of, place_of};
use std::alloc::Global;
use std::marker::Model;
use umem_base::{PAGE_BYTES, fill_words};

/// Runs of pages with their bytes. Contracts see the byte at each mapped address, and the runs by rising
/// base.
#[derive(Debug, Drop)]
pub struct Space {
    alloc: Global,
    runs: Vec<MappedRun>,
}

impl Model for Space {
    ghost use Rattle.addr_space.specs.Space.{Space, IsSpace};

    ghost Value = { Space };

    ghost view = { λ s. s.runs.items };

    ghost invariant = { λ s. IsSpace s.runs.items };
}

impl Space {
    /// A space with nothing mapped, which keeps the allocator. It takes no memory.
    pub fn new(alloc: Global) -> Space
        ensures bytes { (address : ℕ) → byte_at result address ≡ None }
        ensures runs { runs_of result ≡ [] }
        ensures sound { IsSound result }
    {
        Space {
            alloc,
            runs: Vec::new(alloc),
        }
    }

    /// Maps a run of pages, all of its bytes 0. On a refusal nothing changed.
    pub fn map(&mut self, base: u64, pages: u64) -> Result<(), MapFault>
        requires page { IsPage base }
        requires some { 1 ≤ pages }
        requires below { base + PAGE_BYTES * pages ≤ 2 ^ 32 }
        ensures ok { OnOk result (Maps self.old self.new (record { base = base; pages = pages })) }
        ensures overlap { (result ≡ Err MapFault.Overlap) ↔ HasMapped self.old base (PAGE_BYTES * pages) }
        ensures err { OnErr result (self.new ≡ self.old) }
        ensures sound { IsSound self.new }
    {
        let size = PAGE_BYTES * pages;
        let Some(index) = gap_of(&self.runs, base, base + size) else {
            return Err(MapFault::Overlap);
        };
        let run = MappedRun::zeros(self.alloc, base, size as usize)?;
        self.runs.insert(index, run)?;
        Ok(())
    }

    /// Takes a run away that was mapped as one, with its bytes.
    pub fn unmap(&mut self, base: u64, pages: u64)
        requires { Contains (runs_of self.old) (record { base = base; pages = pages }) }
        ensures unmaps { Unmaps self.old self.new (record { base = base; pages = pages }) }
        ensures sound { IsSound self.new }
    {
        if let Some(index) = index_of(&self.runs, base) {
            self.runs.remove(index);
        }
    }

    fn place_of(&self, at: u64, count: usize) -> Option<Place>
        ensures found { MatchOption result
            (0 < count → IsInRun (runs_of self.now) at count → ⊥)
            (λ p. (0 < count) × (p.index < length self.now) × HoldsAt (HoldsRange at p.from count) self.now p.index) }
        ensures sound { IsSound self.now }
    {
        place_of(&self.runs, at, count)
    }

    fn part_mut(&mut self, index: usize, from: usize, count: usize) -> &mut [u8]
        requires within { index < length self.old }
        requires part { HoldsAt (λ run. from + count ≤ length run.bytes) self.old index }
        ensures* writes_back { sem 𝓛 (LendsPartAt self.entry index from result) }
        ensures value { HoldsAt (λ run. result.now ≡ slice_range run.bytes from (from + count)) self.old index }
        ensures len { length result.now ≡ count }
    {
        let run = &mut self.runs[index];
        run.part_mut(from, count)
    }

    /// The byte at an address and an offset from it.
    fn byte_from(&self, at: u64, offset: usize) -> Option<u8>
        ensures byte { result ≡ byte_at self.now (at + offset) }
        ensures below { IfSome result (λ _. at + offset < 2 ^ 32) }
    {
        // A read of a field shows a proof what every space keeps; so do the lines like this one below.
        let _ = &self.runs;
        let address = at.checked_add(offset as u64)?;
        let index = index_of(&self.runs, address)?;
        let run = &self.runs[index];
        Some(run.bytes()[(address - run.base()) as usize])
    }

    fn is_mapped(&self, at: u64, count: usize) -> bool
        ensures cases { MatchBool result (IsMappedRange self.now at count) (HasUnmapped self.now at count) }
        ensures fits { OnTrue result (at + count ≤ 2 ^ 64) }
    {
        for offset in 0..count {
            if self.byte_from(at, offset).is_none() {
                return false;
            }
        }
        true
    }

    fn store_each(&mut self, at: u64, bytes: &[u8])
        requires mapped { IsMappedRange self.old at (length bytes.now) }
        requires fits { at + length bytes.now ≤ 2 ^ 64 }
        ensures { Writes self.old self.new at (length bytes.now) (λ k. slice_index bytes.now k) }
    {
        for (offset, byte) in bytes.iter().enumerate() {
            self.put(at + offset as u64, *byte);
        }
    }

    fn put(&mut self, at: u64, byte: u8)
        requires { IsMappedRange self.old at 1 }
        ensures { Writes self.old self.new at 1 (λ _. byte) }
    {
        let _ = &self.runs;
        if let Some(place) = self.place_of(at, 1) {
            let part = self.part_mut(place.index, place.from, 1);
            part[0] = byte;
        }
    }

    /// The word at an address, its lowest byte first.
    pub fn load_word(&self, at: u64) -> Result<u64, Unmapped>
        ensures { MatchResult result
            (λ word. HasBytes self.now at 8 (byte_of_word word))
            (λ _. HasUnmapped self.now at 8) }
    {
        if let Some(part) = self.bytes_of(at, 8) {
            return Ok(u64::from_le_bytes([
                part[0], part[1], part[2], part[3], part[4], part[5], part[6], part[7],
            ]));
        }
        let mut bytes = [0u8; 8];
        for offset in 0..8 {
            bytes[offset] = self.byte_from(at, offset).ok_or(Unmapped)?;
        }
        Ok(u64::from_le_bytes(bytes))
    }

    /// Writes the word, its lowest byte first. On a refusal nothing changed.
    pub fn store_word(&mut self, at: u64, value: u64) -> Result<(), Unmapped>
        ensures stored { OnOk result (Writes self.old self.new at 8 (byte_of_word value)) }
        ensures mapped { OnOk result (IsMappedRange self.old at 8) }
        ensures refused { OnErr result (HasUnmapped self.old at 8) }
        ensures err { OnErr result (self.new ≡ self.old) }
        ensures sound { IsSound self.new }
    {
        self.store_bytes(at, &value.to_le_bytes())
    }

    /// Writes the byte. On a refusal nothing changed.
    pub fn store_byte(&mut self, at: u64, value: u8) -> Result<(), Unmapped>
        ensures stored { OnOk result (Writes self.old self.new at 1 (λ _. value)) }
        ensures mapped { OnOk result (IsMappedRange self.old at 1) }
        ensures refused { OnErr result (HasUnmapped self.old at 1) }
        ensures err { OnErr result (self.new ≡ self.old) }
        ensures sound { IsSound self.new }
    {
        self.store_bytes(at, &[value])
    }

    /// Writes the bytes, also over the end of a run into the next one. On a refusal nothing changed.
    pub fn store_bytes(&mut self, at: u64, bytes: &[u8]) -> Result<(), Unmapped>
        ensures stored { OnOk result (Writes self.old self.new at (length bytes.now) (λ k. slice_index bytes.now k)) }
        ensures mapped { OnOk result (IsMappedRange self.old at (length bytes.now)) }
        ensures refused { OnErr result (HasUnmapped self.old at (length bytes.now)) }
        ensures err { OnErr result (self.new ≡ self.old) }
        ensures sound { IsSound self.new }
    {
        let _ = &self.runs;
        if let Some(place) = self.place_of(at, bytes.len()) {
            let part = self.part_mut(place.index, place.from, bytes.len());
            part.copy_from_slice(bytes);
            return Ok(());
        }
        if !self.is_mapped(at, bytes.len()) {
            return Err(Unmapped);
        }
        self.store_each(at, bytes);
        Ok(())
    }

    /// Writes one word again and again, its lowest byte first.
    pub fn fill(&mut self, at: u64, words: u64, value: u64)
        requires { IsInRun (runs_of self.old) at (8 * words) }
        ensures filled { Writes self.old self.new at (8 * words) (λ k. byte_of_word value (k % 8)) }
        ensures sound { IsSound self.new }
    {
        let _ = &self.runs;
        let count = (8 * words) as usize;
        if let Some(place) = self.place_of(at, count) {
            let part = self.part_mut(place.index, place.from, count);
            fill_words(part, value);
        }
    }

    /// The bytes of a range, or `None` where it is empty or not inside of one run.
    pub fn bytes_of(&self, at: u64, count: usize) -> Option<&[u8]>
        ensures some { IfSome result (λ s. (0 < count) × IsInRun (runs_of self.now) at count) }
        ensures none { IfNone result (0 < count → IsInRun (runs_of self.now) at count → ⊥) }
        ensures bytes { IfSome result (λ s. AreBytesAt self.now at count s.now) }
    {
        let place = self.place_of(at, count)?;
        let bytes = self.runs[place.index].bytes();
        let end = place.from + count;
        Some(&bytes[place.from..end])
    }

    /// Whether a range is not empty and inside of one run.
    pub fn is_in_run(&self, at: u64, count: usize) -> bool
        ensures inside { IsTrue result ↔ ((0 < count) × IsInRun (runs_of self.now) at count) }
        ensures sound { IsSound self.now }
    {
        let _ = &self.runs;
        self.place_of(at, count).is_some()
    }

    /// The bytes of a range, to be written, or `None` where it is empty or not inside of one run: what is
    /// written there is what the space holds afterwards.
    pub fn bytes_mut(&mut self, at: u64, count: usize) -> Option<&mut [u8]>
        // The space ends with the bytes that are last there, and with them it differs at the range alone.
        ensures* writes_back { sem 𝓛 (LendsBytesIf self.entry at result) }
        ensures writes { 0 < count → IsInRun (runs_of self.old) at count → (bytes : List ℕ) → length bytes ≡ count →
            Writes self.old (with_bytes self.old at bytes) at count (λ k. slice_index bytes k) }
        ensures sound { IfSome result (λ _. (bytes : List ℕ) → IsSound (with_bytes self.old at bytes)) }
        ensures was_sound { IsSound self.old }

        ensures some { IfSome result (λ _. (0 < count) × IsInRun (runs_of self.old) at count) }
        ensures none { IfNone result (0 < count → IsInRun (runs_of self.old) at count → ⊥) }
        ensures bytes { IfSome result (λ s. AreBytesAt self.old at count s.now) }
    {
        match self.place_of(at, count) {
            Some(place) => Some(self.bytes_mut_at(place, at, count)),
            None => None,
        }
    }

    /// The bytes of a range that is inside of one run, to be written: what is written there is what the
    /// space holds afterwards. `is_in_run` tests what it asks.
    pub fn bytes_mut_in_run(&mut self, at: u64, count: usize) -> &mut [u8]
        requires some { 0 < count }
        requires inside { IsInRun (runs_of self.old) at count }

        // The space ends with the bytes that are last there, and with them it differs at the range alone.
        ensures* writes_back { sem 𝓛 (LendsBytes self.entry at result) }
        ensures writes { (bytes : List ℕ) → length bytes ≡ count →
            Writes self.old (with_bytes self.old at bytes) at count (λ k. slice_index bytes k) }
        ensures sound { (bytes : List ℕ) → IsSound (with_bytes self.old at bytes) }

        ensures bytes { HasBytes self.old at count (λ k. slice_index result.now k) }
        ensures len { length result.now ≡ count }
    {
        let Some(place) = self.place_of(at, count) else {
            unreachable!()
        };
        self.bytes_mut_at(place, at, count)
    }

    fn bytes_mut_at(&mut self, place: Place, at: u64, count: usize) -> &mut [u8]
        requires some { 0 < count }
        requires within { place.index < length self.old }
        requires range { HoldsAt (HoldsRange at place.from count) self.old place.index }
        ensures* writes_back { sem 𝓛 (LendsBytes self.entry at result) }
        ensures writes { (bytes : List ℕ) → length bytes ≡ count →
            Writes self.old (with_bytes self.old at bytes) at count (λ k. slice_index bytes k) }
        ensures sound { (bytes : List ℕ) → IsSound (with_bytes self.old at bytes) }
        ensures inside { IsInRun (runs_of self.old) at count }
        ensures len { length result.now ≡ count }
        ensures bytes { HasBytes self.old at count (λ k. slice_index result.now k) }
    {
        let _ = &self.runs;
        self.part_mut(place.index, place.from, count)
    }
}
