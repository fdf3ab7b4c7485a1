ghost use Rattle.std.specs.Prelude.{◌≡◌, ◌+◌, ◌-◌, ◌<◌, [], max, map, filter, not, length, All, AllPairs, MatchOption, OnErr, OnOk, false};
ghost use Rattle.std.specs.List.Sorted.{IsPermutation};
ghost use Rattle.umem_base.specs.Ordered.{put_by};
ghost use Rattle.heap_ledger.specs.Commits.{GoesBefore};
ghost use Rattle.heap_slabs.specs.Standing.{AreStanding, HasNumber, IsApartFrom, IsPlaceOf, IsPlaceOfNumber, IsStanding, has_start, is_idle, as_slab_at, with_given, with_taken};

use crate::as_slab_at::as_slab_at;
use crate::counts::{one_live_less, one_live_more};
use crate::numbered::Numbered;
use crate::place::Place;
use crate::search::{count_to, place_of, place_of_number};
use crate::standing::Standing;
use crate::unused::{is_idle, keep_numbered, list_places, list_unused};
use heap_ledger::SlabAt;
use std::alloc::Global;
use std::marker::Model;
use umem_base::NoMemory;

/// The slabs that stand, by rising base, once more by their caches and bases alone, and with their numbers by rising
/// number. Contracts see the slabs, those that were dropped last, and the spare: for how many more there is room.
#[derive(Debug, Drop)]
pub struct StandingSlabs {
    slabs: Vec<Standing>,
    places: Vec<SlabAt>,
    numbers: Vec<Numbered>,
    reaped: Vec<SlabAt>,
    spare: usize,
}

impl Model for StandingSlabs {
    ghost use Rattle.std.specs.Prelude.{◌≡◌, ◌+◌, ◌≤◌, map, vec_capacity, vec_len};
    ghost use Rattle.heap_slabs.specs.Standing.{AreNumbered, AreStanding, StandingSlabs, as_slab_at};

    ghost Value = { StandingSlabs };

    ghost view = { λ s. record { slabs = s.slabs.items; reaped = s.reaped.items; spare = s.spare } };

    ghost invariant = { λ s. AreStanding s.slabs.items
        × (s.places.items ≡ map as_slab_at s.slabs.items)
        × AreNumbered s.slabs.items s.numbers.items
        × (vec_len s.slabs + s.spare ≤ vec_capacity s.slabs)
        × (vec_len s.places + s.spare ≤ vec_capacity s.places)
        × (vec_len s.numbers + s.spare ≤ vec_capacity s.numbers)
        × (vec_len s.slabs + s.spare ≤ vec_capacity s.reaped) };
}

impl StandingSlabs {
    /// None stands. It takes no memory.
    pub fn new(alloc: Global) -> StandingSlabs
        ensures { result ≡ record { slabs = []; reaped = []; spare = 0 } }
    {
        StandingSlabs {
            slabs: Vec::new(alloc),
            places: Vec::new(alloc),
            numbers: Vec::new(alloc),
            reaped: Vec::new(alloc),
            spare: 0,
        }
    }

    /// The slabs.
    pub fn slabs(&self) -> &[Standing]
        ensures slabs { result.now ≡ self.now.slabs }
        ensures sound { AreStanding self.now.slabs }
    {
        &self.slabs
    }

    /// The slabs by their caches and bases alone.
    pub fn places(&self) -> &[SlabAt]
        ensures { result.now ≡ map as_slab_at self.now.slabs }
    {
        &self.places
    }

    /// Takes the memory for one slab more. On a refusal nothing changed.
    pub fn make_room(&mut self) -> Result<(), NoMemory>
        ensures ok { OnOk result (self.new ≡ record self.old { spare = max self.old.spare 1 }) }
        ensures err { OnErr result (self.new ≡ self.old) }
    {
        self.slabs.reserve(1)?;
        self.places.reserve(1)?;
        self.numbers.reserve(1)?;
        self.reaped.reserve(self.slabs.capacity())?;
        self.spare = self.spare.max(1);
        Ok(())
    }

    /// Adds a slab. It takes no memory and uses room for one up.
    pub fn add(&mut self, slab: Standing)
        requires room { 0 < self.old.spare }
        requires sound { IsStanding slab }
        requires apart { All (IsApartFrom slab) self.old.slabs }
        ensures value { self.new ≡ record self.old {
          slabs = put_by (λ s. s.base) self.old.slabs slab;
          spare = self.old.spare - 1;
        } }
        ensures sound { AreStanding self.new.slabs }
    {
        let index = count_to(&self.slabs, slab.base);
        self.slabs.insert(index, slab).unwrap();
        self.places.insert(index, as_slab_at(&slab)).unwrap();
        let number = Numbered {
            first: slab.first,
            base: slab.base,
        };
        self.numbers.push(number).unwrap();
        self.spare -= 1;
    }

    /// Where the chunk stands that begins at the address.
    pub fn place_of(&self, address: u64) -> Option<Place>
        ensures { MatchOption result (All (λ slab. has_start address slab ≡ false) self.now.slabs)
            (IsPlaceOf address self.now.slabs) }
    {
        place_of(&self.slabs, address)
    }

    /// Where the chunk stands that has the number.
    pub fn place_of_number(&self, number: u32) -> Option<Place>
        ensures { MatchOption result (All (λ slab. ¬ HasNumber number slab) self.now.slabs)
            (IsPlaceOfNumber number self.now.slabs) }
    {
        place_of_number(&self.slabs, &self.numbers, number)
    }

    /// The chunk that begins at the address lives now. Nothing changes where none does.
    pub fn took(&mut self, address: u64)
        ensures value { self.new ≡ record self.old { slabs = map (with_taken address) self.old.slabs } }
        ensures sound { AreStanding self.new.slabs }
    {
        let Some(place) = place_of(&self.slabs, address) else {
            return;
        };
        let slab = self.slabs[place.slab];
        self.slabs[place.slab] = one_live_more(slab);
    }

    /// The chunk that begins at the address lives no more. Nothing changes where none does.
    pub fn gave(&mut self, address: u64)
        ensures value { self.new ≡ record self.old { slabs = map (with_given address) self.old.slabs } }
        ensures sound { AreStanding self.new.slabs }
    {
        let Some(place) = place_of(&self.slabs, address) else {
            return;
        };
        let slab = self.slabs[place.slab];
        self.slabs[place.slab] = one_live_less(slab);
    }

    /// The slabs that were dropped last, by cache and then by base.
    pub fn reaped(&self) -> &[SlabAt]
        ensures { result.now ≡ self.now.reaped }
    {
        &self.reaped
    }

    /// Drops the slabs of which no chunk lives. It takes no memory.
    pub fn drop_unused(&mut self)
        ensures left { self.new ≡ record self.old {
          slabs = filter (λ slab. not (is_idle slab)) self.old.slabs;
          reaped = self.new.reaped;
        } }
        ensures those { IsPermutation (map as_slab_at (filter is_idle self.old.slabs)) self.new.reaped }
        ensures in_order { AllPairs GoesBefore self.new.reaped }
        ensures sound { AreStanding self.new.slabs }
    {
        list_unused(&self.slabs, &mut self.reaped);
        self.slabs.retain(|slab| !is_idle(slab));
        list_places(&self.slabs, &mut self.places);
        keep_numbered(&mut self.numbers, &self.slabs);
    }
}
