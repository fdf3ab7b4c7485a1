//! Some 500,000 free chunks, and a picture with places that fit them.

use case_table::CLASS_COUNT;
use core_format::Core;
use core_rules::{empty_depots, empty_places};
use heap_books::Books;
use heap_pictures::{FreeList, FreePlaces};
use script::read_script;
use std::alloc::Global;
use umem_base::{NoMemory, Sequence, Text, put_decimal};
use umem_options::{read_debug, read_logging};

/// How many slabs are made, each for a buffer of its own.
const SLABS: u32 = 1024;

/// The chunks of a slab, which is a page of chunks of 8 bytes.
const ROUNDS: u32 = 512;

/// The chunks of the first slab that stand in a magazine, behind the first, which lives.
const LOADED: u32 = 15;

/// A script of so many allocations of 8 bytes.
fn slabs_text(alloc: Global) -> Result<Text, NoMemory> {
    let mut text = Text::from_slice(alloc, b"umem 2 cpus 1 threads 1\nphase\n")?;
    for call in 0..SLABS {
        text.push_slice(b"0 alloc $")?;
        put_decimal(&mut text, u64::from(call % ROUNDS), 0)?;
        text.push_slice(b" 8\n")?;
    }
    Ok(text)
}

/// The books of that script, each call of which made a slab.
fn slabs_books(alloc: Global) -> Result<Option<Books>, NoMemory> {
    let text = slabs_text(alloc)?;
    let Ok(script) = read_script(alloc, text.as_slice()) else {
        return Ok(None);
    };
    let mut books = Books::start(alloc, &script, &read_debug(b""), &read_logging(b""))?;
    for call in 0..SLABS {
        books.commit_grow(alloc, 0, call)?;
    }
    Ok(Some(books))
}

/// The numbers from the first up to another, that one excluded.
fn numbers_of(alloc: Global, first: u32, past: u32) -> Result<Sequence<u32>, NoMemory> {
    let mut numbers = Vec::new(alloc);
    for number in first..past {
        numbers.push(number)?;
    }
    Ok(Sequence::new(numbers))
}

/// A list for each slab, with all of its chunks but the first, and of the first slab but those that are loaded.
fn lists_of(alloc: Global, books: &Books) -> Result<Vec<FreeList>, NoMemory> {
    let mut lists = Vec::new(alloc);
    let mut past = 0_u32;
    let mut left = LOADED.saturating_add(1);
    for slab in books.slabs() {
        let first = past.saturating_add(left);
        past = past.saturating_add(ROUNDS);
        left = 1;
        lists.push(FreeList {
            base: slab.base,
            chunks: numbers_of(alloc, first, past)?,
        })?;
    }
    Ok(lists)
}

/// Places that fit those books.
fn fitting_places(alloc: Global, books: &Books) -> Result<FreePlaces, NoMemory> {
    let mut cpu_places = empty_places(alloc, 1, CLASS_COUNT)?;
    if let Some(place) = cpu_places.get_mut(0) {
        place.loaded = numbers_of(alloc, 1, LOADED + 1)?;
    }
    Ok(FreePlaces {
        cpu_places: Sequence::new(cpu_places),
        depots: Sequence::new(empty_depots(alloc, CLASS_COUNT)?),
        lists: Sequence::new(lists_of(alloc, books)?),
    })
}

/// How many numbers of free chunks stand in the lists of a core.
fn listed_in(core: &Core) -> usize {
    let mut count: usize = 0;
    for slab in core.slabs.as_slice() {
        count = count.saturating_add(slab.free.as_slice().len());
    }
    count
}

/// Makes the slabs, and counts them.
pub fn make_slabs(alloc: Global) -> Result<usize, NoMemory> {
    match slabs_books(alloc)? {
        Some(books) => Ok(books.slabs().len()),
        None => Ok(0),
    }
}

/// Makes the slabs, pictures their free chunks so many times, and counts those that stand in a list at the last.
pub fn picture_often(alloc: Global, times: u32) -> Result<usize, NoMemory> {
    let Some(books) = slabs_books(alloc)? else {
        return Ok(0);
    };
    let places = fitting_places(alloc, &books)?;
    let mut listed = 0;
    for _time in 0..times {
        let core = books.picture(alloc, places.clone()?)?;
        listed = listed_in(&core);
    }
    Ok(listed)
}
