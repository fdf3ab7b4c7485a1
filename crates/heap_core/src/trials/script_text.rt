//! Scripts that are drawn from a seed, as texts: both versions, all operations, and words that only sometimes fit.

use crate::trials::draw::Draw;
use crate::trials::drawing::{Drawing, Kept, Request};
use crate::trials::taste::taste_of;
use script::MOST_OFFSET;
use std::alloc::Global;
use umem_base::{NoMemory, PAGE_BYTES, Text, arena_pages, put_hex};

/// A script, and the options that it runs with.
#[derive(Drop)]
pub struct DrawnScript {
    pub text: Text,
    pub debug: &'static [u8],
    pub logging: &'static [u8],
}

const CACHE_SIZES: [u32; 10] = [1, 8, 12, 24, 72, 100, 488, 520, 2000, 4096];

const CACHE_ALIGNS: [u32; 4] = [8, 16, 32, 64];

// The slot of a buffer that takes most of the arena.
const LARGE_SLOT: u32 = 500;

impl Drawing {
    /// Appends the declared caches, in version 2 some with a constructor byte.
    fn put_caches(&mut self) -> Result<(), NoMemory> {
        for cache in 0..self.caches {
            let size = self.draw.one_of(&CACHE_SIZES);
            let align = self.draw.one_of(&CACHE_ALIGNS);
            self.put(b"cache c", cache)?;
            self.put(b" ", size)?;
            self.put(b" ", align)?;
            if self.version == 2 && self.draw.once_in(2) {
                self.text.push_slice(b" ")?;
                let byte = self.draw.below(256);
                self.put_byte(byte)?;
            }
            self.text.push_slice(b"\n")?;
        }
        Ok(())
    }

    fn put_alloc(&mut self, thread: u32) -> Result<(), NoMemory> {
        let request = if self.draw.once_in(self.taste.others) {
            self.any_request()
        } else {
            self.favourite
        };
        let slot = self.new_slot();
        let word = if self.draw.once_in(6) {
            b" zalloc".as_slice()
        } else {
            b" alloc"
        };
        self.kept.push(Kept {
            thread,
            slot,
            request,
        })?;
        self.put_request([word, b" cache_alloc"], slot, request)
    }

    /// Appends a free of a kept buffer, now and then as if it were another one.
    fn put_free(&mut self, thread: u32) -> Result<(), NoMemory> {
        let Some(kept) = self.any_kept(thread) else {
            return self.put_alloc(thread);
        };
        let request = if self.draw.once_in(16) {
            self.any_request()
        } else {
            kept.request
        };
        if !self.draw.once_in(16) {
            self.kept.retain(|other| other.slot != kept.slot);
        }
        self.put_request([b" free", b" cache_free"], kept.slot, request)
    }

    fn put_store(&mut self, slot: u32) -> Result<(), NoMemory> {
        self.text.push_slice(b" store")?;
        self.put_slot(slot)?;
        let offset = self.any_offset();
        self.put(b" ", offset.min(MOST_OFFSET))?;
        self.text.push_slice(b" ")?;
        for _ in 0..self.draw.below(16).saturating_add(1) {
            let byte = self.draw.below(256);
            self.put_byte(byte)?;
        }
        Ok(())
    }

    /// Appends an operation of two slots, and an offset where it has one.
    fn put_slots(&mut self, thread: u32, kind: u32) -> Result<(), NoMemory> {
        let first = self.any_slot(thread);
        let second = self.any_slot(thread);
        let offset = self.any_offset().min(MOST_OFFSET);
        match kind {
            0 => {
                self.text.push_slice(b" copy")?;
                self.put_slot(first.wrapping_add(1))?;
                self.put_slot(second)
            }
            1 => {
                self.text.push_slice(b" link")?;
                self.put_slot(first)?;
                self.put(b" ", offset)?;
                self.put_slot(second)
            }
            _ => {
                self.text.push_slice(b" load")?;
                self.put_slot(first.wrapping_add(1))?;
                self.put_slot(second)?;
                self.put(b" ", offset)
            }
        }
    }

    /// Appends an operation that takes and gives no buffer, but for a reap.
    fn put_other(&mut self, thread: u32) -> Result<(), NoMemory> {
        match self.draw.below(14) {
            0 => self.text.push_slice(b" reap"),
            1 => {
                let slot = self.any_slot(thread);
                self.text.push_slice(b" clear")?;
                self.put_slot(slot)
            }
            2 | 3 => self.put_slots(thread, 0),
            4 | 5 => self.put_slots(thread, 1),
            6 | 7 => self.put_slots(thread, 2),
            _ => {
                let slot = self.any_slot(thread);
                self.put_store(slot)
            }
        }
    }

    /// Appends some frames.
    fn put_stack(&mut self) -> Result<(), NoMemory> {
        self.text.push_slice(b" @ 401000")?;
        for _ in 0..self.draw.below(4) {
            self.text.push_slice(b",")?;
            let frame = self.draw.below(0x1_0000);
            put_hex(&mut self.text, u64::from(frame), 0)?;
        }
        Ok(())
    }

    /// Appends a step of a thread, at a time in which buffers are mostly freed or mostly asked for.
    fn put_step(&mut self, frees: bool) -> Result<(), NoMemory> {
        let thread = self.draw.below(self.threads);
        self.put(b"", thread)?;
        match self.draw.below(16) {
            0 | 1 => self.put_other(thread)?,
            2 if frees => self.put_alloc(thread)?,
            2 => self.put_free(thread)?,
            _ if frees => self.put_free(thread)?,
            _ => self.put_alloc(thread)?,
        }
        if self.draw.once_in(4) {
            self.put_stack()?;
        }
        self.text.push_slice(b"\n")
    }

    /// Appends an allocation that leaves a few pages of the arena.
    fn put_large(&mut self) -> Result<(), NoMemory> {
        let left = self.draw.one_of(self.taste.left);
        let pages = arena_pages(self.version).saturating_sub(u64::from(left));
        let size = u32::try_from(pages.saturating_mul(PAGE_BYTES)).unwrap_or(0);
        self.put(b"0 alloc $", LARGE_SLOT)?;
        self.put(b" ", size)?;
        self.text.push_slice(b"\n")
    }

    /// Appends the phases, with so many steps together.
    fn put_phases(&mut self, calls: u32) -> Result<(), NoMemory> {
        self.text.push_slice(b"phase\n")?;
        if self.draw.once_in(self.taste.fills) {
            self.put_large()?;
        }
        let period = self.taste.period.max(1);
        for step in 0..calls {
            if self.draw.once_in(12) || step % period == 0 {
                self.text.push_slice(b"phase\n")?;
            }
            self.put_step(step / period % 2 == 1)?;
        }
        Ok(())
    }
}

/// A drawing of a header, and of how steps are drawn behind it.
fn start(alloc: Global, seed: u64) -> Drawing {
    let mut draw = Draw::new(seed);
    let taste = taste_of(&mut draw);
    let caches = draw.below(4);
    let favourite = if caches > 0 && draw.once_in(4) {
        Request::Cache(0)
    } else {
        Request::Bytes(draw.one_of(taste.favourites))
    };
    Drawing {
        text: Text::new(alloc),
        version: draw.below(2).saturating_add(1),
        threads: draw.below(taste.threads).saturating_add(1),
        caches,
        taste,
        favourite,
        kept: Vec::new(alloc),
        next_slot: 1,
        draw,
    }
}

/// Draws a script and its options from a seed.
pub fn draw_script(alloc: Global, seed: u64) -> Result<DrawnScript, NoMemory> {
    let mut drawing = start(alloc, seed);
    let cpus = drawing.draw.below(4).saturating_add(1);
    let (version, threads) = (drawing.version, drawing.threads);
    drawing.put(b"umem ", version)?;
    drawing.put(b" cpus ", cpus)?;
    drawing.put(b" threads ", threads)?;
    drawing.text.push_slice(b"\n")?;
    drawing.put_caches()?;
    let most = drawing.taste.calls;
    let less = drawing.draw.below(most / 2);
    drawing.put_phases(most.saturating_sub(less))?;
    let debug = match drawing.draw.below(8) {
        0 | 1 => b"".as_slice(),
        2 => b"contents=8",
        3 => b"audit=2,contents=16",
        4 => b"default",
        _ => b"guards",
    };
    let logging = if drawing.draw.once_in(2) {
        b"transaction,contents=2k,fail=1k".as_slice()
    } else {
        b""
    };
    Ok(DrawnScript {
        text: drawing.text,
        debug,
        logging,
    })
}
