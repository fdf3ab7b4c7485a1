//! What a script is drawn with: the text so far, and the slots and buffers that its steps used.

use crate::trials::draw::Draw;
use crate::trials::taste::Taste;
use case_table::SIZE_TABLE;
use script::FIRST_OWN_SLOT;
use umem_base::{NoMemory, Text, put_decimal, put_hex};

/// What a buffer is asked of: so many bytes, or the declared cache of that number.
#[derive(Clone, Copy)]
pub enum Request {
    Bytes(u32),
    Cache(u32),
}

/// A buffer that a step asked for: by which thread, and in which slot its address was kept.
#[derive(Clone, Copy)]
pub struct Kept {
    pub thread: u32,
    pub slot: u32,
    pub request: Request,
}

/// The text so far, what its header says, the buffers that were asked for, and how the steps are drawn.
#[derive(Drop)]
pub struct Drawing {
    pub draw: Draw,
    pub text: Text,
    pub version: u32,
    pub threads: u32,
    pub caches: u32,
    pub taste: Taste,
    /// What most allocations ask for.
    pub favourite: Request,
    pub kept: Vec<Kept>,
    pub next_slot: u32,
}

const LARGE_SIZES: [u32; 6] = [4097, 8192, 65_536, 1 << 20, 2 << 20, 3 << 20];

const LATER_SIZES: [u32; 4] = [4097, 4 << 20, 8 << 20, 12 << 20];

impl Drawing {
    /// Appends a word and a number.
    pub fn put(&mut self, word: &[u8], number: u32) -> Result<(), NoMemory> {
        self.text.push_slice(word)?;
        put_decimal(&mut self.text, u64::from(number), 0)
    }

    pub fn put_slot(&mut self, slot: u32) -> Result<(), NoMemory> {
        match slot.checked_sub(FIRST_OWN_SLOT) {
            Some(own) => self.put(b" %", own),
            None => self.put(b" $", slot),
        }
    }

    /// Appends the two digits of a byte.
    pub fn put_byte(&mut self, byte: u32) -> Result<(), NoMemory> {
        put_hex(&mut self.text, u64::from(byte / 16 % 16), 0)?;
        put_hex(&mut self.text, u64::from(byte % 16), 0)
    }

    /// Appends a slot, and what is asked for.
    pub fn put_request(
        &mut self,
        words: [&[u8]; 2],
        slot: u32,
        request: Request,
    ) -> Result<(), NoMemory> {
        match request {
            Request::Bytes(size) => {
                self.text.push_slice(words[0])?;
                self.put_slot(slot)?;
                self.put(b" ", size)
            }
            Request::Cache(cache) => {
                self.text.push_slice(words[1])?;
                self.put_slot(slot)?;
                self.put(b" c", cache)
            }
        }
    }

    /// A size of a class, or now and then a large one or 0.
    fn any_size(&mut self) -> u32 {
        match self.draw.below(16) {
            0 => 0,
            1 | 2 if self.version == 1 => self.draw.one_of(&LARGE_SIZES),
            1 | 2 => self.draw.one_of(&LATER_SIZES),
            _ => {
                let less = self.draw.below(8);
                self.draw.one_of(&SIZE_TABLE).saturating_sub(less)
            }
        }
    }

    pub fn any_request(&mut self) -> Request {
        if self.caches > 0 && self.draw.once_in(3) {
            Request::Cache(self.draw.below(self.caches))
        } else {
            Request::Bytes(self.any_size())
        }
    }

    /// A slot that was not used yet, mostly.
    pub fn new_slot(&mut self) -> u32 {
        if self.draw.once_in(24) {
            return self.draw.below(self.next_slot);
        }
        let slot = self.next_slot;
        self.next_slot = slot.saturating_add(1);
        if self.version == 2 && self.draw.once_in(4) {
            slot.saturating_add(FIRST_OWN_SLOT)
        } else {
            slot
        }
    }

    /// A buffer that was kept, mostly by that thread.
    pub fn any_kept(&mut self, thread: u32) -> Option<Kept> {
        let all = self.draw.once_in(8);
        let fits = |kept: &&Kept| all || kept.thread == thread;
        let count = self.kept.iter().filter(fits).count();
        let count = u32::try_from(count).unwrap_or(0);
        let index = self.draw.below(count) as usize;
        self.kept
            .iter()
            .filter(|kept| all || kept.thread == thread)
            .nth(index)
            .copied()
    }

    /// The slot of a buffer that was kept, or now and then any.
    pub fn any_slot(&mut self, thread: u32) -> u32 {
        match self.any_kept(thread) {
            Some(kept) if !self.draw.once_in(12) => kept.slot,
            _ => self.draw.below(80),
        }
    }

    /// An offset in a kept buffer's chunk, at its end, or far away.
    pub fn any_offset(&mut self) -> u32 {
        match self.draw.below(8) {
            0 => 0,
            1 | 2 => self.draw.below(64),
            3 => self.draw.below(65_536),
            _ => match self.favourite {
                Request::Bytes(size) => size.saturating_add(self.draw.below(24)).saturating_sub(8),
                Request::Cache(_) => self.draw.below(128),
            },
        }
    }
}
