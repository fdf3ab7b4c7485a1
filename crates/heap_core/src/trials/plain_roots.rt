use script::{FIRST_OWN_SLOT, Header};
use std::alloc::Global;
use umem_base::{NoMemory, SHARED_ROOT};

const SLOTS: u32 = FIRST_OWN_SLOT;

/// The words of the root segment that all threads share, and in version 2 those of each thread's own behind them.
#[derive(Drop)]
pub struct PlainRoots {
    words: Vec<u64>,
}

/// The number of the word of a thread's slot.
fn place(thread: u32, slot: u32) -> usize {
    if slot < SLOTS {
        slot as usize
    } else {
        slot.wrapping_add(SLOTS.wrapping_mul(thread)) as usize
    }
}

impl PlainRoots {
    pub fn new(alloc: Global, header: &Header) -> Result<PlainRoots, NoMemory> {
        let segments = if header.version == 1 {
            1
        } else {
            header.threads.saturating_add(1)
        };
        let count = SLOTS.saturating_mul(segments);
        let mut words = Vec::new(alloc);
        for _ in 0..count {
            words.push(0)?;
        }
        Ok(PlainRoots { words })
    }

    pub fn words(&self) -> &[u64] {
        &self.words
    }

    pub fn get(&self, thread: u32, slot: u32) -> u64 {
        self.words.get(place(thread, slot)).copied().unwrap_or(0)
    }

    pub fn set(&mut self, thread: u32, slot: u32, word: u64) {
        if let Some(held) = self.words.get_mut(place(thread, slot)) {
            *held = word;
        }
    }

    /// Writes a byte, if the address is one of a root segment.
    fn set_byte(&mut self, address: u64, byte: u8) {
        let Some(offset) = address.checked_sub(SHARED_ROOT) else {
            return;
        };
        if let Some(word) = self.words.get_mut((offset / 8) as usize) {
            let mut bytes = word.to_le_bytes();
            bytes[(offset % 8) as usize] = byte;
            *word = u64::from_le_bytes(bytes);
        }
    }

    /// Writes those of the bytes from an address on that are of a root segment.
    pub fn write(&mut self, address: u64, bytes: &[u8]) {
        let mut at = address;
        for byte in bytes {
            self.set_byte(at, *byte);
            at = at.wrapping_add(1);
        }
    }
}
