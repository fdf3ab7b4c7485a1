use umem_base::PAGE_BYTES;

const PAGE: u32 = PAGE_BYTES as u32;

/// The quantities of a cache's slabs, worked out again from its size and alignment.
#[derive(Clone, Copy)]
pub struct PlainShape {
    pub size: u32,
    align: u32,
    pub chunk: u32,
    pub pages: u32,
    pub rounds: u32,
    pub magazine: u32,
}

/// The least multiple of a step that is no less than a number.
fn round_up(number: u32, step: u32) -> u32 {
    number.div_ceil(step.max(1)).wrapping_mul(step)
}

impl PlainShape {
    pub fn new(size: u32, align: u32, guards: bool) -> PlainShape {
        let tag = if guards { 24 } else { 0 };
        let chunk = round_up(round_up(size, 8).wrapping_add(tag), align).max(1);
        let pages = chunk.wrapping_mul(8).div_ceil(PAGE).max(1);
        let magazine = match chunk {
            0..=128 => 15,
            129..=512 => 7,
            _ => 3,
        };
        PlainShape {
            size,
            align: align.max(1),
            chunk,
            pages,
            rounds: pages.wrapping_mul(PAGE) / chunk,
            magazine,
        }
    }

    /// Where the first chunk stands in a slab before which its cache made so many.
    pub fn colour(&self, made: u32) -> u32 {
        let taken = self.rounds.wrapping_mul(self.chunk);
        let leftover = self.pages.wrapping_mul(PAGE).wrapping_sub(taken);
        let colours = (leftover / self.align.max(1)).saturating_add(1);
        self.align.wrapping_mul(made % colours)
    }
}
