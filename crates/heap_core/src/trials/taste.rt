use crate::trials::draw::Draw;

/// How the steps of a script are drawn.
#[derive(Clone, Copy)]
pub struct Taste {
    /// The sizes of which one is what most allocations ask for.
    pub favourites: &'static [u32],
    /// How seldom an allocation asks for something else.
    pub others: u32,
    /// For how many steps buffers are mostly asked for, and then for as many mostly freed.
    pub period: u32,
    /// How seldom a buffer takes most of the arena, and how many pages it leaves.
    pub fills: u32,
    pub left: &'static [u32],
    /// The most threads.
    pub threads: u32,
    /// The most calls.
    pub calls: u32,
}

// Many sizes, and an arena that is soon full.
const MIXED: Taste = Taste {
    favourites: &[24, 100, 128, 300, 500, 600, 1000, 2000, 4096],
    others: 2,
    period: 6,
    fills: 2,
    left: &[0, 2, 5, 10, 20],
    threads: 4,
    calls: 60,
};

// Mostly one size, with small magazines and few slabs.
const NARROW: Taste = Taste {
    favourites: &[500, 600, 1000, 4096, 4096],
    others: 24,
    period: 10,
    fills: 2,
    left: &[9, 9, 18],
    threads: 3,
    calls: 60,
};

// A slab or two that all CPUs share.
const FULL: Taste = Taste {
    favourites: &[4096],
    others: 32,
    period: 12,
    fills: 1,
    left: &[9, 18],
    threads: 4,
    calls: 60,
};

// So many frees of one size that no magazine is empty.
const LONG: Taste = Taste {
    favourites: &[600, 1000, 4096],
    others: 64,
    period: 50,
    fills: 2,
    left: &[60],
    threads: 1,
    calls: 140,
};

/// One of the tastes, the long one seldom.
pub fn taste_of(draw: &mut Draw) -> Taste {
    match draw.below(16) {
        0 => LONG,
        1..=6 => FULL,
        7..=10 => NARROW,
        _ => MIXED,
    }
}
