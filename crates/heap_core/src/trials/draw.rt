// The multiplier and the increment of Knuth's MMIX.
const FACTOR: u64 = 6_364_136_223_846_793_005;

const STEP: u64 = 1_442_695_040_888_963_407;

/// Numbers that a linear congruence draws from a seed.
#[derive(Drop)]
pub struct Draw {
    state: u64,
}

impl Draw {
    pub fn new(seed: u64) -> Draw {
        let mut draw = Draw { state: seed };
        // Takes seeds that are near each other apart.
        for _ in 0..3 {
            draw.below(2);
        }
        draw
    }

    /// A number below that one; 0 below 0.
    pub fn below(&mut self, count: u32) -> u32 {
        self.state = self.state.wrapping_mul(FACTOR).wrapping_add(STEP);
        let high = self.state >> 32;
        let number = high.checked_rem(u64::from(count)).unwrap_or(0);
        u32::try_from(number).unwrap_or(0)
    }

    /// True once in so many times.
    pub fn once_in(&mut self, count: u32) -> bool {
        self.below(count) == 0
    }

    /// One of these numbers; 0 of none.
    pub fn one_of(&mut self, numbers: &[u32]) -> u32 {
        let count = u32::try_from(numbers.len()).unwrap_or(0);
        let index = self.below(count) as usize;
        numbers.get(index).copied().unwrap_or(0)
    }
}
