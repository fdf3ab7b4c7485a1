/// What a walk met: how a chunk was found or not, where a freed one went, and what else can happen to places.
#[derive(Clone, Copy, Debug)]
pub enum Case {
    TakenLoaded,
    TakenExchanged,
    TakenOfDepot,
    TakenListed,
    TakenOfNewSlab,
    TakenOfOtherCpu,
    NoChunk,
    NoPages,
    PutLoaded,
    PutExchanged,
    PutWithDepot,
    PutListed,
    GivenBack,
}

const CASES: usize = 13;

/// How often each case was met.
#[derive(Clone, Copy, Debug)]
pub struct Cases {
    counts: [u32; CASES],
}

impl Cases {
    pub fn new() -> Cases {
        Cases { counts: [0; CASES] }
    }

    pub fn meet(&mut self, case: Case) {
        let place = &mut self.counts[case as usize];
        *place = place.saturating_add(1);
    }

    /// Adds what another walk met.
    pub fn add(&mut self, other: &Cases) {
        for (place, count) in self.counts.iter_mut().zip(other.counts.iter()) {
            *place = place.saturating_add(*count);
        }
    }

    /// Tells whether each case was met.
    pub fn are_all(&self) -> bool {
        self.counts.iter().all(|count| *count > 0)
    }
}
