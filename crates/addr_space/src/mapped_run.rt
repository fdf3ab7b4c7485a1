ghost use Rattle.std.specs.Prelude.{◌≡◌, ◌+◌, ◌*◌, ◌≤◌, ◌<◌, ◌^◌, length, replicate, IfOk};
ghost use Rattle.std.specs.List.{slice_range};
ghost use Rattle.std.specs.Borrow.{sem};
ghost use Rattle.addr_space.specs.MappedRunLoan.{LendsPart};

use std::alloc::Global;
use std::marker::Model;
use umem_base::NoMemory;

/// A mapped run with its bytes.
#[derive(Debug, Drop)]
pub struct MappedRun {
    base: u64,
    bytes: Vec<u8>,
}

impl Model for MappedRun {
    ghost use Rattle.addr_space.specs.MappedRun.{MappedRun};

    ghost Value = { MappedRun };

    ghost view = { λ run. record { base = run.base; bytes = run.bytes.items } };
}

impl MappedRun {
    pub fn zeros(alloc: Global, base: u64, size: usize) -> Result<MappedRun, NoMemory>
        ensures { IfOk result (λ run. run ≡ record { base = base; bytes = replicate size 0 }) }
    {
        Ok(MappedRun {
            base,
            bytes: vec![in alloc; 0; size]?,
        })
    }

    pub fn base(&self) -> u64
        ensures { result ≡ self.now.base }
    {
        self.base
    }

    pub fn bytes(&self) -> &[u8]
        ensures { result.now ≡ self.now.bytes }
    {
        &self.bytes
    }

    /// So many bytes from an offset on, to be written.
    pub fn part_mut(&mut self, from: usize, count: usize) -> &mut [u8]
        requires within { from + count ≤ length self.old.bytes }
        requires fits { from + count < 2 ^ 64 }
        ensures* writes_back { sem 𝓛 (LendsPart self.entry from result) }
        ensures value { result.now ≡ slice_range self.old.bytes from (from + count) }
    {
        let end = from + count;
        self.bytes.slice_mut(from..end)
    }
}
