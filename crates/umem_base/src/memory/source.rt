ghost use Rattle.std.specs.Prelude.{◌≡◌, ◌≤◌, Some, min, length, take, is_err, IfOk};
ghost use Rattle.std.specs.Io.KnownBytes.{ReadConsumes};
ghost use Rattle.umem_base.specs.Faults.{Counts};
ghost use Rattle.umem_base.specs.FaultPlan.{fails_next};
ghost use Rattle.umem_base.specs.MemSource.{after_read};

use super::fault_plan::FaultPlan;
use crate::outside::{Failed, Source};
use std::marker::Model;

/// A source over bytes in memory.
#[derive(Debug, Drop)]
pub struct MemSource {
    bytes: Vec<u8>,
    at: usize,
    plan: FaultPlan,
    faults: u64,
}

impl Model for MemSource {
    ghost use Rattle.std.specs.Prelude.{◌≤◌, drop, vec_len};
    ghost use Rattle.umem_base.specs.MemSource.{MemSource};

    ghost Value = { MemSource };

    ghost view = { λ s. record { left = drop s.at s.bytes.items; plan = s.plan; faults = s.faults } };

    ghost invariant = { λ s. s.at ≤ vec_len s.bytes };
}

impl MemSource {
    /// A source with these bytes, of whose reads the ones with these numbers fail.
    pub fn new(bytes: Vec<u8>, failing: Vec<u64>) -> MemSource
        ensures left { result.left ≡ bytes.items }
        ensures plan { result.plan ≡ record { failing = failing.items; calls = 0 } }
        ensures faults { result.faults ≡ 0 }
    {
        MemSource {
            bytes,
            at: 0,
            plan: FaultPlan::new(failing),
            faults: 0,
        }
    }
}

impl Source for MemSource {
    ghost left = { λ s. Some s.left };

    ghost faults = { λ s. s.faults };

    /// Moves as many bytes as are left and fit.
    fn read(&mut self, buffer: &mut [u8]) -> Result<usize, Failed>
        ensures bound { IfOk result (λ n. n ≤ length buffer.new) }
        ensures moved { ReadConsumes (Some self.old.left) (Some self.new.left) result buffer.new }
        ensures cause { Counts self.old.faults self.new.faults result }
        ensures fails { is_err result ≡ fails_next self.old.plan }
        ensures after { self.new ≡ after_read self.old (length buffer.old) }
    {
        if self.plan.fails_next() {
            self.faults = self.faults.saturating_add(1);
            return Err(Failed);
        }
        let left = &self.bytes[self.at..];
        let count = left.len().min(buffer.len());
        buffer[..count].copy_from_slice(&left[..count]);
        self.at += count;
        Ok(count)
    }
}
