ghost use Rattle.std.specs.Prelude.{◌≡◌, ◌<◌, ◌≤◌, [], Some, length, is_err, IfOk};
ghost use Rattle.std.specs.Io.KnownBytes.{WriteAppends};
ghost use Rattle.umem_base.specs.Faults.{Counts};
ghost use Rattle.umem_base.specs.MemSink.{piece_of, write_fails, after_write};

use super::fault_plan::FaultPlan;
use crate::no_memory::NoMemory;
use crate::outside::{Failed, Sink};
use std::alloc::Global;
use std::marker::Model;

/// A sink that keeps what it takes, up to a number of bytes.
#[derive(Debug, Drop)]
pub struct MemSink {
    taken: Vec<u8>,
    most: usize,
    room: usize,
    plan: FaultPlan,
    faults: u64,
}

impl Model for MemSink {
    ghost use Rattle.std.specs.Prelude.{◌≤◌, vec_len, vec_capacity};
    ghost use Rattle.umem_base.specs.MemSink.{MemSink};

    ghost Value = { MemSink };

    ghost view = { λ s. record {
      taken = s.taken.items;
      most = s.most;
      room = s.room;
      plan = s.plan;
      faults = s.faults;
    } };

    ghost invariant = { λ s. (1 ≤ s.most) × (vec_len s.taken ≤ s.room) × (s.room ≤ vec_capacity s.taken) };
}

impl MemSink {
    /// A sink that takes at most `most` bytes in one write and `room` bytes in all, and of whose writes the
    /// ones with these numbers fail.
    pub fn new(
        alloc: Global,
        most: usize,
        room: usize,
        failing: Vec<u64>,
    ) -> Result<MemSink, NoMemory>
        requires { 1 ≤ most }
        ensures taken { IfOk result (λ s. s.taken ≡ []) }
        ensures limits { IfOk result (λ s. (s.most ≡ most) × (s.room ≡ room)) }
        ensures plan { IfOk result (λ s. s.plan ≡ record { failing = failing.items; calls = 0 }) }
        ensures faults { IfOk result (λ s. s.faults ≡ 0) }
    {
        Ok(MemSink {
            taken: Vec::with_capacity(alloc, room)?,
            most,
            room,
            plan: FaultPlan::new(failing),
            faults: 0,
        })
    }

    /// The bytes that were taken.
    pub fn bytes(&self) -> &[u8]
        ensures { result.now ≡ self.now.taken }
    {
        &self.taken
    }
}

impl Sink for MemSink {
    ghost taken = { λ s. Some s.taken };

    ghost faults = { λ s. s.faults };

    /// Takes as much of the piece as one write may. It fails where there is no room for that.
    fn write(&mut self, bytes: &[u8]) -> Result<usize, Failed>
        ensures bound { IfOk result (λ n. n ≤ length bytes.now) }
        ensures progress { 0 < length bytes.now → IfOk result (λ n. 0 < n) }
        ensures taken { WriteAppends (Some self.old.taken) (Some self.new.taken) result bytes.now }
        ensures cause { Counts self.old.faults self.new.faults result }
        ensures fails { is_err result ≡ write_fails self.old bytes.now }
        ensures count { IfOk result (λ n. n ≡ length (piece_of self.old bytes.now)) }
        ensures after { self.new ≡ after_write self.old bytes.now }
    {
        let piece = &bytes[..bytes.len().min(self.most)];
        let fails = self.plan.fails_next();
        if fails || piece.len() > self.room - self.taken.len() {
            self.faults = self.faults.saturating_add(1);
            return Err(Failed);
        }
        self.taken.extend_from_slice(piece).unwrap();
        Ok(piece.len())
    }
}
