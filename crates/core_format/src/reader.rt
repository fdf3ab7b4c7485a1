ghost use Rattle.std.specs.Prelude.{◌≡◌, ◌*◌, nat_le, ◌≤◌, ◌<◌, ◌^◌, IfOk, IsTrue, OnOk, length};
ghost use Rattle.case_table.specs.Record.{Fit};
ghost use Rattle.core_format.specs.Reader.{ReadsAs, bytes_at, left, record_at, room, rule};

use crate::core_fault::CoreFault;
use crate::fault::Fault;
use case_table::{Layout, Short};
use std::alloc::Global;
use std::marker::Model;
use umem_base::PAGE_BYTES;

/// The bytes of a file, and where in them reading stands.
#[derive(Drop)]
pub struct Reader<'a> {
    bytes: &'a [u8],
    at: usize,
}

impl<'a> Model for Reader<'a> {
    ghost use Rattle.std.specs.Prelude.{◌≤◌, ◌<◌, ◌^◌, length};
    ghost use Rattle.core_format.specs.Reader.{Reader as Seen};

    ghost Value = { Seen };

    ghost view = { λ r. record { bytes = r.bytes.now; at = r.at } };

    ghost invariant = { λ r. (r.at ≤ length r.bytes.now) × (length r.bytes.now < 2 ^ 63) };
}

impl<'a> Reader<'a> {
    pub fn new(bytes: &'a [u8]) -> Reader<'a>
        ensures { result ≡ record { bytes = bytes.now; at = 0 } }
    {
        Reader { bytes, at: 0 }
    }

    pub fn bytes(&self) -> &'a [u8]
        ensures value { result.now ≡ self.now.bytes }
        ensures within { self.now.at ≤ length self.now.bytes }
    {
        self.bytes
    }

    pub fn at(&self) -> usize
        ensures value { result ≡ self.now.at }
        ensures within { self.now.at ≤ length self.now.bytes }
        ensures small { length self.now.bytes < 2 ^ 63 }
    {
        self.at
    }

    pub fn left(&self) -> usize
        ensures value { result ≡ left self.now }
    {
        self.bytes.len() - self.at
    }

    /// The numbers of the record that begins where reading stands, which is at `at`.
    pub fn take_record<const N: usize>(
        &mut self,
        layout: &Layout<N>,
        at: usize,
    ) -> Result<[u64; N], CoreFault>
        requires { at ≡ self.old.at }
        ensures numbers { ReadsAs (λ numbers. (numbers, self.new)) result (record_at layout.now self.old) }
        ensures fit { IfOk result (Fit layout.now) }
    {
        match layout.take_record(self.bytes, at) {
            Ok(numbers) => {
                self.at = at + layout.length();
                Ok(numbers)
            }
            Err(Short { at }) => Err(CoreFault::Bad {
                offset: at as u64,
                fault: Fault::Short,
            }),
        }
    }

    /// Refuses a record of that length for which too few bytes are left.
    pub fn room(&self, count: usize) -> Result<(), CoreFault>
        ensures { ReadsAs (λ _. tt) result (room count self.now) }
    {
        let left = self.left();
        rule(count <= left, self.at(), Fault::Short)
    }

    /// So many pages as they stand.
    pub fn take_pages(&mut self, alloc: Global, pages: u64) -> Result<Vec<u8>, CoreFault>
        ensures { ReadsAs (λ bytes. (bytes.items, self.new)) result (bytes_at (PAGE_BYTES * pages) self.old) }
    {
        rule(has_pages(self.left(), pages), self.at(), Fault::Short)?;
        let bytes = self.take_slice((PAGE_BYTES * pages) as usize)?;
        Ok(Vec::from_slice(alloc, bytes)?)
    }

    /// Bytes as they stand.
    pub fn take_slice(&mut self, count: usize) -> Result<&'a [u8], CoreFault>
        ensures { ReadsAs (λ bytes. (bytes.now, self.new)) result (bytes_at count self.old) }
    {
        self.room(count)?;
        let at = self.at;
        self.at = at + count;
        Ok(&self.bytes[at..at + count])
    }
}

fn has_pages(left: usize, pages: u64) -> bool
    ensures { result ≡ nat_le (PAGE_BYTES * pages) left }
{
    pages <= left as u64 / PAGE_BYTES
}

/// Refuses a field that breaks a rule.
pub fn rule(holds: bool, offset: usize, fault: Fault) -> Result<(), CoreFault>
    ensures rule { ReadsAs (λ _. tt) result (rule holds offset fault) }
    ensures holds { OnOk result (IsTrue holds) }
{
    if holds {
        Ok(())
    } else {
        Err(CoreFault::Bad {
            offset: offset as u64,
            fault,
        })
    }
}
