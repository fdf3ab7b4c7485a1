ghost use Rattle.std.specs.Prelude.{◌≡◌, ◌+◌, ◌^◌, ◌<◌, ◌≤◌, [], ◌∷◌, ◌++◌, length, slice_range, All, IfOk};
ghost use Rattle.trans_log.specs.Last.{with_new};
ghost use Rattle.trans_log.specs.SavedLog.{bytes_in_all, saved_by, saved_item};

use crate::record::Saved;
use crate::saved_record::SavedRecord;
use circular_buffer::HeapCircularBuffer;
use std::alloc::Global;
use std::marker::Model;
use umem_base::{BoundedVec, NoMemory, Text};

/// A contents log: it keeps the last `capacity` freed buffers that were entered, of each at most `count`
/// bytes, in memory that it took when it was made. Contracts see both numbers, and the items that it has,
/// oldest first. With a capacity of 0 it stays empty.
#[derive(Debug, Drop)]
pub struct SavedLog {
    count: u32,
    records: HeapCircularBuffer<SavedRecord>,
    /// The bytes of the records, one behind the other.
    bytes: HeapCircularBuffer<u8>,
}

impl Model for SavedLog {
    ghost use Rattle.trans_log.specs.SavedLog.{SavedLog, IsSavedLog, saved_log_of};

    ghost Value = { SavedLog };

    ghost view = { λ l. saved_log_of l.records.capacity l.count l.records.items l.bytes.items };

    ghost invariant = { λ l. IsSavedLog l.records.capacity l.count l.bytes.capacity l.records.items l.bytes.items };
}

impl SavedLog {
    /// An empty log. It takes the memory of `capacity` items of `count` bytes each.
    pub fn new(alloc: Global, capacity: u32, count: u32) -> Result<SavedLog, NoMemory>
        ensures empty { IfOk result (λ l. l.items ≡ []) }
        ensures capacity { IfOk result (λ l. l.capacity ≡ capacity) }
        ensures count { IfOk result (λ l. l.count ≡ count) }
    {
        let records = HeapCircularBuffer::with_capacity(alloc, capacity as usize)?;
        let bytes = HeapCircularBuffer::with_capacity(alloc, capacity as usize * count as usize)?;
        Ok(SavedLog {
            count,
            records,
            bytes,
        })
    }

    /// Enters a freed buffer behind the others. A full log lets its oldest item go. It takes no memory.
    pub fn enter(&mut self, time: u64, chunk: u32, bytes: &[u8])
        requires { length bytes.now ≤ self.old.count }
        ensures items { self.new.items ≡ with_new self.old.capacity self.old.items (saved_item time chunk bytes.now) }
        ensures capacity { self.new.capacity ≡ self.old.capacity }
        ensures count { self.new.count ≡ self.old.count }
    {
        if self.records.capacity() == 0 {
            return;
        }
        let record = SavedRecord {
            time,
            chunk,
            length: bytes.len() as u32,
        };
        let oldest = self.records.push_back(record);
        let gone = oldest.map_or(0, |oldest| oldest.length);
        self.bytes.truncate_front(self.bytes.len() - gone as usize);
        self.bytes.extend_from_slice(bytes);
    }

    /// The items that the log has, oldest first.
    pub fn entries(&self, alloc: Global) -> Result<Vec<Saved>, NoMemory>
        ensures items { IfOk result (λ entries. entries.items ≡ self.now.items) }
        ensures within { (length self.now.items ≤ self.now.capacity) × (self.now.capacity < 2 ^ 32) }
        ensures short { All (λ item. length item.bytes ≤ self.now.count) self.now.items }
    {
        let (front, back) = self.bytes.as_slices();
        read_items(alloc, &self.records, front, back)
    }
}

// The items of some records, whose bytes stand one behind the other in two pieces.
fn read_items(
    alloc: Global,
    records: &HeapCircularBuffer<SavedRecord>,
    front: &[u8],
    back: &[u8],
) -> Result<Vec<Saved>, NoMemory>
    requires few { length records.now.items < 2 ^ 32 }
    requires whole { bytes_in_all records.now.items ≡ length front.now + length back.now }
    ensures { IfOk result (λ items. items.items ≡ saved_by records.now.items (front.now ++ back.now)) }
{
    let mut items = BoundedVec::with_room(alloc, records.len() as u32)?;
    let mut start = 0;
    for record in records.iter() {
        let end = start + record.length as usize;
        items.push(Saved {
            time: record.time,
            chunk: record.chunk,
            bytes: joined(alloc, front, back, start, end)?,
        });
        start = end;
    }
    Ok(items.into_vec())
}

// The bytes of a range over two pieces, of which the second stands behind the first.
fn joined(
    alloc: Global,
    front: &[u8],
    back: &[u8],
    start: usize,
    end: usize,
) -> Result<Text, NoMemory>
    requires order { start ≤ end }
    requires within { end ≤ length front.now + length back.now }
    ensures { IfOk result (λ text. text ≡ slice_range (front.now ++ back.now) start end) }
{
    let middle = front.len();
    let mut text = Text::from_slice(alloc, &front[start.min(middle)..end.min(middle)])?;
    text.push_slice(&back[start.saturating_sub(middle)..end.saturating_sub(middle)])?;
    Ok(text)
}
