ghost use Rattle.std.specs.Prelude.{◌≡◌, ◌^◌, ◌<◌, ◌≤◌, [], ◌∷◌, ◌++◌, length, map, IfOk};
ghost use Rattle.trans_log.specs.Last.{with_new};

use circular_buffer::HeapCircularBuffer;
use std::alloc::Global;
use std::marker::Model;
use umem_base::NoMemory;

/// A log that keeps the last `capacity` items that were entered, in memory that it took when it was made.
/// Contracts see its capacity, and the items that it has, oldest first. With a capacity of 0 it stays empty.
#[derive(Debug, Drop)]
pub struct Log<T> {
    kept: HeapCircularBuffer<T>,
}

impl<T> Model for Log<T> {
    ghost use Rattle.std.specs.Prelude.{◌^◌, ◌<◌, ◌≤◌, length};
    ghost use Rattle.trans_log.specs.Log.{Log};

    ghost Value = { Log T };

    ghost view = { λ l. record { capacity = l.kept.capacity; items = l.kept.items } };

    ghost invariant = { λ l. (length l.kept.items ≤ l.kept.capacity) × (l.kept.capacity < 2 ^ 32) };
}

impl<T> Log<T> {
    /// An empty log. It takes the memory of `capacity` items.
    pub fn new(alloc: Global, capacity: u32) -> Result<Log<T>, NoMemory>
        ensures empty { IfOk result (λ l. l.items ≡ []) }
        ensures capacity { IfOk result (λ l. l.capacity ≡ capacity) }
    {
        let kept = HeapCircularBuffer::with_capacity(alloc, capacity as usize)?;
        Ok(Log { kept })
    }

    /// Enters an item behind the others. A full log lets its oldest item go. It takes no memory.
    pub fn enter(&mut self, item: T)
    where
        T: Drop,
        ensures items { self.new.items ≡ with_new self.old.capacity self.old.items item }
        ensures capacity { self.new.capacity ≡ self.old.capacity }
    {
        let _ = self.kept.push_back(item);
    }

    /// The items that the log has, oldest first.
    pub fn entries(&self, alloc: Global) -> Result<Vec<&T>, NoMemory>
        ensures items { IfOk result (λ entries. map (λ entry. entry.now) entries.items ≡ self.now.items) }
        ensures within { (length self.now.items ≤ self.now.capacity) × (self.now.capacity < 2 ^ 32) }
    {
        Ok(self.kept.iter().collect(alloc)?)
    }
}
