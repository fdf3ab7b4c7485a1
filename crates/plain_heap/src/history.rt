ghost use Rattle.plain_heap.specs.History.{IsNumbered};
ghost use Rattle.std.specs.Prelude.{◌≡◌, ◌+◌, ◌<◌, [], ◌∷◌, ◌++◌, length, IfOk, MatchOption};

use crate::entry::Entry;
use std::alloc::{AllocError, Global};
use std::marker::Model;
use umem_base::{BoundedVec, NoMemory};

/// Entries numbered from 0, in the order of their commits, with room that was taken at the start.
/// Contracts see the entries and the spare.
#[derive(Debug, Drop, PartialEq, Eq)]
pub struct History {
    entries: BoundedVec<Entry>,
}

impl Model for History {
    ghost use Rattle.umem_base.specs.BoundedVec.{BoundedVec};
    ghost use Rattle.plain_heap.specs.declared.entry.Entry.{Entry as EntryData};

    ghost Value = { BoundedVec EntryData };

    ghost use Rattle.plain_heap.specs.History.{IsNumbered};

    ghost view = { λ h. h.entries };

    ghost inverse = { λ entries. record { entries = entries } };

    ghost invariant = { λ h. IsNumbered 0 h.entries.items };
}

impl History {
    /// An empty history with room for `count` entries.
    pub fn with_room(alloc: Global, count: u32) -> Result<History, NoMemory>
        ensures empty { IfOk result (λ h. h.items ≡ []) }
        ensures spare { IfOk result (λ h. h.spare ≡ count) }
    {
        let entries = BoundedVec::with_room(alloc, count)?;
        Ok(History { entries })
    }

    pub fn push(&mut self, entry: Entry)
        requires room { 0 < self.old.spare }
        requires number { entry.number ≡ length self.old.items }
        ensures items { self.new.items ≡ self.old.items ++ entry ∷ [] }
        ensures spare { self.new.spare + 1 ≡ self.old.spare }
    {
        self.entries.push(entry);
    }

    /// Takes the last entry, and its room is spare again.
    pub fn pop(&mut self) -> Option<Entry>
        ensures items { MatchOption result (self.new ≡ self.old)
            (λ entry. self.old.items ≡ self.new.items ++ entry ∷ []) }
        ensures empty { MatchOption result (self.old.items ≡ []) (λ _. self.new.spare ≡ self.old.spare + 1) }
    {
        self.entries.pop()
    }

    pub fn as_slice(&self) -> &[Entry]
        ensures slice { result.now ≡ self.now.items }
        ensures numbered { IsNumbered 0 result.now }
    {
        self.entries.as_slice()
    }
}

/// The clone has the same entries and as much spare.
impl Clone for History {
    ghost is_clone = { λ v w. w ≡ v };

    fn clone(&self) -> Result<Self, AllocError> {
        Ok(History {
            entries: self.entries.clone()?,
        })
    }
}
