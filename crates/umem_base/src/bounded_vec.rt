ghost use Rattle.std.specs.Cmp.{on_equiv, on_total, on_po, on_per};
ghost use Rattle.std.specs.Cmp.Lexicographic.{pointwise, slice_cmp, slice_partial_cmp, lists_per, lists_equiv, lists_po, lists_total, lists_agrees, lists_ties};
ghost use Rattle.std.specs.Hash as fed;
ghost use Rattle.std.specs.Hash.{on_Alike, items_Alike};
ghost use Rattle.std.specs.List.{AllZip};
ghost use Rattle.std.specs.Prelude.{◌≡◌, ◌+◌, ◌<◌, ◌≤◌, ◌↔◌, IsTrue, [], ◌∷◌, ◌++◌, length, insert, remove, slice_get, IfOk, MatchOption};

use crate::no_memory::NoMemory;
use std::alloc::{AllocError, Global};
use std::cmp::Ordering;
use std::hash::{Hash, Hasher};
use std::marker::Model;

/// A list whose memory was taken when it was made: `push` takes none and can't fail. Contracts see its
/// items, and its spare, the number of items that still fit.
#[derive(Debug, Drop)]
pub struct BoundedVec<T> {
    items: Vec<T>,
    spare: usize,
}

/// The frames of a call, innermost first. A stack is made with room for the most frames that a caller may
/// give, so that a frame is pushed without taking memory. Two stacks compare and hash as their frames do.
pub type Stack = BoundedVec<u64>;

impl<T> Model for BoundedVec<T> {
    ghost use Rattle.std.specs.Prelude.{◌+◌, ◌≤◌, vec_len, vec_capacity};
    ghost use Rattle.umem_base.specs.BoundedVec.{BoundedVec};

    ghost Value = { BoundedVec T };

    ghost view = { λ v. record { items = v.items.items; spare = v.spare } };

    ghost invariant = { λ v. vec_len v.items + v.spare ≤ vec_capacity v.items };
}

impl<T> BoundedVec<T> {
    /// An empty list with room for `count` items.
    pub fn with_room(alloc: Global, count: u32) -> Result<BoundedVec<T>, NoMemory>
        ensures empty { IfOk result (λ v. v.items ≡ []) }
        ensures spare { IfOk result (λ v. v.spare ≡ count) }
    {
        let spare = count as usize;
        let items = Vec::with_capacity(alloc, spare)?;
        Ok(BoundedVec { items, spare })
    }

    pub fn len(&self) -> usize
        ensures { result ≡ length self.now.items }
    {
        self.items.len()
    }

    /// How many more items fit.
    pub fn spare(&self) -> usize
        ensures { result ≡ self.now.spare }
    {
        self.spare
    }

    /// Whether no more items fit.
    pub fn is_full(&self) -> bool
        ensures { IsTrue result ↔ (self.now.spare ≡ 0) }
    {
        self.spare == 0
    }

    /// The items of the vector, with no spare. It takes no memory.
    pub fn from_vec(items: Vec<T>) -> BoundedVec<T>
        ensures items { result.items ≡ items.items }
        ensures spare { result.spare ≡ 0 }
    {
        BoundedVec { items, spare: 0 }
    }

    pub fn push(&mut self, item: T)
        requires { 0 < self.old.spare }
        ensures items { self.new.items ≡ self.old.items ++ item ∷ [] }
        ensures spare { self.new.spare + 1 ≡ self.old.spare }
    {
        self.items.push(item).unwrap();
        self.spare -= 1;
    }

    /// Takes the last item, and its room is spare again.
    pub fn pop(&mut self) -> Option<T>
        ensures items { MatchOption result (self.new ≡ self.old)
            (λ item. self.old.items ≡ self.new.items ++ item ∷ []) }
        ensures empty { MatchOption result (self.old.items ≡ []) (λ _. self.new.spare ≡ self.old.spare + 1) }
    {
        let item = self.items.pop()?;
        self.spare += 1;
        Some(item)
    }

    /// Puts an item in front of the one at `index`, or behind the last.
    pub fn insert(&mut self, index: usize, item: T)
        requires room { 0 < self.old.spare }
        requires within { index ≤ length self.old.items }
        ensures items { self.new.items ≡ insert self.old.items index item }
        ensures spare { self.new.spare + 1 ≡ self.old.spare }
    {
        self.items.insert(index, item).unwrap();
        self.spare -= 1;
    }

    /// Takes the item at `index`, and its room is spare again.
    pub fn remove(&mut self, index: usize) -> T
        requires { index < length self.old.items }
        ensures item { slice_get self.old.items index ≡ Some result }
        ensures items { self.new.items ≡ remove self.old.items index }
        ensures spare { self.new.spare ≡ self.old.spare + 1 }
    {
        let item = self.items.remove(index);
        self.spare += 1;
        item
    }

    pub fn as_slice(&self) -> &[T]
        ensures { result.now ≡ self.now.items }
    {
        &self.items
    }

    /// The items as a vector. It takes no memory.
    pub fn into_vec(self) -> Vec<T>
        ensures { result.items ≡ self.items }
    {
        self.items
    }
}

/// Two lists are equal where their items are. The spare is not compared, nor hashed.
impl<T: PartialEq> PartialEq for BoundedVec<T> {
    ghost eq = { λ v w. pointwise T.eq v.items w.items };

    ghost laws = { on_per (λ v. v.items) (lists_per T.laws) };

    fn eq(&self, other: &Self) -> bool {
        self.as_slice() == other.as_slice()
    }
}

impl<T: Eq> Eq for BoundedVec<T> {
    ghost laws = { on_equiv (λ v. v.items) (lists_equiv T.Eq.laws) };
}

/// The first items that differ decide, and else the lengths.
impl<T: PartialOrd> PartialOrd for BoundedVec<T> {
    ghost partial_cmp = { λ v w. slice_partial_cmp T.partial_cmp v.items w.items };

    ghost laws = { on_po (λ v. v.items) (lists_po T.PartialOrd.laws) };

    fn partial_cmp(&self, other: &Self) -> Option<Ordering> {
        self.as_slice().partial_cmp(&other.as_slice())
    }
}

impl<T: Ord> Ord for BoundedVec<T> {
    ghost cmp = { λ v w. slice_cmp T.cmp v.items w.items };

    ghost total = { on_total (λ v. v.items) (lists_total T.total) };

    ghost matches_partial_cmp = { λ v w. lists_agrees T.matches_partial_cmp v.items w.items };

    ghost matches_eq = { λ v w. lists_ties T.cmp T.matches_eq v.items w.items };

    fn cmp(&self, other: &Self) -> Ordering {
        self.as_slice().cmp(&other.as_slice())
    }
}

impl<T: Hash> Hash for BoundedVec<T> {
    ghost hash_input = { λ v. fed.slice T.hash_input v.items };

    ghost respects_eq = { (on_Alike (λ v. v.items) (items_Alike (record { fed = T.respects_eq }))).fed };

    fn hash<H: Hasher>(&self, state: &mut H) {
        self.as_slice().hash(state);
    }
}

/// The clone has as many items and as much spare.
impl<T: Clone> Clone for BoundedVec<T> {
    ghost is_clone = { λ v w. AllZip T.is_clone v.items w.items × (w.spare ≡ v.spare) };

    fn clone(&self) -> Result<Self, AllocError> {
        let mut items = self.items.clone()?;
        items.reserve(self.spare)?;
        Ok(BoundedVec {
            items,
            spare: self.spare,
        })
    }
}
