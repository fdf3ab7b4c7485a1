ghost use Rattle.std.specs.Cmp.{on_equiv, on_total, on_po, on_per};
ghost use Rattle.std.specs.Cmp.Lexicographic.{pointwise, slice_cmp, slice_partial_cmp, lists_per, lists_equiv, lists_po, lists_total, lists_agrees, lists_ties};
ghost use Rattle.std.specs.Hash as fed;
ghost use Rattle.std.specs.Hash.{on_Alike, items_Alike};
ghost use Rattle.std.specs.List.{AllZip};
ghost use Rattle.std.specs.Prelude.{◌≡◌};

use std::alloc::AllocError;
use std::cmp::Ordering;
use std::hash::{Hash, Hasher};
use std::marker::Model;

/// A list that does not grow. Contracts see its items alone.
#[derive(Debug, Drop)]
pub struct Sequence<T> {
    items: Vec<T>,
}

impl<T> Model for Sequence<T> {
    ghost use Rattle.std.specs.Prelude.{List};

    ghost Value = { List T };

    ghost view = { λ s. s.items.items };
}

impl<T> Sequence<T> {
    /// The items of the vector. It takes no memory.
    pub fn new(items: Vec<T>) -> Sequence<T>
        ensures { result ≡ items.items }
    {
        Sequence { items }
    }

    pub fn as_slice(&self) -> &[T]
        ensures { result.now ≡ self.now }
    {
        &self.items
    }

    /// The items as a vector again. It takes no memory.
    pub fn into_vec(self) -> Vec<T>
        ensures { result.items ≡ self }
    {
        self.items
    }
}

impl<T: PartialEq> PartialEq for Sequence<T> {
    ghost eq = { pointwise T.eq };

    ghost laws = { lists_per T.laws };

    fn eq(&self, other: &Self) -> bool {
        self.as_slice() == other.as_slice()
    }
}

impl<T: Eq> Eq for Sequence<T> {
    ghost laws = { lists_equiv T.Eq.laws };
}

/// The first items that differ decide, and else the lengths.
impl<T: PartialOrd> PartialOrd for Sequence<T> {
    ghost partial_cmp = { slice_partial_cmp T.partial_cmp };

    ghost laws = { lists_po T.PartialOrd.laws };

    fn partial_cmp(&self, other: &Self) -> Option<Ordering> {
        self.as_slice().partial_cmp(&other.as_slice())
    }
}

impl<T: Ord> Ord for Sequence<T> {
    ghost cmp = { slice_cmp T.cmp };

    ghost total = { lists_total T.total };

    ghost matches_partial_cmp = { λ s t. lists_agrees T.matches_partial_cmp s t };

    ghost matches_eq = { λ s t. lists_ties T.cmp T.matches_eq s t };

    fn cmp(&self, other: &Self) -> Ordering {
        self.as_slice().cmp(&other.as_slice())
    }
}

impl<T: Hash> Hash for Sequence<T> {
    ghost hash_input = { λ s. fed.slice T.hash_input s };

    ghost respects_eq = { (items_Alike (record { fed = T.respects_eq })).fed };

    fn hash<H: Hasher>(&self, state: &mut H) {
        self.as_slice().hash(state);
    }
}

impl<T: Clone> Clone for Sequence<T> {
    ghost is_clone = { AllZip T.is_clone };

    fn clone(&self) -> Result<Self, AllocError> {
        Ok(Sequence {
            items: self.items.clone()?,
        })
    }
}
