ghost use Rattle.std.specs.Prelude.{◌≡◌, ◌<◌, IfOk, OnOk, length, Some, slice_get};
ghost use Rattle.findleaks.specs.Found.{is_marked, none_found, with_found};

use std::alloc::Global;
use std::marker::Model;
use umem_base::NoMemory;

/// The buffers that were found to be reached, by their indexes: a mark a buffer, and the marked ones in the order in
/// which they were found.
#[derive(Drop)]
pub struct Found {
    marks: Vec<bool>,
    order: Vec<usize>,
}

impl Model for Found {
    ghost use Rattle.findleaks.specs.Found.{Found as Marked};

    ghost Value = { Marked };

    ghost view = { λ f. record { marks = f.marks.items; order = f.order.items } };
}

impl Found {
    /// None of so many buffers is found.
    pub fn new(alloc: Global, count: usize) -> Result<Found, NoMemory>
        ensures { IfOk result (λ found. found ≡ none_found count) }
    {
        Ok(Found {
            marks: vec![in alloc; false; count]?,
            order: Vec::new(alloc),
        })
    }

    pub fn len(&self) -> usize
        ensures { result ≡ length self.now.order }
    {
        self.order.len()
    }

    /// The index of the buffer that was found at this place.
    pub fn at(&self, place: usize) -> usize
        requires { place < length self.now.order }
        ensures { slice_get self.now.order place ≡ Some result }
    {
        self.order[place]
    }

    pub fn is_marked(&self, index: usize) -> bool
        requires { index < length self.now.marks }
        ensures { result ≡ is_marked self.now index }
    {
        self.marks[index]
    }

    /// Marks a buffer that was not marked before.
    pub fn mark(&mut self, index: usize) -> Result<(), NoMemory>
        requires { index < length self.old.marks }
        ensures { OnOk result (self.new ≡ with_found self.old index) }
    {
        if self.marks[index] {
            return Ok(());
        }
        self.order.push(index)?;
        self.marks[index] = true;
        Ok(())
    }
}
