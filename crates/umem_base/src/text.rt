ghost use Rattle.std.specs.Cmp.{partial_equiv_from_equiv};
ghost use Rattle.std.specs.Cmp.Lexicographic.{nat_list_eq_equiv};
ghost use Rattle.std.specs.Str.{bytes_eq};
ghost use Rattle.std.specs.Prelude.{◌≡◌, [], ◌++◌, take, IfOk, OnOk, OnErr};
ghost use Rattle.umem_base.specs.Numbers.{right_aligned};

use crate::no_memory::NoMemory;
use std::alloc::{AllocError, Global};
use std::marker::Model;

/// Bytes that grow at their end. Contracts see a text as the list of its bytes, which may be any.
#[derive(Debug, Drop)]
pub struct Text {
    bytes: Vec<u8>,
}

impl Model for Text {
    ghost use Rattle.std.specs.Prelude.{List, ℕ};

    ghost Value = { List ℕ };

    ghost view = { λ t. t.bytes.items };
}

impl Text {
    /// No bytes. It takes no memory.
    pub fn new(alloc: Global) -> Text
        ensures { result ≡ [] }
    {
        Text {
            bytes: Vec::new(alloc),
        }
    }

    pub fn from_slice(alloc: Global, bytes: &[u8]) -> Result<Text, NoMemory>
        ensures { IfOk result (λ t. t ≡ bytes.now) }
    {
        Ok(Text {
            bytes: Vec::from_slice(alloc, bytes)?,
        })
    }

    pub fn allocator(&self) -> Global {
        *self.bytes.allocator()
    }

    pub fn as_slice(&self) -> &[u8]
        ensures { result.now ≡ self.now }
    {
        &self.bytes
    }

    /// Appends the bytes. On refusal the text is as before.
    pub fn push_slice(&mut self, bytes: &[u8]) -> Result<(), NoMemory>
        ensures ok { OnOk result (self.new ≡ self.old ++ bytes.now) }
        ensures err { OnErr result (self.new ≡ self.old) }
    {
        self.bytes.extend_from_slice(bytes)?;
        Ok(())
    }

    /// Appends the bytes, with as many spaces before them as make `width` bytes. On refusal the text is as
    /// before.
    pub fn push_aligned(&mut self, bytes: &[u8], width: usize) -> Result<(), NoMemory>
        ensures ok { OnOk result (self.new ≡ self.old ++ right_aligned width bytes.now) }
        ensures err { OnErr result (self.new ≡ self.old) }
    {
        let blanks = width.saturating_sub(bytes.len());
        self.bytes.reserve(blanks)?;
        let start = self.bytes.len();
        for _ in 0..blanks {
            self.bytes.push(b' ').unwrap();
        }
        if self.bytes.extend_from_slice(bytes).is_err() {
            self.bytes.truncate(start);
            return Err(NoMemory);
        }
        Ok(())
    }

    /// Cuts the text to its first `len` bytes, if it has more.
    pub fn truncate(&mut self, len: usize)
        ensures { self.new ≡ take len self.old }
    {
        self.bytes.truncate(len);
    }
}

impl PartialEq for Text {
    ghost eq = { bytes_eq };

    ghost laws = { partial_equiv_from_equiv nat_list_eq_equiv };

    fn eq(&self, other: &Self) -> bool {
        self.as_slice() == other.as_slice()
    }
}

impl Eq for Text {
    ghost laws = { nat_list_eq_equiv };
}

impl Clone for Text {
    ghost is_clone = { λ t u. u ≡ t };

    fn clone(&self) -> Result<Self, AllocError> {
        Ok(Text {
            bytes: Vec::from_slice(self.allocator(), self.as_slice())?,
        })
    }
}
