use umem_base::Text;

/// What a step does. A slot up to 511 is a root word that all threads share; one from 512 on is a root
/// word of the calling thread's own. A cache is numbered behind the size classes.
#[derive(Clone, Debug, Drop, PartialEq, Eq)]
pub enum Op {
    /// Allocates `size` bytes, and keeps the address in the slot.
    Alloc { slot: u32, size: u32 },
    /// The same, and the bytes are zero.
    Zalloc { slot: u32, size: u32 },
    /// Frees the buffer whose address is in the slot, of `size` requested bytes.
    Free { slot: u32, size: u32 },
    /// Allocates a buffer of a declared cache, and keeps the address in the slot.
    CacheAlloc { slot: u32, cache: u32 },
    /// Frees the buffer of a declared cache whose address is in the slot.
    CacheFree { slot: u32, cache: u32 },
    /// Copies a slot's word to another slot.
    Copy { to: u32, from: u32 },
    /// Sets a slot to 0.
    Clear { slot: u32 },
    /// Writes bytes at an offset behind the address in the slot.
    Store { slot: u32, offset: u32, bytes: Text },
    /// Writes the word of the slot `value` at an offset behind the address in the slot.
    Link { slot: u32, offset: u32, value: u32 },
    /// Reads the word at an offset behind the address in the slot, and keeps it in `to`.
    Load { to: u32, slot: u32, offset: u32 },
    /// Empties all magazines, and gives back the slabs without a live buffer.
    Reap,
}

/// What an operation is called.
#[derive(Clone, Copy, Debug, PartialEq, Eq)]
pub enum OpName {
    Alloc,
    Zalloc,
    Free,
    CacheAlloc,
    CacheFree,
    Copy,
    Clear,
    Store,
    Link,
    Load,
    Reap,
}

impl OpName {
    ghost use Rattle.std.specs.Prelude.{◌≡◌};
    ghost use Rattle.script.specs.OpWords.{op_word};

    /// The word of the operation.
    pub fn word(self) -> &'static [u8]
        ensures { result.now ≡ op_word self }
    {
        match self {
            OpName::Alloc => b"alloc",
            OpName::Zalloc => b"zalloc",
            OpName::Free => b"free",
            OpName::CacheAlloc => b"cache_alloc",
            OpName::CacheFree => b"cache_free",
            OpName::Copy => b"copy",
            OpName::Clear => b"clear",
            OpName::Store => b"store",
            OpName::Link => b"link",
            OpName::Load => b"load",
            OpName::Reap => b"reap",
        }
    }
}
