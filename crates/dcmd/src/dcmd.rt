/// A command over a core, after the dcmds that libumem's module of mdb(1) has. `UmemContents`, which tells what freed
/// buffers held, is this project's own, and so is the form of all answers.
#[derive(Clone, Copy, Debug, PartialEq, Eq)]
pub enum Dcmd {
    /// A line for each cache.
    UmemCache,
    /// A line for each damaged chunk.
    UmemVerify,
    /// The transaction log.
    UmemLog,
    /// The contents log.
    UmemContents,
    /// Who holds the memory: `every` group, or the large ones.
    Umausers { every: bool },
    /// What stands at an address.
    Whatis { address: u64 },
    /// The buffers that no chain of pointers leads to.
    Findleaks,
    /// The addresses of the allocated buffers, or of those of the cache that has an address.
    WalkUmem { cache: Option<u64> },
    /// The addresses of the free chunks, likewise.
    WalkFreemem { cache: Option<u64> },
}
