use crate::flags::DebugFlags;
use bitflags::Flags;

/// What the text of UMEM_DEBUG switches on.
#[derive(Clone, Copy, PartialEq, Eq, Debug)]
pub struct Options {
    pub flags: DebugFlags,
    /// How many frames of a call's stack a transaction keeps.
    pub frames: u32,
    /// How many bytes of a freed buffer the contents log keeps.
    pub contents: u32,
}

impl Options {
    ghost use Rattle.std.specs.Prelude.{◌≡◌};
    ghost use Rattle.umem_options.specs.Flags.{has_audit, has_contents, has_guards};

    pub fn has_audit(&self) -> bool
        ensures { result ≡ has_audit self.now }
    {
        self.flags.contains(DebugFlags::AUDIT)
    }

    pub fn has_contents(&self) -> bool
        ensures { result ≡ has_contents self.now }
    {
        self.flags.contains(DebugFlags::CONTENTS)
    }

    pub fn has_guards(&self) -> bool
        ensures { result ≡ has_guards self.now }
    {
        self.flags.contains(DebugFlags::GUARDS)
    }
}

/// The sizes of the logs in bytes, as the text of UMEM_LOGGING asks for them. A log of size 0 is disabled.
#[derive(Clone, Copy, PartialEq, Eq, Debug)]
pub struct Logging {
    pub transaction: u64,
    pub contents: u64,
    pub fail: u64,
}
