/// What is wrong with the bytes of a core. The rules are this project's own.
#[derive(Clone, Copy, Debug, PartialEq, Eq)]
pub enum Fault {
    /// The file does not begin as a core does.
    BadMagic,
    /// The version is neither 1 nor 2.
    BadVersion,
    /// A flag that no option sets, or audit without guards.
    BadFlags,
    /// Fewer bytes are left than the record has.
    Short,
    /// A number of items, frames or bytes passes its bound.
    BadLength,
    /// Pages meet those of a slab or a large buffer.
    Overlap,
    /// Slabs, large buffers or the chunks of a list are not in order.
    Unsorted,
    /// A cache is not the class of its number, or is none that may be declared.
    BadCache,
    /// A slab's base, cache, colour or first chunk can't be.
    BadSlab,
    /// A large buffer has no pages in the arena, or is not large.
    BadSpan,
    /// A list or a magazine has a chunk that can't stand there.
    BadRound,
    /// A free chunk stands in two places.
    RoundTwice,
    /// The last transaction of a chunk can't be.
    BadAudit,
    /// An item of a log can't be.
    BadLog,
    /// Bytes follow the last section.
    TrailingBytes,
}

impl Fault {
    ghost use Rattle.std.specs.Prelude.{◌≡◌};
    ghost use Rattle.core_format.specs.FaultWords.{fault_word};

    /// The word that it is told by.
    pub fn word(self) -> &'static [u8]
        ensures { result.now ≡ fault_word self }
    {
        match self {
            Fault::BadMagic => b"bad-magic",
            Fault::BadVersion => b"bad-version",
            Fault::BadFlags => b"bad-flags",
            Fault::Short => b"short",
            Fault::BadLength => b"bad-length",
            Fault::Overlap => b"overlap",
            Fault::Unsorted => b"unsorted",
            Fault::BadCache => b"bad-cache",
            Fault::BadSlab => b"bad-slab",
            Fault::BadSpan => b"bad-span",
            Fault::BadRound => b"bad-round",
            Fault::RoundTwice => b"round-twice",
            Fault::BadAudit => b"bad-audit",
            Fault::BadLog => b"bad-log",
            Fault::TrailingBytes => b"trailing-bytes",
        }
    }
}
