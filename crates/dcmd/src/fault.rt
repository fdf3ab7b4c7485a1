/// Why a line is no command. Where several apply to it, the one that stands first here is told.
#[derive(Clone, Copy, Debug, PartialEq, Eq)]
pub enum DcmdFault {
    /// The line has no two colons, no name behind them, or another name.
    Unknown,
    /// No walker stands behind `walk`, or another one.
    UnknownWalker,
    /// What stands before the colons is no hexadecimal number, or passes 64 bits.
    BadNumber,
    /// No address stands where one is needed.
    NeedsAddress,
    /// An address stands where none is taken.
    TakesNoAddress,
    /// A further word stands where none is taken.
    ExtraWords,
}

impl DcmdFault {
    ghost use Rattle.std.specs.Prelude.{◌≡◌};
    ghost use Rattle.dcmd.specs.FaultTexts.{fault_text};

    /// What is told of the fault, in lower case.
    pub fn text(&self) -> &'static [u8]
        ensures { result.now ≡ fault_text self.now }
    {
        self.as_str().as_bytes()
    }

    fn as_str(&self) -> &'static str
        ensures { result.now ≡ fault_text self.now }
    {
        match *self {
            DcmdFault::Unknown => "unknown dcmd",
            DcmdFault::UnknownWalker => "unknown walker",
            DcmdFault::BadNumber => "bad number",
            DcmdFault::NeedsAddress => "needs an address",
            DcmdFault::TakesNoAddress => "takes no address",
            DcmdFault::ExtraWords => "extra words",
        }
    }
}
