ghost use Rattle.std.specs.Prelude.{◌≡◌};
ghost use Rattle.umem_cli.specs.Status.{exit_number};

/// How a call ended. The numbers are those of the program's exit.
#[derive(Clone, Copy, Debug, PartialEq, Eq)]
pub enum Status {
    Done,
    /// A line of commands was refused, or all of them, since they have too many bytes.
    Refused,
    /// The words are no command.
    Usage,
    /// The file is no script.
    BadScript,
    /// The file is no core, or has too many bytes.
    BadCore,
    /// The folder failed, at an opening or a read, or the input did.
    ReadFault,
    /// A stream, or the file of a core, failed before it had taken all.
    WriteFault,
    NoMemory,
    /// The folder has no such file.
    NoFile,
}

impl Status {
    /// The number that the program exits with.
    pub fn code(self) -> u8
        ensures { result ≡ exit_number self }
    {
        match self {
            Status::Done => 0,
            Status::Refused => 1,
            Status::Usage => 2,
            Status::BadScript => 3,
            Status::BadCore => 4,
            Status::ReadFault => 5,
            Status::WriteFault => 6,
            Status::NoMemory => 7,
            Status::NoFile => 8,
        }
    }
}
