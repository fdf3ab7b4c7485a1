ghost use Rattle.std.specs.Prelude.{◌≡◌};
ghost use Rattle.umem_cli.specs.declared.refusal.Refusal.TheVariants.{NoMemory};
ghost use Rattle.umem_cli.specs.Refusal.{refusal_of_commands, refusal_of_core, refusal_of_read, refusal_of_script};

use core_format::{CoreFault, Fault};
use script::{Reason, ScriptFault};
use umem_base::{NoMemory, ReadAll, ReadFile};

/// Why nothing more is done. Each is told by a line, but want of memory.
#[derive(Clone, Copy, Debug, PartialEq, Eq)]
pub enum Refusal {
    /// The file of a script has a bad line.
    BadScript { line: u32, reason: Reason },
    /// The file of a core has too many bytes.
    CoreTooLong,
    /// The file of a core breaks a rule of the format.
    BadCore { offset: u64, fault: Fault },
    /// The folder has no such file.
    NoFile,
    /// The folder failed, at an opening or a read.
    ReadFault,
    /// The input failed, from which commands are read.
    CommandsFault,
    /// The commands have too many bytes.
    CommandsTooLong,
    NoMemory,
}

impl From<ReadFile> for Refusal {
    ghost from_gives = { λ fault r. r ≡ refusal_of_read fault };

    /// Of the file of a script.
    fn from(fault: ReadFile) -> Refusal {
        match fault {
            ReadFile::Missing => Refusal::NoFile,
            ReadFile::ReadFault => Refusal::ReadFault,
            ReadFile::TooLong => Refusal::BadScript {
                line: 0,
                reason: Reason::Limit,
            },
            ReadFile::NoMemory => Refusal::NoMemory,
        }
    }
}

impl From<ScriptFault> for Refusal {
    ghost from_gives = { λ fault r. r ≡ refusal_of_script fault };

    fn from(fault: ScriptFault) -> Refusal {
        match fault {
            ScriptFault::Bad { line, reason } => Refusal::BadScript { line, reason },
            ScriptFault::NoMemory => Refusal::NoMemory,
        }
    }
}

impl From<CoreFault> for Refusal {
    ghost from_gives = { λ fault r. r ≡ refusal_of_core fault };

    fn from(fault: CoreFault) -> Refusal {
        match fault {
            CoreFault::Bad { offset, fault } => Refusal::BadCore { offset, fault },
            CoreFault::NoMemory => Refusal::NoMemory,
        }
    }
}

impl From<ReadAll> for Refusal {
    ghost from_gives = { λ fault r. r ≡ refusal_of_commands fault };

    /// Of the commands.
    fn from(fault: ReadAll) -> Refusal {
        match fault {
            ReadAll::ReadFault => Refusal::CommandsFault,
            ReadAll::TooLong => Refusal::CommandsTooLong,
            ReadAll::NoMemory => Refusal::NoMemory,
        }
    }
}

impl From<NoMemory> for Refusal {
    ghost from_gives = { λ _ r. r ≡ NoMemory };

    fn from(_: NoMemory) -> Refusal {
        Refusal::NoMemory
    }
}
