ghost use Rattle.std.specs.Prelude.{◌≡◌};
ghost use Rattle.umem_base.specs.Transfer.{file_refusal};
ghost use Rattle.umem_base.specs.declared.read_file_error.ReadFile.TheVariants.{ReadFault};

use crate::outside::Failed;
use crate::read_all_error::ReadAll;

/// Why a file was not read.
#[derive(Clone, Copy, Debug, PartialEq, Eq)]
pub enum ReadFile {
    /// The folder has no file of that name.
    Missing,
    /// The folder failed, at the opening or at a read.
    ReadFault,
    /// The file has more bytes than the limit.
    TooLong,
    NoMemory,
}

impl From<Failed> for ReadFile {
    ghost from_gives = { λ _ e. e ≡ ReadFault };

    fn from(_: Failed) -> ReadFile {
        ReadFile::ReadFault
    }
}

impl From<ReadAll> for ReadFile {
    ghost from_gives = { λ refusal e. e ≡ file_refusal refusal };

    fn from(refusal: ReadAll) -> ReadFile {
        match refusal {
            ReadAll::ReadFault => ReadFile::ReadFault,
            ReadAll::TooLong => ReadFile::TooLong,
            ReadAll::NoMemory => ReadFile::NoMemory,
        }
    }
}
