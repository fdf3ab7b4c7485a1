ghost use Rattle.std.specs.Prelude.{◌≡◌};
ghost use Rattle.umem_base.specs.Faults.{Counts};
ghost use Rattle.umem_base.specs.Folder.{bytes_of};
ghost use Rattle.umem_base.specs.Transfer.{ReadsAll, ReadsFile, CountsFault, CountsReadFault, LeavesActivity, LeavesBehind, LeavesWriting, WritesFile, WritesWhole};

use crate::outside::{Failed, Folder, Sink, Source};
use crate::pieces::{OfFolder, OfSource, read_left};
use crate::read_all_error::ReadAll;
use crate::read_file_error::ReadFile;
use crate::text::Text;
use crate::write_file_error::WriteFile;
use std::alloc::Global;

/// A sink failed before it had taken a whole piece.
#[derive(Clone, Copy, Debug, PartialEq, Eq)]
pub struct WriteFault;

impl From<Failed> for WriteFault {
    fn from(_: Failed) -> WriteFault {
        WriteFault
    }
}

/// The bytes of a file, if they are at most `limit`. A refusal in the middle leaves the folder reading, behind
/// what was read until then.
pub fn read_file<F: Folder>(
    alloc: Global,
    files: &mut F,
    name: &Text,
    limit: usize,
) -> Result<Vec<u8>, ReadFile>
    ensures bytes { ReadsFile (F.files files.old) name.now limit result }
    ensures cause { CountsReadFault (F.read_faults files.old) (F.read_faults files.new) result }
    ensures activity { LeavesActivity (bytes_of (F.files files.old) name.now) limit
        (F.activity files.old) (F.activity files.new) result }
    ensures files { F.files files.new ≡ F.files files.old }
    ensures write_faults { F.write_faults files.new ≡ F.write_faults files.old }
{
    if files.open_read(name)? {
        Ok(read_left::<F, OfFolder>(alloc, files, limit)?)
    } else {
        Err(ReadFile::Missing)
    }
}

/// The bytes left of a source, if they are at most `limit`. A refusal leaves the source behind what was read until
/// then. A source without end is too long.
pub fn read_all<S: Source>(alloc: Global, from: &mut S, limit: usize) -> Result<Vec<u8>, ReadAll>
    ensures bytes { ReadsAll (S.left from.old) limit result }
    ensures cause { CountsFault (S.faults from.old) (S.faults from.new) result }
    ensures left { LeavesBehind (S.left from.old) limit (S.left from.new) result }
{
    read_left::<S, OfSource>(alloc, from, limit)
}

/// Writes all of the bytes. It takes no memory.
pub fn write_whole<K: Sink>(to: &mut K, bytes: &[u8]) -> Result<(), WriteFault>
    ensures taken { WritesWhole (K.taken to.old) (K.taken to.new) bytes.now result }
    ensures cause { Counts (K.faults to.old) (K.faults to.new) result }
{
    let mut at = 0;
    while at < bytes.len() {
        at += to.write(&bytes[at..])?;
    }
    Ok(())
}

/// Creates the file, or empties it where it is there, and writes all of the bytes. After `NotCreated` the folder is
/// as before; after `NotWritten` it is writing a file that has a front of the bytes. It takes no memory.
pub fn write_file<F: Folder>(files: &mut F, name: &Text, bytes: &[u8]) -> Result<(), WriteFile>
    ensures written { WritesFile (F.files files.old) (F.files files.new) name.now bytes.now result }
    ensures activity { LeavesWriting (F.files files.old) name.now (F.activity files.old) (F.activity files.new) result }
    ensures cause { Counts (F.write_faults files.old) (F.write_faults files.new) result }
    ensures read_faults { F.read_faults files.new ≡ F.read_faults files.old }
{
    let Ok(()) = files.create(name) else {
        return Err(WriteFile::NotCreated);
    };
    let mut written = 0;
    while written < bytes.len() {
        let Ok(went) = files.write(&bytes[written..]) else {
            return Err(WriteFile::NotWritten);
        };
        written += went;
    }
    Ok(())
}
