ghost use Rattle.std.specs.Prelude.{◌≡◌, ℕ, ◌<◌, ◌≤◌, [], length, take, Some, IfOk, OnOk, OnErr};
ghost use Rattle.umem_base.specs.Faults.{Counts};
ghost use Rattle.umem_base.specs.Folder.{Files, Activity, IsReading, IsWriting, Opens, ReadsOn, Sets, Grows, told_name};
ghost use Rattle.umem_base.specs.Folder as folder;

use super::Failed;
use crate::text::Text;

/// Files by their names. A folder is idle, or reads one file, or writes one.
pub trait Folder {
    /// The bytes under each name, where the folder tells them.
    ghost files: { Self → Files };

    ghost activity: { Self → Activity };

    /// How often an opening for reading or a read has failed.
    ghost read_faults: { Self → ℕ };

    /// How often a creation or a write has failed.
    ghost write_faults: { Self → ℕ };

    /// Opens a file for reading from its start, and answers whether there is one. A missing name is no
    /// fault, and changes nothing. After a fault everything is as before.
    fn open_read(&mut self, name: &Text) -> Result<bool, Failed>
        ensures opens { Opens (files self.old) name.now (activity self.old) (activity self.new) result }
        ensures files { files self.new ≡ files self.old }
        ensures cause { Counts (read_faults self.old) (read_faults self.new) result }
        ensures write_faults { write_faults self.new ≡ write_faults self.old };

    /// Moves the next bytes of the open file into the front of the buffer, and answers how many. A buffer that is
    /// not empty gets one or more, unless the file has ended. After a fault everything is as before but the buffer.
    fn read(&mut self, buffer: &mut [u8]) -> Result<usize, Failed>
        requires { IsReading (activity self.old) }
        ensures bound { IfOk result (λ n. n ≤ length buffer.new) }
        ensures moved { ReadsOn (activity self.old) (activity self.new) result buffer.new }
        ensures files { files self.new ≡ files self.old }
        ensures cause { Counts (read_faults self.old) (read_faults self.new) result }
        ensures write_faults { write_faults self.new ≡ write_faults self.old };

    /// Makes the file empty, whether it was there or not, and is then writing it. After a fault everything
    /// is as before.
    fn create(&mut self, name: &Text) -> Result<(), Failed>
        ensures writing { OnOk result (activity self.new ≡ folder.Writing (told_name (files self.new) name.now)) }
        ensures emptied { OnOk result (Sets (files self.old) (files self.new) name.now (Some [])) }
        ensures err { OnErr result ((activity self.new ≡ activity self.old) × (files self.new ≡ files self.old)) }
        ensures cause { Counts (write_faults self.old) (write_faults self.new) result }
        ensures read_faults { read_faults self.new ≡ read_faults self.old };

    /// Appends the first bytes of the piece to the file that is written, and answers how many: at least
    /// one, unless the piece is empty. After a fault everything is as before.
    fn write(&mut self, bytes: &[u8]) -> Result<usize, Failed>
        requires { IsWriting (activity self.old) }
        ensures bound { IfOk result (λ n. n ≤ length bytes.now) }
        ensures progress { 0 < length bytes.now → IfOk result (λ n. 0 < n) }
        ensures grows { IfOk result
            (λ n. Grows (activity self.old) (files self.old) (files self.new) (take n bytes.now)) }
        ensures activity { activity self.new ≡ activity self.old }
        ensures err { OnErr result (files self.new ≡ files self.old) }
        ensures cause { Counts (write_faults self.old) (write_faults self.new) result }
        ensures read_faults { read_faults self.new ≡ read_faults self.old };
}
