ghost use Rattle.std.specs.Prelude.{ℕ, ◌≤◌, List, Option, length, IfOk};
ghost use Rattle.std.specs.Io.KnownBytes.{ReadConsumes};
ghost use Rattle.umem_base.specs.Faults.{Counts};

use super::Failed;

/// A device that gives bytes.
pub trait Source {
    /// The bytes that are left, where the device tells them.
    ghost left: { Self → Option (List ℕ) };

    /// How often it has failed.
    ghost faults: { Self → ℕ };

    /// Moves the first bytes that are left into the front of the buffer, and answers how many. A buffer that is
    /// not empty gets one or more, unless none is left. After a fault the bytes that are left are as before.
    fn read(&mut self, buffer: &mut [u8]) -> Result<usize, Failed>
        ensures bound { IfOk result (λ n. n ≤ length buffer.new) }
        ensures moved { ReadConsumes (left self.old) (left self.new) result buffer.new }
        ensures cause { Counts (faults self.old) (faults self.new) result };
}
