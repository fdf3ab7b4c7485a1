ghost use Rattle.std.specs.Prelude.{ℕ, ◌<◌, ◌≤◌, List, Option, length, IfOk};
ghost use Rattle.std.specs.Io.KnownBytes.{WriteAppends};
ghost use Rattle.umem_base.specs.Faults.{Counts};

use super::Failed;

/// A device that takes bytes.
pub trait Sink {
    /// The bytes that it has taken, where the device tells them.
    ghost taken: { Self → Option (List ℕ) };

    /// How often it has failed.
    ghost faults: { Self → ℕ };

    /// Takes the first bytes of the piece, and answers how many: at least one, unless the piece is empty.
    /// After a fault the bytes taken are as before.
    fn write(&mut self, bytes: &[u8]) -> Result<usize, Failed>
        ensures bound { IfOk result (λ n. n ≤ length bytes.now) }
        ensures progress { 0 < length bytes.now → IfOk result (λ n. 0 < n) }
        ensures taken { WriteAppends (taken self.old) (taken self.new) result bytes.now }
        ensures cause { Counts (faults self.old) (faults self.new) result };
}
