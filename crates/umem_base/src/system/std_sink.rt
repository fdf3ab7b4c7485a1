ghost use Rattle.std.specs.Prelude.{◌≡◌};

use crate::outside::{Failed, Sink};
use std::io::Write;

/// A sink over a writer that keeps nothing back. It passes on what the writer tells of the bytes that it
/// holds. A writer that takes nothing of a piece has failed.
#[derive(Debug, Drop)]
pub struct StdSink<W: Write> {
    pub writer: W,
    pub faults: u64,
}

impl<W: Write> StdSink<W> {
    pub fn new(writer: W) -> StdSink<W>
        ensures writer { result.writer ≡ writer }
        ensures faults { result.faults ≡ 0 }
    {
        StdSink { writer, faults: 0 }
    }
}

impl<W: Write> Sink for StdSink<W> {
    ghost taken = { λ s. W.contents s.writer };

    ghost faults = { λ s. s.faults };

    fn write(&mut self, bytes: &[u8]) -> Result<usize, Failed> {
        match self.writer.write(bytes) {
            Ok(count) if count > 0 || bytes.is_empty() => Ok(count),
            _ => {
                self.faults = self.faults.saturating_add(1);
                Err(Failed)
            }
        }
    }
}
