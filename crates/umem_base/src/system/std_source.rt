ghost use Rattle.std.specs.Prelude.{◌≡◌};

use crate::outside::{Failed, Source};
use std::io::Read;

/// A source over a reader. It passes on what the reader tells of the bytes that are left.
#[derive(Debug, Drop)]
pub struct StdSource<R: Read> {
    pub reader: R,
    pub faults: u64,
}

impl<R: Read> StdSource<R> {
    pub fn new(reader: R) -> StdSource<R>
        ensures reader { result.reader ≡ reader }
        ensures faults { result.faults ≡ 0 }
    {
        StdSource { reader, faults: 0 }
    }
}

impl<R: Read> Source for StdSource<R> {
    ghost left = { λ s. R.remaining s.reader };

    ghost faults = { λ s. s.faults };

    fn read(&mut self, buffer: &mut [u8]) -> Result<usize, Failed> {
        match self.reader.read(buffer) {
            Ok(count) => Ok(count),
            Err(_) => {
                self.faults = self.faults.saturating_add(1);
                Err(Failed)
            }
        }
    }
}
