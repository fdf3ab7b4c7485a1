ghost use Rattle.std.specs.Prelude.{◌≡◌, ◌<◌, ◌^◌};
ghost use Rattle.umem_base.specs.Span.{span_end};

use crate::pages::PAGE_BYTES;

/// A run of pages: the address of its first byte, and how many pages it has.
#[derive(Clone, Copy, Debug, PartialEq, Eq)]
pub struct Span {
    pub base: u64,
    pub pages: u64,
}

impl Span {
    /// The address past the last byte.
    pub fn end(&self) -> u64
        requires { span_end self.now < 2 ^ 64 }
        ensures { result ≡ span_end self.now }
    {
        self.base + PAGE_BYTES * self.pages
    }
}
