ghost use Rattle.std.specs.Prelude.{◌≡◌, take};
ghost use Rattle.umem_options.specs.Limits.{IsOptions};
ghost use Rattle.heap_logs.specs.Saved.{saved_length};

use umem_options::{Options, contents_count};

/// What is kept of the bytes of a chunk that is freed, of a cache of that size: the first of them, as many as the
/// contents log keeps, and none behind the object. The bytes may be those of the whole chunk.
pub fn saved_piece<'a>(options: &Options, size: u32, bytes: &'a [u8]) -> &'a [u8]
    requires { IsOptions options.now }
    ensures { result.now ≡ take (saved_length options.now size) bytes.now }
{
    let count = contents_count(options).min(size) as usize;
    &bytes[..bytes.len().min(count)]
}
