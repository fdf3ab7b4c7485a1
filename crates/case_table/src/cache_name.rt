ghost use Rattle.std.specs.Prelude.{◌≡◌, ◌<◌, ◌++◌, OnOk, OnErr};
ghost use Rattle.std.specs.List.{list_all};
ghost use Rattle.case_table.specs.CacheName.{begins_with_letter, class_name, is_cache_name, is_name_byte, is_reserved_name};

use crate::limits::CLASS_COUNT;
use crate::size_classes::class_size;
use umem_base::{NoMemory, Text, put_decimal};

/// The bytes of the longest name that a cache may have.
pub const MOST_NAME_BYTES: usize = 31;

/// What stands before the size in the name of a size class, as umem_alloc(3MALLOC) names its caches.
pub const CLASS_PREFIX: &[u8] = b"umem_alloc_";

/// What large buffers, which no cache serves, are told under.
pub const OVERSIZE_NAME: &[u8] = b"umem_oversize";

/// Tells whether a cache may have the name, the reserved ones aside. The rule is this project's own.
pub fn is_cache_name(name: &[u8]) -> bool
    ensures { result ≡ is_cache_name name.now }
{
    name.len() <= MOST_NAME_BYTES && begins_with_letter(name) && are_name_bytes(name)
}

fn begins_with_letter(name: &[u8]) -> bool
    ensures { result ≡ begins_with_letter name.now }
{
    name.first().is_some_and(|first| first.is_ascii_lowercase())
}

fn are_name_bytes(name: &[u8]) -> bool
    ensures { result ≡ list_all is_name_byte name.now }
{
    name.iter().all(|byte| is_name_byte(*byte))
}

fn is_name_byte(byte: u8) -> bool
    ensures { result ≡ is_name_byte byte }
{
    byte.is_ascii_lowercase() || byte.is_ascii_digit() || byte == b'_'
}

/// Tells whether the name is kept for the size classes or for large buffers, so that none may be declared
/// under it.
pub fn is_reserved_name(name: &[u8]) -> bool
    ensures { result ≡ is_reserved_name name.now }
{
    name.starts_with(CLASS_PREFIX) || name == OVERSIZE_NAME
}

/// Appends the name of a size class, its size in decimal behind the prefix. On refusal `out` is as before.
pub fn put_class_name(out: &mut Text, class: u32) -> Result<(), NoMemory>
    requires { class < CLASS_COUNT }
    ensures ok { OnOk result (out.new ≡ out.old ++ class_name class) }
    ensures err { OnErr result (out.new ≡ out.old) }
{
    let before = out.as_slice().len();
    out.push_slice(CLASS_PREFIX)?;
    let put = put_decimal(out, u64::from(class_size(class)), 0);
    if put.is_err() {
        out.truncate(before);
    }
    put
}
