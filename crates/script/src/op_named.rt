ghost use Rattle.std.specs.Prelude.{◌≡◌};
ghost use Rattle.script.specs.OpWords.{op_named};
ghost use Rattle.script.specs.Reading.{other_op_named};

use crate::operation::OpName;

/// The operation that is called so.
pub(crate) fn op_named(word: &[u8]) -> Option<OpName>
    ensures { result ≡ op_named word.now }
{
    if word == b"alloc".as_slice() {
        return Some(OpName::Alloc);
    }
    if word == b"zalloc".as_slice() {
        return Some(OpName::Zalloc);
    }
    if word == b"free".as_slice() {
        return Some(OpName::Free);
    }
    if word == b"cache_alloc".as_slice() {
        return Some(OpName::CacheAlloc);
    }
    if word == b"cache_free".as_slice() {
        return Some(OpName::CacheFree);
    }
    other_op_named(word)
}

// The operation that is called so, if it neither allocates nor frees.
fn other_op_named(word: &[u8]) -> Option<OpName>
    ensures { result ≡ other_op_named word.now }
{
    if word == b"copy".as_slice() {
        return Some(OpName::Copy);
    }
    if word == b"clear".as_slice() {
        return Some(OpName::Clear);
    }
    if word == b"store".as_slice() {
        return Some(OpName::Store);
    }
    if word == b"link".as_slice() {
        return Some(OpName::Link);
    }
    if word == b"load".as_slice() {
        return Some(OpName::Load);
    }
    if word == b"reap".as_slice() {
        return Some(OpName::Reap);
    }
    None
}
