ghost use Rattle.std.specs.Prelude.{◌≡◌, ℕ, List, ◌++◌, OnOk};
ghost use Rattle.std.specs.List.{flat_map};
ghost use Rattle.byteorder.specs.Endian.{little_bytes};
ghost use Rattle.core_format.specs.Spelling.{spelled_count, spelled_magazine, spelled_words};

use umem_base::NoMemory;

/// What stands in a core as bytes of its own.
pub trait Spell {
    /// The bytes of a value.
    ghost spelled: { Self → List ℕ };

    /// Appends the bytes.
    fn put(&self, out: &mut Vec<u8>) -> Result<(), NoMemory>
        ensures { OnOk result (out.new.items ≡ out.old.items ++ spelled self.now) };
}

impl Spell for u32 {
    ghost spelled = { little_bytes 4 };

    fn put(&self, out: &mut Vec<u8>) -> Result<(), NoMemory> {
        out.extend_from_slice(&self.to_le_bytes())?;
        Ok(())
    }
}

impl Spell for u64 {
    ghost spelled = { little_bytes 8 };

    fn put(&self, out: &mut Vec<u8>) -> Result<(), NoMemory> {
        out.extend_from_slice(&self.to_le_bytes())?;
        Ok(())
    }
}

/// Appends one item after the other.
pub fn put_all<T: Spell>(out: &mut Vec<u8>, items: &[T]) -> Result<(), NoMemory>
    ensures { OnOk result (out.new.items ≡ out.old.items ++ flat_map T.spelled items.now) }
{
    for item in items {
        item.put(out)?;
    }
    Ok(())
}

/// Appends the lowest four bytes of a number of items.
pub fn put_count(out: &mut Vec<u8>, count: usize) -> Result<(), NoMemory>
    ensures { OnOk result (out.new.items ≡ out.old.items ++ little_bytes 4 count) }
{
    let bytes = (count as u64).to_le_bytes();
    out.extend_from_slice(&bytes[..4])?;
    Ok(())
}

/// Appends two numbers.
pub fn put_two<A: Spell, B: Spell>(out: &mut Vec<u8>, first: &A, second: &B) -> Result<(), NoMemory>
    ensures { OnOk result (out.new.items ≡ out.old.items ++ (A.spelled first.now ++ B.spelled second.now)) }
{
    first.put(out)?;
    second.put(out)
}

/// Appends how many numbers there are, and the numbers.
pub fn put_numbers(out: &mut Vec<u8>, numbers: &[u32]) -> Result<(), NoMemory>
    ensures { OnOk result (out.new.items ≡ out.old.items ++ spelled_magazine numbers.now) }
{
    put_count(out, numbers.len())?;
    put_all(out, numbers)
}

/// Appends how many words there are, and the words.
pub fn put_words(out: &mut Vec<u8>, words: &[u64]) -> Result<(), NoMemory>
    ensures { OnOk result (out.new.items ≡ out.old.items ++ (spelled_count words.now ++ spelled_words words.now)) }
{
    put_count(out, words.len())?;
    put_all(out, words)
}

/// Appends how many bytes there are, and the bytes.
pub fn put_bytes(out: &mut Vec<u8>, bytes: &[u8]) -> Result<(), NoMemory>
    ensures { OnOk result (out.new.items ≡ out.old.items ++ (spelled_count bytes.now ++ bytes.now)) }
{
    put_count(out, bytes.len())?;
    out.extend_from_slice(bytes)?;
    Ok(())
}
