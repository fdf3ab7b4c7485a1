ghost use Rattle.std.specs.Prelude.{◌≡◌, ◌++◌, OnOk};
ghost use Rattle.std.specs.List.{flat_map};
ghost use Rattle.core_format.specs.Spelling.{ctor_number, spelled_cache, spelled_cache_numbers, spelled_name};

use crate::items::CacheItem;
use crate::limits::{NAME_PADDING, NO_CTOR};
use crate::spell::Spell;
use umem_base::NoMemory;

/// Appends a name, with zeros behind it up to 32 bytes.
fn put_name(out: &mut Vec<u8>, name: &[u8]) -> Result<(), NoMemory>
    ensures { OnOk result (out.new.items ≡ out.old.items ++ spelled_name name.now) }
{
    out.extend_from_slice(name)?;
    let long = name.len().min(NAME_PADDING.len());
    out.extend_from_slice(&NAME_PADDING[long..])?;
    Ok(())
}

fn ctor_number(ctor: Option<u8>) -> u32
    ensures { result ≡ ctor_number ctor }
{
    match ctor {
        Some(byte) => u32::from(byte),
        None => NO_CTOR,
    }
}

fn put_numbers(out: &mut Vec<u8>, version: u32, item: &CacheItem) -> Result<(), NoMemory>
    ensures { OnOk result (out.new.items ≡ out.old.items ++ spelled_cache_numbers version item.now) }
{
    item.def.size.put(out)?;
    item.def.align.put(out)?;
    item.grows.put(out)?;
    if version == 1 {
        return Ok(());
    }
    ctor_number(item.def.ctor).put(out)
}

fn put_cache(out: &mut Vec<u8>, version: u32, item: &CacheItem) -> Result<(), NoMemory>
    ensures { OnOk result (out.new.items ≡ out.old.items ++ spelled_cache version item.now) }
{
    put_name(out, item.def.name.as_slice())?;
    put_numbers(out, version, item)
}

/// Appends the caches of a core of that version.
pub fn put_caches(out: &mut Vec<u8>, version: u32, caches: &[CacheItem]) -> Result<(), NoMemory>
    ensures { OnOk result (out.new.items ≡ out.old.items ++ flat_map (spelled_cache version) caches.now) }
{
    for item in caches {
        put_cache(out, version, item)?;
    }
    Ok(())
}
