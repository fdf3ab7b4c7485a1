ghost use Rattle.core_format.specs.Spelling.{spelled_audit, spelled_depot, spelled_fail, spelled_large, spelled_numbers, spelled_own, spelled_place, spelled_saved, spelled_slab, spelled_trans};

use crate::items::{AuditItem, CpuPlace, DepotItem, LargeItem, OwnRoot, SlabItem};
use crate::spell::{Spell, put_all, put_bytes, put_count, put_numbers, put_two, put_words};
use trans_log::{Fail, Saved, Trans};
use umem_base::{NoMemory, Sequence};

impl Spell for OwnRoot {
    ghost spelled = { spelled_own };

    fn put(&self, out: &mut Vec<u8>) -> Result<(), NoMemory> {
        put_all(out, self.words.as_slice())
    }
}

impl Spell for SlabItem {
    ghost spelled = { spelled_slab };

    fn put(&self, out: &mut Vec<u8>) -> Result<(), NoMemory> {
        self.base.put(out)?;
        put_two(out, &self.cache, &self.colour)?;
        self.first.put(out)?;
        put_numbers(out, self.free.as_slice())
    }
}

impl Spell for LargeItem {
    ghost spelled = { spelled_large };

    fn put(&self, out: &mut Vec<u8>) -> Result<(), NoMemory> {
        put_two(out, &self.base, &self.size)
    }
}

impl Spell for CpuPlace {
    ghost spelled = { spelled_place };

    fn put(&self, out: &mut Vec<u8>) -> Result<(), NoMemory> {
        put_numbers(out, self.loaded.as_slice())?;
        put_numbers(out, self.previous.as_slice())
    }
}

/// A full magazine of a depot, whose number of chunks is known from its cache.
impl Spell for Sequence<u32> {
    ghost spelled = { spelled_numbers };

    fn put(&self, out: &mut Vec<u8>) -> Result<(), NoMemory> {
        put_all(out, self.as_slice())
    }
}

impl Spell for DepotItem {
    ghost spelled = { spelled_depot };

    fn put(&self, out: &mut Vec<u8>) -> Result<(), NoMemory> {
        let full = self.full.as_slice();
        put_count(out, full.len())?;
        put_all(out, full)
    }
}

impl Spell for AuditItem {
    ghost spelled = { spelled_audit };

    fn put(&self, out: &mut Vec<u8>) -> Result<(), NoMemory> {
        put_two(out, &self.chunk, &self.thread)?;
        self.time.put(out)?;
        put_words(out, self.stack.as_slice())
    }
}

impl Spell for Trans {
    ghost spelled = { spelled_trans };

    fn put(&self, out: &mut Vec<u8>) -> Result<(), NoMemory> {
        put_two(out, &self.kind, &self.cpu)?;
        put_two(out, &self.thread, &self.chunk)?;
        put_two(out, &self.address, &self.time)?;
        put_words(out, self.stack.as_slice())
    }
}

impl Spell for Fail {
    ghost spelled = { spelled_fail };

    fn put(&self, out: &mut Vec<u8>) -> Result<(), NoMemory> {
        put_two(out, &self.thread, &self.cache)?;
        put_two(out, &self.size, &self.time)
    }
}

impl Spell for Saved {
    ghost spelled = { spelled_saved };

    fn put(&self, out: &mut Vec<u8>) -> Result<(), NoMemory> {
        put_two(out, &self.time, &self.chunk)?;
        put_bytes(out, self.bytes.as_slice())
    }
}
