ghost use Rattle.script.specs.declared.tree.Header.{Header};
ghost use Rattle.umem_base.specs.Lines.{words_of};
ghost use Rattle.script.specs.Reading.{GivesCache, GivesCached, GivesCall, GivesLinked, GivesLoaded, GivesLoneSlot, GivesSized, GivesSlots, GivesStack, GivesStored};

use crate::arguments::{read_stack, split_one, split_stack, split_three, split_two};
use crate::both::both;
use crate::draft::Draft;
use crate::fields::{read_number, read_slot, read_stored};
use crate::limits::MOST_OFFSET;
use crate::line_fault::LineFault;
use crate::operation::{Op, OpName};
use crate::reasons::Reason;
use std::alloc::Global;
use umem_base::{Stack, Text};

const COUNT: LineFault = LineFault::Refused(Reason::Count);

impl<'a> Draft<'a> {
    /// Reads what stands behind an operation.
    pub(crate) fn read_call(
        &self,
        alloc: Global,
        name: OpName,
        line: &[u8],
    ) -> Result<(Op, Stack), LineFault>
        ensures { GivesCall result self.now.header name (words_of line.now) }
    {
        match name {
            OpName::Alloc => {
                let (slot, (size, stack)) = self.read_sized(alloc, line)?;
                Ok((Op::Alloc { slot, size }, stack))
            }
            OpName::Zalloc => {
                let (slot, (size, stack)) = self.read_sized(alloc, line)?;
                Ok((Op::Zalloc { slot, size }, stack))
            }
            OpName::Free => {
                let (slot, (size, stack)) = self.read_sized(alloc, line)?;
                Ok((Op::Free { slot, size }, stack))
            }
            OpName::CacheAlloc => {
                let (slot, (cache, stack)) = self.read_cached(alloc, line)?;
                Ok((Op::CacheAlloc { slot, cache }, stack))
            }
            OpName::CacheFree => {
                let (slot, (cache, stack)) = self.read_cached(alloc, line)?;
                Ok((Op::CacheFree { slot, cache }, stack))
            }
            OpName::Copy => {
                let (to, (from, stack)) = self.read_slots(alloc, line)?;
                Ok((Op::Copy { to, from }, stack))
            }
            OpName::Clear => {
                let (slot, stack) = self.read_lone_slot(alloc, line)?;
                Ok((Op::Clear { slot }, stack))
            }
            OpName::Store => {
                let (slot, (offset, (bytes, stack))) = self.read_store(alloc, line)?;
                Ok((
                    Op::Store {
                        slot,
                        offset,
                        bytes,
                    },
                    stack,
                ))
            }
            OpName::Link => {
                let (slot, (offset, (value, stack))) = self.read_link(alloc, line)?;
                Ok((
                    Op::Link {
                        slot,
                        offset,
                        value,
                    },
                    stack,
                ))
            }
            OpName::Load => {
                let (to, (slot, (offset, stack))) = self.read_load(alloc, line)?;
                Ok((Op::Load { to, slot, offset }, stack))
            }
            OpName::Reap => {
                let stack = read_lone_stack(alloc, line)?;
                Ok((Op::Reap, stack))
            }
        }
    }

    #[inline]
    fn read_sized(&self, alloc: Global, line: &[u8]) -> Result<(u32, (u32, Stack)), LineFault>
        ensures { GivesSized result self.now.header (words_of line.now) }
    {
        let Some((slot, size, frames)) = split_two(line) else {
            return Err(COUNT);
        };
        let slot = read_slot(slot, self.version);
        let size = read_number(size, 0, u32::MAX);
        let stack = read_stack(alloc, frames);
        let behind = both(size, stack);
        both(slot, behind)
    }

    #[inline]
    fn read_cached(&self, alloc: Global, line: &[u8]) -> Result<(u32, (u32, Stack)), LineFault>
        ensures { GivesCached result self.now.header (words_of line.now) }
    {
        let Some((slot, name, frames)) = split_two(line) else {
            return Err(COUNT);
        };
        let slot = read_slot(slot, self.version);
        let cache = self.read_cache_name(name);
        let stack = read_stack(alloc, frames);
        let behind = both(cache, stack);
        both(slot, behind)
    }

    // Reads the name of a declared cache as its number.
    fn read_cache_name(&self, name: &[u8]) -> Result<u32, LineFault>
        ensures { GivesCache result self.now.header.caches name.now }
    {
        match self.declared.number_of(name) {
            Some(number) => Ok(number),
            None => Err(LineFault::Refused(Reason::Unknown)),
        }
    }

    fn read_slots(&self, alloc: Global, line: &[u8]) -> Result<(u32, (u32, Stack)), LineFault>
        ensures { GivesSlots result self.now.header (words_of line.now) }
    {
        let Some((first, second, frames)) = split_two(line) else {
            return Err(COUNT);
        };
        let first = read_slot(first, self.version);
        let second = read_slot(second, self.version);
        let stack = read_stack(alloc, frames);
        let behind = both(second, stack);
        both(first, behind)
    }

    fn read_lone_slot(&self, alloc: Global, line: &[u8]) -> Result<(u32, Stack), LineFault>
        ensures { GivesLoneSlot result self.now.header (words_of line.now) }
    {
        let Some((slot, frames)) = split_one(line) else {
            return Err(COUNT);
        };
        let slot = read_slot(slot, self.version);
        let stack = read_stack(alloc, frames);
        both(slot, stack)
    }

    fn read_store(
        &self,
        alloc: Global,
        line: &[u8],
    ) -> Result<(u32, (u32, (Text, Stack))), LineFault>
        ensures { GivesStored result self.now.header (words_of line.now) }
    {
        let Some((slot, offset, bytes, frames)) = split_three(line) else {
            return Err(COUNT);
        };
        let slot = read_slot(slot, self.version);
        let offset = read_number(offset, 0, MOST_OFFSET);
        let bytes = read_stored(alloc, bytes);
        let stack = read_stack(alloc, frames);
        let last = both(bytes, stack);
        let behind = both(offset, last);
        both(slot, behind)
    }

    fn read_link(&self, alloc: Global, line: &[u8]) -> Result<(u32, (u32, (u32, Stack))), LineFault>
        ensures { GivesLinked result self.now.header (words_of line.now) }
    {
        let Some((slot, offset, value, frames)) = split_three(line) else {
            return Err(COUNT);
        };
        let slot = read_slot(slot, self.version);
        let offset = read_number(offset, 0, MOST_OFFSET);
        let value = read_slot(value, self.version);
        let stack = read_stack(alloc, frames);
        let last = both(value, stack);
        let behind = both(offset, last);
        both(slot, behind)
    }

    fn read_load(&self, alloc: Global, line: &[u8]) -> Result<(u32, (u32, (u32, Stack))), LineFault>
        ensures { GivesLoaded result self.now.header (words_of line.now) }
    {
        let Some((to, slot, offset, frames)) = split_three(line) else {
            return Err(COUNT);
        };
        let to = read_slot(to, self.version);
        let slot = read_slot(slot, self.version);
        let offset = read_number(offset, 0, MOST_OFFSET);
        let stack = read_stack(alloc, frames);
        let last = both(offset, stack);
        let behind = both(slot, last);
        both(to, behind)
    }
}

fn read_lone_stack(alloc: Global, line: &[u8]) -> Result<Stack, LineFault>
    ensures { (header : Header) → GivesStack result header (words_of line.now) }
{
    let Some(frames) = split_stack(line) else {
        return Err(COUNT);
    };
    read_stack(alloc, frames)
}
