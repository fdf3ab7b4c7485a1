ghost use Rattle.std.specs.Prelude.{◌≡◌, IsTrue, None, OnOk};
ghost use Rattle.std.specs.Char.{is_ascii_digit};
ghost use Rattle.std.specs.List.{list_all};
ghost use Rattle.umem_base.specs.Numbers.{is_decimal};
ghost use Rattle.umem_base.specs.Lines.{words_of};
ghost use Rattle.script.specs.Fields.{declared_number, name_fault};
ghost use Rattle.script.specs.Grammar.{constructor_in};
ghost use Rattle.script.specs.Reading.{Gives, GivesDef, GivesDefWords, GivesTurn, SplitsCache, SplitsConstructor, TakesCache, TakesCall, TakesLater, TakesPhase, TakesStep, itself, option_fault, option_words};

use crate::both::both;
use crate::draft::Draft;
use crate::fields::{read_alignment, read_constructor, read_number, read_thread};
use crate::limits::{MOST_PHASES, most_calls};
use crate::line_fault::LineFault;
use crate::op_named::op_named;
use crate::operation::OpName;
use crate::reasons::Reason;
use crate::tree::Step;
use case_table::{CacheDef, MOST_CACHE_BYTES, MOST_DECLARED, is_cache_name, is_reserved_name};
use std::alloc::Global;
use umem_base::{Text, split_word};

const COUNT: LineFault = LineFault::Refused(Reason::Count);

const ORDER: LineFault = LineFault::Refused(Reason::Order);

const LIMIT: LineFault = LineFault::Refused(Reason::Limit);

impl<'a> Draft<'a> {
    /// Takes a line behind the header, of which the first word and what stands behind it are given.
    pub(crate) fn take_line(
        &mut self,
        alloc: Global,
        first: &[u8],
        rest: &'a [u8],
    ) -> Result<(), LineFault>
        ensures { TakesLater result self.old self.new first.now (words_of rest.now) }
    {
        if first == b"umem".as_slice() {
            return Err(ORDER);
        }
        if first == b"cache".as_slice() {
            return self.take_cache(alloc, rest);
        }
        if first == b"phase".as_slice() {
            return self.take_phase(alloc, rest);
        }
        if !is_decimal(first) {
            return Err(LineFault::Refused(Reason::Word));
        }
        self.take_step(alloc, first, rest)
    }

    // Declares a cache.
    fn take_cache(&mut self, alloc: Global, line: &'a [u8]) -> Result<(), LineFault>
        ensures { TakesCache result self.old self.new (words_of line.now) }
    {
        let Some((name, size, align, ctor)) = split_cache(line, self.version) else {
            return Err(COUNT);
        };
        let def = self.read_def(alloc, name, size, align, ctor)?;
        if self.phases.len() > 0 {
            return Err(ORDER);
        }
        if self.declared.len() >= MOST_DECLARED as usize {
            return Err(LIMIT);
        }
        self.declared.push(name, def)?;
        Ok(())
    }

    fn read_def(
        &self,
        alloc: Global,
        name: &[u8],
        size: &[u8],
        align: &[u8],
        ctor: Option<&[u8]>,
    ) -> Result<CacheDef, LineFault>
        ensures value { GivesDef result self.now.header name.now size.now align.now (option_words ctor.entry) }
        ensures unlike { OnOk result (declared_number self.now.header.caches name.now ≡ None) }
    {
        let (name, (size, (align, ctor))) = self.read_def_words(alloc, name, size, align, ctor)?;
        Ok(CacheDef {
            name,
            size,
            align,
            ctor,
        })
    }

    fn read_def_words(
        &self,
        alloc: Global,
        name: &[u8],
        size: &[u8],
        align: &[u8],
        ctor: Option<&[u8]>,
    ) -> Result<(Text, (u32, (u32, Option<u8>))), LineFault>
        ensures { GivesDefWords result self.now.header name.now size.now align.now (option_words ctor.entry) }
    {
        let name = self.read_name(alloc, name);
        let size = read_number(size, 1, MOST_CACHE_BYTES);
        let align = read_alignment(align);
        let ctor = read_option(ctor);
        let last = both(align, ctor);
        let behind = both(size, last);
        both(name, behind)
    }

    // Reads a name under which a cache can be declared.
    fn read_name(&self, alloc: Global, name: &[u8]) -> Result<Text, LineFault>
        ensures { Gives itself result (name_fault self.now.header.caches name.now) name.now }
    {
        if is_cache_name(name)
            && !is_reserved_name(name)
            && self.declared.number_of(name).is_none()
        {
            return Ok(Text::from_slice(alloc, name)?);
        }
        Err(LineFault::Refused(Reason::Name))
    }

    // Begins a phase.
    fn take_phase(&mut self, alloc: Global, line: &[u8]) -> Result<(), LineFault>
        ensures { TakesPhase result self.old self.new (words_of line.now) }
    {
        if split_word(line).is_some() {
            return Err(COUNT);
        }
        if self.phases.len() >= MOST_PHASES as usize {
            return Err(LIMIT);
        }
        self.phases.begin(alloc)?;
        Ok(())
    }

    // Takes a step of the thread whose number is given.
    fn take_step(&mut self, alloc: Global, thread: &[u8], rest: &[u8]) -> Result<(), LineFault>
        requires { IsTrue (is_decimal thread.now) }
        ensures { TakesStep result self.old self.new thread.now (words_of rest.now) }
    {
        let Some((name, line)) = split_word(rest) else {
            return Err(LineFault::Refused(Reason::Word));
        };
        match op_named(name) {
            Some(name) => self.take_call(alloc, thread, name, line),
            None => Err(LineFault::Refused(Reason::Word)),
        }
    }

    #[inline]
    fn take_call(
        &mut self,
        alloc: Global,
        thread: &[u8],
        name: OpName,
        line: &[u8],
    ) -> Result<(), LineFault>
        requires { IsTrue (is_decimal thread.now) }
        ensures { TakesCall result self.old self.new name thread.now (words_of line.now) }
    {
        let step = self.read_turn(alloc, thread, name, line)?;
        if self.phases.len() == 0 {
            return Err(ORDER);
        }
        if self.phases.calls() >= most_calls(self.version) as usize {
            return Err(LIMIT);
        }
        self.phases.push(step)?;
        Ok(())
    }

    #[inline]
    fn read_turn(
        &self,
        alloc: Global,
        thread: &[u8],
        name: OpName,
        line: &[u8],
    ) -> Result<Step, LineFault>
        requires { IsTrue (is_decimal thread.now) }
        ensures { GivesTurn result self.now.header name thread.now (words_of line.now) }
    {
        let thread = read_thread(thread, self.threads);
        let call = self.read_call(alloc, name, line);
        let (thread, (op, stack)) = both(thread, call)?;
        Ok(Step { thread, op, stack })
    }
}

// The words of a cache: its name, its size, its alignment, and the byte of its constructor where there is one.
fn split_cache(line: &[u8], version: u32) -> Option<(&[u8], &[u8], &[u8], Option<&[u8]>)>
    ensures { SplitsCache result version (words_of line.now) }
{
    let Some((name, rest)) = split_word(line) else {
        return None;
    };
    let Some((size, rest)) = split_word(rest) else {
        return None;
    };
    let Some((align, rest)) = split_word(rest) else {
        return None;
    };
    let Some(ctor) = split_constructor(rest, version) else {
        return None;
    };
    Some((name, size, align, ctor))
}

// The word of a constructor, if there is one, where nothing else stands.
fn split_constructor(line: &[u8], version: u32) -> Option<Option<&[u8]>>
    ensures { SplitsConstructor result version (words_of line.now) }
{
    let Some((ctor, rest)) = split_word(line) else {
        return Some(None);
    };
    if version != 2 || split_word(rest).is_some() {
        return None;
    }
    Some(Some(ctor))
}

fn read_option(ctor: Option<&[u8]>) -> Result<Option<u8>, LineFault>
    ensures { Gives itself result (option_fault (option_words ctor.entry)) (constructor_in (option_words ctor.entry)) }
{
    match ctor {
        Some(word) => Ok(Some(read_constructor(word)?)),
        None => Ok(None),
    }
}

fn is_decimal(word: &[u8]) -> bool
    ensures { result ≡ is_decimal word.now }
{
    !word.is_empty() && are_digits(word)
}

fn are_digits(word: &[u8]) -> bool
    ensures { result ≡ list_all is_ascii_digit word.now }
{
    word.iter().all(|byte| byte.is_ascii_digit())
}
