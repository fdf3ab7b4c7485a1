ghost use Rattle.std.specs.Prelude.{◌≡◌, ◌+◌, ◌<◌, ◌≤◌, [], ◌∷◌, ◌++◌, length, map, IfOk, OnOk, OnErr};
ghost use Rattle.std.specs.List.{AllByRecursion, flat_map};
ghost use Rattle.script.specs.OpWords.{cache_word, op_word, op_words};
ghost use Rattle.script.specs.Plan.{plan_of, turn_of, turns_of};
ghost use Rattle.script.specs.PlanText.{HasAllCaches, HasCache, HasCaches, IsFront, cache_words, cached_words, header_words, line_text, phase_text, spaced, stack_words, step_text, text_of, word_text};

use crate::operation::{Op, OpName};
use crate::put_words::{put_behind, put_words};
use crate::text_word::TextWord;
use crate::text_word::TextWord::{Bytes, Frames, Hex, Number, Slot};
use crate::tree::{Header, Phase, Script, Step};
use case_table::{CLASS_COUNT, CacheDef};
use std::alloc::Global;
use umem_base::{NoMemory, Text};

/// The text of a script: its header, its caches and the steps of each phase, a line each. It has no comments,
/// blank lines, spare blanks or leading zeros, and hexadecimal digits are in lower case.
pub fn script_text(alloc: Global, script: &Script) -> Result<Text, NoMemory>
    requires { HasAllCaches (plan_of script.now) }
    ensures { IfOk result (λ text. text ≡ text_of (plan_of script.now)) }
{
    let mut out = Text::new(alloc);
    let caches = script.header.caches.as_slice();
    put_header(&mut out, &script.header)?;
    put_caches(&mut out, caches)?;
    put_phases(&mut out, caches, script.phases.as_slice())?;
    Ok(out)
}

/// Appends the words of an operation, with one space between two: a shared root word as `$n`, and one of the
/// thread's own as `%n`. It takes memory only where `out` grows. On refusal `out` is as before.
pub fn put_op(out: &mut Text, caches: &[CacheDef], op: &Op) -> Result<(), NoMemory>
    requires { HasCache caches.now op.now }
    ensures ok { OnOk result (out.new ≡ out.old ++ spaced (op_words caches.now op.now)) }
    ensures err { OnErr result (out.new ≡ out.old) }
{
    match op {
        Op::Alloc { slot, size } => put_call(out, OpName::Alloc, &[Slot(*slot), Number(*size)]),
        Op::Zalloc { slot, size } => put_call(out, OpName::Zalloc, &[Slot(*slot), Number(*size)]),
        Op::Free { slot, size } => put_call(out, OpName::Free, &[Slot(*slot), Number(*size)]),
        Op::CacheAlloc { slot, cache } => {
            put_cached(out, OpName::CacheAlloc, *slot, caches, *cache)
        }
        Op::CacheFree { slot, cache } => {
            put_cached(out, OpName::CacheFree, *slot, caches, *cache)
        }
        Op::Copy { to, from } => put_call(out, OpName::Copy, &[Slot(*to), Slot(*from)]),
        Op::Clear { slot } => put_call(out, OpName::Clear, &[Slot(*slot)]),
        Op::Store {
            slot,
            offset,
            bytes,
        } => put_store(out, *slot, *offset, bytes.as_slice()),
        Op::Link {
            slot,
            offset,
            value,
        } => {
            let arguments = [Slot(*slot), Number(*offset), Slot(*value)];
            put_call(out, OpName::Link, &arguments)
        }
        Op::Load { to, slot, offset } => {
            let arguments = [Slot(*to), Slot(*slot), Number(*offset)];
            put_call(out, OpName::Load, &arguments)
        }
        Op::Reap => put_call(out, OpName::Reap, &[]),
    }
}

// Appends the word of an operation and its arguments.
fn put_call(out: &mut Text, name: OpName, arguments: &[TextWord<'_>]) -> Result<(), NoMemory>
    ensures ok { OnOk result (out.new ≡ out.old ++ spaced (op_word name ∷ map word_text arguments.now)) }
    ensures err { OnErr result (out.new ≡ out.old) }
{
    put_words(out, Bytes(name.word()), arguments)
}

fn put_cached(
    out: &mut Text,
    name: OpName,
    slot: u32,
    caches: &[CacheDef],
    cache: u32,
) -> Result<(), NoMemory>
    requires low { CLASS_COUNT ≤ cache }
    requires high { cache < CLASS_COUNT + length caches.now }
    ensures ok { OnOk result (out.new ≡ out.old ++ spaced (cached_words caches.now name slot cache)) }
    ensures err { OnErr result (out.new ≡ out.old) }
{
    let cache = cache_name(caches, cache);
    put_call(out, name, &[Slot(slot), Bytes(cache)])
}

fn put_store(out: &mut Text, slot: u32, offset: u32, bytes: &[u8]) -> Result<(), NoMemory>
    ensures ok { OnOk result (out.new ≡ out.old ++ spaced (op_words [] (Op.Store slot offset bytes.now))) }
    ensures err { OnErr result (out.new ≡ out.old) }
{
    put_call(
        out,
        OpName::Store,
        &[Slot(slot), Number(offset), Hex(bytes)],
    )
}

// The name of a declared cache.
fn cache_name(caches: &[CacheDef], cache: u32) -> &[u8]
    requires low { CLASS_COUNT ≤ cache }
    requires high { cache < CLASS_COUNT + length caches.now }
    ensures { result.now ≡ cache_word caches.now cache }
{
    caches[(cache - CLASS_COUNT) as usize].name.as_slice()
}

// Appends a line of words, with its end.
fn put_line(out: &mut Text, first: TextWord<'_>, more: &[TextWord<'_>]) -> Result<(), NoMemory>
    ensures ok { OnOk result (out.new ≡ out.old ++ line_text (word_text first.entry ∷ map word_text more.now)) }
    ensures front { IsFront out.old out.new }
{
    put_words(out, first, more)?;
    out.push_slice(b"\n")
}

fn put_header(out: &mut Text, header: &Header) -> Result<(), NoMemory>
    ensures { OnOk result (out.new ≡ out.old ++ line_text (header_words header.now)) }
{
    put_line(
        out,
        Bytes(b"umem"),
        &[
            Number(header.version),
            Bytes(b"cpus"),
            Number(header.cpus),
            Bytes(b"threads"),
            Number(header.threads),
        ],
    )
}

/// Appends the line of each declared cache, with its end. It takes memory only where `out` grows. On refusal `out`
/// is as before.
pub fn put_caches(out: &mut Text, caches: &[CacheDef]) -> Result<(), NoMemory>
    ensures ok { OnOk result (out.new ≡ out.old ++ flat_map (λ def. line_text (cache_words def)) caches.now) }
    ensures err { OnErr result (out.new ≡ out.old) }
{
    let before = out.as_slice().len();
    let put = put_each_cache(out, caches);
    if put.is_err() {
        out.truncate(before);
    }
    put
}

fn put_each_cache(out: &mut Text, caches: &[CacheDef]) -> Result<(), NoMemory>
    ensures ok { OnOk result (out.new ≡ out.old ++ flat_map (λ def. line_text (cache_words def)) caches.now) }
    ensures front { IsFront out.old out.new }
{
    for def in caches {
        put_cache(out, def)?;
    }
    Ok(())
}

fn put_cache(out: &mut Text, def: &CacheDef) -> Result<(), NoMemory>
    ensures ok { OnOk result (out.new ≡ out.old ++ line_text (cache_words def.now)) }
    ensures front { IsFront out.old out.new }
{
    let name = Bytes(def.name.as_slice());
    let first = Bytes(b"cache");
    match def.ctor {
        None => put_line(out, first, &[name, Number(def.size), Number(def.align)]),
        Some(byte) => put_line(
            out,
            first,
            &[name, Number(def.size), Number(def.align), Hex(&[byte])],
        ),
    }
}

fn put_phases(out: &mut Text, caches: &[CacheDef], phases: &[Phase]) -> Result<(), NoMemory>
    requires { AllByRecursion (HasCaches caches.now) (map turns_of phases.now) }
    ensures { OnOk result (out.new ≡ out.old ++ flat_map (λ phase. phase_text caches.now (turns_of phase)) phases.now) }
{
    for phase in phases {
        put_phase(out, caches, phase.as_slice())?;
    }
    Ok(())
}

fn put_phase(out: &mut Text, caches: &[CacheDef], steps: &[Step]) -> Result<(), NoMemory>
    requires { HasCaches caches.now (map turn_of steps.now) }
    ensures { OnOk result (out.new ≡ out.old ++ phase_text caches.now (map turn_of steps.now)) }
{
    out.push_slice(b"phase\n")?;
    put_steps(out, caches, steps)
}

fn put_steps(out: &mut Text, caches: &[CacheDef], steps: &[Step]) -> Result<(), NoMemory>
    requires { HasCaches caches.now (map turn_of steps.now) }
    ensures { OnOk result (out.new ≡ out.old ++ flat_map (step_text caches.now) steps.now) }
{
    for step in steps {
        put_step(out, caches, step)?;
    }
    Ok(())
}

fn put_step(out: &mut Text, caches: &[CacheDef], step: &Step) -> Result<(), NoMemory>
    requires { HasCache caches.now step.now.op }
    ensures { OnOk result (out.new ≡ out.old ++ step_text caches.now step.now) }
{
    put_words(out, Number(step.thread), &[])?;
    out.push_slice(b" ")?;
    put_op(out, caches, &step.op)?;
    put_stack(out, step.stack.as_slice())?;
    out.push_slice(b"\n")
}

// Appends a stack behind a space, if it is not empty.
fn put_stack(out: &mut Text, frames: &[u64]) -> Result<(), NoMemory>
    ensures { OnOk result (out.new ≡ out.old ++ flat_map (λ word. 32 ∷ word) (stack_words frames.now)) }
{
    if frames.is_empty() {
        return Ok(());
    }
    put_behind(out, &[Bytes(b"@"), Frames(frames)])
}
