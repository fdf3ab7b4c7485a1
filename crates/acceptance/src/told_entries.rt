//! Entries of a history that are told by a script of one phase and one thread, and by a line for each entry: the answer
//! to the script's next step, or the slab that was made or given back.

use crate::fault::SampleFault;
use case_table::class_of;
use plain_heap::{Body, Entry, Reply, Report};
use script::{Header, Script, Step};
use std::alloc::Global;
use umem_base::{Sequence, Text, read_decimal, read_hex};

const CLASS_NAME: &str = "umem_alloc_";

/// The script of these calls, which each stand in a line.
pub fn script_of(alloc: Global, calls: &str) -> Result<Text, SampleFault> {
    let mut text = Text::from_slice(alloc, b"umem 1 cpus 1 threads 1\nphase\n")?;
    text.push_slice(calls.as_bytes())?;
    Ok(text)
}

/// A line in place of the one with that number.
#[derive(Clone, Copy)]
pub struct Changed<'a> {
    pub number: usize,
    pub line: &'a str,
}

/// The line that stands at a number after a change.
fn line_at<'a>(change: Option<Changed<'a>>, number: usize, line: &'a str) -> &'a str {
    match change {
        Some(changed) if changed.number == number => changed.line,
        _ => line,
    }
}

/// The entries that these calls and lines tell.
pub fn told_entries(
    alloc: Global,
    script: &Script,
    lines: &str,
    change: Option<Changed>,
) -> Result<Vec<Entry>, SampleFault> {
    let phase = script
        .phases
        .as_slice()
        .first()
        .ok_or(SampleFault::BadLine)?;
    let mut steps = phase.as_slice().iter();
    let mut entries = Vec::new(alloc);
    for (number, line) in lines.lines().enumerate() {
        let line = line_at(change, number, line);
        let body = match slab_body(&script.header, line)? {
            Some(body) => body,
            None => call_body(alloc, steps.next().ok_or(SampleFault::BadLine)?, line)?,
        };
        entries.push(entry(number, body)?)?;
    }
    Ok(entries)
}

fn entry(number: usize, body: Body) -> Result<Entry, SampleFault> {
    Ok(Entry {
        number: u32::try_from(number).ok().ok_or(SampleFault::BadLine)?,
        thread: 0,
        body,
    })
}

/// A step with its answer.
fn call_body(alloc: Global, step: &Step, line: &str) -> Result<Body, SampleFault> {
    let frames = Vec::from_slice(alloc, step.stack.as_slice())?;
    Ok(Body::Call {
        op: step.op.clone()?,
        frames: Sequence::new(frames),
        reply: reply(line)?,
    })
}

/// The slab that a line tells of, if it tells of one.
fn slab_body(header: &Header, line: &str) -> Result<Option<Body>, SampleFault> {
    if let Some(words) = line.strip_prefix("grow ") {
        let (cache, base) = slab_words(header, words)?;
        return Ok(Some(Body::Grow { cache, base }));
    }
    if let Some(words) = line.strip_prefix("shrink ") {
        let (cache, base) = slab_words(header, words)?;
        return Ok(Some(Body::Shrink { cache, base }));
    }
    Ok(None)
}

/// The number of a slab's cache, and its base.
fn slab_words(header: &Header, words: &str) -> Result<(u32, u64), SampleFault> {
    let (name, base) = words.split_once(' ').ok_or(SampleFault::BadLine)?;
    Ok((cache_named(header, name)?, read_hex(base.as_bytes())?))
}

fn cache_named(header: &Header, name: &str) -> Result<u32, SampleFault> {
    if let Some(size) = name.strip_prefix(CLASS_NAME) {
        return class_of(read_decimal(size.as_bytes())?).ok_or(SampleFault::BadLine);
    }
    let index = header
        .caches
        .as_slice()
        .iter()
        .position(|def| def.name.as_slice() == name.as_bytes())
        .ok_or(SampleFault::BadLine)?;
    u32::try_from(index)
        .ok()
        .and_then(|index| index.checked_add(32))
        .ok_or(SampleFault::BadLine)
}

fn reply(line: &str) -> Result<Reply, SampleFault> {
    match line {
        "ok" => Ok(Reply::Ok),
        "null" => Ok(Reply::Null),
        "nospace" => Ok(Reply::NoSpace),
        "dup" => Ok(Reply::Dup),
        "badaddr" => Ok(Reply::BadAddr),
        "badcache" => Ok(Reply::BadCache),
        "badsize" => Ok(Reply::BadSize),
        "redzone" => Ok(Reply::Redzone),
        "fault" => Ok(Reply::Fault),
        _ => reply_of_words(line),
    }
}

fn reply_of_words(line: &str) -> Result<Reply, SampleFault> {
    match line.split_once(' ') {
        Some(("word", value)) => Ok(Reply::Word(read_hex(value.as_bytes())?)),
        Some(("ok", rest)) => handed_out(rest),
        _ => Err(SampleFault::BadLine),
    }
}

/// An address with a report behind it.
fn handed_out(words: &str) -> Result<Reply, SampleFault> {
    let (address, report) = words.split_once(' ').unwrap_or((words, ""));
    Ok(Reply::At {
        address: read_hex(address.as_bytes())?,
        report: report_of(report)?,
    })
}

fn report_of(words: &str) -> Result<Report, SampleFault> {
    match words {
        "" => return Ok(Report::Clean),
        "redzone" => return Ok(Report::Redzone),
        _ => {}
    }
    let offset = words.strip_prefix("modified ").ok_or(SampleFault::BadLine)?;
    let offset = u32::try_from(read_decimal(offset.as_bytes())?)
        .ok()
        .ok_or(SampleFault::BadLine)?;
    Ok(Report::Modified(offset))
}
