//! The calls of a history, one by one: those of the script in the order of a run alone, each as the walk makes it.

use crate::trials::fault::{TrialFault, holds};
use crate::trials::plain_run::{Inner, PlainRun};
use plain_heap::{Body, Entry};
use script::{Phase, Script, Step};
use std::alloc::Global;
use umem_base::NoMemory;

/// Adds a thread's steps of a phase.
fn add_thread<'a>(
    steps: &mut Vec<&'a Step>,
    phase: &'a Phase,
    thread: u32,
) -> Result<(), NoMemory> {
    for step in phase.as_slice() {
        if step.thread == thread {
            steps.push(step)?;
        }
    }
    Ok(())
}

/// The steps of a script phase by phase, and in a phase thread by thread.
fn steps_of(alloc: Global, script: &Script) -> Result<Vec<&Step>, NoMemory> {
    let mut steps = Vec::new(alloc);
    for phase in script.phases.as_slice() {
        for thread in 0..script.header.threads {
            add_thread(&mut steps, phase, thread)?;
        }
    }
    Ok(steps)
}

/// The slab that came or went with an entry, if it is an inner one.
fn inner_of(body: &Body) -> Option<Inner> {
    match body {
        Body::Grow { cache, base } => Some(Inner::Grow {
            cache: *cache,
            base: *base,
        }),
        Body::Shrink { cache, base } => Some(Inner::Shrink {
            cache: *cache,
            base: *base,
        }),
        Body::Call { .. } => None,
    }
}

/// Tells whether an entry is a step, answered somehow.
fn is_of(entry: &Entry, step: &Step) -> bool {
    match &entry.body {
        Body::Call { op, frames, .. } => {
            entry.thread == step.thread
                && *op == step.op
                && frames.as_slice() == step.stack.as_slice()
        }
        _ => false,
    }
}

/// Lets a plain heap make the calls of a history, and compares each of its entries. It gives that heap at its end.
pub fn walk(
    alloc: Global,
    script: &Script,
    guards: bool,
    entries: &[Entry],
) -> Result<PlainRun, TrialFault> {
    let steps = steps_of(alloc, script)?;
    let mut run = PlainRun::new(alloc, &script.header, guards)?;
    let mut inner = Vec::new(alloc);
    let mut made = 0_usize;
    for (number, entry) in entries.iter().enumerate() {
        if let Some(slab) = inner_of(&entry.body) {
            inner.push(slab)?;
        } else {
            let step = steps
                .get(made)
                .ok_or(TrialFault::Differs("a call too many", number))?;
            holds("the call of the entry", number, is_of(entry, step))?;
            make_call(alloc, &mut run, number, entry, &inner)?;
            inner.clear();
            made = made.saturating_add(1);
        }
    }
    holds("the calls that were made", made, made == steps.len())?;
    holds("slabs behind the last call", made, inner.is_empty())?;
    Ok(run)
}

/// Lets a plain heap make the call of an entry, before which these slabs came and went.
fn make_call(
    alloc: Global,
    run: &mut PlainRun,
    number: usize,
    entry: &Entry,
    inner: &[Inner],
) -> Result<(), TrialFault> {
    match &entry.body {
        Body::Call { op, reply, .. } => run.compare(
            alloc,
            number,
            (entry.thread, op, reply),
            inner,
        ),
        _ => Ok(()),
    }
}
