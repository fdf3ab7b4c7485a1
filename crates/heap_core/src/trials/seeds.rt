//! Drawn scripts, each run by a heap and compared with plain walks.

use crate::trials::cases::Cases;
use crate::trials::compare::{Told, run_and_compare};
use crate::trials::script_text::{DrawnScript, draw_script};
use std::alloc::Global;
use std::process::Abort;
use std::str::from_utf8;
use std::test::Fail;

// How many scripts are drawn.
const SCRIPTS: u64 = 600;

/// Compares the run of a script, and tells what was met.
fn compare(rt: &impl Abort, alloc: Global, seed: u64, drawn: &DrawnScript) -> Result<Cases, Fail> {
    let told = Told {
        text: drawn.text.as_slice(),
        debug: drawn.debug,
        logging: drawn.logging,
    };
    let text = from_utf8(told.text).unwrap_or("no text");
    let debug = from_utf8(told.debug).unwrap_or("no text");
    match run_and_compare(alloc, told) {
        Ok(compared) => Ok(compared.met),
        Err(fault) => { panic!(rt; "seed {seed}, {debug:?}: {fault:?} in\n{text}") }
    }
}

#[test]
fn heaps_do_what_plain_walks_say(rt: HostRuntime) -> Result<(), Fail> {
    let mut met = Cases::new();
    for seed in 0..SCRIPTS {
        let drawn = draw_script(rt.alloc(), seed)?;
        met.add(&compare(&rt, rt.alloc(), seed, &drawn)?);
    }
    assert!(rt; met.are_all(), "{met:?}");
    Ok(())
}
