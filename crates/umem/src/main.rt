//! The program `umem`: runs allocation scripts over the system's files and streams.
#![tactic(auto)]

use std::process::ExitCode;
use umem_base::{DiskFolder, NoGate, StdSink, StdSource};
use umem_cli::{SystemWords, command_words, given_words, umem};

fn main(rt: HostRuntime) -> ExitCode {
    let mut input = StdSource::new(rt.stdin());
    let mut out = StdSink::new(rt.stdout());
    let mut err = StdSink::new(rt.stderr());
    let mut files = DiskFolder::new(&rt);
    let arguments = given_words(&SystemWords::new(&rt), rt.alloc());
    let status = match command_words(rt.alloc(), arguments, &mut err) {
        Ok(words) => umem(
            &rt,
            rt.alloc(),
            &words,
            &mut input,
            &mut out,
            &mut err,
            &mut files,
            &NoGate,
        ),
        Err(status) => status,
    };
    ExitCode::from(status.code())
}
