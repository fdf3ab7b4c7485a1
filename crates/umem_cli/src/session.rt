ghost use Rattle.std.specs.Prelude.{◌≡◌};
ghost use Rattle.umem_base.specs.Lines.{lines_of};
ghost use Rattle.umem_cli.specs.Outcomes.{EndsAnswer, EndsLine, ReadsCommands, ReadsCore};
ghost use Rattle.umem_cli.specs.Pieces.{GivesOut};
ghost use Rattle.umem_cli.specs.Refusal.{refusal_of_file};
ghost use Rattle.umem_cli.specs.Sessions.{GivenByMdb, IsAnswered};
ghost use Rattle.umem_cli.specs.Streams.{stream, streams, without_store};
ghost use Rattle.umem_cli.specs.World.{world};

use crate::limits::MOST_COMMAND_BYTES;
use crate::message::write_line_message;
use crate::refusal::Refusal;
use crate::report::refuse;
use crate::status::Status;
use core_format::read_core;
use core_sizes::MOST_CORE_BYTES;
use dcmd::{Dcmd, answer, read_dcmd};
use heap_view::View;
use std::alloc::Global;
use umem_base::{
    Folder, ReadFile, Sink, Source, Text, read_all, read_file, split_line, split_word, write_whole,
};

/// Answers the commands of the input over the core in a file. All commands are read before the first is answered. They
/// are answered line by line: each answer goes to `out` at once, and each line that is no command gets one on `err`
/// that says why. The first write that fails ends the call, and so does want of memory, which leaves the answers to
/// earlier lines. Where there is no core, or too many bytes of commands, `err` gets one line that says why.
pub fn diagnose<S: Source, O: Sink, E: Sink, F: Folder>(
    alloc: Global,
    name: &Text,
    input: &mut S,
    out: &mut O,
    err: &mut E,
    files: &mut F,
) -> Status
    ensures given { GivenByMdb name.now
        (world (F.files files.old) (F.read_faults files.old) (F.write_faults files.old)
        (S.left input.old) (S.faults input.old)
        (streams (O.taken out.old) (O.faults out.old) (E.taken err.old) (E.faults err.old)))
        (world (F.files files.new) (F.read_faults files.new) (F.write_faults files.new)
        (S.left input.new) (S.faults input.new)
        (streams (O.taken out.new) (O.faults out.new) (E.taken err.new) (E.faults err.new)))
        result }
    ensures files { F.files files.new ≡ F.files files.old }
    ensures write_faults { F.write_faults files.new ≡ F.write_faults files.old }
{
    let view = match view_of(alloc, name, files) {
        Ok(view) => view,
        Err(why) => return refuse(err, name, why),
    };
    let commands = match commands_of(alloc, input) {
        Ok(commands) => commands,
        Err(why) => return refuse(err, name, why),
    };
    answer_commands(alloc, &view, &commands, out, err)
}

/// A view of the core in a file.
fn view_of<F: Folder>(alloc: Global, name: &Text, files: &mut F) -> Result<View, Refusal>
    ensures outcome { ReadsCore (F.files files.old) name.now
        (F.read_faults files.old) (F.read_faults files.new) result }
    ensures files { F.files files.new ≡ F.files files.old }
    ensures write_faults { F.write_faults files.new ≡ F.write_faults files.old }
{
    let bytes = match read_file(alloc, files, name, MOST_CORE_BYTES) {
        Ok(bytes) => bytes,
        Err(fault) => return Err(refusal_of_file(fault)),
    };
    let core = read_core(alloc, &bytes)?;
    let view = View::new(alloc, core)?;
    Ok(view)
}

/// Why there is no core, of which the file was not read.
fn refusal_of_file(fault: ReadFile) -> Refusal
    ensures { result ≡ refusal_of_file fault }
{
    match fault {
        ReadFile::Missing => Refusal::NoFile,
        ReadFile::ReadFault => Refusal::ReadFault,
        ReadFile::TooLong => Refusal::CoreTooLong,
        ReadFile::NoMemory => Refusal::NoMemory,
    }
}

/// All bytes of the input.
fn commands_of<S: Source>(alloc: Global, input: &mut S) -> Result<Vec<u8>, Refusal>
    ensures { ReadsCommands (S.left input.old) (S.left input.new) (S.faults input.old) (S.faults input.new) result }
{
    let commands = read_all(alloc, input, MOST_COMMAND_BYTES)?;
    Ok(commands)
}

/// Answers the lines of commands in their order, up to the first write that fails.
fn answer_commands<O: Sink, E: Sink>(
    alloc: Global,
    view: &View,
    commands: &[u8],
    out: &mut O,
    err: &mut E,
) -> Status
    ensures { GivesOut (IsAnswered view.now (lines_of commands.now))
        (without_store (streams (O.taken out.old) (O.faults out.old) (E.taken err.old) (E.faults err.old)))
        (without_store (streams (O.taken out.new) (O.faults out.new) (E.taken err.new) (E.faults err.new)))
        result }
{
    let mut rest = commands;
    let mut number = 0;
    let mut refused = false;
    while !rest.is_empty() {
        let (line, behind) = split_line(rest);
        number += 1;
        match answer_line(alloc, view, number, line, out, err) {
            Ok(refuses) => refused = refused || refuses,
            Err(status) => return status,
        }
        rest = behind;
    }
    if refused {
        Status::Refused
    } else {
        Status::Done
    }
}

/// Answers a line, or says why it is refused, and tells whether it was. A line of blanks alone is skipped.
fn answer_line<O: Sink, E: Sink>(
    alloc: Global,
    view: &View,
    number: u64,
    line: &[u8],
    out: &mut O,
    err: &mut E,
) -> Result<bool, Status>
    ensures { EndsLine view.now number line.now
        (without_store (streams (O.taken out.old) (O.faults out.old) (E.taken err.old) (E.faults err.old)))
        (without_store (streams (O.taken out.new) (O.faults out.new) (E.taken err.new) (E.faults err.new)))
        result }
{
    if split_word(line).is_none() {
        return Ok(false);
    }
    match read_dcmd(line) {
        Ok(dcmd) => match answer_command(alloc, view, &dcmd, out) {
            Ok(()) => Ok(false),
            Err(status) => Err(status),
        },
        Err(fault) => match write_line_message(err, number, fault) {
            Ok(()) => Ok(true),
            Err(_) => Err(Status::WriteFault),
        },
    }
}

/// Writes the answer to a command.
fn answer_command<O: Sink>(
    alloc: Global,
    view: &View,
    dcmd: &Dcmd,
    out: &mut O,
) -> Result<(), Status>
    ensures { EndsAnswer view.now dcmd.now (stream (O.taken out.old) (O.faults out.old))
        (stream (O.taken out.new) (O.faults out.new)) result }
{
    let text = match answer(alloc, view, dcmd) {
        Ok(text) => text,
        Err(_) => return Err(Status::NoMemory),
    };
    match write_whole(out, text.as_slice()) {
        Ok(()) => Ok(()),
        Err(_) => Err(Status::WriteFault),
    }
}
