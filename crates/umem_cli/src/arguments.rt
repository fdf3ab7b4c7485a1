ghost use Rattle.std.specs.Prelude.{◌≡◌, IfOk, IfErr, OnOk, map};
ghost use Rattle.std.specs.String.{string_bytes};
ghost use Rattle.umem_cli.specs.Streams.{stream};
ghost use Rattle.umem_cli.specs.Outcomes.{AreWordsOf, RefusesArguments};

use crate::report::refuse_words;
use crate::status::Status;
use crate::words::{are_text, strings_of};
use std::alloc::Global;
use umem_base::{NoMemory, Sink, Text};

/// The words of a command line, from the arguments as the system gave them, unless memory was short for that.
/// Arguments that are not all UTF-8 are no command: the usage lines go to `err`, and the status is the answer.
/// Where memory is short, nothing is written.
pub fn command_words<E: Sink>(
    alloc: Global,
    arguments: Result<Vec<Text>, NoMemory>,
    err: &mut E,
) -> Result<Vec<String>, Status>
    ensures words { IfOk result (λ words. AreWordsOf arguments (map string_bytes words.items)) }
    ensures taken { OnOk result (E.taken err.new ≡ E.taken err.old) }
    ensures faults { OnOk result (E.faults err.new ≡ E.faults err.old) }
    ensures refused { IfErr result (RefusesArguments arguments
        (stream (E.taken err.old) (E.faults err.old)) (stream (E.taken err.new) (E.faults err.new))) }
{
    let Ok(arguments) = arguments else {
        return Err(Status::NoMemory);
    };
    if !are_text(arguments.as_slice()) {
        return Err(refuse_words(err));
    }
    match strings_of(alloc, arguments.as_slice()) {
        Ok(words) => Ok(words),
        Err(NoMemory) => Err(Status::NoMemory),
    }
}
