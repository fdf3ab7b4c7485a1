ghost use Rattle.std.specs.Prelude.{◌≡◌};
ghost use Rattle.umem_cli.specs.Messages.{message_text};
ghost use Rattle.umem_cli.specs.Outcomes.{SaysUsage};
ghost use Rattle.umem_cli.specs.Refusal.{status_of};
ghost use Rattle.umem_cli.specs.Streams.{Says, stream};
ghost use Rattle.umem_cli.specs.declared.status.Status.TheVariants.{Done};

use crate::message::{write_message, write_usage};
use crate::refusal::Refusal;
use crate::status::Status;
use umem_base::{Sink, Text, WriteFault, write_whole};

/// Writes a text on the output, as the last thing that is done.
pub(crate) fn print<O: Sink>(out: &mut O, text: &Text) -> Status
    ensures { Says text.now Done (stream (O.taken out.old) (O.faults out.old))
        (stream (O.taken out.new) (O.faults out.new)) result }
{
    match write_whole(out, text.as_slice()) {
        Ok(()) => Status::Done,
        Err(WriteFault) => Status::WriteFault,
    }
}

/// Writes the line of a refusal, if it has one, and gives the status.
pub(crate) fn refuse<E: Sink>(err: &mut E, name: &Text, why: Refusal) -> Status
    ensures { Says (message_text name.now why) (status_of why) (stream (E.taken err.old) (E.faults err.old))
        (stream (E.taken err.new) (E.faults err.new)) result }
{
    match write_message(err, name, why) {
        Ok(()) => status_of(why),
        Err(WriteFault) => Status::WriteFault,
    }
}

/// Writes the usage lines, and gives the status.
pub(crate) fn refuse_words<E: Sink>(err: &mut E) -> Status
    ensures { SaysUsage (stream (E.taken err.old) (E.faults err.old))
        (stream (E.taken err.new) (E.faults err.new)) result }
{
    match write_usage(err) {
        Ok(()) => Status::Usage,
        Err(WriteFault) => Status::WriteFault,
    }
}

fn status_of(why: Refusal) -> Status
    ensures { result ≡ status_of why }
{
    match why {
        Refusal::BadScript { .. } => Status::BadScript,
        Refusal::CoreTooLong | Refusal::BadCore { .. } => Status::BadCore,
        Refusal::NoFile => Status::NoFile,
        Refusal::ReadFault | Refusal::CommandsFault => Status::ReadFault,
        Refusal::CommandsTooLong => Status::Refused,
        Refusal::NoMemory => Status::NoMemory,
    }
}
