ghost use Rattle.std.specs.Prelude.{◌≡◌, ◌++◌};
ghost use Rattle.umem_base.specs.Faults.{Counts};
ghost use Rattle.umem_base.specs.Transfer.{WritesWhole};
ghost use Rattle.umem_cli.specs.Messages.{about, line_message, message_text, numbered_line, usage_text};

use crate::refusal::Refusal;
use dcmd::DcmdFault;
use itoa::Buffer;
use umem_base::{Sink, Text, WriteFault, write_whole};

const USAGE: [&[u8]; 3] = [
    b"usage: umem run SCRIPT [--core FILE] [--debug LIST] [--logging LIST]\n",
    b"usage: umem mdb CORE\n",
    b"usage: umem make --seed N --ops N [--debug LIST] [--logging LIST]\n",
];

/// Writes the usage lines.
pub(crate) fn write_usage<E: Sink>(err: &mut E) -> Result<(), WriteFault>
    ensures taken { WritesWhole (E.taken err.old) (E.taken err.new) usage_text result }
    ensures cause { Counts (E.faults err.old) (E.faults err.new) result }
{
    let [run, mdb, make] = USAGE;
    write_three(err, run, mdb, make)
}

// Writes three pieces, one behind the other.
fn write_three<E: Sink>(err: &mut E, a: &[u8], b: &[u8], c: &[u8]) -> Result<(), WriteFault>
    ensures taken { WritesWhole (E.taken err.old) (E.taken err.new) (a.now ++ (b.now ++ c.now)) result }
    ensures cause { Counts (E.faults err.old) (E.faults err.new) result }
{
    write_whole(err, a)?;
    write_whole(err, b)?;
    write_whole(err, c)
}

/// Writes the line of a refusal, if it has one. It takes no memory.
pub(crate) fn write_message<E: Sink>(
    err: &mut E,
    name: &Text,
    why: Refusal,
) -> Result<(), WriteFault>
    ensures taken { WritesWhole (E.taken err.old) (E.taken err.new) (message_text name.now why) result }
    ensures cause { Counts (E.faults err.old) (E.faults err.new) result }
{
    let name = name.as_slice();
    match why {
        Refusal::BadScript { line, reason } => {
            write_numbered(err, name, b": line ", u64::from(line), reason.word())
        }
        Refusal::CoreTooLong => write_about(err, name, b": too long\n"),
        Refusal::BadCore { offset, fault } => {
            write_numbered(err, name, b": offset ", offset, fault.word())
        }
        Refusal::NoFile => write_about(err, name, b": no such file\n"),
        Refusal::ReadFault => write_about(err, name, b": read failed\n"),
        Refusal::CommandsFault => write_about(err, b"commands", b": read failed\n"),
        Refusal::CommandsTooLong => write_about(err, b"commands", b": too long\n"),
        Refusal::NoMemory => write_whole(err, b""),
    }
}

/// Writes the line of a refused line of commands. It takes no memory.
pub(crate) fn write_line_message<E: Sink>(
    err: &mut E,
    number: u64,
    fault: DcmdFault,
) -> Result<(), WriteFault>
    ensures taken { WritesWhole (E.taken err.old) (E.taken err.new) (line_message number fault) result }
    ensures cause { Counts (E.faults err.old) (E.faults err.new) result }
{
    write_number(err, b"umem: line ", number, fault.text())
}

// Writes what is said of something.
fn write_about<E: Sink>(err: &mut E, name: &[u8], said: &[u8]) -> Result<(), WriteFault>
    ensures taken { WritesWhole (E.taken err.old) (E.taken err.new) (about name.now said.now) result }
    ensures cause { Counts (E.faults err.old) (E.faults err.new) result }
{
    write_three(err, b"umem: ", name, said)
}

// Writes what is said of something that is wrong at a place.
fn write_numbered<E: Sink>(
    err: &mut E,
    name: &[u8],
    label: &[u8],
    number: u64,
    word: &[u8],
) -> Result<(), WriteFault>
    ensures taken { WritesWhole (E.taken err.old) (E.taken err.new)
        (about name.now (numbered_line label.now number word.now)) result }
    ensures cause { Counts (E.faults err.old) (E.faults err.new) result }
{
    write_whole(err, b"umem: ")?;
    write_whole(err, name)?;
    write_number(err, label, number, word)
}

// Writes what is wrong at a place that has a number.
fn write_number<E: Sink>(
    err: &mut E,
    label: &[u8],
    number: u64,
    word: &[u8],
) -> Result<(), WriteFault>
    ensures taken { WritesWhole (E.taken err.old) (E.taken err.new) (numbered_line label.now number word.now) result }
    ensures cause { Counts (E.faults err.old) (E.faults err.new) result }
{
    let mut buffer = Buffer::new();
    let digits = buffer.format(number);
    write_whole(err, label)?;
    write_whole(err, digits.as_bytes())?;
    write_three(err, b": ", word, b"\n")
}
