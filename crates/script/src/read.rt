ghost use Rattle.std.specs.Prelude.{◌≡◌, IfOk};
ghost use Rattle.script.specs.Grammar.{Reads, script_of};
ghost use Rattle.script.specs.Lines.{is_comment};
ghost use Rattle.script.specs.Plan.{plan_of};
ghost use Rattle.script.specs.Reading.{IsScriptOf, TakesLine, at_line};
ghost use Rattle.script.specs.Rules.{IsPlan};

use crate::draft::Draft;
use crate::fault::ScriptFault;
use crate::header_line::read_header;
use crate::limits::MOST_BYTES;
use crate::line_bytes::is_line;
use crate::line_fault::LineFault;
use crate::reasons::Reason;
use crate::tree::{Header, Script};
use std::alloc::Global;
use umem_base::{NoMemory, Sequence, split_line, split_word};

/// Reads a script of either version. `Bad` comes exactly where the bytes spell none, with the first bad line
/// and the first reason that applies to it. A file that is too long is line 0, `Limit`, before its content
/// is looked at.
pub fn read_script(alloc: Global, bytes: &[u8]) -> Result<Script, ScriptFault>
    ensures said { Reads result (script_of bytes.now) }
    ensures formed { IfOk result (λ script. IsPlan (plan_of script)) }
{
    if bytes.len() > MOST_BYTES {
        return Err(ScriptFault::Bad {
            line: 0,
            reason: Reason::Limit,
        });
    }
    let mut said = None;
    let mut rest = bytes;
    let mut number = 0;
    while !rest.is_empty() {
        let (line, behind) = split_line(rest);
        number += 1;
        if let Err(fault) = read_line(alloc, &mut said, line) {
            return Err(at_line(number, fault));
        }
        rest = behind;
    }
    match said {
        Some(draft) => into_script(draft),
        None => Err(ScriptFault::Bad {
            line: number + 1,
            reason: Reason::Header,
        }),
    }
}

// Takes a line behind lines that say this, or nothing yet.
fn read_line<'a>(
    alloc: Global,
    said: &mut Option<Draft<'a>>,
    line: &'a [u8],
) -> Result<(), LineFault>
    ensures { TakesLine result said.old said.new line.now }
{
    if !is_line(line) {
        return Err(LineFault::Refused(Reason::Text));
    }
    let Some((first, rest)) = split_word(line) else {
        return Ok(());
    };
    if is_comment(first) {
        return Ok(());
    }
    if let Some(draft) = said {
        return draft.take_line(alloc, first, rest);
    }
    *said = Some(read_header(alloc, first, rest)?);
    Ok(())
}

fn is_comment(word: &[u8]) -> bool
    ensures { result ≡ is_comment word.now }
{
    matches!(word, [b'#', ..])
}

fn at_line(line: u32, fault: LineFault) -> ScriptFault
    ensures { result ≡ at_line line fault }
{
    match fault {
        LineFault::NoMemory => ScriptFault::NoMemory,
        LineFault::Refused(reason) => ScriptFault::Bad { line, reason },
    }
}

// What the lines say.
fn into_script(draft: Draft<'_>) -> Result<Script, ScriptFault>
    ensures { IsScriptOf result draft.entry }
{
    let Draft {
        version,
        cpus,
        threads,
        declared,
        phases,
    } = draft;
    let Ok(phases) = phases.into_vec() else {
        return Err(ScriptFault::NoMemory);
    };
    let caches = Sequence::new(declared.into_vec());
    Ok(Script {
        header: Header {
            version,
            cpus,
            threads,
            caches,
        },
        phases: Sequence::new(phases),
    })
}
