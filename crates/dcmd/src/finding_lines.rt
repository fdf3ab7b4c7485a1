ghost use Rattle.std.specs.Prelude.{◌≡◌, ◌++◌, IfOk, OnOk};
ghost use Rattle.std.specs.List.{flat_map};
ghost use Rattle.dcmd.specs.Findings.{finding_line, finding_offset, finding_word, findings_count, state_word, verify_text};

use crate::column::Column::{Decimal, Hex, Word};
use crate::lines::put_line;
use crate::names::name_of;
use buftag::{Finding, State};
use core_format::Core;
use heap_view::View;
use std::alloc::Global;
use umem_base::{NoMemory, Text};
use verify::{Line, findings};

fn state_word(state: State) -> &'static [u8]
    ensures { result.now ≡ state_word state }
{
    match state {
        State::Allocated => b"allocated",
        State::Free => b"free",
    }
}

fn finding_word(finding: Finding) -> &'static [u8]
    ensures { result.now ≡ finding_word finding }
{
    match finding {
        Finding::Content(_) => b"content",
        Finding::Redzone => b"redzone",
        Finding::SizeCode => b"sizecode",
        Finding::GuardByte => b"guard",
        Finding::BadTag => b"tag",
        Finding::Unconstructed(_) => b"unconstructed",
    }
}

/// The offset that a finding tells, if it tells one.
fn finding_offset(finding: Finding) -> Option<u32>
    ensures { result ≡ finding_offset finding }
{
    match finding {
        Finding::Content(offset) | Finding::Unconstructed(offset) => Some(offset),
        Finding::Redzone | Finding::SizeCode | Finding::GuardByte | Finding::BadTag => None,
    }
}

/// Appends the line of a chunk with a finding.
fn put_finding(out: &mut Text, core: &Core, line: &Line) -> Result<(), NoMemory>
    ensures { OnOk result (out.new ≡ out.old ++ finding_line core.now line.now) }
{
    let first = Hex(line.address);
    let state = Word(state_word(line.state));
    let name = Word(name_of(core, line.cache));
    let word = Word(finding_word(line.finding));
    match finding_offset(line.finding) {
        None => put_line(out, first, &[state, name, word]),
        Some(offset) => {
            let offset = Decimal(u64::from(offset));
            put_line(out, first, &[state, name, word, offset])
        }
    }
}

fn put_findings(out: &mut Text, core: &Core, lines: &[Line]) -> Result<(), NoMemory>
    ensures { OnOk result (out.new ≡ out.old ++ flat_map (finding_line core.now) lines.now) }
{
    for line in lines {
        put_finding(out, core, line)?;
    }
    Ok(())
}

fn put_count(out: &mut Text, lines: &[Line]) -> Result<(), NoMemory>
    ensures { OnOk result (out.new ≡ out.old ++ findings_count lines.now) }
{
    put_line(out, Word(b"findings"), &[Decimal(lines.len() as u64)])
}

/// What `::umem_verify` answers.
#[tactic(auto, unfolding(crate::specs::Findings::verify_text))]
pub(crate) fn verify_text(alloc: Global, view: &View) -> Result<Text, NoMemory>
    ensures { IfOk result (λ text. text ≡ verify_text view.now) }
{
    let lines = findings(alloc, view)?;
    let mut out = Text::new(alloc);
    put_findings(&mut out, view.core(), &lines)?;
    put_count(&mut out, &lines)?;
    Ok(out)
}
