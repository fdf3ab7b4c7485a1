ghost use Rattle.std.specs.Prelude.{◌≡◌};
ghost use Rattle.script.specs.Reading.{both, first_fault, lesser};
ghost use Rattle.script.specs.Grammar.{rank_of};

use crate::line_fault::LineFault;
use crate::reasons::Reason;

/// Two values, or the first fault: want of memory, or else the reason that stands first in the table.
#[inline(always)]
pub(crate) fn both<A: Drop, B: Drop>(
    a: Result<A, LineFault>,
    b: Result<B, LineFault>,
) -> Result<(A, B), LineFault>
    ensures { result ≡ both a b }
{
    match (a, b) {
        (Ok(a), Ok(b)) => Ok((a, b)),
        (Ok(_), Err(fault)) | (Err(fault), Ok(_)) => Err(fault),
        (Err(a), Err(b)) => Err(first_fault(a, b)),
    }
}

fn first_fault(a: LineFault, b: LineFault) -> LineFault
    ensures { result ≡ first_fault a b }
{
    match (a, b) {
        (LineFault::Refused(a), LineFault::Refused(b)) => LineFault::Refused(lesser(a, b)),
        _ => LineFault::NoMemory,
    }
}

fn lesser(a: Reason, b: Reason) -> Reason
    ensures { result ≡ lesser a b }
{
    if rank_of(a) <= rank_of(b) { a } else { b }
}

// The place of a reason in the table.
fn rank_of(reason: Reason) -> u32
    ensures { result ≡ rank_of reason }
{
    reason as u32
}
