ghost use Rattle.std.specs.Prelude.{◌≡◌, option_copied};
ghost use Rattle.heap_view.specs.Layout.{IsLaidOut};
ghost use Rattle.umausers.specs.Usages.{audit_of_chunk};

use core_format::{AuditItem, Core};

/// The last transaction of a chunk. It looks among the audits by halves.
pub fn audit_of_chunk(core: &Core, chunk: u32) -> Option<&AuditItem>
    requires { IsLaidOut core.now }
    ensures { option_copied result ≡ audit_of_chunk core.now chunk }
{
    let audits = core.audits.as_slice();
    let index = audits.partition_point(|audit| audit.chunk < chunk);
    if index < audits.len() && audits[index].chunk == chunk {
        Some(&audits[index])
    } else {
        None
    }
}
