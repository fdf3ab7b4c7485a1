ghost use Rattle.std.specs.Prelude.{◌≡◌};
ghost use Rattle.plain_heap.specs.Replies.{report_of};

use crate::reply::Report;
use buftag::Finding;

/// What is reported of a chunk that is handed out, by its finding as a free one.
pub fn report_of(finding: Option<Finding>) -> Report
    ensures { result ≡ report_of finding }
{
    match finding {
        Some(Finding::Content(offset)) => Report::Modified(offset),
        Some(Finding::Redzone | Finding::BadTag) => Report::Redzone,
        Some(Finding::SizeCode | Finding::GuardByte | Finding::Unconstructed(_)) | None => {
            Report::Clean
        }
    }
}
