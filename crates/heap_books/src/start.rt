ghost use Rattle.std.specs.Prelude.{◌≡◌, [], IfOk};
ghost use Rattle.umem_options.specs.Limits.{IsLogging, IsOptions};
ghost use Rattle.script.specs.Plan.{plan_of};
ghost use Rattle.script.specs.Rules.{IsPlan};
ghost use Rattle.heap_books.specs.Books.{AreBooks};

use crate::journal::Journal;
use heap_accounts::Accounts;
use heap_ledger::calls_of;
use script::Script;
use std::alloc::Global;
use umem_base::NoMemory;
use umem_options::{Logging, Options, contents_count, contents_records};

/// Nothing was called yet. It takes all memory of the run's entries, acts and contents log.
pub fn start(
    alloc: Global,
    script: &Script,
    options: &Options,
    logging: &Logging,
) -> Result<(Accounts, Journal), NoMemory>
    requires plan { IsPlan (plan_of script.now) }
    requires options { IsOptions options.now }
    requires logging { IsLogging logging.now }
    ensures accounts { IfOk result (λ both. both.0 ≡ record {
      plan = plan_of script.now;
      options = options.now;
      logging = logging.now;
      entries = [];
    }) }
    ensures books { IfOk result (λ both. AreBooks both.0 both.1) }
{
    let accounts = Accounts::start(alloc, script, options, logging)?;
    let capacity = if script.header.version == 2 {
        contents_records(logging, options)
    } else {
        0
    };
    let journal = Journal::start(alloc, calls_of(script), capacity, contents_count(options))?;
    Ok((accounts, journal))
}
