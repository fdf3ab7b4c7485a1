ghost use Rattle.std.specs.Prelude.{IfOk};
ghost use Rattle.heap_ledger.specs.Ledger.{run_setting, run_state};
ghost use Rattle.heap_books.specs.Books.{AreBooks};
ghost use Rattle.heap_books.specs.Fit.{FitRun};
ghost use Rattle.heap_books.specs.InLists.{AreInLists, DrawnInLists};
ghost use Rattle.heap_pictures.specs.Pictures.{DrawnWith, Pictures};

use crate::draw::draw;
use crate::fit::fits;
use crate::free_lists::places_in_lists;
use crate::journal::Journal;
use core_format::Core;
use heap_accounts::Accounts;
use heap_pictures::FreePlaces;
use std::alloc::Global;
use umem_base::NoMemory;

/// Makes the core of a run, with its free chunks at places that fit.
fn draw_fitting(
    alloc: Global,
    accounts: &Accounts,
    journal: &Journal,
    places: FreePlaces,
) -> Result<Core, NoMemory>
    requires books { AreBooks accounts.now journal.now }
    requires fit { FitRun (run_setting accounts.now) (run_state accounts.now) places }
    ensures drawn { IfOk result (DrawnWith accounts.now places) }
    ensures pictures { IfOk result (Pictures accounts.now) }
{
    // Says that the entries are legal.
    let _ = accounts.history();
    draw(alloc, accounts, journal, places)
}

/// Makes the core of a run, with each free chunk in its slab's list.
fn draw_in_lists(
    alloc: Global,
    accounts: &Accounts,
    journal: &Journal,
    places: FreePlaces,
) -> Result<Core, NoMemory>
    requires books { AreBooks accounts.now journal.now }
    requires are { AreInLists (run_setting accounts.now) (run_state accounts.now) places }
    ensures drawn { IfOk result (DrawnInLists accounts.now) }
    ensures pictures { IfOk result (Pictures accounts.now) }
{
    // Says that the entries are legal.
    let _ = accounts.history();
    draw(alloc, accounts, journal, places)
}

/// Makes the core of a run, with its free chunks at these places where they fit, and else in the lists of their slabs.
pub fn picture(
    alloc: Global,
    accounts: &Accounts,
    journal: &Journal,
    places: FreePlaces,
) -> Result<Core, NoMemory>
    requires { AreBooks accounts.now journal.now }
    ensures fitting { FitRun (run_setting accounts.now) (run_state accounts.now) places
        → IfOk result (DrawnWith accounts.now places) }
    ensures others { ¬ FitRun (run_setting accounts.now) (run_state accounts.now) places
        → IfOk result (DrawnInLists accounts.now) }
    ensures pictures { IfOk result (Pictures accounts.now) }
{
    let in_lists = places_in_lists(alloc, accounts)?;
    let fit = fits(alloc, accounts, &places, &in_lists)?;
    if fit {
        draw_fitting(alloc, accounts, journal, places)
    } else {
        draw_in_lists(alloc, accounts, journal, in_lists)
    }
}
