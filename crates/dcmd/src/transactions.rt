ghost use Rattle.std.specs.Prelude.{◌≡◌, ◌++◌, IfOk, OnOk, reverse};
ghost use Rattle.std.specs.List.{flat_map};
ghost use Rattle.dcmd.specs.Transactions.{log_text, trans_line};

use crate::column::Column::{RightDecimal, RightHex};
use crate::lines::put_line;
use case_table::bufctl_address;
use heap_view::View;
use std::alloc::Global;
use trans_log::Trans;
use umem_base::{NoMemory, Text};

/// The words over the columns of `::umem_log`, those of mdb(1).
const LOG_HEADING: &[u8] = b"CPU     ADDR  BUFADDR TIMESTAMP THREAD\n";

/// Appends the line of a transaction.
fn put_trans(out: &mut Text, trans: &Trans) -> Result<(), NoMemory>
    ensures { OnOk result (out.new ≡ out.old ++ trans_line trans.now) }
{
    let first = RightDecimal {
        width: 3,
        value: u64::from(trans.cpu),
    };
    let bufctl = RightHex {
        width: 8,
        value: bufctl_address(trans.chunk),
    };
    let buffer = RightHex {
        width: 8,
        value: trans.address,
    };
    let time = RightDecimal {
        width: 9,
        value: trans.time,
    };
    let thread = RightDecimal {
        width: 6,
        value: u64::from(trans.thread),
    };
    put_line(out, first, &[bufctl, buffer, time, thread])
}

/// Appends the lines of transactions, the last one first.
fn put_newest_first(out: &mut Text, log: &[Trans]) -> Result<(), NoMemory>
    ensures { OnOk result (out.new ≡ out.old ++ flat_map trans_line (reverse log.now)) }
{
    for index in (0..log.len()).rev() {
        put_trans(out, &log[index])?;
    }
    Ok(())
}

/// What `::umem_log` answers.
#[tactic(auto, using(crate::proofs::LineLemmas::log_heading_is), unfolding(crate::specs::Transactions::log_text))]
pub(crate) fn log_text(alloc: Global, view: &View) -> Result<Text, NoMemory>
    ensures { IfOk result (λ text. text ≡ log_text view.now) }
{
    let mut out = Text::new(alloc);
    out.push_slice(LOG_HEADING)?;
    put_newest_first(&mut out, view.core().trans.as_slice())?;
    Ok(out)
}
