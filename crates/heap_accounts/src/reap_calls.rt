ghost use Rattle.std.specs.Prelude.{◌≡◌};
ghost use Rattle.heap_accounts.specs.Frees.{AreOfSome};
ghost use Rattle.heap_accounts.specs.Kinds.{is_reap_call};
ghost use Rattle.heap_accounts.specs.Reaps.{AreReapedOfSome, ClosesSlabs, PerformsReap};

use crate::tables::Tables;
use heap_ledger::SlabAt;
use heap_memory::Memory;
use heap_memory::laws::slabs_have_a_span;
use script::Op;

/// Tells whether an operation is a reap.
pub fn is_reap(op: &Op) -> bool
    ensures { result ≡ is_reap_call op.now }
{
    matches!(op, Op::Reap)
}

/// Gives the slabs back of which no chunk lives, with their pages. The table of slabs names them afterwards.
pub fn reap(tables: &mut Tables)
    requires { AreOfSome tables.old }
    ensures { PerformsReap tables.old tables.new }
{
    tables.slabs.drop_unused();
    close_slabs(&mut tables.memory, tables.slabs.reaped());
}

/// Gives the pages of the slabs back that a reap gives back.
fn close_slabs(memory: &mut Memory, slabs: &[SlabAt])
    requires { AreReapedOfSome memory.old slabs.now }
    ensures { ClosesSlabs memory.old memory.new slabs.now slabs.now }
{
    // A law that says why the pages of each slab are taken.
    slabs_have_a_span();
    for slab in slabs {
        memory.close_slab(slab.base);
    }
}
