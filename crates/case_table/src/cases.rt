ghost use Rattle.std.specs.Prelude.{◌≡◌, ◌↔◌, All, IfSome, IsNone, position, if◌then◌else◌};
ghost use Rattle.case_table.specs.Cases.{Hits, IsFirstHit, is_hit};

use crate::rule::Rule;

/// A table of rules, the first of which is tried first.
#[derive(Clone, Copy, Debug)]
pub struct Cases<const N: usize> {
    pub rows: [Rule; N],
}

impl<const N: usize> Cases<N> {
    /// The number of the first row that stands in the state and hits at one of the facts.
    pub fn first_hit(&self, state: u32, facts: u32) -> Option<usize>
        ensures value { result ≡ position (is_hit state facts) self.now.rows }
        ensures first { IfSome result (IsFirstHit state facts self.now.rows) }
        ensures none { IsNone result ↔ All (λ row. ¬ Hits state facts row) self.now.rows }
    {
        self.rows
            .iter()
            .position(|row| row.state & state != 0 && row.fact & facts != 0)
    }
}

/// The bits of a fact if it holds, and no bits else.
pub fn fact_if(holds: bool, fact: u32) -> u32
    ensures { result ≡ (if holds then fact else 0) }
{
    if holds { fact } else { 0 }
}
