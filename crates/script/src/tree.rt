ghost use Rattle.std.specs.Prelude.{◌≡◌};

use crate::operation::Op;
use case_table::CacheDef;
use std::alloc::AllocError;
use umem_base::{BoundedVec, Sequence, Stack};

/// What stands before the phases of a script.
#[derive(Debug, Drop, PartialEq, Eq)]
pub struct Header {
    /// The version of the script's grammar, 1 or 2.
    pub version: u32,
    /// How many CPUs there are, from 1 to 16.
    pub cpus: u32,
    /// How many threads there are, from 1 to 32.
    pub threads: u32,
    /// The declared caches, which are numbered behind the size classes.
    pub caches: Sequence<CacheDef>,
}

/// A call of a thread. Threads are numbered from 0.
#[derive(Debug, Drop, PartialEq, Eq)]
pub struct Step {
    pub thread: u32,
    pub op: Op,
    /// Where the call comes from, innermost frame first.
    pub stack: Stack,
}

/// The steps between two phase lines. Each thread does its own in their order; a phase begins when the one
/// before it has ended.
pub type Phase = BoundedVec<Step>;

/// A script. Two are equal where they say the same, whatever room their lists have.
#[derive(Debug, Drop, PartialEq, Eq)]
pub struct Script {
    pub header: Header,
    pub phases: Sequence<Phase>,
}

impl Script {
    ghost use Rattle.std.specs.Prelude.{◌≡◌, ◌↔◌, IsTrue};
    ghost use Rattle.script.specs.Plan.{plan_of};

    /// Tells whether both say the same. The room of their lists is not compared. It takes no memory.
    pub fn says_the_same(&self, other: &Script) -> bool
        ensures { IsTrue result ↔ (plan_of self.now ≡ plan_of other.now) }
    {
        self == other
    }
}

/// The clone is equal. It is refused for want of memory alone.
impl Clone for Header {
    ghost is_clone = { λ header copy. copy ≡ header };

    fn clone(&self) -> Result<Self, AllocError> {
        Ok(Header {
            version: self.version,
            cpus: self.cpus,
            threads: self.threads,
            caches: self.caches.clone()?,
        })
    }
}

/// The clone is equal, with as much room for frames. It is refused for want of memory alone.
impl Clone for Step {
    ghost is_clone = { λ step copy. copy ≡ step };

    fn clone(&self) -> Result<Self, AllocError> {
        Ok(Step {
            thread: self.thread,
            op: self.op.clone()?,
            stack: self.stack.clone()?,
        })
    }
}

/// The clone is equal, with as much room in each list. It is refused for want of memory alone.
impl Clone for Script {
    ghost is_clone = { λ script copy. copy ≡ script };

    fn clone(&self) -> Result<Self, AllocError> {
        Ok(Script {
            header: self.header.clone()?,
            phases: self.phases.clone()?,
        })
    }
}
