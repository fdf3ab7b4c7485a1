ghost use Rattle.std.specs.Prelude.{◌≡◌};

use crate::reply::Reply;
use script::Op;
use std::alloc::AllocError;
use umem_base::Sequence;

/// What an entry records.
#[derive(Debug, Drop, PartialEq, Eq)]
pub enum Body {
    /// A call of a thread, the frames that it came from, innermost first, and its answer.
    Call {
        op: Op,
        frames: Sequence<u64>,
        reply: Reply,
    },
    /// A slab was made for a cache, at a base.
    Grow {
        cache: u32,
        base: u64,
    },
    /// The slab of a cache at a base was given back.
    Shrink {
        cache: u32,
        base: u64,
    },
}

/// An entry of a history. Entries are numbered from 0 in the order of their commits. A grow or a shrink is an inner
/// entry of the thread whose call caused it.
#[derive(Debug, Drop, PartialEq, Eq)]
pub struct Entry {
    pub number: u32,
    pub thread: u32,
    pub body: Body,
}

/// The clone is the same value.
impl Clone for Body {
    ghost is_clone = { λ v w. w ≡ v };

    fn clone(&self) -> Result<Self, AllocError> {
        Ok(match self {
            Body::Call { op, frames, reply } => Body::Call {
                op: op.clone()?,
                frames: frames.clone()?,
                reply: *reply,
            },
            Body::Grow { cache, base } => Body::Grow {
                cache: *cache,
                base: *base,
            },
            Body::Shrink { cache, base } => Body::Shrink {
                cache: *cache,
                base: *base,
            },
        })
    }
}

/// The clone is the same value.
impl Clone for Entry {
    ghost is_clone = { λ v w. w ≡ v };

    fn clone(&self) -> Result<Self, AllocError> {
        Ok(Entry {
            number: self.number,
            thread: self.thread,
            body: self.body.clone()?,
        })
    }
}
