use script::{Op, Step};
use std::alloc::Global;
use std::marker::Model;
use umem_base::{NoMemory, Sequence};

/// A call of a step that is still to be made, as its entry records it. Its memory is taken beforehand.
#[derive(Debug, Drop)]
pub struct Ready {
    op: Op,
    frames: Sequence<u64>,
}

impl Model for Ready {
    ghost use Rattle.script.specs.Plan.{Call};

    ghost Value = { Call };

    ghost view = { λ r. record { op = r.op; frames = r.frames } };
}

impl Ready {
    ghost use Rattle.std.specs.Prelude.{◌≡◌, IfOk};
    ghost use Rattle.script.specs.Plan.{turn_of};

    /// The call of a step.
    pub fn of_step(alloc: Global, step: &Step) -> Result<Ready, NoMemory>
        ensures { IfOk result (λ ready. ready ≡ (turn_of step.now).call) }
    {
        let mut frames = Vec::new(alloc);
        frames.extend_from_slice(step.stack.as_slice())?;
        Ok(Ready {
            op: step.op.clone()?,
            frames: Sequence::new(frames),
        })
    }

    pub fn op(&self) -> &Op
        ensures { result.now ≡ self.now.op }
    {
        &self.op
    }

    pub fn frames(&self) -> &[u64]
        ensures { result.now ≡ self.now.frames }
    {
        self.frames.as_slice()
    }

    /// Both parts.
    pub fn into_parts(self) -> (Op, Sequence<u64>)
        ensures op { result.0 ≡ self.op }
        ensures frames { result.1 ≡ self.frames }
    {
        (self.op, self.frames)
    }
}
