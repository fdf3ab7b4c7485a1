ghost use Rattle.std.specs.Prelude.{◌≡◌, ◌<◌, ◌^◌, [], ◌∷◌, ◌++◌, map, length, sum_by, OnOk, OnErr, IfOk};
ghost use Rattle.script.specs.Plan.{turn_of, turns_of};
ghost use Rattle.script.specs.Reading.{onto_last};

use crate::tree::{Phase, Step};
use std::alloc::Global;
use std::marker::Model;
use umem_base::NoMemory;

/// The phases that lines tell: those that ended, and the steps of the one that has begun.
#[derive(Drop)]
pub(crate) struct Phases {
    ended: Vec<Phase>,
    begun: Option<Vec<Step>>,
    calls: usize,
}

impl Model for Phases {
    ghost use Rattle.std.specs.Prelude.{List};
    ghost use Rattle.script.specs.Plan.{Turn};
    ghost use Rattle.script.specs.Reading.{ArePhases, phases_in};

    ghost Value = { List (List Turn) };

    ghost view = { λ p. phases_in p.ended.items p.begun };

    ghost invariant = { λ p. ArePhases p.ended.items p.begun p.calls };
}

impl Phases {
    /// No phases. It takes no memory.
    pub(crate) fn new(alloc: Global) -> Phases
        ensures { result ≡ [] }
    {
        Phases {
            ended: Vec::new(alloc),
            begun: None,
            calls: 0,
        }
    }

    pub(crate) fn len(&self) -> usize
        ensures { result ≡ length self.now }
    {
        self.ended.len() + usize::from(self.begun.is_some())
    }

    pub(crate) fn calls(&self) -> usize
        ensures { result ≡ sum_by length self.now }
    {
        self.calls
    }

    /// Begins a phase. On refusal all is as before.
    pub(crate) fn begin(&mut self, alloc: Global) -> Result<(), NoMemory>
        ensures ok { OnOk result (self.new ≡ self.old ++ [] ∷ []) }
        ensures err { OnErr result (self.new ≡ self.old) }
    {
        self.ended.reserve(1)?;
        if let Some(steps) = self.begun.replace(Vec::new(alloc)) {
            self.ended.push(Phase::from_vec(steps)).unwrap();
        }
        Ok(())
    }

    /// Puts a step behind those of the phase that has begun. On refusal all is as before.
    pub(crate) fn push(&mut self, step: Step) -> Result<(), NoMemory>
        requires begun { 0 < length self.old }
        requires fits { sum_by length self.old < 2 ^ 32 }
        ensures ok { OnOk result (self.new ≡ onto_last (turn_of step) self.old) }
        ensures err { OnErr result (self.new ≡ self.old) }
    {
        if let Some(steps) = &mut self.begun {
            steps.push(step)?;
            self.calls += 1;
        }
        Ok(())
    }

    /// All phases.
    pub(crate) fn into_vec(self) -> Result<Vec<Phase>, NoMemory>
        ensures { IfOk result (λ phases. map turns_of phases.items ≡ self) }
    {
        let Phases {
            mut ended,
            begun,
            ..
        } = self;
        if let Some(steps) = begun {
            ended.push(Phase::from_vec(steps))?;
        }
        Ok(ended)
    }
}
