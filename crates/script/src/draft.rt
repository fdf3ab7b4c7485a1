use crate::declared::Declared;
use crate::phases::Phases;
use std::marker::Model;

/// What the lines so far say, from the header on. Contracts see it as a plan.
#[derive(Drop)]
pub(crate) struct Draft<'a> {
    pub(crate) version: u32,
    pub(crate) cpus: u32,
    pub(crate) threads: u32,
    pub(crate) declared: Declared<'a>,
    pub(crate) phases: Phases,
}

impl<'a> Model for Draft<'a> {
    ghost use Rattle.script.specs.Plan.{Plan, plan_with};

    ghost Value = { Plan };

    ghost view = { λ d. plan_with d.version d.cpus d.threads d.declared d.phases };
}
