//! What the sweeps came to, ahead of any local search.

ghost use Rattle.std.specs.Prelude.{IfOk, IfSome};
ghost use Rattle.qc_sweep.specs.Hunts.{IsSwept};
ghost use Rattle.qc_sweep.specs.Plans.{IsFirstPlan};

use crate::first::improve;
use crate::going::Going;
use crate::hunt::{Hunt, Parts};
use qc_model::{Instance, ends};
use qc_num::{OutOfMemory, Tick};
use std::alloc::Global;

/// What the splits and the sweeps came to, ahead of any local search.
#[derive(Drop)]
pub struct Swept {
    pub(crate) parts: Parts,
    pub(crate) hunt: Hunt,
    /// How many changes the local searches may try.
    pub(crate) tries: usize,
}

impl Swept {
    /// When the best schedule ends that was found so far, in ticks; none where none was.
    pub fn end(&self, inst: &Instance) -> Option<Tick>
        requires { IsSwept inst.now self.now }
    {
        match &self.hunt.best {
            Some(found) => Some(ends(inst, &found.sched)),
            None => None,
        }
    }

    /// A schedule for a search to begin with, once local searches have looked for a better one. `None` says nothing.
    pub fn improved(self, alloc: Global, inst: &Instance) -> Result<Option<Going>, OutOfMemory>
        requires { IsSwept inst.now self }
        ensures { IfOk result (λ found. IfSome found (IsFirstPlan inst.now)) }
    {
        let Swept { parts, hunt, tries } = self;
        improve(alloc, inst, &parts, hunt, tries)
    }
}
