//! How many containers have each class.

ghost use Rattle.std.specs.Prelude.{◌≡◌, List};
ghost use Rattle.std.specs.List.{count_by};
ghost use Rattle.qc_bayplan.specs.Plan.{AreContainers};
ghost use Rattle.qc_bayplan.specs.declared.plan.Container.{Container};
ghost use Rattle.qc_changes.specs.declared.class.Class.{Class};
ghost use Rattle.qc_changes.specs.Classes.{AreLifted, is_still};
ghost use Rattle.qc_changes.specs.Counts.{count_in, count_of, is_gone};
ghost use Rattle.qc_changes.specs.Lifts.{HasOff, counts_from};

use crate::class::Class;
use crate::plan::Plan;

/// How many containers have each class.
#[derive(Clone, Copy)]
pub struct Counts {
    pub discharged: usize,
    pub loaded: usize,
    pub restowed: usize,
    pub lifted: usize,
    pub staying: usize,
}

impl Counts {
    /// How many have this one.
    pub(crate) fn of(&self, class: Class) -> usize
        ensures { result ≡ count_in class self.now }
    {
        match class {
            Class::Discharged => self.discharged,
            Class::Loaded => self.loaded,
            Class::Restowed => self.restowed,
            Class::Lifted => self.lifted,
            Class::Staying => self.staying,
        }
    }
}

/// How many containers of a plan the other hasn't at all.
#[tactic(auto, using(std::proofs::lemmas::List::Sums::count_by_more_yes, std::proofs::lemmas::List::Sums::count_by_more_no))]
fn count_gone(plan: &Plan<'_>, other: &Plan<'_>) -> usize
    ensures { result ≡ count_by (is_gone other.now) plan.now }
{
    let mut count = 0;
    for container in plan.containers() {
        if other.is_gone(container) {
            count += 1;
        }
    }
    count
}

/// How many containers of a plan the other has at the same cell.
#[tactic(auto, using(std::proofs::lemmas::List::Sums::count_by_more_yes, std::proofs::lemmas::List::Sums::count_by_more_no))]
fn count_still(plan: &Plan<'_>, other: &Plan<'_>) -> usize
    ensures { result ≡ count_by (is_still other.now) plan.now }
{
    let mut count = 0;
    for container in plan.containers() {
        if other.is_still(container) {
            count += 1;
        }
    }
    count
}

/// How many containers have each class, where so many stand in the first plan, so many go, lifted ones counted, so many of the
/// first plan the second hasn't at all, so many it has at the same cell, and so many of the second the first hasn't.
fn counts_from(all: usize, off: usize, gone: usize, still: usize, new: usize) -> Counts
    ensures { result ≡ counts_from all off gone still new }
{
    let changed = all.saturating_sub(still);
    let lifted = off.saturating_sub(changed);
    Counts {
        discharged: gone,
        loaded: new,
        restowed: changed.saturating_sub(gone),
        lifted,
        staying: still.saturating_sub(lifted),
    }
}

/// How many containers have each class, where so many go, lifted ones counted.
pub(crate) fn counts_of(first: &Plan<'_>, second: &Plan<'_>, off: usize) -> Counts
    requires first { AreContainers first.now }
    requires second { AreContainers second.now }
    requires off { HasOff first.now second.now off }
    ensures { (lifted : List Container) → AreLifted first.now second.now lifted → (k : Class)
        → count_in k result ≡ count_of first.now second.now lifted k }
{
    let gone = count_gone(first, second);
    let still = count_still(first, second);
    let new = count_gone(second, first);
    counts_from(first.containers().len(), off, gone, still, new)
}
