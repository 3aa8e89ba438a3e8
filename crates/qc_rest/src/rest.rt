//! What is left of a plan in the middle of work.

ghost use Rattle.std.specs.Prelude.{◌≡◌, ℕ, ◌+◌, ◌-◌, ◌<◌, ◌≤◌, ℤ, IfErr, IfOk, List, length};
ghost use Rattle.qc_dispatch.specs.Course.{past_moments};
ghost use Rattle.qc_model.specs.Numbers.{most_end};
ghost use Rattle.qc_dispatch.specs.Following.{journal_of};
ghost use Rattle.qc_dispatch.specs.Journal.{IsFollowed};
ghost use Rattle.qc_model.specs.Instance.{InstanceView};
ghost use Rattle.qc_rest.specs.Fit.{IsFit};
ghost use Rattle.qc_rest.specs.Known.{AreKnown};
ghost use Rattle.qc_rest.specs.Limits.{IsPlace, outlook_of, place_at};
ghost use Rattle.qc_rest.specs.Places.{ArePlaces};
ghost use Rattle.qc_rest.specs.Remaining.{NoneIsDue};

use crate::gone::goes_of;
use crate::instance::{instance_of, numbers_of};
use crate::last::last_gone;
use crate::order::order_of;
use crate::places::places_of;
use crate::remains::{StillRuns, first_due, running_of};
use crate::stand::Stand;
use crate::stands::stands_of;
use qc_dispatch::{Followed, lead_marks};
use qc_model::{Instance, MOST_READY, Schedule, Slot, ends};
use qc_num::{OutOfMemory, Tick};
use std::alloc::Global;

/// The least and the greatest start bay that may be written where places are given in decimetres.
const LEAST_BERTH: i64 = -10_000;

const GREATEST_BERTH: i64 = 16_000;

/// Why there is no rest.
#[derive(Clone, Copy)]
pub enum RestError {
    /// The lowest task that runs and has had the ticks that it needed, counted from 0.
    Over(u16),
    /// The lowest crane, counted from 0, with one of these two: it would be ready later than a crane may be.
    Ready(u16),
    /// Or it would begin at a bay that may not be written, which can be only where places are given in decimetres.
    Bay(u16),
    OutOfMemory,
}

impl From<OutOfMemory> for RestError {
    ghost use Rattle.qc_rest.specs.declared.rest.RestError.TheVariants as error;

    ghost from_gives = { λ _ why. why ≡ error.OutOfMemory };

    fn from(_refused: OutOfMemory) -> RestError {
        RestError::OutOfMemory
    }
}

/// What is left of a plan in the middle of work.
#[derive(Drop)]
pub struct Rest {
    /// The tick that it is.
    pub now: Tick,
    /// The tasks that run, in the order of the tasks.
    pub running: Vec<StillRuns>,
    /// What is left, as an instance of its own that begins now: the tasks that are left in their order, with releases
    /// counted from now, and all cranes, with the bays and ready times that they have by now.
    pub instance: Instance,
    /// The old order as a schedule of it.
    pub order: Schedule,
    /// When that ends, counted from now; 0 where no task is left.
    pub end: Tick,
    /// By how many ticks that is later than if the old order went on.
    pub late: Tick,
}

/// What is found of the work by a log.
#[derive(Drop)]
struct Found {
    /// Which task leads which.
    marks: Vec<bool>,
    /// The number of each task among those that are left.
    numbers: Vec<u16>,
    /// Where each crane stands.
    stands: Vec<Stand>,
    /// When each task that is left starts, if the old order goes on.
    goes: Vec<Tick>,
}

ghost use Rattle.qc_rest.specs.Found.{AreFound};
ghost use Rattle.qc_rest.specs.Unfit.{AreUnfit, IsUnfitAt};
ghost use Rattle.qc_rest.specs.Whole.{IsNoRest, IsRestBy};

impl Found {
    /// Finds it. What is held is lent, so that nothing is let go where memory is wanting.
    fn fill(&mut self, alloc: Global, slots: &[Slot], journal: &Followed) -> Result<(), OutOfMemory>
        requires known { AreKnown journal.now }
        requires plan { slots.now ≡ journal.now.dispatch.plan }
        ensures { IfOk result (λ _. AreFound journal.now slots.now self.new.marks.items self.new.numbers.items
            self.new.stands.items self.new.goes.items) }
    {
        self.marks = lead_marks(alloc, journal.dispatch.instance(), slots)?;
        self.numbers = numbers_of(alloc, journal)?;
        self.stands = stands_of(alloc, slots, journal)?;
        self.goes = goes_of(alloc, slots, journal, self.marks.as_slice())?;
        Ok(())
    }
}

/// Why a crane that must stay until then and begins at this place isn't fit; `None` where it is.
fn unfit(journal: &Followed, until: Tick, place: i64, k: u16) -> Option<RestError>
    ensures { IsUnfitAt journal.now.dispatch.clock until place k result }
{
    if journal.dispatch.now() + MOST_READY < until {
        return Some(RestError::Ready(k));
    }
    if place < LEAST_BERTH || GREATEST_BERTH < place {
        return Some(RestError::Bay(k));
    }
    None
}

/// Why the lowest crane isn't fit that isn't; `None` where all are.
fn first_unfit(journal: &Followed, stands: &[Stand], places: &[i64]) -> Option<RestError>
    requires stands { length stands.now ≡ length journal.now.dispatch.inst.cranes }
    requires places { length places.now ≡ 8 }
    requires near { (k : ℕ) → k < length journal.now.dispatch.inst.cranes → IsPlace k (place_at places.now k) }
    ensures { (goes : List ℕ) → AreUnfit (outlook_of journal.now stands.now goes) (place_at places.now)
        (length journal.now.dispatch.inst.cranes) result }
{
    for k in 0..journal.dispatch.instance().crane_count() {
        let until = stands[k as usize].until;
        if let Some(why) = unfit(journal, until, places[k as usize], k) {
            return Some(why);
        }
    }
    None
}

/// By how many ticks the rest, which ends then counted from now, is over later than at this moment.
fn late_by(now: Tick, end: Tick, last: Tick) -> Tick
    requires now { now < past_moments }
    requires end { end ≤ most_end }
    ensures { result ≡ (now + end) - last }
{
    (now + end).saturating_sub(last)
}

/// The rest, made of what was found.
fn make(
    alloc: Global,
    slots: &[Slot],
    journal: &Followed,
    marks: &[bool],
    numbers: &[u16],
    stands: &[Stand],
    goes: &[Tick],
    places: &[i64],
) -> Result<Rest, OutOfMemory>
    requires known { AreKnown journal.now }
    requires none { NoneIsDue (journal_of journal.now) }
    requires plan { slots.now ≡ journal.now.dispatch.plan }
    requires found { AreFound journal.now slots.now marks.now numbers.now stands.now goes.now }
    requires count { length places.now ≡ 8 }
    requires places { (tops : ℕ → ℤ) × ArePlaces (outlook_of journal.now stands.now goes.now) tops (place_at places.now) }
    requires near { (k : ℕ) → k < length journal.now.dispatch.inst.cranes → IsPlace k (place_at places.now k) }
    requires fit { (k : ℕ) → k < length journal.now.dispatch.inst.cranes
        → IsFit (outlook_of journal.now stands.now goes.now) (place_at places.now) k }
    ensures { IfOk result (IsRestBy (journal_of journal.now)) }
{
    let instance = instance_of(alloc, journal, stands, places, numbers)?;
    let order = order_of(alloc, slots, journal, marks, &instance, numbers)?;
    let running = running_of(alloc, slots, journal)?;
    let now = journal.dispatch.now();
    let end = ends(&instance, &order);
    let late = late_by(now, end, last_gone(&journal.dispatch, goes));
    Ok(Rest {
        now,
        running,
        instance,
        order,
        end,
        late,
    })
}

/// The rest by what was found, where no task is due.
fn rest_with(
    alloc: Global,
    slots: &[Slot],
    journal: &Followed,
    marks: &[bool],
    numbers: &[u16],
    stands: &[Stand],
    goes: &[Tick],
) -> Result<Rest, RestError>
    requires known { AreKnown journal.now }
    requires none { NoneIsDue (journal_of journal.now) }
    requires plan { slots.now ≡ journal.now.dispatch.plan }
    requires found { AreFound journal.now slots.now marks.now numbers.now stands.now goes.now }
    ensures rest { IfOk result (IsRestBy (journal_of journal.now)) }
    ensures refused { IfErr result (IsNoRest (journal_of journal.now)) }
{
    let places = places_of(slots, journal, stands, goes);
    if let Some(why) = first_unfit(journal, stands, &places) {
        return Err(why);
    }
    Ok(make(alloc, slots, journal, marks, numbers, stands, goes, &places)?)
}

/// The rest of a plan by a log.
fn rest_by(alloc: Global, slots: &[Slot], journal: &Followed) -> Result<Rest, RestError>
    requires known { AreKnown journal.now }
    requires plan { slots.now ≡ journal.now.dispatch.plan }
    ensures rest { IfOk result (IsRestBy (journal_of journal.now)) }
    ensures refused { IfErr result (IsNoRest (journal_of journal.now)) }
{
    if let Some(task) = first_due(journal) {
        return Err(RestError::Over(task));
    }
    let mut found = Found {
        marks: Vec::new(alloc),
        numbers: Vec::new(alloc),
        stands: Vec::new(alloc),
        goes: Vec::new(alloc),
    };
    found.fill(alloc, slots, journal)?;
    rest_with(
        alloc,
        slots,
        journal,
        found.marks.as_slice(),
        found.numbers.as_slice(),
        found.stands.as_slice(),
        found.goes.as_slice(),
    )
}

impl Rest {
    /// The rest of a plan by a log that was followed: what is left, as an instance that begins now, and the old order
    /// of it. `Over`, `Ready` and `Bay` come exactly where they say, in this order.
    pub fn of(alloc: Global, plan: &Schedule, journal: &Followed) -> Result<Rest, RestError>
        requires { (inst : InstanceView) × ((text : List ℕ) × IsFollowed inst plan.now text (journal_of journal.now)) }
        ensures rest { IfOk result (IsRestBy (journal_of journal.now)) }
        ensures refused { IfErr result (IsNoRest (journal_of journal.now)) }
    {
        let _now = journal.dispatch.now();
        rest_by(alloc, plan.slots(), journal)
    }
}
