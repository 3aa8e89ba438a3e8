//! A first plan.

ghost use Rattle.std.specs.Prelude.{◌≡◌, ◌≤◌, ◌<◌, length, IfOk, IfSome};
ghost use Rattle.qc_model.specs.Seen.{seen};
ghost use Rattle.qc_sweep.specs.Hunts.{AreParts, IsSwept};
ghost use Rattle.qc_sweep.specs.Plans.{IsFirstPlan};

use crate::going::Going;
use crate::grain::{grain, up_to_grain};
use crate::hunt::{Hunt, Parts, Start, trial};
use crate::local::improved;
use crate::schedule::{better, end_of, schedule_of};
use crate::split::split;
use crate::swept::Swept;
use qc_dist::in_reach;
use qc_model::{Direction, Instance, mirror};
use qc_num::{OutOfMemory, Tick};
use qc_part::UpwardView;
use std::alloc::Global;

/// No sweep is asked for a later end.
const LATEST: Tick = 68_719_476_736;

/// At the beginning a later end isn't looked at.
const MOST_LOW: Tick = 17_179_869_184;

/// For each state of which the sweeps made the children the local searches together try one change for so many hatches,
/// and at most so many changes. So they take no longer than the sweeps, whose states cost more the more hatches there are.
const HATCHES_A_TRY: usize = 3;

const MOST_TRIES_A_STATE: usize = 10;

/// How many states a layer keeps, round by round.
const WIDTHS: [usize; 4] = [16, 64, 256, 1024];

/// Whether each task lies in some crane's reach.
fn are_reached(inst: &Instance) -> bool {
    for task in 0..inst.task_count() {
        if !is_reached(inst, task) {
            return false;
        }
    }
    true
}

/// Whether a task lies in some crane's reach.
fn is_reached(inst: &Instance, task: u16) -> bool
    requires { task < length inst.now.tasks }
{
    for crane in 0..inst.crane_count() {
        if in_reach(inst, task, crane) {
            return true;
        }
    }
    false
}

/// The greatest tick before which no slack is left at the beginning, found by halving.
fn low_end(part: &UpwardView) -> Tick {
    let root = part.root();
    let mut low = 0;
    let mut high = MOST_LOW;
    for _ in 0..34 {
        let middle = low + (high - low) / 2;
        if part.slack(&root, 0, middle).is_some() {
            high = middle;
        } else {
            low = middle;
        }
    }
    low
}

/// Both parts; `None` where there are more than 60 hatches.
fn parts_of(alloc: Global, inst: &Instance) -> Result<Option<Parts>, OutOfMemory>
    ensures { IfOk result (λ found. IfSome found (AreParts inst.now)) }
{
    let turned = mirror(alloc, inst)?;
    let up = UpwardView::open(alloc, inst)?;
    let down = UpwardView::open(alloc, &turned)?;
    match (up, down) {
        (Some(up), Some(down)) => Ok(Some(Parts { up, down })),
        _ => Ok(None),
    }
}

/// The split of whole hatches, and its schedule that goes this way.
fn split_plan(
    alloc: Global,
    inst: &Instance,
    part: &UpwardView,
    way: Direction,
) -> Result<(Start, Option<Going>), OutOfMemory>
    requires { part.now ≡ seen inst.now way }
    ensures { IfOk result (λ found. IfSome found.1 (IsFirstPlan inst.now)) }
{
    let cranes = split(alloc, part)?;
    let plan = schedule_of(alloc, inst, way, part.instance(), cranes.as_slice())?;
    let end = end_of(inst, &plan);
    Ok((Start { cranes, end }, plan))
}

/// What is known before any sweep.
fn begin(alloc: Global, inst: &Instance, parts: &Parts, effort: usize) -> Result<Hunt, OutOfMemory>
    requires { AreParts inst.now parts.now }
    ensures { IfOk result (λ hunt. IfSome hunt.best (IsFirstPlan inst.now)) }
{
    let (up, up_plan) = split_plan(alloc, inst, &parts.up, Direction::Up)?;
    let (down, down_plan) = split_plan(alloc, inst, &parts.down, Direction::Down)?;
    Ok(Hunt {
        low_up: low_end(&parts.up),
        low_down: low_end(&parts.down),
        cap: None,
        best: better(inst, up_plan, down_plan),
        up,
        down,
        effort,
    })
}

/// Tries ends that are later and later until something is found.
fn climb(
    alloc: Global,
    inst: &Instance,
    parts: &Parts,
    hunt: &mut Hunt,
    width: usize,
) -> Result<(), OutOfMemory>
    requires parts { AreParts inst.now parts.now }
    requires best { IfSome hunt.old.best (IsFirstPlan inst.now) }
    ensures { IfSome hunt.new.best (IsFirstPlan inst.now) }
{
    let low = hunt.low();
    let mut more = (low / 512).max(1);
    for _ in 0..33 {
        let end = low.saturating_add(more).min(LATEST);
        trial(alloc, inst, parts, hunt, end, width)?;
        if hunt.cap.is_some() || more >= 1 << 32 {
            break;
        }
        more = more.saturating_mul(2);
    }
    Ok(())
}

/// One round with so many states a layer: before what was found, and halfway down from there.
fn round(
    alloc: Global,
    inst: &Instance,
    parts: &Parts,
    hunt: &mut Hunt,
    grain: Tick,
    width: usize,
) -> Result<(), OutOfMemory>
    requires parts { AreParts inst.now parts.now }
    requires best { IfSome hunt.old.best (IsFirstPlan inst.now) }
    ensures { IfSome hunt.new.best (IsFirstPlan inst.now) }
{
    match hunt.cap {
        None => climb(alloc, inst, parts, hunt, width)?,
        Some(cap) => trial(alloc, inst, parts, hunt, cap, width)?,
    }
    let Some(cap) = hunt.cap else {
        return Ok(());
    };
    let low = hunt.low();
    let middle = up_to_grain(low.saturating_add(cap) / 2, grain);
    if low < cap && middle < cap {
        trial(alloc, inst, parts, hunt, middle, width)?;
    }
    Ok(())
}

/// Whether the least end that was found isn't known to be the best.
fn is_open(hunt: &Hunt) -> bool {
    match hunt.cap {
        Some(cap) => hunt.low() < cap,
        None => true,
    }
}

/// How many changes the local searches together try where the sweeps made the children of so many states.
fn tries_for(parts: &Parts, states: usize) -> usize {
    let tries = parts.up.hatches().len() / HATCHES_A_TRY;
    states.saturating_mul(tries.min(MOST_TRIES_A_STATE))
}

/// What the splits and the sweeps come to where each task is in the reach of a crane, with both parts.
fn plan_of(
    alloc: Global,
    inst: &Instance,
    parts: &Parts,
    effort: usize,
) -> Result<Hunt, OutOfMemory>
    requires { AreParts inst.now parts.now }
    ensures { IfOk result (λ hunt. IfSome hunt.best (IsFirstPlan inst.now)) }
{
    let mut hunt = begin(alloc, inst, parts, effort)?;
    let grain = grain(inst);
    for width in WIDTHS {
        if is_open(&hunt) {
            round(alloc, inst, parts, &mut hunt, grain, width)?;
        }
    }
    Ok(hunt)
}

/// The schedule that a further local search of a way comes to.
fn local_plan(
    alloc: Global,
    inst: &Instance,
    part: &UpwardView,
    way: Direction,
    start: &Start,
    low: Tick,
    tries: usize,
) -> Result<Option<Going>, OutOfMemory>
    requires { part.now ≡ seen inst.now way }
    ensures { IfOk result (λ found. IfSome found (IsFirstPlan inst.now)) }
{
    let last = improved(alloc, part, start, low, tries)?;
    schedule_of(alloc, inst, way, part.instance(), last.cranes.as_slice())
}

/// What local searches with so many tries together make of what the splits and the sweeps came to: one of each way with
/// a quarter, and one of the way that is better then with the rest.
pub(crate) fn improve(
    alloc: Global,
    inst: &Instance,
    parts: &Parts,
    hunt: Hunt,
    tries: usize,
) -> Result<Option<Going>, OutOfMemory>
    requires parts { AreParts inst.now parts.now }
    requires best { IfSome hunt.best (IsFirstPlan inst.now) }
    ensures { IfOk result (λ found. IfSome found (IsFirstPlan inst.now)) }
{
    let low = hunt.low();
    let quarter = tries / 4;
    let up = improved(alloc, &parts.up, &hunt.up, low, quarter)?;
    let down = improved(alloc, &parts.down, &hunt.down, low, quarter)?;
    let rest = tries / 2;
    let found = if up.end <= down.end {
        local_plan(alloc, inst, &parts.up, Direction::Up, &up, low, rest)?
    } else {
        local_plan(alloc, inst, &parts.down, Direction::Down, &down, low, rest)?
    };
    Ok(better(inst, hunt.best, found))
}

/// What sweeps come to with at most so much effort: of so many states of the sweeps the children are made. `None` says
/// nothing.
pub fn run_sweeps(alloc: Global, inst: &Instance, effort: u32) -> Result<Option<Swept>, OutOfMemory>
    requires { effort ≤ 10000000 }
    ensures { IfOk result (λ found. IfSome found (IsSwept inst.now)) }
{
    if !are_reached(inst) {
        return Ok(None);
    }
    let Some(parts) = parts_of(alloc, inst)? else {
        return Ok(None);
    };
    let effort = effort as usize;
    let hunt = plan_of(alloc, inst, &parts, effort)?;
    let tries = tries_for(&parts, effort.saturating_sub(hunt.effort));
    Ok(Some(Swept { parts, hunt, tries }))
}

/// A schedule for a search to begin with, found with at most so much effort. `None` says nothing.
pub fn first_plan(alloc: Global, inst: &Instance, effort: u32) -> Result<Option<Going>, OutOfMemory>
    requires { effort ≤ 10000000 }
    ensures { IfOk result (λ found. IfSome found (IsFirstPlan inst.now)) }
{
    match run_sweeps(alloc, inst, effort)? {
        Some(swept) => swept.improved(alloc, inst),
        None => Ok(None),
    }
}
