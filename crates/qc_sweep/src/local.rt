//! A local search: late acceptance over exchanges of tasks between neighbouring cranes.

ghost use Rattle.std.specs.Prelude.{◌≡◌, ℕ, None};
ghost use Rattle.qc_model.specs.Nodes.{HasStarts, assigned};

use crate::hunt::Start;
use crate::schedule::place_all;
use crate::walk::Walk;
use qc_model::Instance;
use qc_num::{OutOfMemory, Tick};
use qc_part::UpwardView;
use qc_starts::Starts;
use std::alloc::Global;

/// How many changes are tried between two looks at what was seen.
const LOOK: u32 = 50;

/// Least starts are counted as a try for so many pairs of tasks.
const PAIRS_A_TRY: usize = 16;

/// When the last task ends.
fn last_end(starts: &Starts, inst: &Instance) -> Tick
    requires inst { starts.now.inst ≡ inst.now }
    requires starts { HasStarts starts.now.inst starts.now.decisions }
{
    let mut last: Tick = 0;
    for task in 0..inst.task_count() {
        let end = starts.start(task).saturating_add(inst.task(task).ticks);
        last = last.max(end);
    }
    last
}

/// When all is done where each task has its crane and starts as early as can be; later than ever where that can't be.
/// Nothing is decided of the starts, before and after.
fn end_by(starts: &mut Starts, inst: &Instance, cranes: &[Option<u16>]) -> Tick
    requires starts { starts.old.inst ≡ inst.now }
    requires none { (j : ℕ) → assigned starts.old.decisions j ≡ None }
    ensures starts { starts.new.inst ≡ inst.now }
    ensures none { (j : ℕ) → assigned starts.new.decisions j ≡ None }
{
    let end = if place_all(starts, inst, cranes) {
        last_end(starts, inst)
    } else {
        Tick::MAX
    };
    starts.retract(0);
    end
}

/// How many tries least starts count as.
fn tries_of_starts(inst: &Instance) -> usize {
    let tasks = inst.task_count() as usize;
    tasks * tasks / PAIRS_A_TRY
}

/// Tries changes, and looks at the best cranes that were seen: when the best of all are done now, and as how many tries
/// all that counts.
fn look(
    walk: &mut Walk,
    starts: &mut Starts,
    inst: &Instance,
    end: Tick,
) -> Result<(Tick, usize), OutOfMemory>
    requires starts { starts.old.inst ≡ inst.now }
    requires none { (j : ℕ) → assigned starts.old.decisions j ≡ None }
    ensures starts { starts.new.inst ≡ inst.now }
    ensures none { (j : ℕ) → assigned starts.new.decisions j ≡ None }
{
    if !walk.go(LOOK, end)? {
        return Ok((end, LOOK as usize));
    }
    let tries = tries_of_starts(inst).saturating_add(LOOK as usize);
    let seen = end_by(starts, inst, walk.seen());
    if seen < end {
        walk.take_seen()?;
        return Ok((seen, tries));
    }
    Ok((end, tries))
}

/// The best cranes of a part that a local search comes to which begins with these and takes no longer than so many tries.
/// None are looked for that are done before the low tick.
pub(crate) fn improved(
    alloc: Global,
    part: &UpwardView,
    start: &Start,
    low: Tick,
    tries: usize,
) -> Result<Start, OutOfMemory> {
    let inst = part.instance();
    let mut starts = Starts::open(alloc, inst)?;
    let mut walk = Walk::open(alloc, part, start.cranes.as_slice(), low)?;
    let mut end = start.end;
    let mut left = tries;
    for _ in 0..tries / LOOK as usize {
        if end <= low || left == 0 {
            break;
        }
        let (earliest, taken) = look(&mut walk, &mut starts, inst, end)?;
        end = earliest;
        left = left.saturating_sub(taken);
    }
    Ok(Start {
        cranes: walk.into_best(),
        end,
    })
}
