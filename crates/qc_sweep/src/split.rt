//! Splits of whole hatches: each crane works a run of hatches alone.

ghost use Rattle.std.specs.Prelude.{◌<◌, ◌≤◌, length};
ghost use Rattle.qc_model.specs.Numbers.{most_hatches};

use qc_model::{MOST_CRANES, MOST_HATCHES};
use qc_num::OutOfMemory;
use qc_part::{Block, Hatch, UpwardView};
use std::alloc::Global;

/// How many numbers of hatches there are from the first on, none included.
const FRONTS: usize = MOST_HATCHES as usize + 1;

/// Where the cranes so far have done the first so many hatches: the least tick by which each of them
/// is done, or a tick that never comes.
type Ends = [i64; FRONTS];

/// How many of these hatches the cranes below the last one do.
type Cuts = [u8; FRONTS];

const NEVER: i64 = i64::MAX;

/// Tries for one crane more all runs of hatches that begin at this one.
fn try_runs(hatches: &[Hatch], crane: u16, first: u8, before: i64, ends: &mut Ends, cuts: &mut Cuts)
    requires few { length hatches.now ≤ most_hatches }
    requires crane { crane < 8 }
{
    let mut done: i64 = 0;
    let mut last: Option<i64> = None;
    for number in first as usize..hatches.len() {
        let hatch = &hatches[number];
        if !hatch.reached[crane as usize] {
            break;
        }
        let way = match last {
            None => hatch.free[crane as usize],
            Some(place) => hatch.place.saturating_sub(place),
        };
        done = done
            .saturating_add(way)
            .saturating_add(hatch.block.work_from(0));
        let end = done.max(before);
        if end < ends[number + 1] {
            ends[number + 1] = end;
            cuts[number + 1] = first;
        }
        last = Some(hatch.place);
    }
}

/// One crane more: the ends with it, and where its run begins.
fn with_crane(hatches: &[Hatch], crane: u16, before: &Ends) -> (Ends, Cuts)
    requires few { length hatches.now ≤ most_hatches }
    requires crane { crane < 8 }
{
    let mut ends = *before;
    let mut cuts = [0; FRONTS];
    for front in 0..FRONTS {
        cuts[front] = front as u8;
    }
    for first in 0..hatches.len() as u8 {
        let done = before[first as usize];
        if done < NEVER {
            try_runs(hatches, crane, first, done, &mut ends, &mut cuts);
        }
    }
    (ends, cuts)
}

/// Gives the tasks of a hatch a crane.
fn give(cranes: &mut Vec<Option<u16>>, block: &Block, crane: u16) {
    for number in 0..block.count {
        let task = block.first as usize + number as usize;
        if task < cranes.len() {
            cranes[task] = Some(crane);
        }
    }
}

/// The split in which the last crane is done first, where each crane works alone. A task has no crane
/// where there is no split.
pub(crate) fn split(alloc: Global, part: &UpwardView) -> Result<Vec<Option<u16>>, OutOfMemory> {
    let inst = part.instance();
    let hatches = part.hatches();
    let mut cranes = vec![in alloc; None; inst.task_count() as usize]?;
    let mut ends = [NEVER; FRONTS];
    ends[0] = 0;
    let mut cuts = [[0; FRONTS]; MOST_CRANES as usize];
    for crane in 0..inst.crane_count() {
        let (with, begins) = with_crane(hatches, crane, &ends);
        ends = with;
        cuts[crane as usize] = begins;
    }
    let mut front = hatches.len() as u8;
    for crane in (0..inst.crane_count()).rev() {
        let first = cuts[crane as usize][front as usize].min(front);
        for number in first..front {
            give(&mut cranes, &hatches[number as usize].block, crane);
        }
        front = first;
    }
    Ok(cranes)
}
