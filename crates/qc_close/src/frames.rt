//! What each crane has spent on the tasks that it has.

ghost use Rattle.std.specs.Prelude.{◌≡◌, ◌*◌, ◌<◌, ◌≤◌, ◌^◌, IfSome, length, map, take};
ghost use Rattle.qc_close.specs.Model.{MOST_TASKS, AreInRange, barred_frame, own, turn_bays, turn_high, IsOnRail, crane_numbers};
ghost use Rattle.qc_close.specs.Bars.{IsTable, left_of, together};
ghost use Rattle.qc_close.specs.Counts.{AreNear, IsNear};
ghost use Rattle.qc_close.specs.Owns.{IsSmall, frame_by, own_of, with_task};
ghost use Rattle.qc_close.specs.Spots.{AreSpots};

use crate::barred::{barred_gone, sum_along};
use crate::bars::{Table, own_in};
use crate::spots::Spots;
use qc_model::{Direction, Frame, Instance, MOST_CRANES, Task, Turn, bays_between, bays_up};
use qc_num::{Bay, Tick};

/// The tasks of a crane: their ticks, and the bays of the lowest and the highest of them.
#[derive(Clone, Copy)]
pub(crate) struct Own {
    pub(crate) ticks: Tick,
    pub(crate) low: Bay,
    pub(crate) high: Bay,
}

/// Some tasks and one more.
fn with_task(own: Option<Own>, task: Task) -> Own
    requires own { IfSome own (λ o. o.ticks < 2 ^ 60) }
    requires task { task.ticks < 2 ^ 60 }
    ensures { result ≡ with_task own task }
{
    match own {
        None => Own {
            ticks: task.ticks,
            low: task.bay,
            high: task.bay,
        },
        Some(own) => Own {
            ticks: task.ticks + own.ticks,
            low: task.bay.min(own.low),
            high: task.bay.max(own.high),
        },
    }
}

/// The tasks that no crane has.
fn left_tasks(inst: &Instance, cranes: &[Option<u16>]) -> Option<Own>
    requires { length cranes.now ≡ length inst.now.tasks }
    ensures { result ≡ own_of inst.now (left_of inst.now cranes.now) }
{
    let count = inst.task_count();
    let mut left = None;
    for done in 0..count {
        let task = count - 1 - done;
        if cranes[task as usize].is_none() {
            left = Some(with_task(left, inst.task(task)));
        }
    }
    left
}

/// The bays that a crane goes from its start bay to come to a low and a high bay.
pub(crate) fn turn_bays(turn: Turn, berth: Bay, low: Bay, high: Bay) -> Tick
    requires berth { IsOnRail berth }
    requires low { IsOnRail low }
    requires high { IsOnRail high }
    ensures bays { result ≡ turn_bays turn berth low high }
    ensures bound { result < 2 ^ 17 }
{
    match turn {
        Turn::OneWay => bays_between(berth, low) + bays_up(low, high),
        Turn::Free => bays_up(low, high) + bays_between(berth, low).min(bays_between(berth, high)),
    }
}

/// How far up it has come by then.
fn turn_high(turn: Turn, berth: Bay, high: Bay) -> Bay
    ensures { result ≡ turn_high turn berth high }
{
    match turn {
        Turn::OneWay => high,
        Turn::Free => high.max(berth),
    }
}

/// The ticks of travel over so many bays.
pub(crate) fn travel_over(inst: &Instance, bays: Tick) -> Tick
    requires { bays < 2 ^ 17 }
    ensures ticks { result ≡ inst.now.travel * bays }
    ensures bound { result < 2 ^ 31 }
{
    inst.travel() * bays
}

/// What a crane has spent on its tasks.
pub(crate) fn spent_by(inst: &Instance, turn: Turn, crane: u16, own: Option<Own>) -> Frame
    requires crane { crane < length inst.now.cranes }
    requires own { IfSome own (IsSmall MOST_TASKS) }
    ensures frame { result ≡ frame_by inst.now turn crane own }
    ensures near { IsNear result }
{
    let post = inst.post(crane);
    match own {
        None => Frame {
            works: false,
            gone: post.ready,
            low: post.bay,
            high: post.bay,
        },
        Some(own) => {
            let bays = turn_bays(turn, post.bay, own.low, own.high);
            Frame {
                works: true,
                gone: post.ready + own.ticks + travel_over(inst, bays),
                low: own.low.min(post.bay),
                high: turn_high(turn, post.bay, own.high),
            }
        }
    }
}

/// These tasks and those.
pub(crate) fn together(some: Option<Own>, others: Option<Own>) -> Option<Own>
    requires some { IfSome some (λ o. o.ticks < 2 ^ 60) }
    requires others { IfSome others (λ o. o.ticks < 2 ^ 60) }
    ensures { result ≡ together some others }
{
    match some {
        None => others,
        Some(one) => match others {
            None => Some(one),
            Some(other) => Some(Own {
                ticks: one.ticks + other.ticks,
                low: one.low.min(other.low),
                high: one.high.max(other.high),
            }),
        },
    }
}

/// A frame with another time.
fn with_gone(frame: Frame, gone: Tick) -> Frame
    ensures { result ≡ record frame { gone = gone } }
{
    Frame { gone, ..frame }
}

/// So many of the frames.
pub(crate) fn first_frames(frames: &[Frame; 8], count: usize) -> &[Frame]
    requires { count ≤ 8 }
    ensures { result.now ≡ take count frames.now }
{
    &frames[..count]
}

/// What each crane has spent: as many entries count as there are cranes.
pub(crate) fn frames(
    inst: &Instance,
    turn: Turn,
    cranes: &[Option<u16>],
    spots: &Spots,
    table: &Table,
) -> [Frame; 8]
    requires count { length cranes.now ≡ length inst.now.tasks }
    requires range { AreInRange inst.now cranes.now }
    requires spots { AreSpots inst.now spots.now }
    requires table { IsTable inst.now cranes.now spots.now table.now }
    ensures frames { take (length inst.now.cranes) result
        ≡ map (barred_frame inst.now turn cranes.now) (crane_numbers inst.now) }
    ensures near { AreNear (take (length inst.now.cranes) result) }
{
    let left = left_tasks(inst, cranes);
    let mut frames = [Frame {
        works: false,
        gone: 0,
        low: 0,
        high: 0,
    }; MOST_CRANES as usize];
    for crane in 0..inst.crane_count() {
        let own = own_in(sum_along(table, Direction::Down, crane, 0, 0));
        let frame = spent_by(inst, turn, crane, own);
        let gone = barred_gone(inst, turn, spots, table, crane, own, left, frame.gone);
        frames[crane as usize] = with_gone(frame, gone);
    }
    frames
}
