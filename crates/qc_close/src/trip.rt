//! How cranes go for the tasks at a bay that cranes have.

ghost use Rattle.std.specs.Prelude.{◌≡◌, ◌≢◌, ◌&&◌, ◌==◌, ◌+◌, ◌-◌, ◌*◌, ◌<◌, ◌≤◌, ◌^◌, ℕ, pos, ◌+ℤ◌, ◌-ℤ◌, List, Option, IfOk, length, nat_lt, replicate, slice_index};
ghost use Rattle.std.specs.Int.{int_max, int_min};
ghost use Rattle.qc_close.specs.Model.{AreInRange, no_cranes, IsOnRail, stand, trip_for, trip_from, trip_to};
ghost use Rattle.qc_close.specs.Bars.{Changes};
ghost use Rattle.qc_close.specs.Spots.{AreSpots};
ghost use Rattle.qc_close.specs.Trips.{AreTogether, AreTrips, IsWideTrip, no_trip, trip_of};

use crate::spots::Spots;
use qc_model::{Instance, Trip, bays_between, gap_over};
use qc_num::{Bay, OutOfMemory};
use std::alloc::Global;

/// The trip of each crane for the tasks at each spot.
#[derive(Drop)]
pub(crate) struct Trips {
    /// 240 for a crane.
    pub(crate) cells: Vec<Trip>,
}

/// A crane that stands at its start bay.
fn trip_from(bay: Bay) -> Trip
    ensures { result ≡ trip_from bay }
{
    Trip {
        at: bay,
        bays: 0,
        low: bay,
        high: bay,
    }
}

/// A crane that goes on to a bay.
fn trip_to(bay: Bay, trip: Trip) -> Trip
    requires { trip.bays < 2 ^ 40 }
    ensures { result ≡ trip_to bay trip }
{
    Trip {
        at: bay,
        bays: trip.bays + bays_between(trip.at, bay),
        low: trip.low.min(bay),
        high: trip.high.max(bay),
    }
}

/// Where a crane stands that may stand no lower than so many gaps above a bay.
fn above(inst: &Instance, bay: Bay, cranes: u16, at: Bay) -> Bay
    requires cranes { cranes < length inst.now.cranes }
    requires bay { IsOnRail bay }
    ensures { result ≡ int_max at (bay +ℤ pos (inst.now.gap * cranes)) }
{
    at.max(bay + gap_over(inst, cranes))
}

/// Where a crane stands that may stand no higher than so many gaps below a bay.
fn below(inst: &Instance, bay: Bay, cranes: u16, at: Bay) -> Bay
    requires cranes { cranes < length inst.now.cranes }
    requires bay { IsOnRail bay }
    ensures { result ≡ int_min at (bay -ℤ pos (inst.now.gap * cranes)) }
{
    at.min(bay - gap_over(inst, cranes))
}

/// Where a crane stands while another works at a bay, as near as may be to where it is.
fn stand(inst: &Instance, crane: u16, other: u16, bay: Bay, at: Bay) -> Bay
    requires crane { crane < length inst.now.cranes }
    requires other { other < length inst.now.cranes }
    requires bay { IsOnRail bay }
    ensures { result ≡ stand inst.now crane other bay at }
{
    if other == crane {
        bay
    } else if other < crane {
        above(inst, bay, crane - other, at)
    } else {
        below(inst, bay, other - crane, at)
    }
}

/// A crane that goes there, where a task has another crane or this one.
fn trip_for(inst: &Instance, crane: u16, bay: Bay, other: Option<u16>, trip: Trip) -> Trip
    requires crane { crane < length inst.now.cranes }
    requires other { (k : ℕ) → other ≡ Some k → k < length inst.now.cranes }
    requires bay { IsOnRail bay }
    requires trip { IsWideTrip 240 trip }
    ensures { result ≡ trip_for inst.now crane bay other trip }
{
    match other {
        None => trip,
        Some(other) => trip_to(stand(inst, crane, other, bay, trip.at), trip),
    }
}

/// Whether a task lies at a spot.
fn lies_at(spots: &[u16], task: u16, spot: u16) -> bool
    ensures { result ≡ (nat_lt task (length spots.now) && (slice_index spots.now task == spot)) }
{
    (task as usize) < spots.len() && spots[task as usize] == spot
}

/// Whether the task before this one lies at a spot.
fn lies_behind(spots: &[u16], task: u16, spot: u16) -> bool
    requires { task ≤ length spots.now }
    ensures { result ≡ (nat_lt 0 task && (slice_index spots.now (task - 1) == spot)) }
{
    0 < task && spots[task as usize - 1] == spot
}

/// The first of the tasks at the spot of a task, where these come one behind the other.
fn first_at(spots: &[u16], task: u16) -> u16
    requires task { task < length spots.now }
    requires together { AreTogether spots.now }
    ensures within { result ≤ task }
    ensures same { slice_index spots.now result ≡ slice_index spots.now task }
    ensures first { (j : ℕ) → j < result → slice_index spots.now j ≢ slice_index spots.now task }
{
    let spot = spots[task as usize];
    let mut first = task;
    'walking: while lies_behind(spots, first, spot) {
        first -= 1;
    }
    first
}

/// The trip of a crane for the tasks at the spot of the first of them.
fn trip_at(inst: &Instance, cranes: &[Option<u16>], spots: &[u16], crane: u16, first: u16) -> Trip
    requires count { length cranes.now ≡ length inst.now.tasks }
    requires range { AreInRange inst.now cranes.now }
    requires spots { length spots.now ≡ length inst.now.tasks }
    requires together { AreTogether spots.now }
    requires crane { crane < length inst.now.cranes }
    requires within { first < length inst.now.tasks }
    requires first { (j : ℕ) → j < first → slice_index spots.now j ≢ slice_index spots.now first }
    ensures { result ≡ trip_of inst.now cranes.now spots.now crane (slice_index spots.now first) }
{
    let spot = spots[first as usize];
    let mut trip = trip_from(inst.post(crane).bay);
    let mut task = first;
    'going: while lies_at(spots, task, spot) {
        let bay = inst.task(task).bay;
        trip = trip_for(inst, crane, bay, cranes[task as usize], trip);
        task += 1;
    }
    trip
}

/// Keeps the trips where a task has got a crane, or has lost it.
pub(crate) fn keep_trips(
    trips: &mut Trips,
    inst: &Instance,
    cranes: &[Option<u16>],
    spots: &Spots,
    task: u16,
)
    requires count { length cranes.now ≡ length inst.now.tasks }
    requires range { AreInRange inst.now cranes.now }
    requires spots { AreSpots inst.now spots.now }
    requires task { task < length inst.now.tasks }
    requires many { length trips.old.cells.items ≡ 1920 }
    ensures { (olds : List (Option ℕ)) (crane : ℕ) → AreTrips inst.now olds spots.now.of_task.items trips.old
        → Changes olds cranes.now task crane → AreTrips inst.now cranes.now spots.now.of_task.items trips.new }
{
    let count = inst.crane_count();
    let of_task = spots.of_task.as_slice();
    let spot = of_task[task as usize] as usize;
    let first = first_at(of_task, task);
    for crane in 0..count {
        trips.cells[240 * crane as usize + spot] = trip_at(inst, cranes, of_task, crane, first);
    }
}

/// So many trips to be filled in.
fn no_trips(alloc: Global, count: usize) -> Result<Vec<Trip>, OutOfMemory>
    requires { count < 2 ^ 16 }
    ensures { IfOk result (λ trips. trips.items ≡ replicate count no_trip) }
{
    Ok(vec![in alloc; trip_from(0); count]?)
}

/// Fills in the trips of cranes that no task has.
fn fill_trips(trips: &mut Trips, inst: &Instance)
    requires { length trips.old.cells.items ≡ 1920 }
    ensures { (spots : List ℕ) → AreTrips inst.now (no_cranes inst.now) spots trips.new }
{
    let count = 240 * inst.crane_count() as usize;
    for cell in 0..count {
        trips.cells[cell] = trip_from(inst.post((cell / 240) as u16).bay);
    }
}

/// The trips of an instance, of which no task has a crane.
pub(crate) fn trips_of(alloc: Global, inst: &Instance) -> Result<Trips, OutOfMemory>
    ensures { IfOk result (λ trips. (spots : List ℕ) → AreTrips inst.now (no_cranes inst.now) spots trips) }
{
    let cells = no_trips(alloc, 1920)?;
    let mut trips = Trips { cells };
    fill_trips(&mut trips, inst);
    Ok(trips)
}
