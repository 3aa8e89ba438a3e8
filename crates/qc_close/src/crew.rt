//! Which crane has which task.

ghost use Rattle.std.specs.Prelude.{◌≡◌, ◌||◌, ◌<◌, ◌≤◌, ℕ, List, Option, None, Some, IfOk, IsSome, OnOk, length, replicate, slice_set, true};
ghost use Rattle.qc_close.specs.Model.{Valid, AreInRange, crane_in, no_cranes, is_closed, is_short_along, is_short_before};
ghost use Rattle.qc_close.specs.Bars.{Changes, IsTable};
ghost use Rattle.qc_close.specs.Crews.{CrewView};
ghost use Rattle.qc_close.specs.CrewFields.{view_of, IsKept};
ghost use Rattle.qc_close.specs.Lists.{AreLists};
ghost use Rattle.qc_close.specs.Spots.{AreSoonest, AreSpots};
ghost use Rattle.qc_close.specs.Trips.{AreTrips};
ghost use Rattle.qc_close.specs.declared.closed.TheConstants.{LAST_CLOSED};

use crate::bars::{Table, keep_table, no_table, table_of};
use crate::closed::{LAST_CLOSED, is_short_by, last_short_end};
use crate::grain::grain;
use crate::left::work_left;
use crate::spots::{Spots, no_spots, spots_of};
use crate::trip::{Trips, keep_trips, trips_of};
use qc_dist::head;
use qc_model::{Instance, Turn, copy};
use qc_num::{OutOfMemory, Tick};
use std::alloc::Global;
use std::marker::Model;

/// The cranes of an instance, and which tasks each has. It keeps a copy of the instance. All memory is
/// taken by `open`.
pub struct Crew {
    inst: Instance,
    turn: Turn,
    /// The crane of each task.
    cranes: Vec<Option<u16>>,
    /// The bays at which tasks lie.
    spots: Spots,
    /// Of each task, when the crane that it has can be there at the soonest.
    soonest: Vec<Tick>,
    /// What the tasks of each crane come to at each spot, before it and from it on.
    table: Table,
    /// The trip of each crane for the tasks at each spot.
    trips: Trips,
    /// The ticks of the tasks without a crane at each bay, from bay 0.
    left: Vec<Tick>,
    /// The greatest number of which all ticks of the instance are multiples.
    step: Tick,
    /// The last end for which the count shows that not all can be done before it, whichever cranes the
    /// tasks have.
    bare: Tick,
}

impl Model for Crew {
    ghost Value = { CrewView };

    ghost view = { view_of };

    ghost invariant = { IsKept };
}

// By hand, so that it is let go by one call wherever it is held.
impl Drop for Crew {
    fn drop(self) {
        let Crew {
            inst: _,
            turn: _,
            cranes: _,
            spots: _,
            soonest: _,
            table: _,
            trips: _,
            left: _,
            step: _,
            bare: _,
        } = self;
    }
}

/// A list in which none of so many tasks has a crane.
fn no_cranes(alloc: Global, tasks: usize) -> Result<Vec<Option<u16>>, OutOfMemory>
    requires { tasks ≤ 240 }
    ensures { IfOk result (λ cranes. cranes.items ≡ replicate tasks None) }
{
    Ok(vec![in alloc; None; tasks]?)
}

/// A list for the starts of so many tasks.
fn no_starts(alloc: Global, tasks: usize) -> Result<Vec<Tick>, OutOfMemory>
    requires { tasks ≤ 240 }
    ensures { IfOk result (λ starts. length starts.items ≡ tasks) }
{
    Ok(vec![in alloc; 0; tasks]?)
}

/// What a crew keeps beside its instance.
#[derive(Drop)]
struct Lists {
    cranes: Vec<Option<u16>>,
    spots: Spots,
    soonest: Vec<Tick>,
    table: Table,
    trips: Trips,
    left: Vec<Tick>,
}

/// Nothing is found yet.
fn no_lists(alloc: Global) -> Lists {
    Lists {
        cranes: Vec::new(alloc),
        spots: no_spots(alloc),
        soonest: Vec::new(alloc),
        table: no_table(alloc),
        trips: Trips {
            cells: Vec::new(alloc),
        },
        left: Vec::new(alloc),
    }
}

/// Finds them for an instance of which no task has a crane.
fn find_lists(alloc: Global, inst: &Instance, lists: &mut Lists) -> Result<(), OutOfMemory>
    ensures { OnOk result (AreLists inst.now lists.new) }
{
    let tasks = inst.task_count() as usize;
    lists.cranes = no_cranes(alloc, tasks)?;
    lists.left = work_left(alloc, inst)?;
    lists.spots = spots_of(alloc, inst, lists.left.as_slice())?;
    lists.soonest = no_starts(alloc, tasks)?;
    lists.table = table_of(alloc, inst, &lists.spots)?;
    lists.trips = trips_of(alloc, inst)?;
    Ok(())
}

/// The crew of an instance of which no task has a crane.
fn crew_of(inst: Instance, turn: Turn, lists: Lists) -> Crew
    requires { AreLists inst lists }
    ensures { result ≡ record { inst = inst; turn = turn; cranes = no_cranes inst } }
{
    let _tasks = inst.task_count(); // for what it ensures
    let step = grain(&inst);
    let bare = last_short_end(
        &inst,
        turn,
        lists.cranes.as_slice(),
        &lists.spots,
        &lists.table,
        lists.left.as_slice(),
        step,
        LAST_CLOSED,
    );
    let Lists {
        cranes,
        spots,
        soonest,
        table,
        trips,
        left,
    } = lists;
    Crew {
        inst,
        turn,
        cranes,
        spots,
        soonest,
        table,
        trips,
        left,
        step,
        bare,
    }
}

/// Keeps the table and the trips where a task has got this crane, or has lost it.
fn keep_both(
    table: &mut Table,
    trips: &mut Trips,
    inst: &Instance,
    cranes: &Vec<Option<u16>>,
    spots: &Spots,
    soonest: &Vec<Tick>,
    task: u16,
    crane: u16,
)
    requires count { length cranes.now.items ≡ length inst.now.tasks }
    requires range { AreInRange inst.now cranes.now.items }
    requires spots { AreSpots inst.now spots.now }
    requires soonest { AreSoonest inst.now cranes.now.items soonest.now.items }
    requires task { task < length inst.now.tasks }
    requires crane { crane < length inst.now.cranes }
    requires was { (olds : List (Option ℕ)) × IsTable inst.now olds spots.now table.old
        × AreTrips inst.now olds spots.now.of_task.items trips.old
        × Changes olds cranes.now.items task crane }
    ensures { (olds : List (Option ℕ)) → IsTable inst.now olds spots.now table.old
        → AreTrips inst.now olds spots.now.of_task.items trips.old
        → Changes olds cranes.now.items task crane
        → IsTable inst.now cranes.now.items spots.now table.new
        × AreTrips inst.now cranes.now.items spots.now.of_task.items trips.new }
{
    let list = cranes.as_slice();
    keep_table(table, inst, list, spots, soonest.as_slice(), task, crane);
    keep_trips(trips, inst, list, spots, task);
}

impl Crew {
    /// The cranes of an instance; no task has one.
    pub fn open(alloc: Global, inst: &Instance, turn: Turn) -> Result<Crew, OutOfMemory>
        ensures { IfOk result (λ crew. crew ≡ record {
          inst = inst.now;
          turn = turn;
          cranes = no_cranes inst.now;
        }) }
    {
        let kept = copy(alloc, inst)?;
        let mut lists = no_lists(alloc);
        match find_lists(alloc, &kept, &mut lists) {
            Ok(()) => Ok(crew_of(kept, turn, lists)),
            Err(OutOfMemory) => {
                drop(lists); // by name: proved faster
                drop(kept);
                Err(OutOfMemory)
            }
        }
    }

    /// The instance.
    pub fn instance(&self) -> &Instance
        ensures same { result.now ≡ self.now.inst }
        ensures valid { Valid self.now.inst }
        ensures range { AreInRange self.now.inst self.now.cranes }
    {
        &self.inst
    }

    /// Gives a task a crane.
    pub fn put(&mut self, task: u16, crane: u16)
        requires task { task < length self.old.inst.tasks }
        requires crane { crane < length self.old.inst.cranes }
        requires none { crane_in self.old.cranes task ≡ None }
        ensures { self.new ≡ record self.old {
          cranes = slice_set self.old.cranes task (Some crane);
        } }
    {
        let done = self.inst.task(task);
        let bay = done.bay as usize;
        self.left[bay] = self.left[bay] - done.ticks;
        self.soonest[task as usize] = head(&self.inst, task, crane);
        self.cranes[task as usize] = Some(crane);
        keep_both(
            &mut self.table,
            &mut self.trips,
            &self.inst,
            &self.cranes,
            &self.spots,
            &self.soonest,
            task,
            crane,
        );
    }

    /// Takes a task from its crane.
    pub fn take(&mut self, task: u16)
        requires task { task < length self.old.inst.tasks }
        requires some { IsSome (crane_in self.old.cranes task) }
        ensures { self.new ≡ record self.old { cranes = slice_set self.old.cranes task None } }
    {
        match self.cranes[task as usize] {
            None => {}
            Some(crane) => self.take_from(task, crane),
        }
    }

    /// Takes a task from this crane.
    fn take_from(&mut self, task: u16, crane: u16)
        requires task { task < length self.old.inst.tasks }
        requires some { crane_in self.old.cranes task ≡ Some crane }
        ensures { self.new ≡ record self.old { cranes = slice_set self.old.cranes task None } }
    {
        let open = self.inst.task(task);
        let bay = open.bay as usize;
        self.left[bay] = self.left[bay] + open.ticks;
        self.cranes[task as usize] = None;
        keep_both(
            &mut self.table,
            &mut self.trips,
            &self.inst,
            &self.cranes,
            &self.spots,
            &self.soonest,
            task,
            crane,
        );
    }

    /// The crane that a task has; `None` exactly where it has none.
    pub fn crane_of(&self, task: u16) -> Option<u16>
        requires { task < length self.now.inst.tasks }
        ensures { result ≡ crane_in self.now.cranes task }
    {
        self.cranes[task as usize]
    }

    /// Whether the assignment is closed at an end: a count of the cranes' time shows that no schedule with
    /// this assignment ends before it, of those that go up where cranes go one way; `false` shows nothing.
    /// It is closed at each end before one at which it is.
    pub fn closed(&self, end: Tick) -> bool
        requires some { 0 < end }
        requires limit { end ≤ LAST_CLOSED }
        ensures closed { result ≡ is_closed self.now.inst self.now.turn self.now.cranes end }
    {
        end <= self.bare || self.is_short(end)
    }

    /// An end at which the assignment is closed, whichever cranes the tasks have; 0 where there is none.
    pub(crate) fn bare_end(&self) -> Tick
        ensures { 0 < result → is_closed self.now.inst self.now.turn self.now.cranes result ≡ true }
    {
        self.bare
    }

    /// Whether the count shows that not all can be done before an end with the cranes that tasks have, by
    /// the longest way of each crane too.
    fn is_short(&self, end: Tick) -> bool
        requires { end ≤ LAST_CLOSED }
        ensures { result ≡ (is_short_before self.now.inst self.now.turn self.now.cranes end
            || is_short_along self.now.inst self.now.turn self.now.cranes end) }
    {
        let cranes = self.cranes.as_slice();
        is_short_by(
            &self.inst,
            self.turn,
            cranes,
            &self.spots,
            &self.table,
            &self.trips,
            self.left.as_slice(),
            self.step,
            end,
        )
    }
}
