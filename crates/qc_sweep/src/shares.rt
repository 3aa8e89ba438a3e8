//! A crane for each task of a part, and when the cranes are done with them.

use crate::lists::Lists;
use qc_model::{MOST_CRANES, MOST_HATCHES};
use qc_num::OutOfMemory;
use qc_part::{Event, UpwardView};
use std::alloc::Global;

/// The pairs of a hatch and a crane come 64 to a word.
const WORDS: usize = 8;

/// What a crane does of a hatch that it reaches.
#[derive(Clone, Copy)]
struct Visit {
    along: i64,
    free: i64,
    crane: u16,
    hatch: u8,
    work: i64,
}

/// What a crane does in all: the ticks of its tasks, and a bit for each hatch that has some of them.
#[derive(Clone, Copy)]
struct Sum {
    work: i64,
    hatches: u64,
}

/// A task by its hatch, along the ship, with its ticks and its crane.
#[derive(Clone, Copy)]
struct Load {
    hatch: u8,
    ticks: i64,
    crane: u16,
}

/// A task that was given another crane, with the one that it had.
#[derive(Clone, Copy)]
struct Change {
    task: u16,
    crane: u16,
}

/// A crane for each task of a part. Along the phases of a hatch they may not rise: then a task that is later there
/// never waits for a higher crane.
#[derive(Drop)]
pub(crate) struct Shares {
    visits: Vec<Visit>,
    /// The number of the visit of each hatch by each crane, and one that is none where it doesn't reach.
    numbers: [[u16; MOST_CRANES as usize]; MOST_HATCHES as usize],
    /// A bit for each visit that has work.
    busy: [u64; WORDS],
    sums: [Sum; MOST_CRANES as usize],
    loads: Vec<Load>,
    lists: Lists,
    fronts: [i64; MOST_CRANES as usize],
    changes: Vec<Change>,
    cranes: u16,
}

const NO_VISIT: u16 = u16::MAX;

/// A visit without work.
fn visit_of(event: &Event) -> Visit {
    Visit {
        along: event.along,
        free: event.free,
        crane: event.crane,
        hatch: event.hatch,
        work: 0,
    }
}

/// The tasks, each without a crane.
fn loads_of(alloc: Global, part: &UpwardView) -> Result<Vec<Load>, OutOfMemory> {
    let none = Load {
        hatch: u8::MAX,
        ticks: 0,
        crane: NO_VISIT,
    };
    let mut loads = vec![in alloc; none; part.instance().task_count() as usize]?;
    for (number, hatch) in part.hatches().iter().enumerate() {
        for phase in 0..hatch.block.count {
            let task = hatch.block.first as usize + phase as usize;
            let behind = hatch.block.work_from(phase.saturating_add(1));
            if let Some(load) = loads.get_mut(task) {
                load.hatch = number as u8;
                load.ticks = hatch.block.work_from(phase).saturating_sub(behind);
            }
        }
    }
    Ok(loads)
}

impl Shares {
    /// No task has a crane.
    fn empty(alloc: Global, part: &UpwardView) -> Result<Shares, OutOfMemory> {
        let mut numbers = [[NO_VISIT; MOST_CRANES as usize]; MOST_HATCHES as usize];
        let mut visits = Vec::new(alloc);
        for (number, event) in part.events().iter().enumerate() {
            numbers[event.hatch as usize][event.crane as usize] = u16::try_from(number).unwrap_or(
                NO_VISIT,
            );
            visits.push(visit_of(event))?;
        }
        Ok(Shares {
            visits,
            numbers,
            busy: [0; WORDS],
            sums: [Sum {
                work: 0,
                hatches: 0,
            }; MOST_CRANES as usize],
            loads: loads_of(alloc, part)?,
            lists: Lists::empty(alloc, part.instance().task_count())?,
            fronts: part.root().fronts,
            changes: Vec::new(alloc),
            cranes: part.instance().crane_count(),
        })
    }

    /// These cranes; the lowest that reaches it for a task that has none of them.
    pub(crate) fn of(
        alloc: Global,
        part: &UpwardView,
        cranes: &[Option<u16>],
    ) -> Result<Shares, OutOfMemory> {
        let mut shares = Shares::empty(alloc, part)?;
        for task in 0..part.instance().task_count() {
            let crane = cranes.get(task as usize).copied().unwrap_or(None);
            let crane = crane.unwrap_or(shares.lowest(task));
            shares.give(task, crane)?;
        }
        shares.changes.clear();
        Ok(shares)
    }

    /// The lowest crane that reaches a task.
    fn lowest(&self, task: u16) -> u16 {
        for crane in 0..MOST_CRANES {
            if self.visit(task, crane).is_some() {
                return crane;
            }
        }
        0
    }

    /// How many tasks there are.
    pub(crate) fn count(&self) -> usize {
        self.loads.len()
    }

    /// How many cranes there are.
    pub(crate) fn crane_count(&self) -> usize {
        self.cranes as usize
    }

    /// The crane of a task.
    pub(crate) fn crane(&self, task: u16) -> u16 {
        match self.loads.get(task as usize) {
            Some(load) => load.crane,
            None => NO_VISIT,
        }
    }

    /// Writes down the cranes of all tasks.
    pub(crate) fn write(&self, cranes: &mut Vec<Option<u16>>) -> Result<(), OutOfMemory> {
        cranes.clear();
        for load in self.loads.as_slice() {
            cranes.push(Some(load.crane))?;
        }
        Ok(())
    }

    /// The number of the visit at which a crane does a task, where it reaches it.
    fn visit(&self, task: u16, crane: u16) -> Option<usize> {
        let load = self.loads.get(task as usize)?;
        let numbers = self.numbers.get(load.hatch as usize)?;
        match *numbers.get(crane as usize)? {
            NO_VISIT => None,
            number => Some(number as usize),
        }
    }

    /// Adds ticks to the work of a visit, which may be fewer than none.
    fn add(&mut self, number: usize, ticks: i64) {
        let Some(visit) = self.visits.get_mut(number) else {
            return;
        };
        visit.work = visit.work.saturating_add(ticks);
        let is_busy = visit.work > 0;
        if let Some(word) = self.busy.get_mut(number / 64) {
            *word = with_bit(*word, number, is_busy);
        }
        if let Some(sum) = self.sums.get_mut(visit.crane as usize) {
            sum.work = sum.work.saturating_add(ticks);
            sum.hatches = with_bit(sum.hatches, visit.hatch as usize, is_busy);
        }
    }

    /// Takes a task from its crane and gives it to another one, where that reaches it. Whether it does.
    pub(crate) fn put(&mut self, task: u16, crane: u16) -> bool {
        let Some(to) = self.visit(task, crane) else {
            return false;
        };
        let before = self.crane(task);
        let from = self.visit(task, before);
        let Some(load) = self.loads.get_mut(task as usize) else {
            return false;
        };
        load.crane = crane;
        let ticks = load.ticks;
        self.lists.take(before, task);
        self.lists.add(crane, task);
        if let Some(from) = from {
            self.add(from, ticks.saturating_neg());
        }
        self.add(to, ticks);
        true
    }

    /// The same, to be taken back with all changes since the last that were kept.
    pub(crate) fn give(&mut self, task: u16, crane: u16) -> Result<bool, OutOfMemory> {
        let before = self.crane(task);
        let is_given = self.put(task, crane);
        if is_given {
            self.changes.push(Change {
                task,
                crane: before,
            })?;
        }
        Ok(is_given)
    }

    /// Keeps all changes.
    pub(crate) fn keep(&mut self) {
        self.changes.clear();
    }

    /// Takes all changes back that weren't kept.
    pub(crate) fn take_back(&mut self) {
        for _ in 0..self.changes.len() {
            if let Some(change) = self.changes.pop() {
                self.put(change.task, change.crane);
            }
        }
    }

    /// Whether a task may have a crane by that of the task ahead of it in its hatch and of that behind it, and is in its
    /// reach.
    pub(crate) fn may_go(&self, task: u16, crane: u16) -> bool {
        let place = task as usize;
        let Some(load) = self.loads.get(place) else {
            return false;
        };
        let ahead = self.loads.get(place.wrapping_sub(1));
        if ahead.is_some_and(|other| other.hatch == load.hatch && other.crane < crane) {
            return false;
        }
        let behind = self.loads.get(place.saturating_add(1));
        if behind.is_some_and(|other| other.hatch == load.hatch && other.crane > crane) {
            return false;
        }
        self.visit(task, crane).is_some()
    }

    /// How many tasks a crane has.
    pub(crate) fn count_of(&self, crane: u16) -> usize {
        self.lists.count(crane)
    }

    /// One of the tasks of a crane, by its number among them.
    pub(crate) fn task_of(&self, crane: u16, number: usize) -> Option<u16> {
        self.lists.task(crane, number)
    }

    /// Whether a task's hatch is that of another one, and they have one crane.
    pub(crate) fn are_together(&self, task: u16, other: u16) -> bool {
        match (
            self.loads.get(task as usize),
            self.loads.get(other as usize),
        ) {
            (Some(one), Some(two)) => one.hatch == two.hatch && one.crane == two.crane,
            _ => false,
        }
    }

    /// When each crane would be done if it were alone, and 0 for one without work: never later than with the others.
    pub(crate) fn ends_alone(&self) -> [i64; MOST_CRANES as usize] {
        let mut ends = [0; MOST_CRANES as usize];
        for crane in 0..MOST_CRANES {
            ends[crane as usize] = self.end_alone(crane).unwrap_or(0);
        }
        ends
    }

    /// When a crane with work would be done if it were alone: it goes from its first hatch to its last one.
    fn end_alone(&self, crane: u16) -> Option<i64> {
        let sum = self.sums.get(crane as usize)?;
        let first = self.visit_of_hatch(sum.hatches.trailing_zeros(), crane)?;
        let last = self.visit_of_hatch(63_u32.saturating_sub(sum.hatches.leading_zeros()), crane)?;
        let way = last.along.saturating_sub(first.along);
        Some(first.free.saturating_add(sum.work).saturating_add(way))
    }

    /// The visit of a hatch by a crane, where it reaches it.
    fn visit_of_hatch(&self, hatch: u32, crane: u16) -> Option<&Visit> {
        let numbers = self.numbers.get(hatch as usize)?;
        let number = *numbers.get(crane as usize)?;
        self.visits.get(number as usize)
    }

    /// When each crane is done, where pairs that are apart or ordered don't count; 0 for one without work.
    pub(crate) fn ends(&self) -> [i64; MOST_CRANES as usize] {
        let mut fronts = self.fronts;
        let mut ends = [0; MOST_CRANES as usize];
        for (number, word) in self.busy.iter().enumerate() {
            work_word(
                self.visits.as_slice(),
                number * 64,
                *word,
                &mut fronts,
                &mut ends,
            );
        }
        ends
    }
}

/// A word with one of its bits set or not.
fn with_bit(word: u64, number: usize, is_set: bool) -> u64 {
    let bit = 1 << (number % 64);
    if is_set { word | bit } else { word & !bit }
}

/// Does the work of those of 64 visits, from the first one on, that have some.
fn work_word(
    visits: &[Visit],
    first: usize,
    busy: u64,
    fronts: &mut [i64; MOST_CRANES as usize],
    ends: &mut [i64; MOST_CRANES as usize],
) {
    let mut left = busy;
    for _ in 0..busy.count_ones() {
        let number = first.saturating_add(left.trailing_zeros() as usize);
        left &= left.saturating_sub(1);
        if let Some(visit) = visits.get(number) {
            work(visit, fronts, ends);
        }
    }
}

/// Does the work of a visit: its crane and those below can go on from its end.
fn work(
    visit: &Visit,
    fronts: &mut [i64; MOST_CRANES as usize],
    ends: &mut [i64; MOST_CRANES as usize],
) {
    let crane = (visit.crane % MOST_CRANES) as usize;
    let start = visit.along.wrapping_add(fronts[crane]).max(visit.free);
    let end = start.wrapping_add(visit.work);
    ends[crane] = end;
    let front = end.wrapping_sub(visit.along);
    for other in 0..MOST_CRANES as usize {
        let raised = if other <= crane { front } else { i64::MIN };
        fronts[other] = fronts[other].max(raised);
    }
}
