//! Which lists of tasks are tried as packed ones: those of a window, which are a run of numbers, since
//! tasks are numbered along the ship, and with them those of the two cranes at the ends of the rail that
//! lie beside it, where they clash with all of these. It decides how much is shown and how fast, and
//! nothing else: whatever list is packed shows an end that holds.

ghost use Rattle.std.specs.Prelude.{◌≡◌, ◌<◌, ◌≤◌, All, length};
ghost use Rattle.qc_num.specs.Paths.{HasRoom};

use qc_close::Crew;
use qc_model::{Instance, bays_between, bays_up};
use qc_num::{Path, Tick};

/// The cranes at the ends of the rail, by the side of a window on which their tasks are listed.
#[derive(Clone, Copy)]
struct Outer {
    /// The crane of which tasks of lower numbers are listed.
    lower: u16,
    /// The crane of which tasks of higher numbers are listed.
    higher: u16,
}

/// Which crane belongs to which side: the last one does to the side of the lower bays.
fn outer_cranes(inst: &Instance) -> Outer {
    let last = inst.crane_count() - 1;
    let rises = match (inst.tasks().first(), inst.tasks().last()) {
        (Some(one), Some(other)) => one.bay <= other.bay,
        _ => true,
    };
    if rises {
        Outer {
            lower: last,
            higher: 0,
        }
    } else {
        Outer {
            lower: 0,
            higher: last,
        }
    }
}

/// A list of tasks.
#[derive(Clone, Copy)]
pub(crate) struct List {
    /// The first task of the window.
    first: u16,
    /// The task behind its last.
    end: u16,
    /// The cranes of which tasks beside the window are listed too.
    outer: Option<Outer>,
    /// The ticks of all its tasks.
    pub(crate) ticks: Tick,
}

impl List {
    /// Whether it has a task that this crane has, or none.
    fn has(self, task: u16, crane: Option<u16>) -> bool {
        if self.first <= task && task < self.end {
            return true;
        }
        match (self.outer, crane) {
            (Some(outer), Some(crane)) => {
                if task < self.first {
                    crane == outer.lower
                } else {
                    crane == outer.higher
                }
            }
            _ => false,
        }
    }

    /// Writes its tasks, by their numbers.
    pub(crate) fn write(self, crew: &Crew, path: &mut Path)
        requires { HasRoom (length crew.now.inst.tasks) path.old }
        ensures range { All (λ j. j < length crew.now.inst.tasks) path.new.items }
        ensures few { length path.new.items ≤ length crew.now.inst.tasks }
        ensures room { path.new.capacity ≡ path.old.capacity }
    {
        path.clear();
        for task in 0..crew.instance().task_count() {
            if self.has(task, crew.crane_of(task)) {
                path.push_reserved(task);
            }
        }
    }
}

/// The ticks of a task that a crane has; 0 of any other.
fn ticks_on(crew: &Crew, task: u16, crane: u16) -> Tick
    requires { task < length crew.now.inst.tasks }
{
    if crew.crane_of(task) == Some(crane) {
        crew.instance().task(task).ticks
    } else {
        0
    }
}

/// A window that goes along the ship, with what its tasks take and those of the outer cranes beside it.
#[derive(Clone, Copy)]
pub(crate) struct Window {
    outer: Outer,
    /// The task behind its last.
    end: u16,
    /// The ticks of its tasks.
    ticks: Tick,
    /// The ticks of the outer cranes' tasks of lower numbers.
    lower: Tick,
    /// The ticks of those of higher numbers.
    higher: Tick,
}

impl Window {
    /// The window before the first task.
    pub(crate) fn before_all(crew: &Crew) -> Window {
        let outer = outer_cranes(crew.instance());
        let mut higher: Tick = 0;
        for task in 0..crew.instance().task_count() {
            higher = higher.saturating_add(ticks_on(crew, task, outer.higher));
        }
        Window {
            outer,
            end: 0,
            ticks: 0,
            lower: 0,
            higher,
        }
    }

    /// Takes the next task in.
    fn take(&mut self, crew: &Crew, task: u16)
        requires { task < length crew.now.inst.tasks }
    {
        self.ticks = self.ticks.saturating_add(crew.instance().task(task).ticks);
        self.higher = self
            .higher
            .saturating_sub(ticks_on(crew, task, self.outer.higher));
        self.end = task + 1;
    }

    /// Takes in what lies nearer to its first task than two cranes may come.
    pub(crate) fn reach(&mut self, crew: &Crew, first: u16)
        requires { first < length crew.now.inst.tasks }
    {
        let inst = crew.instance();
        let (bay, gap) = (inst.task(first).bay, bays_up(0, inst.gap()));
        for task in self.end..inst.task_count() {
            if gap <= bays_between(bay, inst.task(task).bay) {
                break;
            }
            self.take(crew, task);
        }
    }

    /// Leaves its first task behind.
    pub(crate) fn leave(&mut self, crew: &Crew, first: u16)
        requires { first < length crew.now.inst.tasks }
    {
        self.ticks = self.ticks.saturating_sub(crew.instance().task(first).ticks);
        self.lower = self
            .lower
            .saturating_add(ticks_on(crew, first, self.outer.lower));
    }

    /// The ticks of the tasks of the outer cranes beside it.
    fn beside(&self) -> Tick {
        self.lower.saturating_add(self.higher)
    }

    /// The most ticks of its lists.
    pub(crate) fn most_ticks(&self) -> Tick {
        self.ticks.saturating_add(self.beside())
    }

    /// The list of its tasks and of those of the outer cranes beside it, and the list of its tasks
    /// alone, where these are fewer.
    pub(crate) fn lists(&self, first: u16) -> (List, Option<List>) {
        let alone = List {
            first,
            end: self.end,
            outer: None,
            ticks: self.ticks,
        };
        if self.beside() == 0 {
            return (alone, None);
        }
        let long = List {
            outer: Some(self.outer),
            ticks: self.most_ticks(),
            ..alone
        };
        (long, Some(alone))
    }
}

/// Whether a task is the first of its bay, by number.
pub(crate) fn begins_bay(inst: &Instance, task: u16) -> bool
    requires { task < length inst.now.tasks }
{
    task == 0 || inst.task(task - 1).bay != inst.task(task).bay
}
