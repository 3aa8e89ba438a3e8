//! What follows each task: the longest chain from its start to the end, and the tasks to which a chain
//! leads. It decides which of several pairs is branched on, and with this how much is shown, and nothing
//! else.

ghost use Rattle.std.specs.Prelude.{◌<◌, ◌≤◌, length};

use crate::network::Network;
use crate::noted::Noted;
use qc_model::MOST_TASKS;
use qc_num::{Bound, Tick};

/// A task and its start.
#[derive(Clone, Copy, PartialEq, Eq, PartialOrd, Ord)]
struct Begun {
    start: Tick,
    task: u16,
}

/// The tasks in the order of their starts.
#[derive(Drop)]
struct Order {
    begun: [Begun; MOST_TASKS as usize],
    count: usize,
    ghost in_range: { count ≤ 240 },
}

impl Order {
    /// No task.
    fn none() -> Order {
        Order {
            begun: [Begun { start: 0, task: 0 }; MOST_TASKS as usize],
            count: 0,
        }
    }

    /// One more; where there is no room, none is added.
    fn add(&mut self, begun: Begun) {
        if self.count < MOST_TASKS as usize {
            self.begun[self.count] = begun;
            self.count += 1;
        }
    }

    /// Puts them in order.
    fn sort(&mut self) {
        let mut begun = self.begun;
        begun[..self.count].sort_unstable();
        self.begun = begun;
    }

    /// All, in order.
    fn as_slice(&self) -> &[Begun] {
        &self.begun[..self.count]
    }
}

/// The tasks in the order of their starts.
fn in_order(network: &Network, values: &Noted) -> Order
    requires { length network.now.inst.tasks ≤ length values.now.cells }
{
    let mut order = Order::none();
    for task in 0..network.task_count() {
        let start = values.start(task);
        order.add(Begun { start, task });
    }
    order.sort();
    order
}

/// Some of the tasks, as bits.
#[derive(Clone, Copy)]
struct Tasks {
    words: [u64; 4],
}

/// In which word a task stands, and as which bit.
fn spot(task: u16) -> (usize, u64)
    ensures { result.0 < 4 }
{
    ((task / 64 % 4) as usize, 1 << (task % 64))
}

impl Tasks {
    /// None.
    fn none() -> Tasks {
        Tasks { words: [0; 4] }
    }

    /// These and one more.
    fn with(self, task: u16) -> Tasks {
        let (word, bit) = spot(task);
        let mut words = self.words;
        words[word] |= bit;
        Tasks { words }
    }

    /// These and others.
    fn and(self, more: Tasks) -> Tasks {
        let mut words = self.words;
        for word in 0..4 {
            words[word] |= more.words[word];
        }
        Tasks { words }
    }

    /// Whether a task is one of them.
    fn has(self, task: u16) -> bool {
        let (word, bit) = spot(task);
        self.words[word] & bit != 0
    }
}

/// What follows a task.
#[derive(Clone, Copy)]
struct Behind {
    /// The ticks of the longest chain from its start to the end.
    tail: Tick,
    /// The tasks to which a chain leads from it.
    tasks: Tasks,
}

/// What follows each task.
#[derive(Drop)]
pub(crate) struct Tails {
    behind: [Behind; MOST_TASKS as usize],
}

impl Tails {
    /// What follows each task of a node, with the starts that are kept.
    pub(crate) fn of(network: &Network, values: &Noted) -> Tails
        requires { length network.now.inst.tasks ≤ length values.now.cells }
    {
        let nothing = Behind {
            tail: 0,
            tasks: Tasks::none(),
        };
        let mut tails = Tails {
            behind: [nothing; MOST_TASKS as usize],
        };
        for begun in in_order(network, values).as_slice().iter().rev() {
            tails.find(network, begun.task);
        }
        tails
    }

    /// What follows a task.
    fn behind(&self, task: u16) -> Behind {
        match self.behind.get(task as usize) {
            Some(behind) => *behind,
            None => Behind {
                tail: 0,
                tasks: Tasks::none(),
            },
        }
    }

    /// Finds what follows a task, of which that is known for those to which arcs lead from it.
    fn find(&mut self, network: &Network, task: u16) {
        let mut here = Behind {
            tail: ticks_of(network, task),
            tasks: Tasks::none(),
        };
        for arc in network.arena().out(task) {
            let next = self.behind(arc.to);
            here = Behind {
                tail: here.tail.max(arc.len.saturating_add(next.tail)),
                tasks: here.tasks.and(next.tasks).with(arc.to),
            };
        }
        if let Some(behind) = self.behind.get_mut(task as usize) {
            *behind = here;
        }
    }

    /// Whether a task that can't start before `from` if it comes behind another leaves no end before the
    /// best one: a chain leads from it to the other, or its own chain ends as late.
    pub(crate) fn is_late(&self, from: Tick, task: u16, other: u16, best: Bound) -> bool {
        let behind = self.behind(task);
        if behind.tasks.has(other) {
            return true;
        }
        match best {
            Bound::Least(best) => best <= from.saturating_add(behind.tail),
            Bound::Never => false,
        }
    }
}

/// The ticks of a task.
fn ticks_of(network: &Network, task: u16) -> Tick {
    match network.instance().tasks().get(task as usize) {
        Some(task) => task.ticks,
        None => 0,
    }
}
