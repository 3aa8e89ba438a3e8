//! What the tasks of a crane come to.

ghost use Rattle.std.specs.Prelude.{◌≡◌, ◌+◌, ◌<◌, ◌≤◌, length};
ghost use Rattle.qc_figures.specs.Figures.{does, moves_in};
ghost use Rattle.qc_figures.specs.Tallies.{IsTally};
ghost use Rattle.qc_figures.specs.Views.{IsReady, view_of};
ghost use Rattle.qc_model.specs.declared.limits.TheConstants.{MOST_END, MOST_WORK};
ghost use Rattle.qc_model.specs.Instance.{Valid, task as task_at, ticks_of};
ghost use Rattle.qc_model.specs.Rules.{end_of};
ghost use Rattle.qc_stow.specs.Moves.{most_moves};

use crate::figured::Figured;
use qc_model::Task;
use qc_num::Tick;
use qc_stow::Row;
use qc_tasks::is_move_of;

/// What some tasks of a crane come to: how many they are, their container moves, their ticks, and the last
/// of their ends.
#[derive(Clone, Copy)]
pub(crate) struct Tally {
    pub(crate) tasks: u16,
    pub(crate) moves: u32,
    pub(crate) work: Tick,
    pub(crate) end: Tick,
}

/// How many container moves a task has.
fn moves_in(rows: &[Row], task: &Task) -> u32
    requires { length rows.now ≤ most_moves }
    ensures moves { result ≡ moves_in rows.now task.now }
    ensures few { result ≤ most_moves }
{
    rows.iter().filter(|row| is_move_of(task, row)).count() as u32
}

impl Figured<'_> {
    /// Whether the crane does the task.
    fn does(&self, crane: u16, task: u16) -> bool
        requires ready { IsReady (view_of self.now) }
        requires task { task < length (view_of self.now).inst.tasks }
        ensures { result ≡ does (view_of self.now).sched crane task }
    {
        self.sched.slots()[task as usize].crane == crane
    }

    /// What a task comes to by itself.
    fn alone(&self, task: u16) -> Tally
        requires ready { IsReady (view_of self.now) }
        requires task { task < length (view_of self.now).inst.tasks }
        ensures tasks { result.tasks ≡ 1 }
        ensures moves { result.moves ≡ moves_in (view_of self.now).rows (task_at (view_of self.now).inst task) }
        ensures work { result.work ≡ ticks_of (view_of self.now).inst task }
        ensures end { result.end ≡ end_of (view_of self.now).inst (view_of self.now).sched task }
        ensures few { result.moves ≤ most_moves }
        ensures short { result.work ≤ MOST_WORK }
        ensures soon { result.end ≤ MOST_END }
        ensures valid { Valid (view_of self.now).inst }
    {
        let number = task;
        let task = self.inst.task(number);
        Tally {
            tasks: 1,
            moves: moves_in(self.rows, &task),
            work: task.ticks,
            end: self.sched.slots()[number as usize].start + task.ticks,
        }
    }

    /// The tally with a task more, where the crane does it.
    fn with_task(&self, tally: Tally, crane: u16, task: u16) -> Tally
        requires ready { IsReady (view_of self.now) }
        requires task { task < length (view_of self.now).inst.tasks }
        requires so_far { IsTally (view_of self.now) crane task tally }
        ensures { IsTally (view_of self.now) crane (task + 1) result }
    {
        if !self.does(crane, task) {
            return tally;
        }
        let one = self.alone(task);
        Tally {
            tasks: tally.tasks + 1,
            moves: tally.moves + one.moves,
            work: tally.work + one.work,
            end: tally.end.max(one.end),
        }
    }

    /// What all tasks of a crane come to.
    pub(crate) fn tally(&self, crane: u16) -> Tally
        requires { IsReady (view_of self.now) }
        ensures { IsTally (view_of self.now) crane (length (view_of self.now).inst.tasks) result }
    {
        let mut tally = Tally {
            tasks: 0,
            moves: 0,
            work: 0,
            end: 0,
        };
        for task in 0..self.inst.task_count() {
            tally = self.with_task(tally, crane, task);
        }
        tally
    }
}
