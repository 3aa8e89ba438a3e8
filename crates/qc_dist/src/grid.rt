//! Tables of pairs of tasks.

ghost use Rattle.std.specs.Prelude.{◌≡◌, ◌+◌, ◌*◌, ◌<◌, ◌≤◌, [], IfOk, false, length};
ghost use Rattle.qc_model.specs.declared.limits.TheConstants.{MOST_TASKS};
ghost use Rattle.qc_model.specs.Nodes.{is_sooner};
ghost use Rattle.qc_dist.specs.Tables.{IsGrid};

use qc_model::{Instance, MOST_TASKS};
use qc_num::OutOfMemory;
use std::alloc::Global;

/// Where a table holds a pair of tasks.
pub(crate) fn cell(first: u16, second: u16) -> usize
    requires first { first < MOST_TASKS }
    requires second { second < MOST_TASKS }
    ensures { result ≡ MOST_TASKS * first + second }
{
    MOST_TASKS as usize * first as usize + second as usize
}

/// A table of the pairs of so many tasks, none marked.
pub(crate) fn no_marks(alloc: Global, tasks: u16) -> Result<Vec<bool>, OutOfMemory>
    requires { tasks ≤ MOST_TASKS }
    ensures { IfOk result (λ marks. IsGrid (λ _ _. false) tasks marks.items) }
{
    let count = tasks as usize * MOST_TASKS as usize;
    let marks = vec![in alloc; false; count].map_err(OutOfMemory::from)?;
    Ok(marks)
}

/// The pairs of which the first task must end before the second starts, whatever is decided.
pub(crate) fn before_marks(alloc: Global, inst: &Instance) -> Result<Vec<bool>, OutOfMemory>
    ensures { IfOk result
        (λ marks. IsGrid (is_sooner inst.now []) (length inst.now.tasks) marks.items) }
{
    let mut marks = no_marks(alloc, inst.task_count())?;
    for pair in inst.before() {
        marks[cell(pair.first, pair.second)] = true;
    }
    Ok(marks)
}
