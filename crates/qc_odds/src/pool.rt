//! Which past tasks of a call stand for a task.

ghost use Rattle.std.specs.Prelude.{◌≡◌, ◌<◌, ◌≤◌, get_or, length};
ghost use Rattle.std.specs.List.{filter};
ghost use Rattle.qc_model.specs.declared.limits.TheConstants.{MOST_WORK};
ghost use Rattle.qc_past.specs.Past.{no_past};
ghost use Rattle.qc_odds.specs.Kinds.{is_kind};
ghost use Rattle.qc_odds.specs.Lengths.{picked};
ghost use Rattle.qc_odds.specs.Pools.{is_like, is_own, is_phase, pool_of};

use qc_model::{Phase, Task};
use qc_past::PastTask;

/// Which past tasks stand for a task.
#[derive(Clone, Copy)]
pub(crate) enum Kind {
    /// Those of its phase, of which neither was planned to be more than twice as long as the other.
    Like,
    /// Those of its phase.
    Own,
    /// All of the call.
    Any,
}

/// Whether a past task of a phase, or of any, is of this one.
fn is_phase(past: Option<Phase>, phase: Phase) -> bool
    ensures { result ≡ is_phase past phase }
{
    match past {
        None => true,
        Some(past) => past.rank() == phase.rank(),
    }
}

/// Whether a past task is of the task's phase.
fn is_own(task: &Task, past: &PastTask) -> bool
    ensures { result ≡ is_own task.now past.now }
{
    is_phase(past.phase, task.phase)
}

/// Whether it is, and neither was planned to be more than twice as long as the other.
fn is_like(task: &Task, past: &PastTask) -> bool
    requires { task.now.ticks ≤ MOST_WORK }
    ensures { result ≡ is_like task.now past.now }
{
    let planned = u64::from(past.planned);
    is_own(task, past) && task.ticks <= 2 * planned && planned <= 2 * task.ticks
}

/// Whether a past task is of this kind.
fn is_kind(kind: Kind, task: &Task, past: &PastTask) -> bool
    requires { task.now.ticks ≤ MOST_WORK }
    ensures { result ≡ is_kind kind task.now past.now }
{
    match kind {
        Kind::Like => is_like(task, past),
        Kind::Own => is_own(task, past),
        Kind::Any => true,
    }
}

/// How many past tasks are of a kind.
fn count_of(kind: Kind, task: &Task, tasks: &[PastTask]) -> usize
    requires { task.now.ticks ≤ MOST_WORK }
    ensures { result ≡ length (filter (is_kind kind task.now) tasks.now) }
{
    tasks
        .iter()
        .filter(|past| is_kind(kind, task, past))
        .count()
}

/// The past task at a place among those of a kind.
fn nth_of<'a>(kind: Kind, task: &Task, tasks: &'a [PastTask], place: usize) -> &'a PastTask
    requires ticks { task.now.ticks ≤ MOST_WORK }
    requires inside { place < length (filter (is_kind kind task.now) tasks.now) }
    ensures { result.now ≡ get_or (filter (is_kind kind task.now) tasks.now) place no_past }
{
    let mut left = place;
    let mut rest = tasks;
    while let Some((past, behind)) = rest.split_first() {
        if is_kind(kind, task, past) {
            if left == 0 {
                return past;
            }
            left -= 1;
        }
        rest = behind;
    }
    unreachable!()
}

/// The kind of those that stand for a task, and how many they are.
fn pool_of(task: &Task, tasks: &[PastTask]) -> (Kind, usize)
    requires ticks { task.now.ticks ≤ MOST_WORK }
    requires some { 1 ≤ length tasks.now }
    ensures pool { filter (is_kind result.0 task.now) tasks.now ≡ pool_of task.now tasks.now }
    ensures size { result.1 ≡ length (pool_of task.now tasks.now) }
    ensures some { 1 ≤ result.1 }
{
    let like = count_of(Kind::Like, task, tasks);
    if like > 0 {
        return (Kind::Like, like);
    }
    let own = count_of(Kind::Own, task, tasks);
    if own > 0 {
        return (Kind::Own, own);
    }
    (Kind::Any, tasks.len())
}

/// The past task that a number draws of those that stand for a task.
pub(crate) fn pick<'a>(task: &Task, tasks: &'a [PastTask], number: u32) -> &'a PastTask
    requires ticks { task.now.ticks ≤ MOST_WORK }
    requires some { 1 ≤ length tasks.now }
    ensures { result.now ≡ picked (pool_of task.now tasks.now) number }
{
    let (kind, size) = pool_of(task, tasks);
    nth_of(kind, task, tasks, number as usize % size)
}
