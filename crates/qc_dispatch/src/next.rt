//! The next start.

ghost use Rattle.std.specs.Prelude.{◌≡◌, ◌≤◌, length, slice_index_or};
ghost use Rattle.qc_model.specs.declared.limits.TheConstants.{MOST_TASKS};
ghost use Rattle.qc_dispatch.specs.declared.stage.Stage.TheVariants.{Waiting};
ghost use Rattle.qc_dispatch.specs.Waits.{IsNext, moment_of, sooner, wait_of, within};

use crate::stage::Stage;
use crate::waits::Wait;
use qc_num::Tick;

/// A task, and when it may start.
#[derive(Clone, Copy)]
pub(crate) struct Next {
    pub(crate) task: u16,
    pub(crate) moment: Tick,
}

/// When a task may start from now on; `None` where it has a start or must wait for a leader's end.
pub(crate) fn moment_of(now: Tick, stage: Stage, wait: Wait) -> Option<Tick>
    ensures { result ≡ moment_of now stage wait }
{
    if stage.is_waiting() && wait.leaders == 0 {
        Some(now.max(wait.due))
    } else {
        None
    }
}

/// The earlier of two starts, and the first of them where they are at one moment.
pub(crate) fn sooner(best: Option<Next>, task: u16, moment: Option<Tick>) -> Option<Next>
    ensures { result ≡ sooner best task moment }
{
    match (best, moment) {
        (best, None) => best,
        (None, Some(moment)) => Some(Next { task, moment }),
        (Some(best), Some(moment)) => {
            if moment < best.moment {
                Some(Next { task, moment })
            } else {
                Some(best)
            }
        }
    }
}

/// A start, if it comes by this tick.
pub(crate) fn within(next: Option<Next>, to: Tick) -> Option<Next>
    ensures { result ≡ within next to }
{
    match next {
        None => None,
        Some(next) => { if next.moment <= to { Some(next) } else { None } }
    }
}

/// The task that may start first, and of those at one moment the lowest.
pub(crate) fn next_start(stages: &[Stage], waits: &[Wait], now: Tick) -> Option<Next>
    requires same { length waits.now ≡ length stages.now }
    requires few { length stages.now ≤ MOST_TASKS }
    ensures { IsNext (λ j. moment_of now (slice_index_or stages.now j Waiting) (wait_of waits.now j))
        (length stages.now) result }
{
    let mut best = None;
    for task in 0..stages.len() as u16 {
        let moment = moment_of(now, stages[task as usize], waits[task as usize]);
        best = sooner(best, task, moment);
    }
    best
}
