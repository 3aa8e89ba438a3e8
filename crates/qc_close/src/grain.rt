//! The greatest number of which all ticks of an instance are multiples.

ghost use Rattle.std.specs.Prelude.{◌≡◌, length, slice_index_or};
ghost use Rattle.qc_close.specs.Model.{grain, no_crane, no_task};
ghost use Rattle.qc_close.specs.Grains.{IsGrainOf};

use qc_model::{Crane, Instance, Task};
use qc_num::{Tick, gcd};

/// The same of a number and the ticks of tasks.
fn with_tasks(start: Tick, tasks: &[Task]) -> Tick
    ensures { IsGrainOf start (λ i. (slice_index_or tasks.now i no_task).ticks) (length tasks.now) result }
{
    let mut grain = start;
    for task in tasks {
        grain = gcd(grain, task.ticks);
    }
    grain
}

/// The same of a number and the ticks until which tasks are held back.
fn with_releases(start: Tick, tasks: &[Task]) -> Tick
    ensures { IsGrainOf start (λ i. (slice_index_or tasks.now i no_task).release) (length tasks.now) result }
{
    let mut grain = start;
    for task in tasks {
        grain = gcd(grain, task.release);
    }
    grain
}

/// The same of a number and the ticks at which cranes are ready.
fn with_cranes(start: Tick, cranes: &[Crane]) -> Tick
    ensures { IsGrainOf start (λ i. (slice_index_or cranes.now i no_crane).ready) (length cranes.now) result }
{
    let mut grain = start;
    for crane in cranes {
        grain = gcd(grain, crane.ready);
    }
    grain
}

/// The greatest number of which all ticks of an instance are multiples.
pub(crate) fn grain(inst: &Instance) -> Tick
    ensures { result ≡ grain inst.now }
{
    let tasks = inst.tasks();
    with_cranes(
        with_releases(with_tasks(inst.travel(), tasks), tasks),
        inst.cranes(),
    )
}
