//! The work that is left at each bay.

ghost use Rattle.std.specs.Prelude.{◌≡◌, ◌+◌, ◌<◌, IfOk, replicate};
ghost use Rattle.qc_model.specs.Assignments.{no_cranes};
ghost use Rattle.qc_close.specs.Lefts.{IsLeft};

use qc_model::Instance;
use qc_num::{OutOfMemory, Tick};
use std::alloc::Global;

/// The ticks of tasks at each bay, from bay 0, where there are none yet.
fn nothing(alloc: Global, bays: usize) -> Result<Vec<Tick>, OutOfMemory>
    requires { bays < 10000 }
    ensures { IfOk result (λ left. left.items ≡ replicate (bays + 1) 0) }
{
    Ok(vec![in alloc; 0; bays + 1]?)
}

/// Adds the ticks of each task at its bay.
fn add_tasks(inst: &Instance, left: &mut [Tick])
    requires { left.old ≡ replicate (inst.now.bays + 1) 0 }
    ensures { IsLeft inst.now (no_cranes inst.now) left.new }
{
    for number in 0..inst.task_count() {
        let task = inst.task(number);
        left[task.bay as usize] += task.ticks;
    }
}

/// The ticks of all tasks at each bay, from bay 0.
pub(crate) fn work_left(alloc: Global, inst: &Instance) -> Result<Vec<Tick>, OutOfMemory>
    ensures { IfOk result (λ left. IsLeft inst.now (no_cranes inst.now) left.items) }
{
    let mut left = nothing(alloc, inst.bays() as usize)?;
    add_tasks(inst, left.as_mut_slice());
    Ok(left)
}
