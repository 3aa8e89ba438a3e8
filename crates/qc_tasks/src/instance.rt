//! The instance of a ship and its moves.
ghost use Rattle.std.specs.Prelude.{◌≡◌, IfOk, IfErr, Ok};
ghost use Rattle.qc_tasks.specs.InstanceOf.{instance_of};
ghost use Rattle.qc_tasks.specs.Rings.{IsNoInstance, tasks_due};

use crate::apart::pairs_apart;
use crate::order::order_of;
use qc_model::{Instance, copy_cranes};
use qc_num::OutOfMemory;
use qc_ship::Ship;
use qc_stow::Moves;
use std::alloc::Global;

/// Why a ship and its moves have no instance.
#[derive(Clone, Copy, Debug, PartialEq, Eq)]
pub enum TasksError {
    /// With this entry of the planner's own order, counted from 1, and those ahead of it, some task would
    /// have to end before it starts.
    Ring(u32),
    OutOfMemory,
}

impl From<OutOfMemory> for TasksError {
    ghost use Rattle.qc_tasks.specs.declared.instance.TasksError.TheVariants as error;

    ghost from_gives = { λ _ why. why ≡ error.OutOfMemory };

    fn from(_refused: OutOfMemory) -> TasksError {
        TasksError::OutOfMemory
    }
}

/// The instance of a ship and its moves: the moves of each hatch and phase are a task, a move that
/// no hatch takes is in none. An entry of the planner's own order or of release times that names a task
/// without a move says nothing; `Ring` comes exactly where the others, with phases and ordered restows, have a ring.
pub fn tasks_of(alloc: Global, ship: &Ship, moves: &Moves) -> Result<Instance, TasksError>
    ensures instance { IfOk result (λ inst. inst ≡ instance_of ship.now moves.now) }
    ensures due { IfOk result (λ inst. tasks_due ship.now moves.now ≡ Ok inst) }
    ensures ring { IfErr result (IsNoInstance ship.now moves.now) }
{
    let rows = moves.rows();
    let tasks = crate::tasks::tasks_of(alloc, ship, rows)?;
    let before = order_of(alloc, ship, rows, tasks.as_slice())?;
    let cranes = copy_cranes(alloc, ship.cranes())?;
    let apart = pairs_apart(alloc, ship.apart(), tasks.as_slice())?;
    Ok(Instance::of(
        ship.bays(),
        ship.travel(),
        ship.margin() + 1,
        tasks,
        cranes,
        before,
        apart,
    ))
}
