//! The cranes that the tasks of a node have.

ghost use Rattle.std.specs.Prelude.{◌≡◌, IfOk};
ghost use Rattle.qc_close.specs.Crews.{IsCrewOf};
ghost use Rattle.qc_model.specs.Assignments.{cranes_of};

use qc_close::Crew;
use qc_model::Turn;
use qc_num::OutOfMemory;
use qc_starts::Starts;
use std::alloc::Global;

/// The cranes of the tasks, by the decisions, where cranes turn so.
pub fn crew_by(alloc: Global, starts: &Starts, turn: Turn) -> Result<Crew, OutOfMemory>
    ensures { IfOk result (λ crew. crew ≡ record {
      inst = starts.now.inst;
      turn = turn;
      cranes = cranes_of starts.now.inst starts.now.decisions;
    }) }
{
    let mut crew = Crew::open(alloc, starts.instance(), turn)?;
    for task in 0..starts.instance().task_count() {
        if let Some(crane) = starts.crane_of(task) {
            crew.put(task, crane);
        }
    }
    Ok(crew)
}

/// The same where they turn as the instance says.
pub fn crew_of(alloc: Global, starts: &Starts) -> Result<Crew, OutOfMemory>
    ensures { IfOk result (λ crew. IsCrewOf crew starts.now.inst starts.now.decisions) }
{
    crew_by(alloc, starts, starts.instance().turn())
}
