//! What is said beside an answer without a plan.

use crate::broken::is_reached;
use qc_model::{Instance, Task, Turn};
use qc_page::{Page, text_of};

/// The first task that lies where no crane comes.
fn out_of_reach(inst: &Instance) -> Option<Task> {
    for task in inst.tasks() {
        if !is_reached(inst, task.bay) {
            return Some(*task);
        }
    }
    None
}

/// Says why an instance has no plan, or where one may be found.
pub fn say_infeasible(page: &mut Page, inst: &Instance, turn: Turn) {
    if let Some(task) = out_of_reach(inst) {
        let name = task.text();
        return page
            .line()
            .text("note: ")
            .text(text_of(name.as_bytes()))
            .text(" lies where no crane comes, by from and to of the ship file")
            .end();
    }
    match turn {
        Turn::OneWay => page
            .line()
            .text("note: no plan goes one way; qc free looks for one in which cranes go to and fro")
            .end(),
        Turn::Free => {}
    }
}

/// Says what may find a plan where none was found with the branchings that were allowed.
pub fn say_spent(page: &mut Page) {
    page.line()
        .text(
            "note: no plan was found yet: --nodes N allows up to 1000000 branchings, and --from OWN begins with a plan of yours",
        )
        .end()
}
