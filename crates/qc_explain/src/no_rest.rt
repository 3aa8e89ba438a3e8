//! Why what is left of a plan can't be planned.

use qc_model::TaskText;
use qc_page::{Page, Place, text_of};
use qc_run::{NoRest, NoRestKind};

/// Says why what is left of a plan by a log can't be planned.
pub fn say_no_rest(page: &mut Page, log: &str, told: &NoRest) {
    let name = text_of(told.name.as_bytes());
    match told.kind {
        NoRestKind::Over => say_over(page, log, name, told.over.as_slice()),
        NoRestKind::Ready => page
            .on(Place::whole(log))
            .text("the task that ")
            .word(name)
            .text(
                " works takes it more than 1000000 ticks from here on, and a ship file's ready is at most 1000000: ask again once it needs less, or correct its line left",
            )
            .end(),
        NoRestKind::Bay => page
            .line()
            .word(name)
            .text(
                " would have to stand below decimetre -10000 or above 16000 by now, where no ship file can put it: leave cranes without a task out of SHIP",
            )
            .end(),
    }
}

/// Says which tasks run and need no tick more: all of them, or the first.
fn say_over(page: &mut Page, log: &str, first: &str, all: &[TaskText]) {
    if all.is_empty() {
        return say_spent(page, log, first);
    }
    for task in all {
        say_spent(page, log, text_of(task.as_bytes()))
    }
}

/// Says that a task runs and needs no tick more.
fn say_spent(page: &mut Page, log: &str, task: &str) {
    page.on(Place::whole(log))
        .text(task)
        .text(" still runs by this log, and its ticks are over: report done ")
        .text(task)
        .text(", or by left ")
        .text(task)
        .text(" N how many ticks it still needs")
        .end()
}
