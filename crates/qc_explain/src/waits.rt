//! What cranes wait for where a log of dispatch ends.

use qc_page::{Page, text_of};
use qc_run::{Until, Wait};

/// Says for each crane that stands idle and has tasks left which one is next, and what it waits for: another task's end,
/// or ticks alone.
pub fn say_waits(page: &mut Page, waits: &[Wait]) {
    for wait in waits {
        say_wait(page, wait)
    }
}

/// Says what a crane waits for.
fn say_wait(page: &mut Page, wait: &Wait) {
    page.line()
        .text("note: ")
        .word(text_of(wait.crane.as_bytes()));
    let next = text_of(wait.task.as_bytes());
    match &wait.until {
        Until::At(at) => page
            .text(" may begin ")
            .text(next)
            .text(" at tick ")
            .count(*at)
            .end(),
        Until::Over { task, crane, runs } => page
            .text(" waits with ")
            .text(next)
            .text(" until ")
            .word(text_of(crane.as_bytes()))
            .text(" is through with ")
            .text(text_of(task.as_bytes()))
            .text(if *runs {
                ", which runs"
            } else {
                ", which has no start either"
            })
            .end(),
    }
}
