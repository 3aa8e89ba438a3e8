//! What is to be noted on the past calls that chances come from.

use qc_model::{Instance, Phase};
use qc_page::{Page, Place, text_of};
use qc_past::{Past, PastTask};

/// Fewer calls than these make rough chances.
const FEW: u64 = 20;

/// For how many calls and phases at most it is told that others stand in.
const MOST_TOLD: usize = 3;

const PHASES: [Phase; 4] = [Phase::DeckOut, Phase::HoldOut, Phase::HoldIn, Phase::DeckIn];

/// Notes what the chances of so many runs are worth: where calls are few, and where a call has no task of a phase that
/// the ship has.
pub fn say_calls(page: &mut Page, file: &str, past: &Past, inst: &Instance, runs: u64) {
    say_few(page, file, u64::from(past.call_count()), runs);
    say_others(page, file, past, inst)
}

/// How many of so many runs are of one of so many calls, to the nearest.
fn runs_of_one(calls: u64, runs: u64) -> u64 {
    let twice = runs.saturating_mul(2).saturating_add(calls);
    twice.checked_div(calls.saturating_mul(2)).unwrap_or(0)
}

/// Notes that calls are few.
fn say_few(page: &mut Page, file: &str, calls: u64, runs: u64) {
    if calls >= FEW {
        return;
    }
    page.note(Place::whole(file)).count(calls);
    if calls == 1 {
        page.text(" call: a day on which all is slow isn't in these chances")
            .end()
    } else {
        page.text(" calls: chances are rough, one call makes some ")
            .count(runs_of_one(calls, runs))
            .text(" of ")
            .count(runs)
            .text(" runs")
            .end()
    }
}

/// Whether a ship has a task of a phase.
fn has_task(inst: &Instance, phase: Phase) -> bool {
    inst.tasks().iter().any(|task| task.phase == phase)
}

/// Whether a past task may stand for one of a phase.
fn is_of(past: &PastTask, phase: Phase) -> bool {
    match past.phase {
        Some(own) => own == phase,
        None => true,
    }
}

/// Whether others stand in for a phase that the ship has, since a call has none of it.
fn is_stood_in(tasks: &[PastTask], inst: &Instance, phase: Phase) -> bool {
    has_task(inst, phase) && !tasks.iter().any(|past| is_of(past, phase))
}

/// Notes the first calls and phases for which others stand in.
fn say_others(page: &mut Page, file: &str, past: &Past, inst: &Instance) {
    let mut left = MOST_TOLD;
    for number in 0..past.call_count() {
        left = say_call(page, file, past.call(number), inst, left);
        if left == 0 {
            return;
        }
    }
}

/// Notes of a call for which phases others stand in, and answers how many may still be told.
fn say_call(
    page: &mut Page,
    file: &str,
    tasks: &[PastTask],
    inst: &Instance,
    most: usize,
) -> usize {
    let mut left = most;
    for phase in &PHASES {
        if left > 0 && is_stood_in(tasks, inst, *phase) {
            say_other(page, file, tasks, *phase);
            left = left.saturating_sub(1);
        }
    }
    left
}

/// Notes that others stand in for a phase of a call.
fn say_other(page: &mut Page, file: &str, tasks: &[PastTask], phase: Phase) {
    let Some(first) = tasks.first() else {
        return;
    };
    page.note(Place::whole(file))
        .text("call ")
        .word(text_of(first.call.as_bytes()))
        .text(" has no task of phase ")
        .text(text_of(phase.text()))
        .text(": others of it stand in")
        .end()
}
