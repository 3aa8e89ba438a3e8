//! What is said after a run.
ghost use Rattle.std.specs.Prelude.{◌≡◌};
ghost use Rattle.qc_io.specs.Outside.{beside};
ghost use Rattle.qc_voice.specs.Frame.{LeavesFiles};

use crate::bay_plans::say_bay_plans;
use crate::odds::say_chances;
use crate::order::say_idle_entries;
use crate::texts::{Names, again, instance_of, names_of, ship_of};
use qc_explain::{
    say_broken, say_course, say_infeasible, say_log, say_no_rest, say_past, say_plan, say_spent,
    say_tree, say_waits,
};
use qc_gantt::PlanFault;
use qc_hints::{counts_decimetres, say_notes, say_ship, say_stow, say_usage};
use qc_io::{Shelf, Sink, put_all};
use qc_num::Bytes;
use qc_page::Page;
use qc_past::PastFault;
use qc_run::{Broken, Cause, Ended, Input, Inputs, LogFault, Refusal, Status};
use qc_ship::ShipFault;
use qc_stow::StowFault;
use qc_tree::TreeFault;
use qc_words::{Request, request_of};
use std::alloc::Global;

/// The word for a file in the usage text.
fn word_of(file: Input) -> &'static str {
    match file {
        Input::Ship => "SHIP",
        Input::Stow => "STOW",
        Input::Plan => "PLAN",
        Input::Tree => "TREE",
        Input::Own => "OWN",
        Input::Log => "LOG",
        Input::Past => "PAST",
        Input::Arrival => "ARRIVAL",
        Input::Departure => "DEPARTURE",
    }
}

/// What is said of a file that couldn't be read, and of one that is too large.
pub(crate) const MISSING: &str = ", isn't there or can't be read";

pub(crate) const LARGE: &str = ", has more than 8388608 bytes, and may have no more";

/// What is said of a file that can't be read again to show its fault.
pub(crate) const FAULT_UNSHOWN: &str =
    ", has the fault that was reported, and can't be read again to show it";

/// Says which file couldn't be read, or is too large, by its word in the usage text and its name.
pub(crate) fn say_named(page: &mut Page, name: &str, file: Input, why: &str) {
    page.line()
        .word(name)
        .text(": this file, ")
        .text(word_of(file))
        .text(why)
        .end()
}

/// The same where the file is named.
fn say_unread(page: &mut Page, inputs: &Inputs<'_>, file: Input, why: &str) {
    if let Some(name) = inputs.name_of(file) {
        say_named(page, name, file, why)
    }
}

/// The file in which the fault is that was reported, read again with its name. That it can't be read again, as a pipe
/// can't, is said.
fn faulty<'a, S: Shelf>(
    page: &mut Page,
    shelf: &mut S,
    inputs: &Inputs<'a>,
    file: Input,
) -> Option<(&'a str, Bytes)>
    ensures { LeavesFiles (S.Sink.view shelf.old) (S.Sink.view shelf.new) }
{
    let found = again(page, shelf, inputs.name_of(file));
    if found.is_none() {
        say_unread(page, inputs, file, FAULT_UNSHOWN);
    }
    found
}

/// Says what is wrong with the ship file.
fn say_bad_ship<S: Shelf>(page: &mut Page, shelf: &mut S, inputs: &Inputs<'_>, fault: ShipFault)
    ensures { LeavesFiles (S.Sink.view shelf.old) (S.Sink.view shelf.new) }
{
    if let Some((name, ship)) = faulty(page, shelf, inputs, Input::Ship) {
        say_ship(page, name, ship.as_slice(), fault)
    }
}

/// Says what is wrong with the list.
fn say_bad_stow<S: Shelf>(page: &mut Page, shelf: &mut S, inputs: &Inputs<'_>, fault: StowFault)
    ensures { LeavesFiles (S.Sink.view shelf.old) (S.Sink.view shelf.new) }
{
    let Some((name, list)) = faulty(page, shelf, inputs, Input::Stow) else {
        return;
    };
    let Some((_, ship)) = again(page, shelf, Some(inputs.ship)) else {
        return;
    };
    if let Some(ship) = ship_of(page, ship.as_slice()) {
        say_stow(page, name, list.as_slice(), &ship, fault)
    }
}

/// The plan that a command reads, or the one that the planner has already, read again.
fn plan_again<'a, S: Shelf>(
    page: &mut Page,
    shelf: &mut S,
    inputs: &Inputs<'a>,
) -> Option<(&'a str, Bytes)>
    ensures { LeavesFiles (S.Sink.view shelf.old) (S.Sink.view shelf.new) }
{
    again(page, shelf, inputs.plan.or(inputs.own))
}

/// Says what is wrong with the table of the plan.
fn say_bad_plan<S: Shelf>(page: &mut Page, shelf: &mut S, inputs: &Inputs<'_>, fault: PlanFault)
    ensures { LeavesFiles (S.Sink.view shelf.old) (S.Sink.view shelf.new) }
{
    let file = if inputs.plan.is_some() {
        Input::Plan
    } else {
        Input::Own
    };
    let Some((name, plan)) = faulty(page, shelf, inputs, file) else {
        return;
    };
    let Some((_, ship)) = again(page, shelf, Some(inputs.ship)) else {
        return;
    };
    if let Some(inst) = instance_of(page, shelf, inputs, ship.as_slice()) {
        say_plan(page, name, plan.as_slice(), &inst, fault)
    }
}

/// Says what is wrong with the tree.
fn say_bad_tree<S: Shelf>(page: &mut Page, shelf: &mut S, inputs: &Inputs<'_>, fault: TreeFault)
    ensures { LeavesFiles (S.Sink.view shelf.old) (S.Sink.view shelf.new) }
{
    if let Some((name, tree)) = faulty(page, shelf, inputs, Input::Tree) {
        say_tree(page, name, tree.as_slice(), inputs.turn, fault)
    }
}

/// Says what is wrong with the log.
fn say_bad_log<S: Shelf>(page: &mut Page, shelf: &mut S, inputs: &Inputs<'_>, fault: LogFault)
    ensures { LeavesFiles (S.Sink.view shelf.old) (S.Sink.view shelf.new) }
{
    let Some((name, log)) = faulty(page, shelf, inputs, Input::Log) else {
        return;
    };
    match fault {
        LogFault::Dispatch(fault) => say_course(page, name, log.as_slice(), fault),
        LogFault::Watch(fault) => {
            let Some((_, ship)) = again(page, shelf, Some(inputs.ship)) else {
                return;
            };
            if let Some(ship) = ship_of(page, ship.as_slice()) {
                say_log(page, name, log.as_slice(), &ship, fault)
            }
        }
    }
}

/// Says what is wrong with the table of past tasks.
fn say_bad_past<S: Shelf>(page: &mut Page, shelf: &mut S, inputs: &Inputs<'_>, fault: PastFault)
    ensures { LeavesFiles (S.Sink.view shelf.old) (S.Sink.view shelf.new) }
{
    if let Some((name, past)) = faulty(page, shelf, inputs, Input::Past) {
        say_past(page, name, past.as_slice(), fault)
    }
}

/// Says why a command wasn't served.
fn say_refusal<S: Shelf>(page: &mut Page, shelf: &mut S, inputs: &Inputs<'_>, why: Refusal)
    ensures { LeavesFiles (S.Sink.view shelf.old) (S.Sink.view shelf.new) }
{
    match why {
        Refusal::Usage => {}
        Refusal::ReadFault(file) => { say_unread(page, inputs, file, MISSING) }
        Refusal::TooLarge(file) => say_unread(page, inputs, file, LARGE),
        Refusal::BadShip(fault) => say_bad_ship(page, shelf, inputs, fault),
        Refusal::BadStow(fault) => say_bad_stow(page, shelf, inputs, fault),
        Refusal::BadPlan(fault) => say_bad_plan(page, shelf, inputs, fault),
        Refusal::BadTree(fault) => say_bad_tree(page, shelf, inputs, fault),
        Refusal::BadLog(fault) => say_bad_log(page, shelf, inputs, fault),
        Refusal::BadPast(fault) => say_bad_past(page, shelf, inputs, fault),
        Refusal::BadBayPlan(_, _) => {}
    }
}

/// Says how the plan breaks a rule.
fn say_break<S: Shelf>(
    page: &mut Page,
    shelf: &mut S,
    inputs: &Inputs<'_>,
    ship: &[u8],
    told: &Broken,
)
    ensures { LeavesFiles (S.Sink.view shelf.old) (S.Sink.view shelf.new) }
{
    let Some((name, plan)) = plan_again(page, shelf, inputs) else {
        return;
    };
    let Some(inst) = instance_of(page, shelf, inputs, ship) else {
        return;
    };
    let in_decimetres = counts_decimetres(page.alloc(), ship);
    if let Some(in_decimetres) = page.unless_short(in_decimetres) {
        say_broken(page, name, plan.as_slice(), &inst, in_decimetres, told)
    }
}

/// Says that a plan isn't of this run, where there is one.
fn say_stale<S: Shelf>(page: &mut Page, shelf: &mut S, name: &str)
    ensures { LeavesFiles (S.Sink.view shelf.old) (S.Sink.view shelf.new) }
{
    if shelf.open(name).is_err() {
        return;
    }
    page.line()
        .text("note: ")
        .word(name)
        .text(": this plan was there before and isn't of this run")
        .end()
}

/// Says why there is no plan, or where one may be found.
fn say_no_plan<S: Shelf>(page: &mut Page, shelf: &mut S, inputs: &Inputs<'_>, ship: &[u8])
    ensures { LeavesFiles (S.Sink.view shelf.old) (S.Sink.view shelf.new) }
{
    if let Some(inst) = instance_of(page, shelf, inputs, ship) {
        say_infeasible(page, &inst, inputs.turn)
    }
}

/// Says how the plan breaks a rule, where it does, what is to be noted on the ship file, and why there is no plan, where
/// one was looked for.
fn say_on_ship<S: Shelf>(page: &mut Page, shelf: &mut S, names: &Names<'_>, ended: &Ended)
    ensures { LeavesFiles (S.Sink.view shelf.old) (S.Sink.view shelf.new) }
{
    let Some((name, ship)) = again(page, shelf, Some(names.read.ship)) else {
        return;
    };
    let ship = ship.as_slice();
    if let Some(Cause::Broken(told)) = &ended.cause {
        say_break(page, shelf, &names.read, ship, told);
    }
    say_notes(page, name, ship);
    say_idle_entries(page, shelf, &names.read, name, ship);
    if ended.status == Status::Infeasible && names.written.is_some() {
        say_no_plan(page, shelf, &names.read, ship)
    }
}

/// Says that what is at the name of the plan that was to be written isn't one of this run.
fn say_unwritten<S: Shelf>(page: &mut Page, shelf: &mut S, name: Option<&str>, ended: Status)
    ensures { LeavesFiles (S.Sink.view shelf.old) (S.Sink.view shelf.new) }
{
    let Some(name) = name else {
        return;
    };
    if ended == Status::BudgetNone {
        say_spent(page);
    }
    if ended == Status::BudgetNone || ended == Status::Infeasible {
        say_stale(page, shelf, name)
    }
}

/// Says what there is to say of a run whose files were read.
fn say_served<S: Shelf>(page: &mut Page, shelf: &mut S, names: &Names<'_>, ended: &Ended)
    ensures { LeavesFiles (S.Sink.view shelf.old) (S.Sink.view shelf.new) }
{
    say_on_ship(page, shelf, names, ended);
    match &ended.cause {
        Some(Cause::Waits(waits)) => say_waits(page, waits.as_slice()),
        Some(Cause::NoRest(told)) => say_no_rest(page, names.read.log.unwrap_or(""), told),
        _ => say_unwritten(page, shelf, names.written, ended.status),
    }
}

/// Says what there is to say of a run with these files.
fn say_files<S: Shelf>(page: &mut Page, shelf: &mut S, names: &Names<'_>, ended: &Ended)
    ensures { LeavesFiles (S.Sink.view shelf.old) (S.Sink.view shelf.new) }
{
    match &ended.cause {
        Some(Cause::Refused(why)) => say_refusal(page, shelf, &names.read, *why),
        _ => say_served(page, shelf, names, ended),
    }
}

/// Says what there is to say of a run with these words.
fn say_all<S: Shelf>(page: &mut Page, words: &[String], ended: &Ended, shelf: &mut S)
    ensures { LeavesFiles (S.Sink.view shelf.old) (S.Sink.view shelf.new) }
{
    match ended.status {
        Status::Usage => return say_usage(page, words),
        Status::OutOfMemory => {
            return page
                .line()
                .text("the system gave no more memory; no file was changed")
                .end();
        }
        Status::WriteFault => return,
        _ => {}
    }
    let request = request_of(page.alloc(), words);
    if let Some(request) = page.unless_short(request) {
        say_request(page, &request, ended, shelf)
    }
}

/// Says what there is to say of a run that was asked for this.
fn say_request<S: Shelf>(page: &mut Page, request: &Request<'_>, ended: &Ended, shelf: &mut S)
    ensures { LeavesFiles (S.Sink.view shelf.old) (S.Sink.view shelf.new) }
{
    if let Request::Moves(asked) = request {
        return say_bay_plans(page, shelf, asked, ended);
    }
    if let Some(names) = names_of(request) {
        say_files(page, shelf, &names, ended)
    }
    if let Request::Odds(asked) = request
        && ended.status == Status::Done
    {
        say_chances(page, shelf, asked)
    }
}

/// Says on `err`, for people, what is to be mended after a run with these words that came to this, and what in its
/// files is worth a note. It reads files again for what they hold, and changes none. Where it can't read one again,
/// where they have changed since, or where memory is wanting, it says nothing.
pub fn explain<S: Shelf, K: Sink>(
    alloc: Global,
    words: &[String],
    ended: &Ended,
    shelf: &mut S,
    err: &mut K,
)
    ensures files { LeavesFiles (S.Sink.view shelf.old) (S.Sink.view shelf.new) }
    ensures beside { beside (K.Sink.view err.new) ≡ beside (K.Sink.view err.old) }
{
    let mut page = Page::new(alloc);
    say_all(&mut page, words, ended, shelf);
    if let Some(lines) = page.lines() {
        let _ = put_all(err, lines);
    }
}
