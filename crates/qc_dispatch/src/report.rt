//! One line of a log.

ghost use Rattle.std.specs.Prelude.{◌≡◌, ◌<◌, ◌≤◌, IfOk, IfSome, length};
ghost use Rattle.std.specs.List.{list_any};
ghost use Rattle.qc_model.specs.declared.limits.TheConstants.{MOST_TASKS};
ghost use Rattle.qc_lines.specs.Lines.{is_space};
ghost use Rattle.qc_dispatch.specs.Log.{left_in, report_in, report_of, task_in, task_named, ticks_in};
ghost use Rattle.qc_dispatch.specs.Following.{IsShort, most_passed};

use crate::fault::DispatchKind;
use qc_lines::{line_text, next_word};
use qc_model::Instance;
use qc_num::{Tick, plain_number};

/// How many digits a number of ticks has at most.
const TICK_DIGITS: usize = 9;

/// What a line reports.
#[derive(Clone, Copy, PartialEq, Eq)]
pub enum Report {
    /// So many ticks passed.
    Passed(Tick),
    /// A task, counted from 0, is done.
    Done(u16),
    /// A task, counted from 0, which runs, needs so many ticks more.
    Left(u16, Tick),
}

/// A number of ticks.
fn ticks_in(number: &[u8]) -> Result<Tick, DispatchKind>
    ensures ticks { result ≡ ticks_in number.now }
    ensures short { IfOk result (λ ticks. ticks ≤ most_passed) }
{
    match plain_number(number, TICK_DIGITS) {
        None | Some(0) => Err(DispatchKind::Line),
        Some(ticks) => Ok(ticks),
    }
}

/// Whether a space stands in a text.
fn has_space(text: &[u8]) -> bool
    ensures { result ≡ list_any is_space text.now }
{
    text.iter().any(|b| *b == b' ')
}

/// The task of this name.
fn task_named(inst: &Instance, name: &[u8]) -> Option<usize>
    ensures number { result ≡ task_named inst.now name.now }
    ensures inside { IfSome result (λ task. task < length inst.now.tasks) }
    ensures few { IfSome result (λ task. task < MOST_TASKS) }
{
    inst.tasks()
        .iter()
        .position(|task| task.text().as_bytes() == name)
}

/// Which task has this name.
fn task_in(inst: &Instance, name: &[u8]) -> Result<u16, DispatchKind>
    ensures task { result ≡ task_in inst.now name.now }
    ensures inside { IfOk result (λ task. task < length inst.now.tasks) }
    ensures few { IfOk result (λ task. task < MOST_TASKS) }
{
    if name.is_empty() || has_space(name) {
        return Err(DispatchKind::Line);
    }
    match task_named(inst, name) {
        Some(task) => Ok(task as u16),
        None => Err(DispatchKind::UnknownTask),
    }
}

/// Which task needs how many ticks more.
fn left_in(inst: &Instance, rest: &[u8]) -> Result<Report, DispatchKind>
    ensures left { result ≡ left_in inst.now rest.now }
    ensures short { IfOk result (IsShort inst.now) }
{
    let (name, number) = next_word(rest);
    let ticks = ticks_in(number)?;
    let task = task_in(inst, name)?;
    Ok(Report::Left(task, ticks))
}

/// What the words of a line report.
fn report_of(inst: &Instance, word: &[u8], rest: &[u8]) -> Result<Report, DispatchKind>
    ensures report { result ≡ report_of inst.now word.now rest.now }
    ensures short { IfOk result (IsShort inst.now) }
{
    if word == b"tick".as_slice() {
        Ok(Report::Passed(ticks_in(rest)?))
    } else if word == b"done".as_slice() {
        Ok(Report::Done(task_in(inst, rest)?))
    } else if word == b"left".as_slice() {
        left_in(inst, rest)
    } else {
        Err(DispatchKind::Line)
    }
}

/// What a line reports, or the first fault of it.
pub(crate) fn report_in(inst: &Instance, line: &[u8]) -> Result<Report, DispatchKind>
    ensures report { result ≡ report_in inst.now line.now }
    ensures short { IfOk result (IsShort inst.now) }
{
    let Some(text) = line_text(line) else {
        return Err(DispatchKind::Line);
    };
    let (word, rest) = next_word(text);
    report_of(inst, word, rest)
}
