//! Following a log, line by line.

ghost use Rattle.std.specs.Prelude.{◌≡◌, ◌+◌, ◌*◌, ◌<◌, ◌≤◌, IfOk, None, length, replicate};
ghost use Rattle.qc_lines.specs.Lines.{lines_of};
ghost use Rattle.qc_model.specs.Instance.{Valid};
ghost use Rattle.qc_model.specs.Numbers.{most_tasks};
ghost use Rattle.qc_model.specs.Rules.{Feasible};
ghost use Rattle.qc_dispatch.specs.declared.report.Report.TheVariants.{Passed, Done, Left};
ghost use Rattle.qc_dispatch.specs.Course.{IsQuiet, past_moments};
ghost use Rattle.qc_dispatch.specs.Following.{AreTaken, IsFollowing, IsLineTaken, IsShort, IsTaken, journal_of, most_passed};
ghost use Rattle.qc_dispatch.specs.Journal.{WentOn, blank};
ghost use Rattle.qc_dispatch.specs.Log.{most_lines};
ghost use Rattle.qc_dispatch.specs.Promises.{Keeps};

use crate::dispatch::Dispatch;
use crate::event::{Event, finished, started};
use crate::fault::{DispatchError, DispatchFault, DispatchKind};
use crate::grant::NotRunning;
use crate::report::{Report, report_in};
use qc_lines::next_line;
use qc_model::{Instance, MOST_TASKS, Schedule};
use qc_num::{OutOfMemory, Tick};
use std::alloc::Global;

/// The most lines of a log.
const MOST_LINES: usize = 100_000;

/// What a task that runs was reported to need still.
#[derive(Clone, Copy, PartialEq, Eq)]
pub struct Remaining {
    /// So many ticks from then on, at least 1.
    pub ticks: Tick,
    /// The tick at which it was reported.
    pub at: Tick,
}

/// A dispatcher that was told a log, and what happened.
#[derive(Drop)]
pub struct Followed {
    pub dispatch: Dispatch,
    /// In the order in which they happened.
    pub events: Vec<Event>,
    /// For each task, by its number, what it was last reported to need still.
    pub remaining: Vec<Option<Remaining>>,
}

/// Why a report wasn't followed.
enum Refused {
    NotRunning,
    OutOfMemory,
}

/// The fault of a line, by how many lines are before it.
fn fault(before: usize, kind: DispatchKind) -> DispatchFault
    requires { before ≤ most_lines }
    ensures { result ≡ record { line = before + 1; kind = kind } }
{
    DispatchFault {
        line: before as u32 + 1,
        kind,
    }
}

impl Followed {
    /// Goes on until this tick: what may start by then does.
    fn go(&mut self, to: Tick) -> Result<(), OutOfMemory>
        requires from { self.old.dispatch.clock ≤ to }
        requires by { to < past_moments }
        ensures went { IfOk result (λ _. WentOn (journal_of self.old) to (journal_of self.new)) }
        ensures quiet { IfOk result (λ _. IsQuiet self.new.dispatch) }
        ensures remaining { self.new.remaining.items ≡ self.old.remaining.items }
        ensures clock { IfOk result (λ _. self.new.dispatch.clock ≡ to) }
    {
        while let Some(grant) = self.dispatch.advance(to) {
            let start = started(self.dispatch.instance(), grant);
            self.events.push(start)?;
        }
        Ok(())
    }

    /// A task that runs needs so many ticks more.
    fn note(&mut self, task: u16, ticks: Tick) -> Result<(), Refused>
        requires quiet { IsQuiet self.old.dispatch }
        requires short { IsShort self.old.dispatch.inst (Left task ticks) }
        requires room { length self.old.remaining.items ≡ most_tasks }
        ensures taken { IsTaken (journal_of self.old) (Left task ticks) result (journal_of self.new) }
        ensures quiet { IfOk result (λ _. IsQuiet self.new.dispatch) }
        ensures room { IfOk result (λ _. length self.new.remaining.items ≡ most_tasks) }
        ensures clock { IfOk result (λ _. self.new.dispatch.clock ≡ self.old.dispatch.clock) }
    {
        if !self.dispatch.runs(task) {
            return Err(Refused::NotRunning);
        }
        let at = self.dispatch.now();
        self.remaining[task as usize] = Some(Remaining { ticks, at });
        Ok(())
    }

    /// A task is done.
    fn finish(&mut self, task: u16) -> Result<(), Refused>
        requires quiet { IsQuiet self.old.dispatch }
        requires inside { IsShort self.old.dispatch.inst (Done task) }
        ensures taken { IsTaken (journal_of self.old) (Done task) result (journal_of self.new) }
        ensures quiet { IfOk result (λ _. IsQuiet self.new.dispatch) }
        ensures remaining { self.new.remaining.items ≡ self.old.remaining.items }
        ensures clock { IfOk result (λ _. self.new.dispatch.clock ≡ self.old.dispatch.clock) }
    {
        match self.dispatch.done(task) {
            Ok(()) => {}
            Err(NotRunning) => return Err(Refused::NotRunning),
        }
        let now = self.dispatch.now();
        let end = finished(self.dispatch.instance(), task, now);
        match self.events.push(end) {
            Ok(()) => {}
            Err(_) => return Err(Refused::OutOfMemory),
        }
        match self.go(now) {
            Ok(()) => Ok(()),
            Err(OutOfMemory) => Err(Refused::OutOfMemory),
        }
    }

    /// So many ticks passed.
    fn pass(&mut self, ticks: Tick) -> Result<(), Refused>
        requires short { IsShort self.old.dispatch.inst (Passed ticks) }
        requires early { self.old.dispatch.clock + ticks < past_moments }
        ensures taken { IsTaken (journal_of self.old) (Passed ticks) result (journal_of self.new) }
        ensures quiet { IfOk result (λ _. IsQuiet self.new.dispatch) }
        ensures remaining { self.new.remaining.items ≡ self.old.remaining.items }
        ensures clock { IfOk result (λ _. self.new.dispatch.clock ≡ self.old.dispatch.clock + ticks) }
    {
        let to = self.dispatch.now() + ticks;
        match self.go(to) {
            Ok(()) => Ok(()),
            Err(OutOfMemory) => Err(Refused::OutOfMemory),
        }
    }

    /// Follows a report.
    fn follow(&mut self, report: Report) -> Result<(), Refused>
        requires quiet { IsQuiet self.old.dispatch }
        requires short { IsShort self.old.dispatch.inst report }
        requires early { self.old.dispatch.clock + most_passed < past_moments }
        requires room { length self.old.remaining.items ≡ most_tasks }
        ensures taken { IsTaken (journal_of self.old) report result (journal_of self.new) }
        ensures quiet { IfOk result (λ _. IsQuiet self.new.dispatch) }
        ensures room { IfOk result (λ _. length self.new.remaining.items ≡ most_tasks) }
        ensures clock { IfOk result (λ _. self.new.dispatch.clock ≤ self.old.dispatch.clock + most_passed) }
    {
        match report {
            Report::Passed(ticks) => self.pass(ticks),
            Report::Done(task) => self.finish(task),
            Report::Left(task, ticks) => self.note(task, ticks),
        }
    }

    /// Takes a line behind so many others.
    fn take(&mut self, before: usize, line: &[u8]) -> Result<(), DispatchError>
        requires quiet { IsQuiet self.old.dispatch }
        requires few { before ≤ most_lines }
        requires early { self.old.dispatch.clock ≤ most_passed * before }
        requires room { length self.old.remaining.items ≡ most_tasks }
        ensures taken { IsLineTaken (journal_of self.old) before line.now result (journal_of self.new) }
        ensures quiet { IfOk result (λ _. IsQuiet self.new.dispatch) }
        ensures room { IfOk result (λ _. length self.new.remaining.items ≡ most_tasks) }
        ensures early { IfOk result (λ _. self.new.dispatch.clock ≤ most_passed * (before + 1)) }
    {
        if before == MOST_LINES {
            return Err(DispatchError::Fault(fault(before, DispatchKind::TooMany)));
        }
        let report = match report_in(self.dispatch.instance(), line) {
            Ok(report) => report,
            Err(kind) => return Err(DispatchError::Fault(fault(before, kind))),
        };
        match self.follow(report) {
            Ok(()) => Ok(()),
            Err(Refused::NotRunning) => Err(DispatchError::Fault(fault(
                before,
                DispatchKind::NotRunning,
            ))),
            Err(Refused::OutOfMemory) => Err(DispatchError::OutOfMemory),
        }
    }

    /// Takes all lines of a text.
    fn take_all(&mut self, text: &[u8]) -> Result<(), DispatchError>
        requires quiet { IsQuiet self.old.dispatch }
        requires early { self.old.dispatch.clock ≡ 0 }
        requires room { length self.old.remaining.items ≡ most_tasks }
        ensures { AreTaken (journal_of self.old) (lines_of text.now) result (journal_of self.new) }
    {
        let mut rest = text;
        let mut before = 0;
        while !rest.is_empty() {
            let (line, more) = next_line(rest);
            self.take(before, line)?;
            before += 1;
            rest = more;
        }
        Ok(())
    }
}

/// Nothing was reported of any task.
fn none_told(alloc: Global) -> Result<Vec<Option<Remaining>>, OutOfMemory>
    ensures { IfOk result (λ v. v.items ≡ replicate most_tasks None) }
{
    let remaining = Vec::from_slice(alloc, &[None; MOST_TASKS as usize])?;
    Ok(remaining)
}

/// A dispatcher that was told nothing yet; what may start at once does.
fn begin(alloc: Global, inst: &Instance, plan: &Schedule) -> Result<Followed, OutOfMemory>
    requires { Feasible inst.now plan.now }
    ensures begins { IfOk result (λ f. WentOn (blank inst.now plan.now) 0 (journal_of f)) }
    ensures quiet { IfOk result (λ f. IsQuiet f.dispatch) }
    ensures room { IfOk result (λ f. length f.remaining.items ≡ most_tasks) }
    ensures clock { IfOk result (λ f. f.dispatch.clock ≡ 0) }
{
    let remaining = none_told(alloc)?;
    let mut followed = Followed {
        dispatch: Dispatch::open(alloc, inst, plan)?,
        events: Vec::new(alloc),
        remaining,
    };
    followed.go(0)?;
    Ok(followed)
}

/// Follows the plan by a log: what happens, or the first fault of the first faulty line.
pub fn follow_log(
    alloc: Global,
    inst: &Instance,
    plan: &Schedule,
    text: &[u8],
) -> Result<Followed, DispatchError>
    requires { Feasible inst.now plan.now }
    ensures following { IsFollowing inst.now plan.now text.now result }
    ensures plan { IfOk result (λ f. Valid f.dispatch.inst × Feasible f.dispatch.inst f.dispatch.plan) }
    ensures keeps { IfOk result (λ f. Keeps f.dispatch) }
{
    let mut followed = begin(alloc, inst, plan)?;
    followed.take_all(text)?;
    let _now = followed.dispatch.now();
    Ok(followed)
}
