//! Makes calls on least starts, and compares what they answer.

ghost use Rattle.std.specs.Prelude.{◌↔◌, ◌<◌, IfOk, IsTrue, length};
ghost use Rattle.qc_num.specs.Paths.{HasRoom};

use crate::crew::{crew_by, crew_of};
use crate::instance::instance_in;
use crate::text::{compare, number, plain, yes_or_no};
use anyhow::Result;
use qc_bounds::{LeafKind, close, spent, work_bound};
use qc_dist::in_reach;
use qc_model::{Instance, Turn};
use qc_num::{Bound, Path, Tick};
use qc_starts::{Starts, Step};
use std::alloc::{AllocError, Global};

/// Calls on the least starts of nodes, one after the other, each with its answer.
#[derive(Clone, Copy)]
pub struct Row {
    /// What the row shows.
    pub name: &'static str,
    /// The ship file.
    pub ship: &'static str,
    /// The stowage list.
    pub list: &'static str,
    /// Which way cranes may go.
    pub turn: Turn,
    /// The first call finds no decision.
    pub calls: &'static [(Call, &'static str)],
}

/// A call. What it can't be made on answers `none` or `no`.
#[derive(Clone, Copy)]
pub enum Call {
    /// Gives a task a crane: `raised` or `cycle`.
    Assign(u16, u16),
    /// Puts one task before another: `raised` or `cycle`.
    Order(u16, u16),
    /// Takes all decisions back but so many: how many are left.
    Retract(u32),
    /// How many decisions there are.
    Mark,
    Stuck,
    Complete,
    Start(u16),
    Ends,
    CraneOf(u16),
    Settled(u16, u16),
    /// The arcs that leave the task, newest first: from, to and ticks.
    Leaving(u16),
    WhyPath,
    /// The number of tasks in the ring.
    Ring,
    WorkBound,
    /// The last end at which the assignment is closed, where cranes go to and fro.
    FreeBound,
    /// The leaf that closes the node at the bound, or `open`.
    Close(Bound),
    /// The leaf that stands for the node.
    Spent,
}

fn is_task(starts: &Starts, task: u16) -> bool
    ensures { IsTrue result ↔ (task < length starts.now.inst.tasks) }
{
    (task as usize) < starts.instance().tasks().len()
}

fn is_crane(starts: &Starts, crane: u16) -> bool
    ensures { IsTrue result ↔ (crane < length starts.now.inst.cranes) }
{
    (crane as usize) < starts.instance().cranes().len()
}

fn step_text(step: Step) -> &'static str {
    match step {
        Step::Raised => "raised",
        Step::Cycle => "cycle",
    }
}

fn assign(starts: &mut Starts, task: u16, crane: u16) -> &'static str {
    if starts.stuck() || !is_task(starts, task) || !is_crane(starts, crane) {
        return "none";
    }
    if starts.crane_of(task).is_some() || !in_reach(starts.instance(), task, crane) {
        return "none";
    }
    step_text(starts.assign(task, crane))
}

fn order(starts: &mut Starts, first: u16, second: u16) -> &'static str {
    if starts.stuck() || !is_task(starts, first) || !is_task(starts, second) {
        return "none";
    }
    if !starts.conflict(first, second) || starts.settled(first, second) {
        return "none";
    }
    step_text(starts.order(first, second))
}

fn retract(starts: &mut Starts, mark: u32) -> u32 {
    if mark <= starts.mark() {
        starts.retract(mark);
    }
    starts.mark()
}

fn start(starts: &Starts, task: u16) -> Option<Tick> {
    if starts.stuck() || !is_task(starts, task) {
        return None;
    }
    Some(starts.start(task))
}

fn ends(starts: &Starts) -> Option<Tick> {
    if starts.stuck() {
        return None;
    }
    Some(starts.ends())
}

fn crane_of(starts: &Starts, task: u16) -> Option<u64> {
    if !is_task(starts, task) {
        return None;
    }
    starts.crane_of(task).map(u64::from)
}

fn settled(starts: &Starts, first: u16, second: u16) -> bool {
    is_task(starts, first) && is_task(starts, second) && starts.settled(first, second)
}

/// Puts a part behind the text, with a space between them.
fn add(text: &mut String, part: &str) -> Result<()> {
    if !text.is_empty() {
        text.push(' ')?;
    }
    text.push_str(part)?;
    Ok(())
}

fn leaving(alloc: Global, starts: &Starts, task: u16) -> Result<String> {
    let mut text = String::new(alloc);
    for arc in starts.arcs().out(task) {
        let (from, to, len) = (arc.from, arc.to, arc.len);
        add(&mut text, format!(in alloc; "{from}-{to}:{len}")?.as_str())?;
    }
    if text.is_empty() {
        return plain(alloc, "none");
    }
    Ok(text)
}

/// Room for the tasks of a leaf.
fn room(alloc: Global, starts: &Starts) -> Result<Path, AllocError>
    ensures { IfOk result (HasRoom (length starts.now.inst.tasks)) }
{
    Path::with_capacity(alloc, starts.instance().task_count() as usize)
}

fn tasks_text(alloc: Global, tasks: &[u16]) -> Result<String> {
    let mut text = String::new(alloc);
    for task in tasks {
        add(&mut text, format!(in alloc; "{task}")?.as_str())?;
    }
    Ok(text)
}

fn why_path(alloc: Global, starts: &Starts) -> Result<String> {
    if starts.stuck() {
        return plain(alloc, "none");
    }
    let mut path = room(alloc, starts)?;
    starts.why_path(&mut path);
    tasks_text(alloc, path.as_slice())
}

fn ring(alloc: Global, starts: &Starts) -> Result<Option<u64>> {
    if !starts.stuck() {
        return Ok(None);
    }
    let mut path = room(alloc, starts)?;
    starts.cycle(&mut path);
    Ok(Some(path.len() as u64))
}

fn leaf_text(alloc: Global, leaf: LeafKind) -> Result<String> {
    match leaf {
        LeafKind::Chain => plain(alloc, "chain"),
        LeafKind::Ring => plain(alloc, "ring"),
        LeafKind::Work(end) => Ok(format!(in alloc; "work {end}")?),
        LeafKind::Clash(end) => Ok(format!(in alloc; "clash {end}")?),
    }
}

fn close_text(alloc: Global, starts: &Starts, bound: Bound) -> Result<String> {
    let mut path = room(alloc, starts)?;
    let crew = crew_of(alloc, starts)?;
    match close(starts, &crew, bound, &mut path) {
        Some(leaf) => leaf_text(alloc, leaf),
        None => plain(alloc, "open"),
    }
}

fn spent_text(alloc: Global, starts: &Starts) -> Result<String> {
    let mut path = room(alloc, starts)?;
    let crew = crew_of(alloc, starts)?;
    leaf_text(alloc, spent(starts, &crew, &mut path))
}

/// Makes a call on a node that stays: its answer.
fn answer(alloc: Global, starts: &Starts, call: Call) -> Result<String> {
    match call {
        Call::Stuck => yes_or_no(alloc, starts.stuck()),
        Call::Complete => yes_or_no(alloc, starts.complete()),
        Call::Settled(first, second) => yes_or_no(alloc, settled(starts, first, second)),
        Call::Start(task) => number(alloc, start(starts, task)),
        Call::Ends => number(alloc, ends(starts)),
        Call::CraneOf(task) => number(alloc, crane_of(starts, task)),
        Call::Leaving(task) => leaving(alloc, starts, task),
        Call::WhyPath => why_path(alloc, starts),
        Call::Ring => number(alloc, ring(alloc, starts)?),
        Call::WorkBound => number(alloc, Some(work_bound(&crew_of(alloc, starts)?))),
        Call::FreeBound => {
            number(
                alloc,
                Some(crew_by(alloc, starts, Turn::Free)?.latest_closed()),
            )
        }
        Call::Close(bound) => close_text(alloc, starts, bound),
        Call::Spent => spent_text(alloc, starts),
        Call::Mark | Call::Assign(_, _) | Call::Order(_, _) | Call::Retract(_) => {
            number(alloc, Some(u64::from(starts.mark())))
        }
    }
}

/// Makes a call: its answer.
fn make(alloc: Global, starts: &mut Starts, call: Call) -> Result<String> {
    match call {
        Call::Assign(task, crane) => plain(alloc, assign(starts, task, crane)),
        Call::Order(first, second) => plain(alloc, order(starts, first, second)),
        Call::Retract(mark) => { number(alloc, Some(u64::from(retract(starts, mark)))) }
        _ => answer(alloc, starts, call),
    }
}

/// Makes the calls of a row; an error where one answers otherwise.
pub fn run(alloc: Global, row: &Row) -> Result<()> {
    let inst = instance_in(alloc, row.ship, row.list)?.with_turn(row.turn);
    let mut starts = Starts::open(alloc, &inst)?;
    for (number, (call, wanted)) in row.calls.iter().enumerate() {
        let came = make(alloc, &mut starts, *call)?;
        compare(number, came.as_str(), wanted)?;
    }
    Ok(())
}
