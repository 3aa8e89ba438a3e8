//! Starts that are raised behind a task, along the arcs, until none is too low.

ghost use Rattle.std.specs.Prelude.{◌≡◌, ◌+◌, ◌*◌, ◌^◌, ◌<◌, ◌≤◌, ◌⊎◌, ◌&&◌, ◌==◌, true, [], if◌then◌else◌, IfOk, MatchOption, Some, length, slice_set, vec_capacity};
ghost use Rattle.qc_starts.specs.NodeArcs.{IsSound};
ghost use Rattle.qc_starts.specs.Noting.{HasNotes, Wrote};
ghost use Rattle.qc_starts.specs.Opened.{HasBegun, IsOpened};
ghost use Rattle.qc_starts.specs.Queue.{IsQueued, IsTaken};
ghost use Rattle.qc_starts.specs.Spread.{IsLifted, IsLooked, IsOnly, IsRooting, IsSettledTo, IsSpreading, from_task, is_late, left};
ghost use Rattle.qc_starts.specs.Values.{raised, start_at};

use crate::network::Network;
use crate::noted::{Noted, clear};
use crate::step::Step;
use qc_arena::Edge;
use qc_num::{OutOfMemory, Tick};
use std::alloc::Global;

/// The starts of tasks and what raised each, and what is kept while they are raised.
#[derive(Drop)]
pub(crate) struct Spread {
    pub(crate) values: Noted,
    /// When each task started before the newest decision.
    pub(crate) olds: Vec<Tick>,
    /// Whether the arcs from a task are still to be looked at.
    pub(crate) pending: Vec<bool>,
    /// These tasks, in no order.
    pub(crate) queue: Vec<u16>,
}

/// A task that is still to be looked at.
#[derive(Clone, Copy)]
struct Next {
    /// When it started before the newest decision.
    start: Tick,
    task: u16,
    /// Where it stands in the queue.
    place: usize,
}

/// Whether a task is looked at ahead of another: it started earlier, or at once and has the lower number.
fn is_ahead(one: Next, other: Next) -> bool {
    one.start < other.start || one.start == other.start && one.task < other.task
}

/// Of two tasks the one that is looked at ahead of the other.
fn sooner(before: Option<Next>, this: Next) -> Next
    ensures { (result ≡ this) ⊎ (before ≡ Some result) }
{
    match before {
        Some(other) => { if is_ahead(this, other) { this } else { other } }
        None => this,
    }
}

impl Spread {
    /// Room for so many tasks and decisions. All tasks are still to be looked at.
    pub(crate) fn open(alloc: Global, count: u16, decisions: u32) -> Result<Spread, OutOfMemory>
        requires { 2 * count * decisions < 2 ^ 32 }
        ensures { IfOk result (λ spread. IsOpened spread count decisions) }
    {
        Ok(Spread {
            olds: vec![in alloc; 0u64; count as usize]?,
            pending: vec![in alloc; true; count as usize]?,
            queue: Vec::with_capacity(alloc, count as usize)?,
            values: Noted::open(alloc, 2 * count as u32, decisions)?,
        })
    }

    /// Begins a decision behind which starts are raised from the root on.
    pub(crate) fn begin(&mut self, root: u16)
        requires root { root < length self.old.pending.items }
        requires olds { length self.old.olds.items ≤ length self.old.values.cells }
        requires room { length self.old.pending.items ≤ vec_capacity self.old.queue }
        ensures begun { HasBegun self.old self.new root }
        ensures queued { IsQueued self.new }
    {
        clear(&mut self.values.noted);
        self.values.cells.copy_front(&mut self.olds);
        clear(&mut self.pending);
        self.queue.clear();
        self.queue.push_reserved(root);
        self.pending[root as usize] = true;
    }

    /// A task is to be looked at.
    fn put(&mut self, task: u16)
        requires task { task < length self.old.pending.items }
        requires queued { IsQueued self.old }
        ensures values { self.new.values ≡ self.old.values }
        ensures olds { self.new.olds.items ≡ self.old.olds.items }
        ensures pending { self.new.pending.items ≡ slice_set self.old.pending.items task true }
        ensures queued { IsQueued self.new }
    {
        if self.pending[task as usize] {
            return;
        }
        self.queue.push_reserved(task);
        self.pending[task as usize] = true;
    }

    /// Raises the second task of an arc if it starts too early; whether this is the root.
    fn raise_by(&mut self, arc: Edge, root: u16) -> bool
        requires from { arc.from < length self.old.pending.items }
        requires to { arc.to < length self.old.pending.items }
        requires few { length self.old.pending.items < 2 ^ 16 }
        requires count { length self.old.values.cells ≡ 2 * length self.old.pending.items }
        requires fits { start_at self.old.values.cells arc.from + arc.len < 2 ^ 64 }
        requires notes { HasNotes self.old.values }
        requires queued { IsQueued self.old }
        ensures cells { self.new.values.cells ≡ (if is_late self.old.values.cells arc
            then raised (length self.old.pending.items) self.old.values.cells arc.to
            (start_at self.old.values.cells arc.from + arc.len) (Some arc.from)
            else self.old.values.cells) }
        ensures pending { self.new.pending.items ≡ (if is_late self.old.values.cells arc
            then slice_set self.old.pending.items arc.to true
            else self.old.pending.items) }
        ensures olds { self.new.olds.items ≡ self.old.olds.items }
        ensures queued { IsQueued self.new }
        ensures wrote { Wrote self.old.values self.new.values }
        ensures back { result ≡ (is_late self.old.values.cells arc && (arc.to == root)) }
    {
        let start = self.values.start(arc.from) + arc.len;
        if self.values.start(arc.to) >= start {
            return false;
        }
        let count = self.pending.len() as u16;
        self.values.raise(count, arc.to, start, Some(arc.from));
        self.put(arc.to);
        arc.to == root
    }

    /// Of the tasks that are still to be looked at the one that started earliest, and of those that started
    /// at once the lowest.
    fn earliest(&self) -> Option<Next>
        ensures { MatchOption result
            (self.now.queue.items ≡ [])
            (λ next. next.place < length self.now.queue.items) }
    {
        let mut first = None;
        for place in 0..self.queue.len() {
            let task = self.queue[place];
            let start = self.olds.get(task as usize).copied().unwrap_or(0);
            first = Some(sooner(first, Next { start, task, place }));
        }
        first
    }

    /// Takes that task out, if there is one.
    fn take_earliest(&mut self) -> Option<u16>
        requires { IsQueued self.old }
        ensures values { self.new.values ≡ self.old.values }
        ensures olds { self.new.olds.items ≡ self.old.olds.items }
        ensures queued { IsQueued self.new }
        ensures taken { IsTaken self.old.pending.items self.new.pending.items result }
    {
        let next = self.earliest()?;
        let task = self.queue.swap_remove(next.place);
        self.pending[task as usize] = false;
        Some(task)
    }

    /// Looks at the arcs from a task, and raises what starts too early; whether it came back to the
    /// root.
    fn raise_from(&mut self, network: &Network, root: u16, task: u16) -> bool
        requires task { task < length network.now.inst.tasks }
        requires spreading { IsSpreading network.now root self.old.olds.items self.old.values.cells
            self.old.pending.items (from_task task network.now.arcs) }
        requires lifted { IsLifted root self.old.olds.items self.old.values.cells task }
        requires notes { HasNotes self.old.values }
        requires queued { IsQueued self.old }
        ensures queued { IsQueued self.new }
        ensures size { length self.new.pending.items ≡ length self.old.pending.items }
        ensures olds { self.new.olds.items ≡ self.old.olds.items }
        ensures wrote { Wrote self.old.values self.new.values }
        ensures looked { IsLooked network.now root self.new.olds.items self.new.values.cells
            self.new.pending.items (left (length network.now.inst.tasks) root self.old.olds.items
            self.old.values.cells self.old.pending.items) result }
    {
        for arc in network.arena().out(task) {
            if self.raise_by(arc, root) {
                return true;
            }
        }
        false
    }

    /// Raises the root to its head, and along the arcs into it.
    fn raise_root(&mut self, network: &Network, root: u16)
        requires sound { IsSound network.now }
        requires rooting { IsRooting network.now root self.old.olds.items self.old.values.cells }
        requires only { IsOnly self.old.pending.items (length network.now.inst.tasks) root }
        requires notes { HasNotes self.old.values }
        ensures olds { self.new.olds.items ≡ self.old.olds.items }
        ensures pending { self.new.pending.items ≡ self.old.pending.items }
        ensures queued { IsQueued self.old → IsQueued self.new }
        ensures wrote { Wrote self.old.values self.new.values }
        ensures spreading { IsSpreading network.now root self.new.olds.items self.new.values.cells
            self.new.pending.items [] }
    {
        let (start, raiser) = self.soonest(network, root);
        if self.values.start(root) < start {
            self.values.raise(network.task_count(), root, start, raiser);
        }
    }

    /// Raises the root, and starts behind it until none is too low or a raise came back to the root.
    pub(crate) fn settle(&mut self, network: &Network, root: u16) -> Step
        requires sound { IsSound network.now }
        requires rooting { IsRooting network.now root self.old.olds.items self.old.values.cells }
        requires size { length self.old.olds.items ≡ length network.now.inst.tasks }
        requires only { IsOnly self.old.pending.items (length network.now.inst.tasks) root }
        requires notes { HasNotes self.old.values }
        requires queued { IsQueued self.old }
        ensures queued { IsQueued self.new }
        ensures size { length self.new.pending.items ≡ length self.old.pending.items }
        ensures olds { self.new.olds.items ≡ self.old.olds.items }
        ensures wrote { Wrote self.old.values self.new.values }
        ensures settled { IsSettledTo network.now root self.new.olds.items self.new.values.cells result }
    {
        self.raise_root(network, root);
        while let Some(task) = self.take_earliest() {
            if self.raise_from(network, root, task) {
                return Step::Cycle;
            }
        }
        Step::Raised
    }
}
