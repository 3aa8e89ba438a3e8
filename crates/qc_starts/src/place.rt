//! Starts before any decision: each task is placed once all that it waits for are.

ghost use Rattle.std.specs.Prelude.{◌≡◌, ◌+◌, ◌*◌, ◌^◌, ◌<◌, ◌≤◌, [], true, Some, if◌then◌else◌, length, nat_lt};
ghost use Rattle.qc_starts.specs.NodeArcs.{IsSound};
ghost use Rattle.qc_starts.specs.Noting.{marks};
ghost use Rattle.qc_arena.specs.declared.edge.Edge.{Edge};
ghost use Rattle.qc_starts.specs.Place.{ArePlaced, IsReady, IsReadyPick, IsSoonest};
ghost use Rattle.qc_starts.specs.Spread.{IsIn, is_pending};
ghost use Rattle.qc_starts.specs.Values.{AreRest, start_at};

use crate::network::Network;
use crate::spread::Spread;
use qc_arena::Edge;
use qc_num::Tick;

impl Spread {
    /// Whether all tasks that a task waits for are placed.
    fn is_ready(&self, network: &Network, task: u16) -> bool
        requires { length self.now.pending.items ≡ length network.now.inst.tasks }
        ensures { IsReady network.now self.now.pending.items task result }
    {
        for arc in network.arena().into_of(task) {
            if self.pending[arc.from as usize] {
                return false;
            }
        }
        true
    }

    /// A task that isn't placed and is ready to be.
    fn ready(&self, network: &Network) -> Option<u16>
        requires size { length self.now.pending.items ≡ length network.now.inst.tasks }
        ensures { IsReadyPick network.now self.now.pending.items (length network.now.inst.tasks) result }
    {
        for task in 0..network.task_count() {
            if self.pending[task as usize] && self.is_ready(network, task) {
                return Some(task);
            }
        }
        None
    }

    /// Puts a start off until an arc allows it; the arc then counts as its reason.
    fn wait_for(&self, arc: Edge, start: &mut Tick, raiser: &mut Option<u16>)
        requires from { arc.from < length self.now.values.cells }
        requires fits { start_at self.now.values.cells arc.from + arc.len < 2 ^ 64 }
        ensures start { start.new ≡ (if nat_lt start.old (start_at self.now.values.cells arc.from + arc.len)
            then start_at self.now.values.cells arc.from + arc.len
            else start.old) }
        ensures raiser { raiser.new ≡ (if nat_lt start.old (start_at self.now.values.cells arc.from + arc.len)
            then Some arc.from
            else raiser.old) }
    {
        let after = self.values.start(arc.from) + arc.len;
        if *start < after {
            *start = after;
            *raiser = Some(arc.from);
        }
    }

    /// The earliest start of a task by its head and the arcs into it, and the predecessor
    /// that determines it, if one does.
    pub(crate) fn soonest(&self, network: &Network, task: u16) -> (Tick, Option<u16>)
        requires task { task < length network.now.inst.tasks }
        requires count { length self.now.values.cells ≡ 2 * length network.now.inst.tasks }
        requires soon { (arc : Edge) → IsIn network.now.arcs arc → arc.to ≡ task
            → start_at self.now.values.cells arc.from ≤ 2 ^ 42 }
        ensures { IsSoonest network.now self.now.values.cells task result.0 result.1 [] }
    {
        let mut start = network.decisions().lead(task);
        let mut raiser = None;
        for arc in network.arena().into_of(task) {
            self.wait_for(arc, &mut start, &mut raiser);
        }
        (start, raiser)
    }

    /// Places a task as early as its head and the arcs into it allow.
    fn place(&mut self, network: &Network, task: u16)
        requires sound { IsSound network.now }
        requires task { task < length network.now.inst.tasks }
        requires pending { is_pending self.old.pending.items task ≡ true }
        requires ready { IsReady network.now self.old.pending.items task true }
        requires placed { ArePlaced network.now self.old.values.cells self.old.pending.items }
        ensures placed { ArePlaced network.now self.new.values.cells self.new.pending.items }
        ensures fewer { marks self.new.pending.items < marks self.old.pending.items }
        ensures trail { self.new.values.trail ≡ self.old.values.trail }
        ensures noted { self.new.values.noted.items ≡ self.old.values.noted.items }
        ensures olds { self.new.olds.items ≡ self.old.olds.items }
        ensures queue { self.new.queue ≡ self.old.queue }
    {
        let (start, raiser) = self.soonest(network, task);
        self.values.fill(network.task_count(), task, start, raiser);
        self.pending[task as usize] = false;
    }

    /// Places all tasks.
    pub(crate) fn place_all(&mut self, network: &Network)
        requires sound { IsSound network.now }
        requires none { network.now.decisions ≡ [] }
        requires placed { ArePlaced network.now self.old.values.cells self.old.pending.items }
        ensures rest { AreRest network.now.inst network.now.decisions self.new.values.cells }
        ensures trail { self.new.values.trail ≡ self.old.values.trail }
        ensures noted { self.new.values.noted.items ≡ self.old.values.noted.items }
        ensures olds { self.new.olds.items ≡ self.old.olds.items }
        ensures queue { self.new.queue ≡ self.old.queue }
        ensures size { length self.new.pending.items ≡ length self.old.pending.items }
    {
        while let Some(task) = self.ready(network) {
            self.place(network, task);
        }
    }
}
