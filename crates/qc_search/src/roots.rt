//! The nodes at which the parts of a tree begin.
ghost use Rattle.std.specs.Prelude.{◌≡◌, ◌<◌, ◌≤◌, ℕ, List, Option, [], IfOk, length};
ghost use Rattle.qc_close.specs.Model.{Down, Slot, OneWay, GoesBy, InstanceView, Valid, most_branchings, most_start, most_tasks, mirror, start_of, seen};
ghost use Rattle.qc_num.specs.declared.bound.Bound.TheVariants.{Least};
ghost use Rattle.qc_num.specs.Paths.{HasRoom};
ghost use Rattle.qc_search.specs.Progress.{IsProgress, IsSoon, IsTightened, WritesTree};
ghost use Rattle.qc_search.specs.Roots.{AreRoots, IsTurned, roots_of};
ghost use Rattle.qc_tree.specs.Trees.{NoneEarlier};

use crate::place::Node;
use crate::progress::Progress;
use crate::tree::{write_both, write_one};
use qc_io::{Sink, WriteFault};
use qc_model::{Direction, Instance, Schedule, Turn, mirror};
use qc_num::{OutOfMemory, Tick};
use std::alloc::Global;
use std::marker::Model;

/// The roots of the parts of a tree: of the instance and, where cranes go one way, of its mirror.
#[derive(Drop)]
pub(crate) struct Roots {
    up: Node,
    down: Option<Node>,
}

impl Model for Roots {
    ghost Value = { InstanceView };

    ghost view = { roots_of };

    ghost invariant = { AreRoots };
}

/// The root of the second part, if there is one.
fn open_down(alloc: Global, inst: &Instance) -> Result<Option<Node>, OutOfMemory>
    ensures { IfOk result (IsTurned inst.now) }
{
    match inst.turn() {
        Turn::OneWay => {
            let turned = mirror(alloc, inst)?;
            let down = Node::open(alloc, &turned)?;
            Ok(Some(down))
        }
        Turn::Free => Ok(None),
    }
}

/// Makes the starts of a schedule the earliest as the root of the second part sees it, and answers when it then ends.
fn tighten_down(down: &mut Option<Node>, sched: &mut Schedule) -> Tick
    requires { (inst : InstanceView) × IsTurned inst down.old × (inst.turn ≡ OneWay)
        × GoesBy (mirror inst).turn (mirror inst) sched.old
        × ((j : ℕ) → j < length (mirror inst).tasks → start_of sched.old j ≤ most_start) }
    ensures stays { (inst : InstanceView) → IsTurned inst down.old → IsTurned inst down.new }
    ensures tightened { (inst : InstanceView) → IsTurned inst down.old → (inst.turn ≡ OneWay)
        → IsTightened (mirror inst) sched.old sched.new result }
{
    match down {
        Some(down) => down.tighten(sched),
        None => unreachable!(),
    }
}

impl Roots {
    /// The roots for an instance. All memory is taken here.
    pub(crate) fn open(alloc: Global, inst: &Instance) -> Result<Roots, OutOfMemory>
        ensures { IfOk result (λ roots. roots ≡ inst.now) }
    {
        let up = Node::open(alloc, inst)?;
        let Ok(down) = open_down(alloc, inst) else {
            drop(up); // by name: proved faster
            return Err(OutOfMemory);
        };
        Ok(Roots { up, down })
    }

    /// The instance.
    pub(crate) fn instance(&self) -> &Instance
        ensures same { result.now ≡ self.now }
        ensures valid { Valid self.now }
    {
        self.up.instance()
    }

    /// Makes the starts of a schedule that cranes may follow, as it is seen that way, the earliest with its cranes and
    /// its order of tasks, and answers when it then ends.
    pub(crate) fn tighten(&mut self, way: Direction, sched: &mut Schedule) -> Tick
        requires turned { way ≡ Down → self.old.turn ≡ OneWay }
        requires goes { GoesBy (seen self.old way).turn (seen self.old way) sched.old }
        requires soon { (j : ℕ) → j < length (seen self.old way).tasks → start_of sched.old j ≤ most_start }
        ensures stays { self.new ≡ self.old }
        ensures tightened { IsTightened (seen self.old way) sched.old sched.new result }
    {
        match way {
            Direction::Up => self.up.tighten(sched),
            Direction::Down => tighten_down(&mut self.down, sched),
        }
    }

    /// An end that no schedule comes before that cranes may follow, by its work alone.
    pub(crate) fn bound(&self) -> Tick
        ensures { NoneEarlier self.now (Least result) }
    {
        let up = self.up.bound();
        match &self.down {
            Some(down) => up.min(down.bound()),
            None => up,
        }
    }

    /// Searches the parts, and writes the lines of the tree. The roots are as they were then.
    pub(crate) fn write<K: Sink>(
        &mut self,
        progress: &mut Progress,
        sink: &mut K,
    ) -> Result<(), WriteFault>
        requires count { length progress.old.incumbent ≡ length self.old.tasks }
        requires room { HasRoom most_tasks progress.old.path }
        requires begun { (first : Option (List Slot)) × IsProgress self.old first progress.old [] }
        requires few { progress.old.limit ≤ most_branchings }
        requires soon { IsSoon progress.old.bound }
        ensures stays { self.new ≡ self.old }
        ensures writes { (first : Option (List Slot)) → IsProgress self.old first progress.old []
            → WritesTree (K.view sink.old) (K.view sink.new) self.old first progress.old progress.new
            result }
    {
        match &mut self.down {
            Some(down) => write_both(&mut self.up, down, progress, sink),
            None => write_one(&mut self.up, progress, sink),
        }
    }
}
