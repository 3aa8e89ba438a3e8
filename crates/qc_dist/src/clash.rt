//! Which pairs of tasks may get an order.

ghost use Rattle.std.specs.Prelude.{◌≡◌, ◌↔◌, ◌⊎◌, ◌<◌, IsTrue, length};
ghost use Rattle.qc_model.specs.declared.turn.Turn.TheVariants.{Free};
ghost use Rattle.qc_model.specs.Instance.{IsApart};
ghost use Rattle.qc_model.specs.Nodes.{Clash, Conflicts};
ghost use Rattle.qc_model.specs.Ticks.{task_distance};

use crate::Decisions;
use crate::travel::distance;
use qc_model::{Instance, Turn};

/// Whether cranes may go as they like.
fn is_free(turn: Turn) -> bool
    ensures { IsTrue result ↔ (turn ≡ Free) }
{
    match turn {
        Turn::OneWay => false,
        Turn::Free => true,
    }
}

/// Whether two tasks are apart.
fn are_apart(inst: &Instance, i: u16, j: u16) -> bool
    ensures { IsTrue result ↔ (IsApart inst.now i j ⊎ IsApart inst.now j i) }
{
    inst.is_apart(i, j) || inst.is_apart(j, i)
}

impl Decisions {
    /// Whether one crane does two tasks, or their two cranes would come too near.
    fn are_near(&self, i: u16, v: u16, j: u16, w: u16) -> bool
        requires first_task { i < length self.now.inst.tasks }
        requires first_crane { v < length self.now.inst.cranes }
        requires second_task { j < length self.now.inst.tasks }
        requires second_crane { w < length self.now.inst.cranes }
        ensures { IsTrue result ↔ ((v ≡ w) ⊎ (0 < task_distance self.now.inst i v j w)) }
    {
        v == w || 0 < distance(self.instance(), i, v, j, w)
    }

    /// Whether two tasks clash on their cranes, which go as they like.
    fn clash(&self, i: u16, j: u16) -> bool
        requires first { i < length self.now.inst.tasks }
        requires second { j < length self.now.inst.tasks }
        ensures { IsTrue result ↔ Clash self.now.inst self.now.decisions i j }
    {
        if !is_free(self.instance().turn()) || i == j {
            return false;
        }
        match (self.crane_of(i), self.crane_of(j)) {
            (Some(v), Some(w)) => self.are_near(i, v, j, w),
            _ => false,
        }
    }

    /// Whether the order of two tasks may be decided: they are apart, or clash on their cranes.
    pub fn conflict(&self, i: u16, j: u16) -> bool
        requires first { i < length self.now.inst.tasks }
        requires second { j < length self.now.inst.tasks }
        ensures { IsTrue result ↔ Conflicts self.now.inst self.now.decisions i j }
    {
        are_apart(self.instance(), i, j) || self.clash(i, j)
    }
}
