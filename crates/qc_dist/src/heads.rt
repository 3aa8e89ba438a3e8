//! When tasks can start at the least, with every crane: computed once for an instance.

ghost use Rattle.std.specs.Prelude.{◌≡◌, ◌+◌, ◌<◌, ◌≤◌, None, length, IfOk};
ghost use Rattle.qc_model.specs.declared.limits.TheConstants.{MOST_DISTANCE, MOST_READY};
ghost use Rattle.qc_model.specs.Nodes.{head_by};
ghost use Rattle.qc_dist.specs.Heads.{IsFreeRow, IsHeads, IsHeadTable};

use crate::travel::{head, in_reach};
use qc_model::{Instance, MOST_CRANES};
use qc_num::{OutOfMemory, Tick, lesser};
use std::alloc::Global;

/// When a task can start at the least.
#[derive(Clone, Copy)]
pub(crate) struct Heads {
    /// With each crane.
    pub(crate) free: [Tick; MOST_CRANES as usize],
    /// With the earliest crane that reaches it; 0 where none does.
    pub(crate) least: Tick,
}

/// When task `j` can start at the least if its crane is open.
fn least_head(inst: &Instance, j: u16) -> Tick
    requires { j < length inst.now.tasks }
    ensures ticks { result ≡ head_by inst.now j None }
    ensures bound { result ≤ MOST_READY + MOST_DISTANCE }
{
    let mut least: Option<Tick> = None;
    for k in 0..inst.crane_count() {
        if in_reach(inst, j, k) {
            least = Some(lesser(least, head(inst, j, k)));
        }
    }
    least.unwrap_or(0)
}

/// When each crane can first begin task `j`.
fn free_row(inst: &Instance, j: u16) -> [Tick; MOST_CRANES as usize]
    requires { j < length inst.now.tasks }
    ensures { IsFreeRow inst.now j result }
{
    let mut row = [0; MOST_CRANES as usize];
    for k in 0..inst.crane_count() {
        row[k as usize] = head(inst, j, k);
    }
    row
}

/// When task `j` can start at the least.
fn heads_of(inst: &Instance, j: u16) -> Heads
    requires { j < length inst.now.tasks }
    ensures { IsHeads inst.now j result }
{
    Heads {
        free: free_row(inst, j),
        least: least_head(inst, j),
    }
}

/// When the tasks can start at the least.
pub(crate) fn head_table(alloc: Global, inst: &Instance) -> Result<Vec<Heads>, OutOfMemory>
    ensures { IfOk result (λ table. IsHeadTable inst.now table.items) }
{
    let mut table = Vec::new(alloc);
    for j in 0..inst.task_count() {
        table.push(heads_of(inst, j))?;
    }
    Ok(table)
}
