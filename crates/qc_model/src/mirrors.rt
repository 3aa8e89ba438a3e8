//! An instance seen from the other end of the ship.

ghost use Rattle.std.specs.Prelude.{◌≡◌, IfOk, map, reverse};
ghost use Rattle.qc_model.specs.Instance.{IsOnRail, Valid};
ghost use Rattle.qc_model.specs.OneWay.{mirror, mirror_crane, mirror_task};

use crate::seen::{seen_bay, seen_post};
use crate::{Crane, Direction, Instance, Task};
use qc_num::OutOfMemory;
use std::alloc::Global;

/// A task seen from the other end.
fn mirror_task(inst: &Instance, task: &Task) -> Task
    requires { IsOnRail task.now.bay }
    ensures { result ≡ mirror_task inst.now task.now }
{
    Task {
        bay: seen_bay(inst, Direction::Down, task.bay),
        ..*task
    }
}

/// All tasks seen from the other end.
fn mirror_tasks(alloc: Global, inst: &Instance) -> Result<Vec<Task>, OutOfMemory>
    ensures { IfOk result (λ tasks. tasks.items ≡ map (mirror_task inst.now) inst.now.tasks) }
{
    let mut tasks = Vec::new(alloc);
    for task in inst.tasks() {
        tasks.push(mirror_task(inst, task))?;
    }
    Ok(tasks)
}

/// A crane seen from the other end.
fn mirror_crane(inst: &Instance, crane: &Crane) -> Result<Crane, OutOfMemory>
    requires bay { IsOnRail crane.now.bay }
    requires from { IsOnRail crane.now.from }
    requires to { IsOnRail crane.now.to }
    ensures { IfOk result (λ seen. seen ≡ mirror_crane inst.now crane.now) }
{
    let post = seen_post(inst, Direction::Down, crane);
    Ok(Crane {
        name: crane.name.clone()?,
        ready: post.ready,
        bay: post.bay,
        from: post.from,
        to: post.to,
    })
}

/// All cranes seen from the other end, along the rail from there.
fn mirror_cranes(alloc: Global, inst: &Instance) -> Result<Vec<Crane>, OutOfMemory>
    ensures { IfOk result
        (λ cranes. cranes.items ≡ reverse (map (mirror_crane inst.now) inst.now.cranes)) }
{
    let mut cranes = Vec::new(alloc);
    for crane in inst.cranes() {
        cranes.push(mirror_crane(inst, crane)?)?;
    }
    cranes.reverse();
    Ok(cranes)
}

/// The instance seen from the other end of the ship: bays and the order of the cranes are turned
/// round, and all else stays.
pub fn mirror(alloc: Global, inst: &Instance) -> Result<Instance, OutOfMemory>
    ensures mirror { IfOk result (λ turned. turned ≡ mirror inst.now) }
    ensures valid { IfOk result (λ turned. Valid turned) }
    ensures back { IfOk result (λ turned. mirror turned ≡ inst.now) }
{
    Ok(Instance::of(
        inst.bays(),
        inst.travel(),
        inst.gap(),
        mirror_tasks(alloc, inst)?,
        mirror_cranes(alloc, inst)?,
        Vec::from_slice(alloc, inst.before())?,
        Vec::from_slice(alloc, inst.apart())?,
    )
    .with_turn(inst.turn()))
}
