//! Copies of instances.

ghost use Rattle.std.specs.Prelude.{◌≡◌, IfOk};

use crate::{Crane, Instance};
use qc_num::OutOfMemory;
use std::alloc::Global;

/// The same cranes.
pub fn copy_cranes(alloc: Global, cranes: &[Crane]) -> Result<Vec<Crane>, OutOfMemory>
    ensures { IfOk result (λ copies. copies.items ≡ cranes.now) }
{
    let mut copies = Vec::new(alloc);
    for crane in cranes {
        copies.push(crane.clone()?)?;
    }
    Ok(copies)
}

/// The same instance.
pub fn copy(alloc: Global, inst: &Instance) -> Result<Instance, OutOfMemory>
    ensures { IfOk result (λ copied. copied ≡ inst.now) }
{
    Ok(Instance::of(
        inst.bays(),
        inst.travel(),
        inst.gap(),
        Vec::from_slice(alloc, inst.tasks())?,
        copy_cranes(alloc, inst.cranes())?,
        Vec::from_slice(alloc, inst.before())?,
        Vec::from_slice(alloc, inst.apart())?,
    )
    .with_turn(inst.turn()))
}
