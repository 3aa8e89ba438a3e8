//! The tree that a command reads.
ghost use Rattle.std.specs.Prelude.{◌≡◌, Err, IfOk, IfSome, IsSome};
ghost use Rattle.qc_tree.specs.declared.fault.TreeFault.{TreeFault};
ghost use Rattle.qc_tree.specs.Trees.{NoneEarlier};
ghost use Rattle.qc_run.specs.declared.refusal.Refusal.TheVariants as refusal;
ghost use Rattle.qc_run.specs.declared.refusal.Stop.TheVariants as stop;
ghost use Rattle.qc_run.specs.Due.{contents_in};
ghost use Rattle.qc_run.specs.Inputs.{names_of};
ghost use Rattle.qc_run.specs.Steps.{IsStep};
ghost use Rattle.qc_judge_commands.specs.TreeFile.{IsNoTree, IsTreeShown, tree_due};

use qc_io::Shelf;
use qc_model::Instance;
use qc_replay::{ReplayError, Replayed, replay};
use qc_run::{Input, Inputs, Refusal, Stop};
use std::alloc::Global;

/// What the tree of the tree's file shows for the instance.
pub(crate) fn read_tree<S: Shelf>(
    alloc: Global,
    inputs: &Inputs<'_>,
    inst: &Instance,
    shelf: &mut S,
) -> Result<Replayed, Stop>
    requires { IsSome (names_of inputs.now).tree }
    ensures step { IsStep (tree_due inst.now) (names_of inputs.now)
        (S.Sink.view shelf.old) (S.Sink.view shelf.new) result }
    ensures shown { IfOk result (λ read. IfSome (S.Sink.view shelf.old).files (λ held.
        IsTreeShown inst.now (contents_in held (names_of inputs.now)).tree read.bound)) }
    ensures none_earlier { IfOk result (λ read. NoneEarlier inst.now read.bound) }
    ensures none { (fault : TreeFault) → result ≡ Err (stop.Refused (refusal.BadTree fault))
        → IfSome (S.Sink.view shelf.old).files (λ held.
        IsNoTree inst.now (contents_in held (names_of inputs.now)).tree) }
{
    let Some(name) = inputs.name_of(Input::Tree) else {
        unreachable!()
    };
    match replay(alloc, inst, shelf, name) {
        Ok(read) => Ok(read),
        Err(ReplayError::ReadFault) => Err(Stop::Refused(Refusal::ReadFault(Input::Tree))),
        Err(ReplayError::Tree(fault)) => Err(Stop::Refused(Refusal::BadTree(fault))),
        Err(ReplayError::OutOfMemory) => Err(Stop::OutOfMemory),
    }
}
