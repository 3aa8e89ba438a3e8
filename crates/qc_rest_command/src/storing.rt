//! The files of what is left, each whole or as it was.
ghost use Rattle.std.specs.Prelude.{◌≡◌, All, IsSome, Ok, OnOk};
ghost use Rattle.qc_changes.specs.ListText.{list_text};
ghost use Rattle.qc_gantt.specs.Plan.{HasShortEnds, plan_in};
ghost use Rattle.qc_gantt.specs.PlanText.{plan_text};
ghost use Rattle.qc_io.specs.Writes.{Counts};
ghost use Rattle.qc_model.specs.Judge.{IsJudgeable};
ghost use Rattle.qc_rest_command.specs.Stored.{IsListReread, IsOrderReread, Makes, MakesAll, texts_of};
ghost use Rattle.qc_rest_files.specs.LeftRows.{left_rows};
ghost use Rattle.qc_run.specs.Inputs.{replanning};
ghost use Rattle.qc_ship.specs.Ship.{ShipView, place_of_bay};
ghost use Rattle.qc_stow.specs.Stow.{moves_in};

use crate::answer::Renewed;
use qc_gantt::write_plan;
use qc_io::{Shelf, WriteFault, put_all};
use qc_model::{Instance, Schedule};
use qc_rest_files::write_stow;
use qc_run::RestAsked;
use qc_stow::Moves;

/// Makes a file with this text.
fn store_text<S: Shelf>(text: &[u8], name: &str, shelf: &mut S) -> Result<(), WriteFault>
    ensures { Makes name.now text.now (S.Sink.view shelf.old) (S.Sink.view shelf.new) result }
{
    shelf.create(name)?;
    put_all(shelf, text)?;
    shelf.finish()?;
    Ok(())
}

/// Makes the file of the moves of what is left.
fn store_list<S: Shelf>(
    moves: &Moves,
    inst: &Instance,
    name: &str,
    shelf: &mut S,
) -> Result<(), WriteFault>
    ensures makes { Makes name.now (list_text (left_rows inst.now.tasks moves.now))
        (S.Sink.view shelf.old) (S.Sink.view shelf.new) result }
    ensures reads { OnOk result ((ship : ShipView)
        → All (λ row. IsSome (place_of_bay ship row.cell.bay)) moves.now
        → moves_in ship (list_text (left_rows inst.now.tasks moves.now))
        ≡ Ok (left_rows inst.now.tasks moves.now)) }
{
    shelf.create(name)?;
    write_stow(moves, inst, shelf)?;
    shelf.finish()?;
    Ok(())
}

/// Makes a plan's file.
fn store_order<S: Shelf>(
    inst: &Instance,
    order: &Schedule,
    name: &str,
    shelf: &mut S,
) -> Result<(), WriteFault>
    requires { IsJudgeable inst.now order.now }
    ensures makes { Makes name.now (plan_text inst.now order.now)
        (S.Sink.view shelf.old) (S.Sink.view shelf.new) result }
    ensures reread { OnOk result (HasShortEnds inst.now order.now
        → plan_in inst.now (plan_text inst.now order.now) ≡ Ok order.now) }
{
    shelf.create(name)?;
    write_plan(inst, order, shelf)?;
    shelf.finish()?;
    Ok(())
}

/// Begins each of the three files once, so that one that can't be made is told while all are as they were.
pub(crate) fn try_names<S: Shelf>(asked: &RestAsked<'_>, shelf: &mut S) -> Result<(), WriteFault>
    ensures files { (S.Sink.view shelf.new).files ≡ (S.Sink.view shelf.old).files }
    ensures counts { Counts (S.Sink.view shelf.old).faults (S.Sink.view shelf.new).faults result }
    ensures read_faults { (S.Sink.view shelf.new).read_faults ≡ (S.Sink.view shelf.old).read_faults }
{
    shelf.create(asked.new_ship)?;
    shelf.create(asked.new_stow)?;
    shelf.create(asked.own)?;
    Ok(())
}

/// Makes the three files, one after the other: the ship file with this text, the list, and the plan.
pub(crate) fn store_all<S: Shelf>(
    asked: &RestAsked<'_>,
    told: &Renewed,
    text: &[u8],
    shelf: &mut S,
) -> Result<(), WriteFault>
    requires { IsJudgeable told.now.rest.instance told.now.rest.order }
    ensures makes { MakesAll (replanning asked.now) (texts_of told.now text.now)
        (S.Sink.view shelf.old) (S.Sink.view shelf.new) result }
    ensures list { OnOk result (IsListReread told.now) }
    ensures order { OnOk result (IsOrderReread told.now) }
{
    let rest = &told.rest;
    store_text(text, asked.new_ship, shelf)?;
    store_list(
        &told.worked.load.cargo.moves,
        &rest.instance,
        asked.new_stow,
        shelf,
    )?;
    store_order(&rest.instance, &rest.order, asked.own, shelf)
}
