//! How long tasks of past calls took.
ghost use Rattle.std.specs.Prelude.{IsSome};
ghost use Rattle.qc_run.specs.Inputs.{names_of};
ghost use Rattle.qc_run.specs.Due.{past_due};
ghost use Rattle.qc_run.specs.Steps.{IsStep};

use crate::inputs::{Input, Inputs};
use crate::reading::read_input;
use crate::refusal::{Refusal, Stop};
use qc_io::Shelf;
use qc_past::{Past, PastError, read_past};
use std::alloc::Global;

/// The past tasks of a file.
pub fn read_past_file<S: Shelf>(
    alloc: Global,
    inputs: &Inputs<'_>,
    shelf: &mut S,
) -> Result<Past, Stop>
    requires { IsSome (names_of inputs.now).past }
    ensures { IsStep past_due (names_of inputs.now)
        (S.Sink.view shelf.old) (S.Sink.view shelf.new) result }
{
    let bytes = read_input(alloc, inputs, Input::Past, shelf)?;
    match read_past(alloc, bytes.as_slice()) {
        Ok(past) => Ok(past),
        Err(PastError::Fault(fault)) => Err(Stop::Refused(Refusal::BadPast(fault))),
        Err(PastError::OutOfMemory) => Err(Stop::OutOfMemory),
    }
}
