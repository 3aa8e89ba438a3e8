//! Reading a bay plan.

ghost use Rattle.std.specs.Prelude.{◌≡◌, ◌++◌, ◌+◌, ◌<◌, [], length, option_to_list, OnOk};
ghost use Rattle.qc_num.specs.Reading.{IsReading};
ghost use Rattle.qc_num.specs.declared.read_error.ReadError.TheVariants.{Fault};
ghost use Rattle.qc_bayplan.specs.Courses.{beginning};
ghost use Rattle.qc_bayplan.specs.Plan.{AreContainers};
ghost use Rattle.qc_bayplan.specs.Reading.{bay_plan_in, error_at, plan_from, plan_of};

use crate::course::Course;
use crate::fault::{BayPlanError, BayPlanFault, BayPlanKind, KindError};
use crate::plan::{BayPlan, Container, Which};
use crate::step::next_step;
use crate::taken::Taken;
use qc_edifact::{Segments, plain};
use qc_num::OutOfMemory;
use std::alloc::Global;

/// An error with the number of its segment.
fn error_at(number: u32, error: KindError) -> BayPlanError
    ensures { result ≡ error_at number error }
{
    match error {
        KindError::Fault(kind) => BayPlanError::Fault(BayPlanFault { number, kind }),
        KindError::OutOfMemory => BayPlanError::OutOfMemory,
    }
}

/// Keeps a container behind the others, if there is one.
fn keep(containers: &mut Vec<Container>, container: Option<Container>) -> Result<(), OutOfMemory>
    ensures { OnOk result (containers.new.items
        ≡ containers.old.items ++ option_to_list container) }
{
    match container {
        Some(container) => Ok(containers.push(container)?),
        None => Ok(()),
    }
}

/// The plan where it is over, ahead of the segment of this number.
fn plan_of(number: u32, course: Course, containers: Vec<Container>) -> Result<BayPlan, BayPlanError>
    requires { AreContainers containers.items }
    ensures { IsReading (λ plan. plan) (plan_of number course containers.items) result }
{
    if !course.stage.is_over() {
        return Err(error_at(number, KindError::Fault(BayPlanKind::Cut)));
    }
    Ok(BayPlan::of(containers, course.unnamed, course.bundled, course.other))
}

/// The plan of the segments of a file.
fn read_segments(
    alloc: Global,
    which: Which,
    segments: Segments<'_>,
) -> Result<BayPlan, BayPlanError>
    requires { length segments + 1 < u32.MAX }
    ensures { IsReading (λ plan. plan) (plan_from which 1 beginning [] segments.entry) result }
{
    let mut course = Course::beginning();
    let mut containers = Vec::new(alloc);
    let mut taken = Taken::new(alloc);
    let mut number = 1;
    for entry in segments {
        match next_step(
            alloc,
            which,
            number,
            course,
            containers.as_slice(),
            entry,
            &mut taken,
        ) {
            Ok(step) => {
                course = step.course;
                if keep(&mut containers, step.container).is_err() {
                    drop(taken);
                    drop(containers);
                    return Err(BayPlanError::OutOfMemory);
                }
            }
            Err(error) => {
                drop(taken);
                drop(containers);
                return Err(error_at(number, error));
            }
        }
        number += 1;
    }
    drop(taken);
    plan_of(number, course, containers)
}

/// The bay plan of a file of less than 4 GB, or the fault of its first faulty segment. What a place
/// holds beside its first container isn't judged, nor are places without a container.
pub fn read_bay_plan(alloc: Global, text: &[u8], which: Which) -> Result<BayPlan, BayPlanError>
    requires { length text.now + 2 < u32.MAX }
    ensures { IsReading (λ plan. plan) (bay_plan_in which text.now) result }
{
    let text = plain(alloc, text)?;
    match Segments::open(text.as_slice()) {
        Ok(segments) => read_segments(alloc, which, segments),
        Err(_) => Err(error_at(0, KindError::Fault(BayPlanKind::Una))),
    }
}
