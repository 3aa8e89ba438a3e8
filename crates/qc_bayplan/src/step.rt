//! One segment: the course behind it, and the container that it tells.

ghost use Rattle.std.specs.Prelude.{◌≡◌, ◌++◌, ◌+◌, ◌<◌, option_to_list, IfOk};
ghost use Rattle.qc_num.specs.Reading.{IsReading};
ghost use Rattle.qc_bayplan.specs.Reading.{container_place, found_in, found_containers, next_step, segment_in, step_by, step_of, step_to};
ghost use Rattle.qc_bayplan.specs.Taken.{HasCounts, HasRisen, IsKept};

use crate::container::{Found, next_container};
use crate::course::{Course, Place, free_place, is_container};
use crate::fault::{BayPlanKind, KindError};
use crate::plan::{Container, MOST_CONTAINERS, Which};
use crate::stage::Tag;
use crate::taken::Taken;
use qc_edifact::{Segment, SegmentFault};
use qc_ship::Cell;
use std::alloc::Global;

/// Where a segment leads, and the container that it tells.
#[derive(Drop)]
pub(crate) struct Step {
    pub(crate) course: Course,
    pub(crate) container: Option<Container>,
}

/// What the open place tells of its cell, where the segment tells its container.
fn container_place(
    tag: Tag,
    segment: &Segment<'_>,
    place: Option<Place>,
) -> Option<Result<Cell, BayPlanKind>>
    ensures { result ≡ container_place tag segment.now place }
{
    if tag.is_equipment() && is_container(segment) {
        free_place(place)
    } else {
        None
    }
}

/// The segment that comes next.
fn segment_in(entry: Result<Segment<'_>, SegmentFault>) -> Result<Segment<'_>, BayPlanKind>
    ensures { result ≡ segment_in entry.entry }
{
    match entry {
        Ok(segment) => Ok(segment),
        Err(SegmentFault::TooLong) => Err(BayPlanKind::TooLong),
        Err(SegmentFault::Cut) => Err(BayPlanKind::Cut),
    }
}

/// The container that a segment tells, if its place wants one.
fn found_in(
    alloc: Global,
    which: Which,
    earlier: &[Container],
    segment: &Segment<'_>,
    place: Option<Result<Cell, BayPlanKind>>,
    taken: &mut Taken,
) -> Result<Option<Found>, KindError>
    requires { IsKept earlier.now taken.old }
    ensures found { IsReading (λ found. found)
        (found_in which earlier.now segment.now place) result }
    ensures kept { IfOk result
        (λ found. IsKept (earlier.now ++ found_containers found) taken.new) }
{
    match place {
        Some(place) => Ok(Some(next_container(alloc, which, earlier, place, segment, taken)?)),
        None => Ok(None),
    }
}

/// Where a segment leads that tells this container.
fn step_to(number: u32, course: Course, found: Option<Found>) -> Step
    requires number { number < u32.MAX }
    requires counts { HasRisen number course }
    ensures step { result ≡ step_to course found }
    ensures counts { HasCounts (number + 1) result.course }
{
    match found {
        Some(Found { container, unnamed }) => Step {
            course: Course {
                unnamed: course.unnamed + u32::from(unnamed),
                ..course
            },
            container: Some(container),
        },
        None => Step {
            course,
            container: None,
        },
    }
}

/// The step of the segment of this number, by its tag.
fn step_by(
    alloc: Global,
    which: Which,
    number: u32,
    course: Course,
    earlier: &[Container],
    segment: &Segment<'_>,
    tag: Tag,
    taken: &mut Taken,
) -> Result<Step, KindError>
    requires number { number < u32.MAX }
    requires counts { HasCounts number course }
    requires kept { IsKept earlier.now taken.old }
    ensures step { IsReading (λ step. step)
        (step_by which number course earlier.now segment.now tag) result }
    ensures counts { IfOk result (λ step. HasCounts (number + 1) step.course) }
    ensures kept { IfOk result
        (λ step. IsKept (earlier.now ++ option_to_list step.container) taken.new) }
{
    let open = course.place;
    let place = container_place(tag, segment, open);
    let found = found_in(alloc, which, earlier, segment, place, taken)?;
    let behind = course.behind(alloc, number, tag, segment)?;
    Ok(step_to(number, behind, found))
}

/// The step of the segment of this number.
fn step_of(
    alloc: Global,
    which: Which,
    number: u32,
    course: Course,
    earlier: &[Container],
    segment: &Segment<'_>,
    taken: &mut Taken,
) -> Result<Step, KindError>
    requires number { number < u32.MAX }
    requires counts { HasCounts number course }
    requires kept { IsKept earlier.now taken.old }
    ensures step { IsReading (λ step. step)
        (step_of which number course earlier.now segment.now) result }
    ensures counts { IfOk result (λ step. HasCounts (number + 1) step.course) }
    ensures kept { IfOk result
        (λ step. IsKept (earlier.now ++ option_to_list step.container) taken.new) }
{
    let tag = Tag::of(alloc, segment)?;
    if !course.stage.admits(tag) {
        return Err(KindError::Fault(BayPlanKind::Place));
    }
    step_by(alloc, which, number, course, earlier, segment, tag, taken)
}

/// The step of what comes next, the segment of this number.
pub(crate) fn next_step(
    alloc: Global,
    which: Which,
    number: u32,
    course: Course,
    earlier: &[Container],
    entry: Result<Segment<'_>, SegmentFault>,
    taken: &mut Taken,
) -> Result<Step, KindError>
    requires number { number < u32.MAX }
    requires counts { HasCounts number course }
    requires kept { IsKept earlier.now taken.old }
    ensures step { IsReading (λ step. step)
        (next_step which number course earlier.now entry.entry) result }
    ensures counts { IfOk result (λ step. HasCounts (number + 1) step.course) }
    ensures kept { IfOk result
        (λ step. IsKept (earlier.now ++ option_to_list step.container) taken.new) }
{
    if course.stage.is_over() {
        return Err(KindError::Fault(BayPlanKind::After));
    }
    let segment = segment_in(entry)?;
    step_of(alloc, which, number, course, earlier, &segment, taken)
}
