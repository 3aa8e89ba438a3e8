//! Where a file stands between two segments.

ghost use Rattle.std.specs.Prelude.{◌≡◌, ◌+◌, ◌-◌, ◌<◌, ◌≤◌, Ok, IfOk};
ghost use Rattle.qc_num.specs.Reading.{IsReading};
ghost use Rattle.qc_edifact.specs.Cuts.{part_of};
ghost use Rattle.qc_bayplan.specs.Courses.{and_other, begun, beginning, closed, course_behind, ended, equipped, finished, free_place, has_container, is_container, is_number, is_other, is_partial, located, others_at, told, with_container, with_other};
ghost use Rattle.qc_bayplan.specs.Taken.{HasCounts};

use crate::fault::{BayPlanKind, KindError};
use crate::place::cell_at;
use crate::stage::{Stage, Tag};
use crate::text::{is_number, text_of};
use qc_edifact::Segment;
use qc_num::OutOfMemory;
use qc_ship::Cell;
use std::alloc::Global;

/// What came at a place.
#[derive(Clone, Copy)]
pub(crate) enum Held {
    Nothing,
    /// Equipment, and no container.
    Other,
    Container,
}

impl Held {
    fn is_other(self) -> bool
        ensures { result ≡ is_other self }
    {
        match self {
            Held::Nothing => false,
            Held::Other => true,
            Held::Container => false,
        }
    }

    fn has_container(self) -> bool
        ensures { result ≡ has_container self }
    {
        match self {
            Held::Nothing => false,
            Held::Other => false,
            Held::Container => true,
        }
    }

    fn and_other(self) -> Held
        ensures { result ≡ and_other self }
    {
        match self {
            Held::Nothing => Held::Other,
            Held::Other => Held::Other,
            Held::Container => Held::Container,
        }
    }
}

/// A place: its cell, or why it is none, and what came at it.
#[derive(Clone, Copy)]
pub(crate) struct Place {
    pub(crate) cell: Result<Cell, BayPlanKind>,
    pub(crate) held: Held,
}

/// Where a file stands between two segments.
#[derive(Clone, Copy)]
pub(crate) struct Course {
    pub(crate) stage: Stage,
    /// Whether a UNB came.
    pub(crate) wrapped: bool,
    /// The number of the segment that began the message.
    pub(crate) first: u32,
    /// The place that is open.
    pub(crate) place: Option<Place>,
    /// Containers without an id of their own, so far.
    pub(crate) unnamed: u32,
    /// Containers bundled with another one.
    pub(crate) bundled: u32,
    /// Places that are closed and had equipment and no container.
    pub(crate) other: u32,
}

/// How many places with other equipment a place is.
fn others_at(place: Option<Place>) -> u32
    ensures number { result ≡ others_at place }
    ensures small { result ≤ 1 }
{
    match place {
        Some(place) => { if place.held.is_other() { 1 } else { 0 } }
        None => 0,
    }
}

/// What the open place tells of its cell, where no container stands there yet.
pub(crate) fn free_place(place: Option<Place>) -> Option<Result<Cell, BayPlanKind>>
    ensures { result ≡ free_place place }
{
    match place {
        Some(place) => {
            if place.held.has_container() {
                None
            } else {
                Some(place.cell)
            }
        }
        None => None,
    }
}

/// The place with other equipment at it.
fn with_other(place: Option<Place>) -> Option<Place>
    ensures { result ≡ with_other place }
{
    match place {
        Some(place) => Some(Place {
            cell: place.cell,
            held: place.held.and_other(),
        }),
        None => None,
    }
}

/// Whether the segment tells a container.
pub(crate) fn is_container(eqd: &Segment<'_>) -> bool
    ensures { result ≡ is_container eqd.now }
{
    eqd.has(1, 0, b"CN")
}

/// Whether the message changes a plan or tells the loads alone.
fn is_partial(bgm: &Segment<'_>) -> bool
    ensures { result ≡ is_partial bgm.now }
{
    bgm.has(3, 0, b"1")
        || bgm.has(3, 0, b"2")
        || bgm.has(3, 0, b"3")
        || bgm.has(3, 0, b"4")
        || bgm.has(1, 3, b"LOADONLY")
}

/// Whether a segment counts so many.
fn counts(alloc: Global, segment: &Segment<'_>, number: u32) -> Result<bool, OutOfMemory>
    ensures { IfOk result (λ right. right ≡ is_number number (part_of segment.now 1 0)) }
{
    let text = text_of(alloc, segment, 1, 0)?;
    Ok(is_number(number, text.as_slice()))
}

impl Course {
    /// At the beginning of a file.
    pub(crate) fn beginning() -> Course
        ensures { result ≡ beginning }
    {
        Course {
            stage: Stage::Begun,
            wrapped: false,
            first: 0,
            place: None,
            unnamed: 0,
            bundled: 0,
            other: 0,
        }
    }

    /// No place is open any more.
    fn closed(self) -> Course
        requires { self.other < u32.MAX }
        ensures { result ≡ closed self }
    {
        Course {
            place: None,
            other: self.other + others_at(self.place),
            ..self
        }
    }

    /// Behind a UNH, the segment of this number.
    fn begun(self, number: u32, unh: &Segment<'_>) -> Result<Course, BayPlanKind>
        ensures { result ≡ begun number unh.now self }
    {
        if !unh.has(2, 0, b"BAPLIE") {
            return Err(BayPlanKind::NotBaplie);
        }
        Ok(Course {
            stage: Stage::Inside,
            first: number,
            ..self
        })
    }

    /// Behind a BGM.
    fn told(self, bgm: &Segment<'_>) -> Result<Course, BayPlanKind>
        ensures { result ≡ told bgm.now self }
    {
        if is_partial(bgm) {
            return Err(BayPlanKind::Partial);
        }
        Ok(self)
    }

    /// Behind a LOC.
    fn located(self, alloc: Global, loc: &Segment<'_>) -> Result<Course, OutOfMemory>
        requires { self.other < u32.MAX }
        ensures { IfOk result (λ course. course ≡ located loc.now self) }
    {
        if !loc.has(1, 0, b"147") {
            return Ok(self);
        }
        let cell = cell_at(alloc, loc)?;
        Ok(Course {
            place: Some(Place {
                cell,
                held: Held::Nothing,
            }),
            ..self.closed()
        })
    }

    /// Behind an EQD of a container.
    fn with_container(self) -> Result<Course, BayPlanKind>
        requires { self.bundled < u32.MAX }
        ensures { result ≡ with_container self self.place }
    {
        let place = self.place;
        let Some(place) = place else {
            return Err(BayPlanKind::NoPlace);
        };
        if place.held.has_container() {
            return Ok(Course {
                bundled: self.bundled + 1,
                ..self
            });
        }
        Ok(Course {
            place: Some(Place {
                cell: place.cell,
                held: Held::Container,
            }),
            ..self
        })
    }

    /// Behind an EQD.
    fn equipped(self, eqd: &Segment<'_>) -> Result<Course, BayPlanKind>
        requires { self.bundled < u32.MAX }
        ensures { result ≡ equipped eqd.now self }
    {
        if is_container(eqd) {
            return self.with_container();
        }
        Ok(Course {
            place: with_other(self.place),
            ..self
        })
    }

    /// Behind a UNT, the segment of this number.
    fn finished(self, alloc: Global, number: u32, unt: &Segment<'_>) -> Result<Course, KindError>
        requires first { self.first ≤ number }
        requires number { number < u32.MAX }
        requires other { self.other < u32.MAX }
        ensures { IsReading (λ course. course) (finished number unt.now self) result }
    {
        if !counts(alloc, unt, number + 1 - self.first)? {
            return Err(KindError::Fault(BayPlanKind::Count));
        }
        let stage = if self.wrapped {
            Stage::Closed
        } else {
            Stage::Over
        };
        Ok(Course {
            stage,
            ..self.closed()
        })
    }

    /// Behind a UNZ.
    fn ended(self, alloc: Global, unz: &Segment<'_>) -> Result<Course, KindError>
        ensures { IsReading (λ course. course) (ended unz.now self) result }
    {
        if !counts(alloc, unz, 1)? {
            return Err(KindError::Fault(BayPlanKind::Count));
        }
        Ok(Course {
            stage: Stage::Over,
            ..self
        })
    }

    /// Behind the segment of this number.
    pub(crate) fn behind(
        self,
        alloc: Global,
        number: u32,
        tag: Tag,
        segment: &Segment<'_>,
    ) -> Result<Course, KindError>
        requires number { number < u32.MAX }
        requires counts { HasCounts number self }
        ensures { IsReading (λ course. course) (course_behind number tag segment.now self) result }
    {
        match tag {
            Tag::Interchange => Ok(Course {
                stage: Stage::Opened,
                wrapped: true,
                ..self
            }),
            Tag::Message => Ok(self.begun(number, segment)?),
            Tag::Kind => Ok(self.told(segment)?),
            Tag::Location => Ok(self.located(alloc, segment)?),
            Tag::Equipment => Ok(self.equipped(segment)?),
            Tag::MessageEnd => self.finished(alloc, number, segment),
            Tag::InterchangeEnd => self.ended(alloc, segment),
            Tag::Barred => Ok(self),
            Tag::Other => Ok(self),
        }
    }
}
