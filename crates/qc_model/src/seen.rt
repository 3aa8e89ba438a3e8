//! Bays, places and cranes as they are seen from either end of the ship.

ghost use Rattle.std.specs.Prelude.{◌≡◌, ◌<◌, length};
ghost use Rattle.qc_model.specs.Instance.{IsOnRail};
ghost use Rattle.qc_model.specs.Limits.{IsPlaceNear};
ghost use Rattle.qc_model.specs.Motion.{seen_place};
ghost use Rattle.qc_model.specs.Seen.{seen_bay, seen_crane, seen_number};

use crate::ticks::place_of;
use crate::{Crane, Direction, Instance};
use qc_num::{Bay, Tick};

/// A place on the rail as it is seen with a direction.
pub(crate) fn seen_bay(inst: &Instance, way: Direction, bay: Bay) -> Bay
    requires { IsOnRail bay }
    ensures { result ≡ seen_bay inst.now way bay }
{
    match way {
        Direction::Up => bay,
        Direction::Down => inst.bays() + 1 - bay,
    }
}

/// A place of a crane, in bays times travel, as it is seen with a direction, and back again.
pub fn seen_place(inst: &Instance, way: Direction, place: i64) -> i64
    requires { IsPlaceNear place }
    ensures { result ≡ seen_place inst.now way 1 place }
{
    match way {
        Direction::Up => place,
        Direction::Down => place_of(inst, inst.bays() + 1) - place,
    }
}

/// The number of a crane as it is seen with a direction, and back again.
pub fn seen_number(inst: &Instance, way: Direction, crane: u16) -> u16
    requires { crane < length inst.now.cranes }
    ensures number { result ≡ seen_number inst.now way crane }
    ensures range { result < length inst.now.cranes }
{
    match way {
        Direction::Up => crane,
        Direction::Down => (inst.cranes().len() - 1) as u16 - crane,
    }
}

/// What the rules ask of a crane, as it is seen with a direction.
#[derive(Clone, Copy)]
pub struct Post {
    /// From when on it is ready, in ticks.
    pub ready: Tick,
    /// Where it stands until then.
    pub bay: Bay,
    /// The lowest bay of its reach.
    pub from: Bay,
    /// The highest bay of its reach.
    pub to: Bay,
}

/// A crane as it is seen with a direction.
pub(crate) fn seen_post(inst: &Instance, way: Direction, crane: &Crane) -> Post
    requires bay { IsOnRail crane.now.bay }
    requires from { IsOnRail crane.now.from }
    requires to { IsOnRail crane.now.to }
    ensures ready { result.ready ≡ (seen_crane inst.now way crane.now).ready }
    ensures bay { result.bay ≡ (seen_crane inst.now way crane.now).bay }
    ensures from { result.from ≡ (seen_crane inst.now way crane.now).from }
    ensures to { result.to ≡ (seen_crane inst.now way crane.now).to }
{
    let (from, to) = match way {
        Direction::Up => (crane.from, crane.to),
        Direction::Down => (crane.to, crane.from),
    };
    Post {
        ready: crane.ready,
        bay: seen_bay(inst, way, crane.bay),
        from: seen_bay(inst, way, from),
        to: seen_bay(inst, way, to),
    }
}
