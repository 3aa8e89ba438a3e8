//! The ends at which an assignment is closed.

ghost use Rattle.std.specs.Prelude.{◌≡◌, ◌||◌, ◌<◌, ◌^◌, ℕ, List, Option, length, map, take};
ghost use Rattle.qc_close.specs.Model.{AreInRange, grain, is_short, is_short_along, is_short_before, last_before, try_with, crane_numbers};
ghost use Rattle.qc_close.specs.Counts.{AreNear};
ghost use Rattle.qc_close.specs.Tried.{tried};
ghost use Rattle.qc_close.specs.Lasts.{IsLast};
ghost use Rattle.qc_close.specs.Lefts.{IsLeft};
ghost use Rattle.qc_close.specs.Bars.{IsTable};
ghost use Rattle.qc_close.specs.Spots.{AreSpots};
ghost use Rattle.qc_close.specs.Moves.{IsMoving};

use crate::bars::Table;
use crate::count::Count;
use crate::frames::{first_frames, frames};
use crate::spots::Spots;
use crate::trip::Trips;
use crate::way::way_frames;
use qc_model::{Frame, Instance, Turn};
use qc_num::Tick;

/// The last end that is asked for: fifteen digits.
pub const LAST_CLOSED: Tick = 999_999_999_999_999;

/// What is counted where cranes have spent so much.
fn count_of<'a>(inst: &Instance, step: Tick, frames: &'a [Frame; 8], left: &'a [Tick]) -> Count<'a>
    requires left { (cranes : List (Option ℕ)) × IsLeft inst.now cranes left.now }
    requires step { step ≡ grain inst.now }
    requires near { AreNear (take (length inst.now.cranes) frames.now) }
    ensures { (cranes : List (Option ℕ)) (of : ℕ → Frame) → IsLeft inst.now cranes left.now
        → take (length inst.now.cranes) frames.now ≡ map of (crane_numbers inst.now) → (end : ℕ)
        → is_short (tried result (last_before result.step end))
        ≡ is_short (try_with inst.now cranes of (last_before (grain inst.now) end)) }
{
    Count {
        travel: inst.travel(),
        step,
        frames: first_frames(frames, inst.crane_count() as usize),
        left,
    }
}

/// Whether the count shows that not all can be done before an end where tasks have these cranes, or where each
/// crane goes the longest of its ways.
pub(crate) fn is_short_by(
    inst: &Instance,
    turn: Turn,
    cranes: &[Option<u16>],
    spots: &Spots,
    table: &Table,
    trips: &Trips,
    left: &[Tick],
    step: Tick,
    end: Tick,
) -> bool
    requires count { length cranes.now ≡ length inst.now.tasks }
    requires moving { IsMoving inst.now cranes.now spots.now table.now trips.now }
    requires left { IsLeft inst.now cranes.now left.now }
    requires step { step ≡ grain inst.now }
    requires end { end < 2 ^ 50 }
    ensures { result ≡ (is_short_before inst.now turn cranes.now end
        || is_short_along inst.now turn cranes.now end) }
{
    let frames = frames(inst, turn, cranes, spots, table);
    if count_of(inst, step, &frames, left).is_short(end) {
        return true;
    }
    let ways = way_frames(inst, turn, spots, table, trips, &frames);
    count_of(inst, step, &ways, left).is_short(end)
}

/// The last end up to a limit for which it shows so where tasks have these cranes, and 0 where there is none.
pub(crate) fn last_short_end(
    inst: &Instance,
    turn: Turn,
    cranes: &[Option<u16>],
    spots: &Spots,
    table: &Table,
    left: &[Tick],
    step: Tick,
    limit: Tick,
) -> Tick
    requires count { length cranes.now ≡ length inst.now.tasks }
    requires range { AreInRange inst.now cranes.now }
    requires spots { AreSpots inst.now spots.now }
    requires table { IsTable inst.now cranes.now spots.now table.now }
    requires left { IsLeft inst.now cranes.now left.now }
    requires step { step ≡ grain inst.now }
    requires limit { limit < 2 ^ 50 }
    ensures { IsLast (is_short_before inst.now turn cranes.now) limit result }
{
    let frames = frames(inst, turn, cranes, spots, table);
    count_of(inst, step, &frames, left).last_short(limit)
}
