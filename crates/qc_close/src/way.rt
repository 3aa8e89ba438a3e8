//! The longest way of each crane, and what the crane spends with it.

ghost use Rattle.std.specs.Prelude.{◌≡◌, ◌||◌, ◌+◌, ◌*◌, ◌<◌, ◌≤◌, ◌^◌, ℕ, List, Option, IfSome, if◌then◌else◌, length, map, max, min, nat_lt, take};
ghost use Rattle.std.specs.Int.{int_max, int_min};
ghost use Rattle.qc_close.specs.Model.{MOST_TASKS, Turn, barred_frame, frame, bays_up, longest_way, own_way, way_frame, way_with, crane_numbers};
ghost use Rattle.qc_close.specs.Moves.{IsMoving};
ghost use Rattle.qc_close.specs.Owns.{IsSmall, bays_by, spent_with, ticks_by};

use crate::barred::sum_along;
use crate::bars::{Table, own_in};
use crate::frames::{Own, turn_bays};
use crate::spots::Spots;
use crate::trip::Trips;
use qc_model::{Direction, Frame, Instance, MOST_CRANES, Trip, Turn, Way, bays_up};
use qc_num::{Bay, Tick};

/// How many bays one lies above another.
fn bays_on(from: Bay, to: Bay) -> Tick
    ensures bays { result ≡ bays_up from to }
    ensures few { result < 2 ^ 33 }
{
    bays_up(from, to)
}

/// What a crane goes to come so far above and below its trip: there and back, or to one of them at last.
fn aside(above: Tick, below: Tick, up: Tick, down: Tick) -> Tick
    requires above { above < 2 ^ 33 }
    requires below { below < 2 ^ 33 }
    requires up { up < 2 ^ 33 }
    requires down { down < 2 ^ 33 }
    ensures bays { result ≡ min (2 * above + 2 * below) (min (up + 2 * below) (2 * above + down)) }
    ensures few { result < 2 ^ 36 }
{
    let (above, below) = (2 * above, 2 * below);
    (above + below).min((up + below).min(above + down))
}

/// What a crane goes with a trip, and to where it comes besides.
fn way_at(trip: Trip, usual: Frame) -> Way
    requires { trip.bays < 2 ^ 40 }
    ensures { result ≡ way_with trip (int_min trip.low usual.low) (int_max trip.high usual.high) }
{
    let low = trip.low.min(usual.low);
    let high = trip.high.max(usual.high);
    let (above, below) = (bays_on(trip.high, high), bays_on(low, trip.low));
    let (up, down) = (bays_on(trip.at, high), bays_on(low, trip.at));
    Way {
        bays: trip.bays + aside(above, below, up, down),
        low,
        high,
    }
}

/// The longer of two ways, the first of two that are as long as each other.
fn longer(way: Way, other: Way) -> Way
    ensures { result ≡ (if nat_lt way.bays other.bays then other else way) }
{
    if way.bays < other.bays { other } else { way }
}

/// The longer of a way and that with a trip, if the trip goes anywhere.
fn longer_with(way: Way, trip: Trip, usual: Frame) -> Way
    requires { trip.bays < 2 ^ 40 }
    ensures idle { trip.bays ≤ 0 → result ≡ way }
    ensures goes { 0 < trip.bays → result ≡ (if nat_lt way.bays
        (way_with trip (int_min trip.low usual.low) (int_max trip.high usual.high)).bays
        then way_with trip (int_min trip.low usual.low) (int_max trip.high usual.high) else way) }
{
    if trip.bays > 0 {
        longer(way, way_at(trip, usual))
    } else {
        way
    }
}

/// The longest of a way and of those with the trips of a crane.
fn longest_way(
    inst: &Instance,
    spots: &Spots,
    table: &Table,
    trips: &Trips,
    crane: u16,
    usual: Frame,
    own: Way,
) -> Way
    requires crane { crane < length inst.now.cranes }
    requires known { (cranes : List (Option ℕ)) × IsMoving inst.now cranes spots.now table.now trips.now }
    ensures { (turn : Turn) (cranes : List (Option ℕ)) → IsMoving inst.now cranes spots.now table.now trips.now
        → usual.low ≡ (frame inst.now turn cranes crane).low
        → usual.high ≡ (frame inst.now turn cranes crane).high → own ≡ own_way inst.now turn cranes crane
        → result ≡ longest_way inst.now turn cranes crane }
{
    let _cranes = inst.crane_count(); // for what it ensures
    let mut way = own;
    for spot in 0..spots.bays.len() {
        let trip = trips.cells[240 * crane as usize + spot];
        way = longer_with(way, trip, usual);
    }
    way
}

/// The way of a crane to its own tasks alone.
fn own_way(inst: &Instance, turn: Turn, crane: u16, own: Option<Own>, usual: Frame) -> Way
    requires crane { crane < length inst.now.cranes }
    requires own { IfSome own (IsSmall MOST_TASKS) }
    ensures bays { result.bays ≡ bays_by inst.now turn crane own }
    ensures low { result.low ≡ usual.low }
    ensures high { result.high ≡ usual.high }
{
    let bays = match own {
        None => 0,
        Some(own) => turn_bays(turn, inst.post(crane).bay, own.low, own.high),
    };
    Way {
        bays,
        low: usual.low,
        high: usual.high,
    }
}

/// The ticks of a crane's own tasks.
fn own_ticks(own: Option<Own>) -> Tick
    requires { IfSome own (IsSmall MOST_TASKS) }
    ensures ticks { result ≡ ticks_by own }
    ensures few { result < 2 ^ 40 }
{
    match own {
        None => 0,
        Some(own) => own.ticks,
    }
}

/// The ticks of travel over the bays of a way.
fn way_ticks(inst: &Instance, bays: Tick) -> Tick
    requires { bays ≤ 16592000 }
    ensures ticks { result ≡ inst.now.travel * bays }
    ensures few { result < 2 ^ 40 }
{
    inst.travel() * bays
}

/// What a crane spends on its own tasks with a way.
fn spent_with(inst: &Instance, crane: u16, own: Option<Own>, way: Way) -> Tick
    requires crane { crane < length inst.now.cranes }
    requires own { IfSome own (IsSmall MOST_TASKS) }
    requires way { way.bays ≤ 16592000 }
    ensures { result ≡ spent_with inst.now crane own way.bays }
{
    inst.post(crane).ready + own_ticks(own) + way_ticks(inst, way.bays)
}

/// What a crane spends where it goes a way, and by its own tasks alone another.
fn frame_along(usual: Frame, from: Way, way: Way, spent: Tick) -> Frame
    ensures { result ≡ record {
      works = usual.works || nat_lt from.bays way.bays;
      gone = max usual.gone spent;
      low = way.low;
      high = way.high;
    } }
{
    Frame {
        works: usual.works || from.bays < way.bays,
        gone: usual.gone.max(spent),
        low: way.low,
        high: way.high,
    }
}

/// What a crane spends with the longest of its ways.
fn way_frame(
    inst: &Instance,
    turn: Turn,
    spots: &Spots,
    table: &Table,
    trips: &Trips,
    crane: u16,
    usual: Frame,
) -> Frame
    requires crane { crane < length inst.now.cranes }
    requires known { (cranes : List (Option ℕ)) × IsMoving inst.now cranes spots.now table.now trips.now
        × (usual ≡ barred_frame inst.now turn cranes crane) }
    ensures { (cranes : List (Option ℕ)) → IsMoving inst.now cranes spots.now table.now trips.now
        → usual ≡ barred_frame inst.now turn cranes crane → result ≡ way_frame inst.now turn cranes crane }
{
    let own = own_in(sum_along(table, Direction::Down, crane, 0, 0));
    let from = own_way(inst, turn, crane, own, usual);
    let way = longest_way(inst, spots, table, trips, crane, usual, from);
    frame_along(usual, from, way, spent_with(inst, crane, own, way))
}

/// What each crane spends with the longest of its ways: as many entries count as there are cranes.
pub(crate) fn way_frames(
    inst: &Instance,
    turn: Turn,
    spots: &Spots,
    table: &Table,
    trips: &Trips,
    frames: &[Frame; 8],
) -> [Frame; 8]
    requires known { (cranes : List (Option ℕ)) × IsMoving inst.now cranes spots.now table.now trips.now
        × (take (length inst.now.cranes) frames.now
        ≡ map (barred_frame inst.now turn cranes) (crane_numbers inst.now)) }
    ensures { (cranes : List (Option ℕ)) → IsMoving inst.now cranes spots.now table.now trips.now
        → take (length inst.now.cranes) frames.now
        ≡ map (barred_frame inst.now turn cranes) (crane_numbers inst.now)
        → take (length inst.now.cranes) result
        ≡ map (way_frame inst.now turn cranes) (crane_numbers inst.now) }
{
    let mut ways = [Frame {
        works: false,
        gone: 0,
        low: 0,
        high: 0,
    }; MOST_CRANES as usize];
    for crane in 0..inst.crane_count() {
        let usual = frames[crane as usize];
        ways[crane as usize] = way_frame(inst, turn, spots, table, trips, crane, usual);
    }
    ways
}
