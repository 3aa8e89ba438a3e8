//! The time that cranes spend while neighbours bar the way.

ghost use Rattle.std.specs.Prelude.{◌≡◌, ◌+◌, ◌-◌, ◌<◌, ◌≤◌, ◌^◌, ℕ, List, Option, IfSome, length};
ghost use Rattle.qc_close.specs.Model.{MOST_TASKS, barred_frame, done_in, frame, IsOnRail};
ghost use Rattle.qc_close.specs.Bars.{IsAround, IsGreatest, IsIdle, IsKnown, done_by, high_spot, least_high, lie_in, low_spot, most_low, own_between, stretch, sum_along};
ghost use Rattle.qc_close.specs.Owns.{IsSmall};
ghost use Rattle.qc_close.specs.Spots.{AreBefore, AreRising, IsCount, spot_bay};
ghost use Rattle.qc_close.specs.declared.bars.TheConstants.{NEVER};

use crate::bars::{Bars, Table, joined, own_in};
use crate::frames::{Own, spent_by, together, travel_over};
use crate::spots::{Spots, spots_before};
use qc_model::{Direction, Instance, Turn, bays_up};
use qc_num::{Bay, Tick};

/// When a crane can have done some of its tasks, and its neighbours those that bar it from them.
fn both_done(inst: &Instance, turn: Turn, crane: u16, own: Option<Own>, bars: Bars) -> Tick
    requires crane { crane < length inst.now.cranes }
    requires own { IfSome own (IsSmall MOST_TASKS) }
    requires ticks { bars.ticks < 2 ^ 50 }
    requires soonest { bars.soonest ≤ NEVER }
    ensures { result ≡ done_by inst.now turn crane own bars }
{
    if bars.ticks == 0 {
        return 0;
    }
    match own {
        None => 0,
        Some(own) => {
            let way = travel_over(inst, bays_up(own.low, own.high));
            let other = bars.soonest + own.ticks + way;
            bars.ticks + spent_by(inst, turn, crane, Some(own)).gone.min(other)
        }
    }
}

/// Whether these tasks lie from one bay to another.
fn lie_in(tasks: Option<Own>, low: Bay, high: Bay) -> bool
    ensures { result ≡ lie_in tasks low high }
{
    match tasks {
        None => true,
        Some(tasks) => low <= tasks.low && tasks.high <= high,
    }
}

/// Where a crane stands between its neighbours: from which spot to which it may work, its own tasks, and
/// those that no crane has.
#[derive(Clone, Copy)]
pub(crate) struct Place {
    pub(crate) crane: u16,
    pub(crate) first: usize,
    pub(crate) last: usize,
    pub(crate) own: Own,
    pub(crate) left: Option<Own>,
}

/// The first spot of the stretch behind so many.
fn low_spot(way: Direction, place: Place, steps: usize) -> usize
    requires { place.first + steps ≤ place.last }
    ensures { result ≡ low_spot way place steps }
{
    match way {
        Direction::Up => place.first,
        Direction::Down => place.last - steps,
    }
}

/// The last spot of the stretch behind so many.
fn high_spot(way: Direction, place: Place, steps: usize) -> usize
    requires { place.first + steps ≤ place.last }
    ensures { result ≡ high_spot way place steps }
{
    match way {
        Direction::Up => place.first + steps,
        Direction::Down => place.last,
    }
}

/// When it can have done its tasks from one spot to another, and its neighbours those that bar it from
/// them.
fn done_in(
    inst: &Instance,
    turn: Turn,
    spots: &Spots,
    table: &Table,
    place: Place,
    low: usize,
    high: usize,
    own: Option<Own>,
) -> Tick
    requires known { (cranes : List (Option ℕ)) × IsKnown inst.now cranes spots.now table.now place
        × (own ≡ own_between inst.now cranes spots.now.of_task.items place.crane low (high + 1)) }
    requires low { low ≤ high }
    requires high { high < length spots.now.bays.items }
    ensures { (cranes : List (Option ℕ)) → IsKnown inst.now cranes spots.now table.now place
        → own ≡ own_between inst.now cranes spots.now.of_task.items place.crane low (high + 1)
        → result ≡ done_in inst.now turn cranes place.crane (spot_bay spots.now.bays.items low)
        (spot_bay spots.now.bays.items high) }
{
    if !lie_in(place.left, spots.bays[low], spots.bays[high]) {
        return 0;
    }
    let crane = place.crane as usize;
    let above = table.before[241 * (crane + 2) + spots.near_to[low] as usize];
    let below = table.from[241 * crane + spots.near_from[high] as usize];
    both_done(inst, turn, place.crane, own, joined(above, below))
}

/// What a crane's tasks come to before the spot behind a stretch, or from its first spot on.
pub(crate) fn sum_along(table: &Table, way: Direction, crane: u16, low: usize, high: usize) -> Bars
    requires before { length table.now.before.items ≡ 2410 }
    requires from { length table.now.from.items ≡ 2410 }
    requires crane { crane < 8 }
    requires low { low < 240 }
    requires high { high < 240 }
    ensures { result ≡ sum_along way table.now crane low high }
{
    let row = 241 * (crane as usize + 1);
    match way {
        Direction::Up => table.before[row + (high + 1)],
        Direction::Down => table.from[row + low],
    }
}

/// The least bay up to which a stretch from the first spot holds all that no crane has, and a task of its
/// own.
fn least_high(place: Place) -> Bay
    requires left { IfSome place.left (IsSmall MOST_TASKS) }
    requires own { IsSmall MOST_TASKS place.own }
    ensures bay { result ≡ least_high place }
    ensures near { IsOnRail result }
{
    match place.left {
        None => place.own.low,
        Some(left) => left.high.max(place.own.low),
    }
}

/// The greatest bay from which a stretch to the last spot holds them.
fn most_low(place: Place) -> Bay
    requires left { IfSome place.left (IsSmall MOST_TASKS) }
    requires own { IsSmall MOST_TASKS place.own }
    ensures bay { result ≡ most_low place }
    ensures near { IsOnRail result }
{
    match place.left {
        None => place.own.high,
        Some(left) => left.low.min(place.own.high),
    }
}

/// How many stretches there are, at the least, before one that holds them.
fn skipped(spots: &Spots, way: Direction, place: Place) -> usize
    requires rising { AreRising spots.now.bays.items }
    requires before { AreBefore spots.now.bays.items spots.now.before.items }
    requires order { place.first ≤ place.last }
    requires within { place.last < length spots.now.bays.items }
    requires left { IfSome place.left (IsSmall MOST_TASKS) }
    requires own { IsSmall MOST_TASKS place.own }
    ensures few { result ≤ place.last - place.first }
    ensures none { (steps : ℕ) → steps < result
        → IsIdle way place (spot_bay spots.now.bays.items (low_spot way place steps))
        (spot_bay spots.now.bays.items (high_spot way place steps)) }
{
    let most = place.last - place.first;
    match way {
        Direction::Up => {
            let before = spots_before(spots, least_high(place));
            before.saturating_sub(place.first).min(most)
        }
        Direction::Down => {
            let before = spots_before(spots, most_low(place));
            place.last.saturating_sub(before).min(most)
        }
    }
}

/// The greatest of a tick and of those by which it can have done what lies from the first spot to each,
/// or from each to the last.
fn greatest_done(
    inst: &Instance,
    turn: Turn,
    spots: &Spots,
    table: &Table,
    place: Place,
    way: Direction,
    gone: Tick,
) -> Tick
    requires known { (cranes : List (Option ℕ)) × IsKnown inst.now cranes spots.now table.now place }
    ensures { (cranes : List (Option ℕ)) → IsKnown inst.now cranes spots.now table.now place
        → IsGreatest (stretch inst.now turn cranes spots.now place way) place.first (place.last + 1)
        gone result }
{
    let mut greatest = gone;
    for step in skipped(spots, way, place)..place.last - place.first + 1 {
        let (low, high) = (low_spot(way, place, step), high_spot(way, place, step));
        let own = own_in(sum_along(table, way, place.crane, low, high));
        greatest = greatest.max(done_in(inst, turn, spots, table, place, low, high, own));
    }
    greatest
}

/// The place of a crane that has or may get these tasks.
fn place_of(spots: &Spots, crane: u16, own: Own, all: Own, left: Option<Own>) -> Place
    requires rising { AreRising spots.now.bays.items }
    requires before { AreBefore spots.now.bays.items spots.now.before.items }
    ensures crane { result.crane ≡ crane }
    ensures own { result.own ≡ own }
    ensures left { result.left ≡ left }
    ensures first { IsCount spots.now.bays.items all.low result.first }
    ensures last { IsCount spots.now.bays.items all.high result.last }
{
    Place {
        crane,
        first: spots_before(spots, all.low),
        last: spots_before(spots, all.high),
        own,
        left,
    }
}

/// What a crane has spent on its tasks and while neighbours bar the way.
pub(crate) fn barred_gone(
    inst: &Instance,
    turn: Turn,
    spots: &Spots,
    table: &Table,
    crane: u16,
    own: Option<Own>,
    left: Option<Own>,
    gone: Tick,
) -> Tick
    requires crane { crane < length inst.now.cranes }
    requires around { (cranes : List (Option ℕ)) × IsAround inst.now cranes spots.now table.now crane own left }
    ensures { (cranes : List (Option ℕ)) → IsAround inst.now cranes spots.now table.now crane own left
        → gone ≡ (frame inst.now turn cranes crane).gone
        → result ≡ (barred_frame inst.now turn cranes crane).gone }
{
    match own {
        None => gone,
        Some(mine) => match together(own, left) {
            None => gone,
            Some(all) => {
                let place = place_of(spots, crane, mine, all, left);
                let gone = greatest_done(inst, turn, spots, table, place, Direction::Up, gone);
                greatest_done(inst, turn, spots, table, place, Direction::Down, gone)
            }
        },
    }
}
