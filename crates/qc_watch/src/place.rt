//! Where a crane stands between two reports.

ghost use Rattle.std.specs.Prelude.{◌≡◌, ◌<◌, ◌≤◌, ◌*◌, ◌*ℤ◌, pos, unsigned_abs, MatchBool};
ghost use Rattle.qc_watch.specs.Breach.{IsAhead, IsShort};
ghost use Rattle.qc_watch.specs.Cursors.{IsCut, IsPlaceAt, IsSmall};
ghost use Rattle.qc_watch.specs.Moments.{at_report, on_line};
ghost use Rattle.qc_watch.specs.Numbers.{past_times};
ghost use Rattle.qc_watch.specs.Reports.{AreOfOne, IsInRange};

use crate::report::Report;
use qc_num::Tick;

/// A place on the rail as a fraction of bays: `above / below`.
#[derive(Clone, Copy)]
pub(crate) struct Place {
    pub(crate) above: i64,
    pub(crate) below: u64,
}

/// So many bays times so many ticks.
fn bays_over(bays: i64, ticks: Tick) -> i64
    requires bays { unsigned_abs bays ≤ 2000000 }
    requires ticks { ticks < past_times }
    ensures product { result ≡ bays *ℤ pos ticks }
    ensures small { unsigned_abs result ≤ 2000000000000000000 }
{
    bays * ticks as i64
}

/// The place of a report.
fn at_report(report: Report) -> Place
    requires { IsInRange report }
    ensures place { result ≡ at_report report 1 }
    ensures small { IsSmall result }
{
    Place {
        above: i64::from(report.place),
        below: 1,
    }
}

/// The place at a tick on the straight line from one report to a later one.
fn on_line(from: Report, to: Report, tick: Tick) -> Place
    requires first { IsInRange from }
    requires second { IsInRange to }
    requires behind { from.at < tick }
    requires ahead { tick < to.at }
    ensures place { result ≡ on_line from to tick 1 }
    ensures small { IsSmall result }
{
    let below = to.at - from.at;
    let start = bays_over(i64::from(from.place), below);
    let way = bays_over(i64::from(to.place) - i64::from(from.place), tick - from.at);
    Place {
        above: start + way,
        below,
    }
}

/// The place of a crane at a tick before which its first `next` reports are, and no other; none where it
/// isn't known there.
pub(crate) fn place_at(list: &[Report], next: usize, tick: Tick) -> Option<Place>
    requires list { AreOfOne list.now }
    requires cut { IsCut list.now next tick }
    ensures { IsPlaceAt list.now tick result }
{
    if next == list.len() {
        return None;
    }
    let to = list[next];
    if to.at == tick {
        return Some(at_report(to));
    }
    if next == 0 {
        return None;
    }
    Some(on_line(list[next - 1], to, tick))
}

/// The one number of a fraction times the other of another.
fn across(above: i64, below: u64) -> i128
    requires above { unsigned_abs above ≤ 4000000000000000000 }
    requires below { below < past_times }
    ensures product { result ≡ above *ℤ pos below }
    ensures small { unsigned_abs result ≤ 4000000000000000000000000000000 }
{
    i128::from(above) * i128::from(below)
}

/// So many bays over the product of two numbers of fractions.
fn room_over(bays: u64, first: u64, second: u64) -> u128
    requires bays { bays ≤ 16000 }
    requires first { first < past_times }
    requires second { second < past_times }
    ensures product { result ≡ 1 * bays * (first * second) }
    ensures small { result ≤ 16000000000000000000000000000 }
{
    u128::from(bays) * (u128::from(first) * u128::from(second))
}

/// Whether the second place is fewer than so many bays ahead of the first.
pub(crate) fn is_short(first: Place, second: Place, bays: u64) -> bool
    requires first { IsSmall first }
    requires second { IsSmall second }
    requires few { bays ≤ 16000 }
    ensures { MatchBool result (IsShort 1 bays first second) (IsAhead 1 bays first second) }
{
    let reached = across(second.above, first.below);
    let room = room_over(bays, first.below, second.below) as i128;
    reached < across(first.above, second.below) + room
}
