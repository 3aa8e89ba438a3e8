//! The greatest sums of so many numbers, one for each crane.

ghost use Rattle.std.specs.Prelude.{◌≡◌, ◌+◌, ◌-◌, ◌*◌, ◌<◌, ◌≤◌, ◌^◌, ℕ, IfSome, true, max, length, map, slice_index};
ghost use Rattle.qc_model.specs.Closed.{bays_to, fewest, most};
ghost use Rattle.qc_close.specs.Counts.{AreNear, AreSame, IsNear, apart};

use qc_model::{Direction, Frame, bays_up};
use qc_num::{Bay, Tick};

/// The greatest sums of none, of one, two and more of some numbers, up to all of them.
pub(crate) type Sums = [Tick; 9];

/// Takes one number more into the sums of so many, from that of all of them down to the first that it
/// doesn't raise: each number more adds no more than the one before it, so it raises none of fewer.
fn add_number(sums: &mut Sums, count: usize, number: Tick)
    requires count { count < 8 }
    requires number { number < 2 ^ 56 }
    requires sums { (n : ℕ) → n < 9 → slice_index sums.old n < 2 ^ 60 }
    requires falling { (n : ℕ) → n < count
        → slice_index sums.old n + slice_index sums.old (n + 2) ≤ 2 * slice_index sums.old (n + 1) }
    ensures none { slice_index sums.new 0 ≡ slice_index sums.old 0 }
    ensures some { (n : ℕ) → n ≤ count
        → slice_index sums.new (n + 1) ≡ max (number + slice_index sums.old n) (slice_index sums.old (n + 1)) }
    ensures others { (n : ℕ) → count + 1 < n → slice_index sums.new n ≡ slice_index sums.old n }
{
    for done in 0..count + 1 {
        let n = count - done;
        let sum = number + sums[n];
        if sum <= sums[n + 1] {
            return;
        }
        sums[n + 1] = sum;
    }
}

/// The bays that a crane must still go, up or down, to come to a bay.
pub(crate) fn bays_to(way: Direction, frame: &Frame, bay: u16) -> Tick
    requires { IsNear frame.now }
    ensures bays { result ≡ bays_to way frame.now bay }
    ensures bound { result < 2 ^ 18 }
{
    match way {
        Direction::Up => bays_up(frame.high, Bay::from(bay)),
        Direction::Down => bays_up(Bay::from(bay), frame.low),
    }
}

/// The ticks that are left to a crane until a tick, once it has gone so many bays more.
pub(crate) fn room(travel: Tick, tick: Tick, frame: &Frame, bays: Tick) -> Tick
    ensures { result ≡ tick - frame.now.gone - travel * bays }
{
    tick.saturating_sub(frame.gone)
        .saturating_sub(travel.saturating_mul(bays))
}

/// Fills in the greatest sums of the ticks that are left to the cranes at a bay.
pub(crate) fn most_rooms(
    sums: &mut Sums,
    travel: Tick,
    tick: Tick,
    frames: &[Frame],
    way: Direction,
    bay: u16,
)
    requires none { (n : ℕ) → slice_index sums.old n ≡ 0 }
    requires few { length frames.now ≤ 8 }
    requires near { AreNear frames.now }
    requires tick { tick < 2 ^ 56 }
    ensures { (n : ℕ) → n ≤ length frames.now → slice_index sums.new n
        ≡ most n (map (λ f. tick - f.gone - travel * bays_to way f bay) frames.now) }
{
    let count = frames.len();
    for done in 0..count {
        let frame = &frames[count - 1 - done];
        let ticks = room(travel, tick, frame, bays_to(way, frame, bay));
        add_number(sums, done, ticks);
    }
}

/// Fills in the greatest sums of the bays that the cranes go from one bay on to another.
fn most_legs(sums: &mut Sums, frames: &[Frame], way: Direction, from: u16, to: u16)
    requires none { (n : ℕ) → slice_index sums.old n ≡ 0 }
    requires few { length frames.now ≤ 8 }
    requires near { AreNear frames.now }
    ensures sums { (n : ℕ) → n ≤ length frames.now → slice_index sums.new n
        ≡ most n (map (λ f. bays_to way f to - bays_to way f from) frames.now) }
    ensures small { (n : ℕ) → n ≤ 8 → slice_index sums.new n ≤ 2 ^ 21 }
{
    let count = frames.len();
    for done in 0..count {
        let frame = &frames[count - 1 - done];
        let bays = bays_to(way, frame, to).saturating_sub(bays_to(way, frame, from));
        add_number(sums, done, bays);
    }
}

/// Whether a crane goes on from a bay: it must come to that first.
fn goes_on(way: Direction, frame: &Frame, from: u16) -> bool
    requires { IsNear frame.now }
    ensures { result ≡ true → (to : ℕ) → bays_to way frame.now to - bays_to way frame.now from ≡ apart way from to }
{
    match way {
        Direction::Up => frame.high <= Bay::from(from),
        Direction::Down => Bay::from(from) <= frame.low,
    }
}

/// The bays from one on to another.
fn apart(way: Direction, from: u16, to: u16) -> Tick
    ensures bays { result ≡ apart way from to }
    ensures bound { result < 2 ^ 18 }
{
    match way {
        Direction::Up => Tick::from(to.saturating_sub(from)),
        Direction::Down => Tick::from(from.saturating_sub(to)),
    }
}

/// The bays that each crane goes from one bay on to another, where all must come to the first.
fn same_leg(frames: &[Frame], way: Direction, from: u16, to: u16) -> Option<Tick>
    requires { AreNear frames.now }
    ensures same { IfSome result (λ bays.
        AreSame (λ f. bays_to way f to - bays_to way f from) bays frames.now) }
    ensures bound { IfSome result (λ bays. bays < 2 ^ 18) }
{
    for frame in frames {
        if !goes_on(way, frame, from) {
            return None;
        }
    }
    Some(apart(way, from, to))
}

/// So many times as many bays.
fn times(cranes: usize, bays: Tick) -> Tick
    requires cranes { cranes ≤ 8 }
    requires bays { bays < 2 ^ 18 }
    ensures bays { result ≡ cranes * bays }
    ensures bound { result < 2 ^ 24 }
{
    cranes as Tick * bays
}

/// The bays that so many cranes go together from one bay on to another, at the least.
pub(crate) fn leg(frames: &[Frame], way: Direction, cranes: usize, from: u16, to: u16) -> Tick
    requires few { length frames.now ≤ 8 }
    requires near { AreNear frames.now }
    requires cranes { cranes ≤ length frames.now }
    ensures leg { result ≡ fewest cranes (map (λ f. bays_to way f to - bays_to way f from) frames.now) }
    ensures bound { result < 2 ^ 24 }
{
    if let Some(bays) = same_leg(frames, way, from, to) {
        return times(cranes, bays);
    }
    let mut sums = [0; 9];
    most_legs(&mut sums, frames, way, from, to);
    let count = frames.len();
    sums[count] - sums[count - cranes]
}
