//! How many cranes must come to bays that have work left, counted from one end of the ship.

ghost use Rattle.std.specs.Prelude.{◌≡◌, ◌+◌, ◌<◌, ◌≤◌, ◌^◌, ℕ, List, ◌∷◌, IfSome, MatchOption, length, slice_index};
ghost use Rattle.qc_model.specs.Closed.{along};
ghost use Rattle.qc_close.specs.Tried.{tried};
ghost use Rattle.qc_close.specs.Counts.{AreNear, IsWalked, NoneSuffice, bay_behind, leg_from};

use crate::count::Count;
use crate::sums::{Sums, leg, most_rooms};
use qc_model::{Direction, Frame};
use qc_num::Tick;

/// A bay, and how many cranes come to it.
#[derive(Clone, Copy)]
pub(crate) struct Stop {
    pub(crate) bay: u16,
    pub(crate) cranes: usize,
}

/// What the least numbers of cranes come to that have the time for the bays counted so far.
#[derive(Clone, Copy)]
pub(crate) struct Walk {
    /// The bay that was counted last.
    pub(crate) last: Option<Stop>,
    /// The ticks of work at these bays.
    pub(crate) work: Tick,
    /// The bays that the cranes go along them.
    pub(crate) legs: Tick,
}

/// The least number of cranes that have so many ticks together, of none to count.
fn least_number(sums: &Sums, count: usize, load: Tick) -> Option<usize>
    requires { count ≤ 8 }
    ensures { MatchOption result
        ((n : ℕ) → n ≤ count → slice_index sums.now n < load)
        (λ n. (n ≤ count) × (load ≤ slice_index sums.now n)
        × ((m : ℕ) → m < n → slice_index sums.now m < load)) }
{
    for number in 0..count + 1 {
        if load <= sums[number] {
            return Some(number);
        }
    }
    None
}

/// The bays that cranes go from a bay on to the one that was counted last.
fn leg_from(frames: &[Frame], way: Direction, bay: u16, last: Option<Stop>) -> Tick
    requires few { length frames.now ≤ 8 }
    requires near { AreNear frames.now }
    requires last { IfSome last (λ s. s.cranes ≤ length frames.now) }
    ensures leg { result ≡ leg_from frames.now way bay last }
    ensures bound { result < 2 ^ 24 }
{
    match last {
        None => 0,
        Some(stop) => leg(frames, way, stop.cranes, bay, stop.bay),
    }
}

/// The bay at which cranes that go this way come behind so many, counted from the far end.
fn bay_behind(way: Direction, bays: u16, count: u16) -> u16
    requires { count < bays }
    ensures { result ≡ bay_behind way bays count }
{
    match way {
        Direction::Up => bays - count,
        Direction::Down => count + 1,
    }
}

impl Count<'_> {
    /// Counts one bay more, which cranes come to before the others.
    fn step(&self, tick: Tick, way: Direction, walk: Walk, bay: u16, work: Tick) -> Option<Walk>
        requires tick { tick < 2 ^ 56 }
        requires last { IfSome walk.last (λ s. s.cranes ≤ length self.now.frames.now) }
        requires work { walk.work + work < 2 ^ 60 }
        requires legs { walk.legs + 2 ^ 24 < 2 ^ 42 }
        ensures found { (xs : List ℕ) → work ≡ slice_index self.now.left.now bay
            → IsWalked (tried self.now tick) way xs walk
            → MatchOption result
            (NoneSuffice (tried self.now tick) way (bay ∷ xs))
            (IsWalked (tried self.now tick) way (bay ∷ xs)) }
        ensures last { IfSome result (λ w. IfSome w.last (λ s. s.cranes ≤ length self.now.frames.now)) }
        ensures work { IfSome result (λ w. w.work ≡ walk.work + work) }
        ensures legs { IfSome result (λ w. w.legs < walk.legs + 2 ^ 24) }
    {
        let work = walk.work + work;
        let legs = walk.legs + leg_from(self.frames, way, bay, walk.last);
        let mut sums = [0; 9];
        most_rooms(&mut sums, self.travel, tick, self.frames, way, bay);
        let cranes = least_number(&sums, self.frames.len(), work + self.travel * legs)?;
        Some(Walk {
            last: Some(Stop { bay, cranes }),
            work,
            legs,
        })
    }

    /// Counts all bays at which work is left; `None` where no numbers of cranes have the time.
    pub(crate) fn walk_along(&self, tick: Tick, way: Direction) -> Option<Walk>
        requires { tick < 2 ^ 56 }
        ensures found { MatchOption result
            (NoneSuffice (tried self.now tick) way (along (tried self.now tick) way))
            (IsWalked (tried self.now tick) way (along (tried self.now tick) way)) }
        ensures work { IfSome result (λ w. w.work ≤ 2 ^ 50) }
        ensures legs { IfSome result (λ w. w.legs ≤ 2 ^ 37) }
    {
        let bays = self.left.len() as u16 - 1;
        let mut walk = Walk {
            last: None,
            work: 0,
            legs: 0,
        };
        for count in 0..bays {
            let bay = bay_behind(way, bays, count);
            let work = self.left[bay as usize];
            if work > 0 {
                walk = self.step(tick, way, walk, bay, work)?;
            }
        }
        Some(walk)
    }
}
