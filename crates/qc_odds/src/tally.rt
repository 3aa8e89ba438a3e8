//! The ends of many runs, and what they say.

ghost use Rattle.std.specs.Prelude.{◌≡◌, ◌+◌, ◌<◌, ◌≤◌, ◌^◌, [], ◌∷◌, ◌++◌, IfOk, length, sum};
ghost use Rattle.std.specs.Ordering.{nat_cmp};
ghost use Rattle.std.specs.Int.{div_ceil};
ghost use Rattle.std.specs.List.Sorted.{IsPermutation, IsSorted};
ghost use Rattle.qc_odds.specs.Tally.{chance, done_at, ends_by};

use qc_num::{OutOfMemory, Tick};
use std::alloc::Global;
use std::marker::Model;

/// The ends of runs. Memory for all of them is taken in `open` alone.
#[derive(Drop)]
pub struct Tally {
    ends: Vec<Tick>,
}

impl Model for Tally {
    ghost use Rattle.std.specs.Vec.{vec_capacity};
    ghost use Rattle.qc_odds.specs.Tally.{TallyView};

    ghost Value = { TallyView };

    ghost view = { λ tally. record { ends = tally.ends.items; room = vec_capacity tally.ends } };
}

impl Tally {
    /// No run is over, and there is room for none.
    pub(crate) fn empty(alloc: Global) -> Tally {
        Tally {
            ends: Vec::new(alloc),
        }
    }

    /// No run is over; there is room for so many.
    pub fn open(alloc: Global, runs: u16) -> Result<Tally, OutOfMemory>
        ensures ends { IfOk result (λ tally. tally.ends ≡ []) }
        ensures room { IfOk result (λ tally. tally.room ≡ runs) }
    {
        let ends = Vec::with_capacity(alloc, runs as usize)?;
        Ok(Tally { ends })
    }

    /// A run ended at this tick.
    pub fn add(&mut self, end: Tick)
        requires { length self.old.ends < self.old.room }
        ensures ends { self.new.ends ≡ self.old.ends ++ end ∷ [] }
        ensures room { self.new.room ≡ self.old.room }
    {
        self.ends.push_reserved(end);
    }

    /// How many runs are over.
    pub fn runs(&self) -> u16
        requires { length self.now.ends ≤ 10000 }
        ensures { result ≡ length self.now.ends }
    {
        self.ends.len() as u16
    }

    /// The mean of the ends, rounded up.
    pub fn mean(&self) -> Tick
        requires some { 1 ≤ length self.now.ends }
        requires small { sum self.now.ends < 2 ^ 64 }
        ensures { result ≡ div_ceil (sum self.now.ends) (length self.now.ends) }
    {
        let all: u64 = self.ends.as_slice().iter().sum();
        all.div_ceil(self.ends.len() as u64)
    }

    /// The chance, in thousandths rounded down, that a run is over by a tick.
    pub fn kept_by(&self, tick: Tick) -> u16
        requires some { 1 ≤ length self.now.ends }
        requires few { length self.now.ends ≤ 10000 }
        ensures { result ≡ chance (ends_by self.now.ends tick) (length self.now.ends) }
    {
        let kept = count_by(self.ends.as_slice(), tick);
        (1000 * kept / self.ends.len()) as u16
    }

    /// Sorts the ends, the earliest first.
    pub fn sort(&mut self)
        ensures same { IsPermutation self.old.ends self.new.ends }
        ensures sorted { IsSorted nat_cmp self.new.ends }
    {
        self.ends.as_mut_slice().sort_unstable();
    }

    /// The first tick by which so many hundredths of the runs are over, their number rounded up, where the ends are sorted.
    pub fn done_by(&self, percent: u16) -> Tick
        requires some { 1 ≤ length self.now.ends }
        requires few { length self.now.ends ≤ 10000 }
        requires least { 1 ≤ percent }
        requires most { percent ≤ 100 }
        ensures { result ≡ done_at self.now.ends percent }
    {
        let count = (percent as usize * self.ends.len()).div_ceil(100);
        self.ends.as_slice()[count - 1]
    }
}

/// How many of these ends come by a tick.
fn count_by(ends: &[Tick], tick: Tick) -> usize
    ensures count { result ≡ ends_by ends.now tick }
    ensures few { result ≤ length ends.now }
{
    ends.iter().filter(|end| **end <= tick).count()
}
