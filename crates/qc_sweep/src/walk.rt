//! A walk from change to change, which takes up again from the best it came to.

use crate::dice::Dice;
use crate::late::Late;
use crate::shares::Shares;
use crate::tries::change;
use qc_model::MOST_CRANES;
use qc_num::{OutOfMemory, Tick};
use qc_part::UpwardView;
use std::alloc::Global;

/// Where a walk is.
#[derive(Drop)]
pub(crate) struct Walk {
    shares: Shares,
    dice: Dice,
    late: Late,
    /// What the shares cost: by how many ticks each crane is done behind the low one, together.
    cost: i64,
    low: i64,
    /// The cranes at which it takes up again.
    best: Vec<Option<u16>>,
    /// The earliest end that it looks out for or has seen, and the cranes with which it saw one.
    earliest: Tick,
    seen: Vec<Option<u16>>,
}

/// By how many ticks each crane is done behind the low one, together.
fn cost_of(ends: &[i64; MOST_CRANES as usize], low: i64) -> i64 {
    let mut cost: i64 = 0;
    for end in ends {
        cost = cost.saturating_add(end.saturating_sub(low).max(0));
    }
    cost
}

/// When the last crane is done.
fn latest(ends: &[i64; MOST_CRANES as usize]) -> Tick {
    let mut last: i64 = 0;
    for end in ends {
        last = last.max(*end);
    }
    last.max(0) as Tick
}

impl Walk {
    /// A walk that begins with these cranes. Nothing is expected to end before the low tick.
    pub(crate) fn open(
        alloc: Global,
        part: &UpwardView,
        cranes: &[Option<u16>],
        low: Tick,
    ) -> Result<Walk, OutOfMemory> {
        let shares = Shares::of(alloc, part, cranes)?;
        let low = i64::try_from(low).unwrap_or(0);
        let cost = cost_of(&shares.ends(), low);
        let mut best = Vec::new(alloc);
        shares.write(&mut best)?;
        Ok(Walk {
            shares,
            dice: Dice::new(),
            late: Late::new(cost),
            cost,
            low,
            best,
            earliest: 0,
            seen: Vec::new(alloc),
        })
    }

    /// The cranes at which it takes up again.
    pub(crate) fn into_best(self) -> Vec<Option<u16>> {
        let Walk { best, .. } = self;
        best
    }

    /// Takes up again at the best cranes, with room for what costs a little more.
    fn begin_again(&mut self) {
        let mut task: u16 = 0;
        for crane in self.best.as_slice() {
            if let Some(crane) = *crane {
                self.shares.put(task, crane);
            }
            task = task.saturating_add(1);
        }
        self.cost = cost_of(&self.shares.ends(), self.low);
        self.late = Late::new(self.cost.saturating_add(self.low / 1_000));
    }

    /// Keeps what a change came to, and writes it down where it ends earlier than what was seen.
    fn keep(&mut self, ends: &[i64; MOST_CRANES as usize], cost: i64) -> Result<(), OutOfMemory> {
        self.shares.keep();
        self.cost = cost;
        let end = latest(ends);
        if end < self.earliest {
            self.earliest = end;
            self.shares.write(&mut self.seen)?;
        }
        Ok(())
    }

    /// Keeps a change, where it is accepted, and takes it back otherwise. Most are refused by what each crane has to do
    /// alone, which is soon counted.
    fn decide(&mut self) -> Result<(), OutOfMemory> {
        let least = cost_of(&self.shares.ends_alone(), self.low);
        if !self.late.accepts(self.cost, least) {
            self.shares.take_back();
            return Ok(());
        }
        let ends = self.shares.ends();
        let cost = cost_of(&ends, self.low);
        if !self.late.accepts(self.cost, cost) {
            self.shares.take_back();
            return Ok(());
        }
        self.keep(&ends, cost)
    }

    /// Tries a change.
    fn step(&mut self) -> Result<(), OutOfMemory> {
        if !change(&mut self.shares, &mut self.dice)? {
            self.shares.take_back();
            return Ok(());
        }
        self.decide()?;
        self.late.note(self.cost);
        if self.late.is_idle() {
            self.begin_again();
        }
        Ok(())
    }

    /// Tries so many changes. Whether cranes were seen that are done before a tick, where pairs that are apart or
    /// ordered don't count.
    pub(crate) fn go(&mut self, tries: u32, end: Tick) -> Result<bool, OutOfMemory> {
        self.earliest = end;
        for _ in 0..tries {
            self.step()?;
        }
        Ok(self.earliest < end)
    }

    /// Those cranes.
    pub(crate) fn seen(&self) -> &[Option<u16>] {
        self.seen.as_slice()
    }

    /// From now on it takes up again at the cranes that were seen.
    pub(crate) fn take_seen(&mut self) -> Result<(), OutOfMemory> {
        self.best.clear();
        for crane in self.seen.as_slice() {
            self.best.push(*crane)?;
        }
        Ok(())
    }
}
