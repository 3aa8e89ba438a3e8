//! What is told of runs that are worked one after another.

use crate::sight::Grouped;
use std::fmt;

/// How many runs are done where it is first told; at the limits of a ship they take some two seconds.
const FIRST: u32 = 2_000;

/// How many runs are told at a time.
const STEP: u32 = 1_000;

/// How many runs are done, of how many.
#[derive(Clone, Copy)]
pub(crate) struct RunsLine {
    pub(crate) done: u32,
    pub(crate) runs: u32,
}

impl RunsLine {
    /// Whether it is worth telling: a thousandth run, from the second thousand on, while some are left.
    pub(crate) fn is_worth(self) -> bool {
        FIRST <= self.done && !self.is_last() && self.done % STEP == 0
    }

    /// Whether no run is left.
    pub(crate) fn is_last(self) -> bool {
        self.runs <= self.done
    }
}

impl fmt::Display for RunsLine {
    fn fmt<W: fmt::Write>(&self, f: &mut fmt::Formatter<W>) -> fmt::Result {
        let done = Grouped(u64::from(self.done));
        let runs = Grouped(u64::from(self.runs));
        write!(f, "{done} of {runs} runs")
    }
}

#[cfg(test)]
mod tests {
    use super::*;

    #[test]
    fn tells_each_thousandth_run_from_the_second_on_but_not_the_last(rt: HostRuntime) {
        for done in 1..5_001 {
            let told = RunsLine { done, runs: 5_000 };
            let is_due = done == 2_000 || done == 3_000 || done == 4_000;
            assert!(rt; told.is_worth() == is_due);
            assert!(rt; told.is_last() == (done == 5_000));
        }
    }

    #[test]
    fn tells_how_many_of_how_many(rt: HostRuntime) {
        let told = RunsLine {
            done: 2_000,
            runs: 10_000,
        };
        let is_told = match format!(in rt.alloc(); "{told}") {
            Ok(line) => line.as_str() == "2,000 of 10,000 runs",
            Err(_) => false,
        };
        assert!(rt; is_told);
    }
}
