//! What is known of a search that runs, from the lines of its tree.
ghost use Rattle.std.specs.Prelude.{◌≡◌};

use qc_io::Outlook;
use qc_num::{Text, Tick, plain_number};
use std::fmt;

/// How many branchings are told at a time.
const STEP: u32 = 1_000;

/// The most digits that a number of 64 bits has.
const DIGITS: usize = 20;

/// What is known of a search that runs.
#[derive(Clone, Copy)]
pub(crate) struct ProgressLine {
    /// How many branchings it has made.
    branchings: u32,
    /// How many it may make: none while a plan is looked for with which a search begins.
    limit: u32,
    /// No later than this the best plan ends that is known.
    end: Option<Tick>,
    /// Before which end none of its plans is done.
    bound: Option<Tick>,
}

impl ProgressLine {
    /// What is known before the first branching.
    pub(crate) fn new(outlook: Outlook) -> ProgressLine
        ensures { result ≡ record {
          branchings = 0;
          limit = outlook.limit;
          end = outlook.end;
          bound = outlook.bound;
        } }
    {
        ProgressLine {
            branchings: 0,
            limit: outlook.limit,
            end: outlook.end,
            bound: outlook.bound,
        }
    }

    /// Sees a line of the tree. Whether it is worth telling: a thousandth branching, or a better plan. As long as its first
    /// round has branchings left, which has seven eighths of all at the least, a search closes a node by its work at the end
    /// of the best plan so far; where no node is closed so, a better plan doesn't show.
    pub(crate) fn sees(&mut self, line: &[u8]) -> bool {
        match line {
            [b'A' | b'O', b' ', ..] => {
                self.branchings = self.branchings.saturating_add(1);
                self.branchings % STEP == 0
            }
            [b'W', b' ', digits @ .., b'\n']
                if self.branchings < self.limit.saturating_sub(self.limit / 8) => {
                self.sees_end(plain_number(digits, DIGITS - 1))
            }
            _ => false,
        }
    }

    /// Takes an end where it is earlier than the one that is known, and answers whether it is.
    fn sees_end(&mut self, seen: Option<Tick>) -> bool {
        let is_earlier = match (seen, self.end) {
            (Some(end), Some(known)) => end < known,
            (Some(_), None) => true,
            (None, _) => false,
        };
        if is_earlier {
            self.end = seen;
        }
        is_earlier
    }
}

impl fmt::Display for ProgressLine {
    fn fmt<W: fmt::Write>(&self, f: &mut fmt::Formatter<W>) -> fmt::Result {
        let end = Named("end", self.end);
        let bound = Named("bound", self.bound);
        if self.limit == 0 {
            return write!(f, "first plan{end}{bound}");
        }
        let branchings = Grouped(u64::from(self.branchings));
        write!(f, "{branchings} branchings{end}{bound}")
    }
}

/// A number behind its name and a comma, or nothing.
#[derive(Clone, Copy)]
struct Named(&'static str, Option<Tick>);

impl fmt::Display for Named {
    fn fmt<W: fmt::Write>(&self, f: &mut fmt::Formatter<W>) -> fmt::Result {
        let name = self.0;
        match self.1 {
            Some(number) => {
                let number = Grouped(number);
                write!(f, ", {name} {number}")
            }
            None => Ok(()),
        }
    }
}

/// A number with a comma between its thousands.
#[derive(Clone, Copy)]
pub(crate) struct Grouped(pub(crate) u64);

impl fmt::Display for Grouped {
    fn fmt<W: fmt::Write>(&self, f: &mut fmt::Formatter<W>) -> fmt::Result {
        let mut digits = Text::<DIGITS>::new();
        digits.push_number(self.0);
        let digits = digits.as_bytes();
        for (at, digit) in digits.iter().enumerate() {
            if 0 < at && digits.len().saturating_sub(at) % 3 == 0 {
                f.write_char(',')?;
            }
            f.write_char(char::from(*digit))?;
        }
        Ok(())
    }
}

#[cfg(test)]
mod tests {
    use super::*;

    /// What is told once these lines were seen, and whether the last one was worth it.
    fn is_told<R: AllocGlobal>(rt: &R, sight: ProgressLine, want: &str) -> bool {
        match format!(in rt.alloc(); "{sight}") {
            Ok(told) => told.as_str() == want,
            Err(_) => false,
        }
    }

    #[test]
    fn tells_a_thousandth_branching_and_a_better_plan(rt: HostRuntime) {
        let mut sight = ProgressLine::new(Outlook {
            limit: 13_754,
            end: Some(27_151),
            bound: Some(26_454),
        });
        assert!(rt; is_told(&rt, sight, "0 branchings, end 27,151, bound 26,454"));
        for number in 1..12_034 {
            let is_worth = sight.sees(b"A 3\n");
            assert!(rt; is_worth == (number % 1_000 == 0));
        }
        assert!(rt; !sight.sees(b"P 1 2 3\n"));
        assert!(rt; !sight.sees(b"W 27151\n"));
        assert!(rt; sight.sees(b"W 27150\n"));
        assert!(rt; !sight.sees(b"O 3 17\n"));
        assert!(rt; is_told(&rt, sight, "12,034 branchings, end 27,150, bound 26,454"));
        assert!(rt; !sight.sees(b"O 17 18\n"));
        assert!(rt; !sight.sees(b"W 26999\n"));
        assert!(rt; is_told(&rt, sight, "12,035 branchings, end 27,150, bound 26,454"));
    }

    #[test]
    fn tells_what_the_first_plan_comes_to(rt: HostRuntime) {
        let mut outlook = Outlook {
            limit: 0,
            end: None,
            bound: Some(26_454),
        };
        assert!(rt; is_told(&rt, ProgressLine::new(outlook), "first plan, bound 26,454"));
        outlook.end = Some(28_100);
        assert!(rt;
            is_told(
                &rt,
                ProgressLine::new(outlook),
                "first plan, end 28,100, bound 26,454"
            )
        );
    }

    #[test]
    fn tells_what_it_knows(rt: HostRuntime) {
        let mut sight = ProgressLine::new(Outlook {
            limit: 5,
            end: None,
            bound: None,
        });
        assert!(rt; is_told(&rt, sight, "0 branchings"));
        assert!(rt; sight.sees(b"W 999\n"));
        assert!(rt; is_told(&rt, sight, "0 branchings, end 999"));
        assert!(rt; !sight.sees(b"W 1000\n"));
        assert!(rt; !sight.sees(b"end 0 999\n"));
        assert!(rt; is_told(&rt, sight, "0 branchings, end 999"));
    }
}
