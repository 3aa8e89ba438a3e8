//! The reports of all cranes.

ghost use Rattle.std.specs.Prelude.{◌≡◌, ◌<◌, length, map};
ghost use Rattle.qc_watch.specs.Reports.{AreReports, count_of, reports_of};

use crate::report::Report;
use std::marker::Model;

/// The reports of each crane of a ship, in order of time: at most 200,000 of all cranes together.
#[derive(Drop)]
pub struct Reports {
    lists: Vec<Vec<Report>>,
    count: u32,
}

impl Model for Reports {
    ghost use Rattle.std.specs.Prelude.{◌≡◌, List, map};
    ghost use Rattle.qc_watch.specs.declared.report.Report.{Report};
    ghost use Rattle.qc_watch.specs.Reports.{AreReports, count_of};

    ghost Value = { List (List Report) };

    ghost view = { λ r. map (λ list. list.items) r.lists.items };

    ghost invariant = { λ r. AreReports (map (λ list. list.items) r.lists.items)
        × (r.count ≡ count_of (map (λ list. list.items) r.lists.items)) };
}

impl Reports {
    /// Reports of these lists, which are so many together.
    pub(crate) fn of_lists(lists: Vec<Vec<Report>>, count: u32) -> Reports
        requires reports { AreReports (map (λ list. list.items) lists.items) }
        requires count { count ≡ count_of (map (λ list. list.items) lists.items) }
        ensures { result ≡ map (λ list. list.items) lists.items }
    {
        Reports { lists, count }
    }

    /// How many cranes there are.
    pub(crate) fn cranes(&self) -> u16
        ensures cranes { result ≡ length self.now }
        ensures reports { AreReports self.now }
    {
        self.lists.len() as u16
    }

    /// The reports of a crane, counted from 0, in order of time.
    pub fn of(&self, crane: u16) -> &[Report]
        requires { crane < length self.now }
        ensures list { result.now ≡ reports_of self.now crane }
        ensures reports { AreReports self.now }
    {
        self.lists[crane as usize].as_slice()
    }

    /// The number of all reports.
    pub fn count(&self) -> u32
        ensures { result ≡ count_of self.now }
    {
        self.count
    }
}
